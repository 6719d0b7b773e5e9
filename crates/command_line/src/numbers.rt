//! Numbers and lists of names in words.

ghost use Rattle.std.specs.Prelude.{◌≡◌, IfOk, Some, None, if◌then◌else◌};
ghost use Rattle.std.specs.List.{list_all};
ghost use Rattle.std.specs.Str.Parse.{digits_value};
ghost use Rattle.flow_lists.specs.Lists.{are_names};
ghost use Rattle.command_line.specs.Commands.{is_digit, is_number, made_number, number_to};
ghost use Rattle.command_line.specs.Reading.{Reads, observer_by, turns_by, word_seen};

use crate::commands::WordsFault;
use flow_lists::are_names;
use std::alloc::{AllocError, Global};

/// The most turns of a run.
const MOST_TURNS: u64 = 1_000_000_000;

/// The turns of a run that names none.
const DEFAULT_TURNS: u64 = 1_000_000;

/// The most scripts that are made.
const MOST_MADE: u64 = 10_000;

/// The most digits of a number.
const MOST_DIGITS: usize = 10;

fn is_digit(byte: u8) -> bool
    ensures { result ≡ is_digit byte }
{
    matches!(byte, 0x30..=0x39)
}

fn are_digits(bytes: &[u8]) -> bool
    ensures { result ≡ list_all is_digit bytes.now }
{
    bytes.iter().all(|byte| is_digit(*byte))
}

fn is_number(bytes: &[u8]) -> bool
    ensures { result ≡ is_number bytes.now }
{
    !bytes.is_empty() && bytes.len() <= MOST_DIGITS && are_digits(bytes)
}

/// The number of 1 to 10 decimal digits.
fn number(word: &str) -> Option<u64>
    ensures { result ≡ (if is_number word.now then Some (digits_value 10 word.now) else None) }
{
    if !is_number(word.as_bytes()) {
        return None;
    }
    match word.parse::<u64>() {
        Ok(number) => Some(number),
        Err(_) => None,
    }
}

/// The number of 1 to 10 decimal digits, if it is from 1 to a bound.
#[tactic(auto, unfolding(crate::specs::Commands::number_to))]
fn number_to(most: u64, word: &str) -> Option<u64>
    ensures { result ≡ number_to most word.now }
{
    match number(word) {
        Some(number) if 1 <= number && number <= most => Some(number),
        _ => None,
    }
}

/// The turns that an option states, or the default.
pub(crate) fn turns_in(word: Option<&str>) -> Option<u64>
    ensures { result ≡ turns_by (word_seen word.entry) }
{
    match word {
        None => Some(DEFAULT_TURNS),
        Some(word) => number_to(MOST_TURNS, word),
    }
}

/// How many scripts a word states.
pub(crate) fn made_number(word: &str) -> Option<u32>
    ensures { result ≡ made_number (Some word.now) }
{
    match number_to(MOST_MADE, word) {
        Some(number) => Some(number as u32),
        None => None,
    }
}

/// The bytes as units.
fn units_of(alloc: Global, bytes: &[u8]) -> Result<Vec<u16>, AllocError>
    ensures { IfOk result (λ units. units.items ≡ bytes.now) }
{
    let mut units = Vec::new(alloc);
    for byte in bytes {
        units.push(u16::from(*byte))?;
    }
    Ok(units)
}

/// Whether the word is a list of names.
pub(crate) fn is_list(alloc: Global, word: &str) -> Result<bool, AllocError>
    ensures { IfOk result (λ is. is ≡ are_names word.now) }
{
    let units = units_of(alloc, word.as_bytes())?;
    Ok(are_names(&units))
}

/// The observer that an option states, if it is there.
pub(crate) fn observer_in<'a>(
    alloc: Global,
    word: Option<&'a str>,
) -> Result<Option<&'a str>, WordsFault>
    ensures { Reads word_seen result (observer_by (word_seen word.entry)) }
{
    let Some(list) = word else {
        return Ok(None);
    };
    match is_list(alloc, list) {
        Ok(true) => Ok(Some(list)),
        Ok(false) => Err(WordsFault::Usage),
        Err(_) => Err(WordsFault::OutOfMemory),
    }
}
