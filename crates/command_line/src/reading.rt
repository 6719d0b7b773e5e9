//! From words to a command.

ghost use Rattle.std.specs.Prelude.{◌≡◌, ◌↔◌};
ghost use Rattle.clap.specs.Walk.{first_of, rows_of};
ghost use Rattle.clap.specs.Matches.{found_of};
ghost use Rattle.clap.specs.Simple.{subcommand_rows_of};
ghost use Rattle.command_line.specs.Commands.{command_of};
ghost use Rattle.command_line.specs.Reading.{Parses, Reads, command_at, command_read, number_read, pair_read, pair_seen, run_read, run_seen, seen, texts_of, word_seen};

use crate::arguments::line_command;
use crate::commands::{Command, PairWords, RunWords, WordsFault};
use crate::numbers::{is_list, made_number, observer_in, turns_in};
use clap::ArgMatches;
use clap::error::ErrorKind;
use std::alloc::Global;

/// The word that was found under an id.
fn word_in<'a>(matches: &ArgMatches<'a>, id: &str) -> Option<&'a str>
    ensures { word_seen result ≡ first_of id.now (rows_of (found_of matches.now)) }
{
    matches.get_str(id)
}

#[tactic(auto, unfolding(crate::specs::Reading::run_read))]
fn run_in<'a>(alloc: Global, matches: &ArgMatches<'a>) -> Result<RunWords<'a>, WordsFault>
    ensures { Reads run_seen result (run_read (rows_of (found_of matches.now))) }
{
    let Some(script) = word_in(matches, "script") else {
        return Err(WordsFault::Usage);
    };
    let Some(policy) = word_in(matches, "policy") else {
        return Err(WordsFault::Usage);
    };
    let Some(input) = word_in(matches, "input") else {
        return Err(WordsFault::Usage);
    };
    let Some(turns) = turns_in(word_in(matches, "turns")) else {
        return Err(WordsFault::Usage);
    };
    match observer_in(alloc, word_in(matches, "observer")) {
        Ok(observer) => Ok(RunWords {
            script,
            policy,
            input,
            turns,
            observer,
        }),
        Err(fault) => Err(fault),
    }
}

#[tactic(auto, unfolding(crate::specs::Reading::pair_read))]
fn pair_in<'a>(alloc: Global, matches: &ArgMatches<'a>) -> Result<PairWords<'a>, WordsFault>
    ensures { Reads pair_seen result (pair_read (rows_of (found_of matches.now))) }
{
    let Some(script) = word_in(matches, "script") else {
        return Err(WordsFault::Usage);
    };
    let Some(policy) = word_in(matches, "policy") else {
        return Err(WordsFault::Usage);
    };
    let Some(first) = word_in(matches, "first") else {
        return Err(WordsFault::Usage);
    };
    let Some(second) = word_in(matches, "second") else {
        return Err(WordsFault::Usage);
    };
    let Some(observer) = word_in(matches, "view") else {
        return Err(WordsFault::Usage);
    };
    let Some(turns) = turns_in(word_in(matches, "turns")) else {
        return Err(WordsFault::Usage);
    };
    match is_list(alloc, observer) {
        Ok(true) => Ok(PairWords {
            script,
            policy,
            first,
            second,
            observer,
            turns,
        }),
        Ok(false) => Err(WordsFault::Usage),
        Err(_) => Err(WordsFault::OutOfMemory),
    }
}

/// The number that the one word states.
#[tactic(auto, unfolding(crate::specs::Reading::number_read))]
fn number_in<'a>(matches: &ArgMatches<'a>) -> Option<u32>
    ensures { result ≡ number_read (rows_of (found_of matches.now)) }
{
    match word_in(matches, "word") {
        Some(word) => made_number(word),
        None => None,
    }
}

/// The command of a command word, by what was found behind it.
#[tactic(auto, unfolding(crate::specs::Reading::command_read))]
fn command_in<'a>(
    alloc: Global,
    name: &str,
    matches: &ArgMatches<'a>,
) -> Result<Command<'a>, WordsFault>
    ensures { Reads seen result (command_read name.now (rows_of (found_of matches.now))) }
{
    if name == "run" {
        match run_in(alloc, matches) {
            Ok(run) => Ok(Command::Run(run)),
            Err(fault) => Err(fault),
        }
    } else if name == "check" {
        match word_in(matches, "word") {
            Some(script) => Ok(Command::Check { script }),
            None => Err(WordsFault::Usage),
        }
    } else if name == "pair" {
        match pair_in(alloc, matches) {
            Ok(pair) => Ok(Command::Pair(pair)),
            Err(fault) => Err(fault),
        }
    } else if name == "make" {
        match number_in(matches) {
            Some(number) => Ok(Command::Make { number }),
            None => Err(WordsFault::Usage),
        }
    } else if name == "trial" {
        match number_in(matches) {
            Some(number) => Ok(Command::Trial { number }),
            None => Err(WordsFault::Usage),
        }
    } else {
        Err(WordsFault::Usage)
    }
}

/// What `clap` finds in the words.
fn parsed<'a>(alloc: Global, words: &'a [String]) -> Result<ArgMatches<'a>, WordsFault>
    ensures { Parses (texts_of words.entry.now) result }
{
    let Ok(command) = line_command(alloc) else {
        return Err(WordsFault::OutOfMemory);
    };
    match command.try_get_matches_from(words) {
        Ok(matches) => Ok(matches),
        Err(error) => Err(fault_of(error.kind())),
    }
}

/// The fault that a kind of error is.
fn fault_of(kind: ErrorKind) -> WordsFault
    ensures { (result ≡ WordsFault.OutOfMemory) ↔ (kind ≡ ErrorKind.OutOfMemory) }
{
    match kind {
        ErrorKind::OutOfMemory => WordsFault::OutOfMemory,
        _ => WordsFault::Usage,
    }
}

/// The command of the subcommand that was found.
fn command_from<'a>(alloc: Global, matches: &ArgMatches<'a>) -> Result<Command<'a>, WordsFault>
    ensures { Reads seen result (command_at (subcommand_rows_of matches.now)) }
{
    match matches.subcommand() {
        Some((name, matches)) => command_in(alloc, name, matches),
        None => Err(WordsFault::Usage),
    }
}

/// Reads the words behind the program's own name.
pub fn read_words<'a>(alloc: Global, words: &'a [String]) -> Result<Command<'a>, WordsFault>
    ensures { Reads seen result (command_of (texts_of words.entry.now)) }
{
    match parsed(alloc, words) {
        Ok(matches) => command_from(alloc, &matches),
        Err(fault) => Err(fault),
    }
}
