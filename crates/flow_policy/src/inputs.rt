//! Inputs.

ghost use Rattle.std.specs.Prelude.{◌≡◌, ◌<◌, [], ◌∷◌, ◌++◌, length, replicate, slice_get, slice_set, IfOk, OnOk, ◌+◌, ◌^◌, OnSome};
ghost use Rattle.std.specs.List.{position, position_or_len, before_first, after_first};
ghost use Rattle.std.specs.Option.{option_copied};
ghost use Rattle.origin_labels.specs.Names.{same_name};
ghost use Rattle.flow_policy.specs.Words.{is_space};
ghost use Rattle.flow_policy.specs.Inputs.{Given, inputs_of, given_on, IsGivenTo};
ghost use Rattle.flow_policy.specs.Answers.{GivesInputs, ReadsLine};

use crate::fault::{InputFault, InputKind};
use crate::lines::next_line;
use crate::policy::{Channel, Policy};
use flow_text::{OutOfMemory, Text, TextFault};
use std::alloc::Global;
use std::marker::Model;

/// For each input channel of a policy its lines, in their order.
#[derive(Drop)]
pub struct Inputs {
    channels: Vec<Vec<Text>>,
}

impl Model for Inputs {
    ghost use Rattle.std.specs.Prelude.{map};
    ghost use Rattle.flow_policy.specs.Inputs.{Given};

    ghost Value = { Given };

    ghost view = { λ inputs. map (λ lines. lines.items) inputs.channels.items };
}

impl Inputs {
    // No lines on so many channels.
    fn new(alloc: Global, channels: usize) -> Result<Inputs, OutOfMemory>
        ensures { IfOk result (λ inputs. inputs ≡ replicate channels []) }
    {
        let mut lists = Vec::new(alloc);
        for _ in 0..channels {
            lists.push(Vec::new(alloc))?;
        }
        Ok(Inputs { channels: lists })
    }

    // Adds a line to a channel.
    fn add(&mut self, channel: usize, text: Text) -> Result<(), OutOfMemory>
        requires { channel < length self.old }
        ensures { OnOk result (self.new ≡ slice_set self.old channel (given_on self.old channel ++ text ∷ [])) }
    {
        self.channels[channel].push(text)?;
        Ok(())
    }

    /// The lines of a channel.
    pub(crate) fn lines(&self, channel: usize) -> &[Text]
        requires { channel < length self.now }
        ensures { result.now ≡ given_on self.now channel }
    {
        &self.channels[channel]
    }

    /// The line of a channel with a number, from 0.
    pub fn line(&self, channel: usize, n: usize) -> Option<&Text>
        requires { channel < length self.now }
        ensures line { option_copied result ≡ slice_get (given_on self.now channel) n }
        ensures countable { OnSome result (n + 1 < 2 ^ 64) }
    {
        self.channels[channel].get(n)
    }
}

/// Reads the input of a policy: its first bad line, where there is one, or else each channel's lines.
pub fn read_inputs(alloc: Global, policy: &Policy, bytes: &[u8]) -> Result<Inputs, InputFault>
    ensures given { GivesInputs result (inputs_of policy.now.inputs bytes.now) }
    ensures formed { IfOk result (λ inputs. IsGivenTo policy.now inputs) }
{
    let channels = policy.inputs();
    let mut inputs = Inputs::new(alloc, channels.len())?;
    let mut rest = bytes;
    let mut number = 0;
    while let Some((line, behind)) = next_line(rest) {
        number += 1;
        let (channel, text) = read_line(alloc, channels, line, number)?;
        inputs.add(channel, text)?;
        rest = behind;
    }
    Ok(inputs)
}

// The number of a line's channel, and the line's text.
fn read_line(
    alloc: Global,
    channels: &[Channel],
    line: &[u8],
    number: usize,
) -> Result<(usize, Text), InputFault>
    ensures { ReadsLine result number channels.now line.now }
{
    let text = match Text::from_utf8(alloc, line) {
        Ok(text) => text,
        Err(TextFault::BadUtf8 { .. }) => {
            return Err(InputFault::Bad {
                line: number,
                kind: InputKind::Utf8,
            });
        }
        Err(TextFault::OutOfMemory) => return Err(InputFault::OutOfMemory),
    };
    let (name, text) = parted(alloc, &text)?;
    match place_of_channel(&name, channels) {
        Some(channel) => Ok((channel, text)),
        None => Err(InputFault::Bad {
            line: number,
            kind: InputKind::Channel,
        }),
    }
}

// What stands before and behind the first space.
fn parted(alloc: Global, text: &Text) -> Result<(Text, Text), OutOfMemory>
    ensures before { IfOk result (λ p. p.0 ≡ before_first is_space text.now) }
    ensures after { IfOk result (λ p. p.1 ≡ after_first is_space text.now) }
{
    let at = place_of_space(text);
    let end = text.len();
    let behind = if at < end { at + 1 } else { end };
    let name = text.slice(alloc, 0, at)?;
    let rest = text.slice(alloc, behind, end)?;
    Ok((name, rest))
}

// Where the first space stands, or the length where none does.
fn place_of_space(text: &Text) -> usize
    ensures { result ≡ position_or_len is_space text.now }
{
    let units = text.units();
    units
        .iter()
        .position(|unit| *unit == b' ' as u16)
        .unwrap_or(units.len())
}

fn place_of_channel(name: &Text, channels: &[Channel]) -> Option<usize>
    ensures { result ≡ position (λ c. same_name c.name name.now) channels.now }
{
    channels.iter().position(|channel| channel.name == *name)
}
