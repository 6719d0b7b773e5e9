//! Policies.

ghost use Rattle.std.specs.Prelude.{◌≡◌, ◌≤◌, length};
ghost use Rattle.flow_policy.specs.Words.{words_of};
ghost use Rattle.flow_policy.specs.Policies.{policy_of, IsPolicy, no_tables, table_room, after_words, after_origin, after_in, after_out, with_new_origin, with_new_channel, has_channel};
ghost use Rattle.flow_policy.specs.Answers.{GivesPolicy, LeavesTables, GivesOrigin, GivesChannel};

use crate::fault::{LineFault, PolicyFault, PolicyKind};
use crate::lines::next_line;
use crate::lists::{TABLE_ROOM, label_in};
use crate::names::text_of;
use crate::words::{next_word, only_two, only_word};
use flow_lists::{are_names, is_name};
use flow_text::Text;
use origin_labels::{OriginList, Origins};
use std::alloc::Global;
use std::marker::Model;

/// A channel with its label.
#[derive(Drop)]
pub struct Channel {
    pub name: Text,
    pub label: OriginList,
}

/// Origins, input channels and output channels, each in the order of their lines.
#[derive(Drop)]
pub struct Policy {
    origins: Origins,
    inputs: Vec<Channel>,
    outputs: Vec<Channel>,
}

impl Model for Policy {
    ghost use Rattle.flow_policy.specs.Policies.{Tables, IsPolicy};

    ghost Value = { Tables };

    ghost view = { λ p. record { origins = p.origins; inputs = p.inputs.items; outputs = p.outputs.items } };

    ghost invariant = { λ p. IsPolicy (record { origins = p.origins; inputs = p.inputs.items; outputs = p.outputs.items }) };
}

impl Policy {
    /// No declarations. It takes no memory.
    fn new(alloc: Global) -> Policy
        ensures { result ≡ no_tables }
    {
        Policy {
            origins: Origins::new(alloc),
            inputs: Vec::new(alloc),
            outputs: Vec::new(alloc),
        }
    }

    /// The declared origins, each with its number.
    pub fn origins(&self) -> &Origins
        ensures origins { result.now ≡ self.now.origins }
        ensures formed { IsPolicy self.now }
    {
        &self.origins
    }

    /// The input channels.
    pub fn inputs(&self) -> &[Channel]
        ensures inputs { result.now ≡ self.now.inputs }
        ensures formed { IsPolicy self.now }
    {
        &self.inputs
    }

    /// The output channels.
    pub fn outputs(&self) -> &[Channel]
        ensures outputs { result.now ≡ self.now.outputs }
        ensures formed { IsPolicy self.now }
    {
        &self.outputs
    }

    // Takes over what a line declares.
    fn declare(&mut self, alloc: Global, line: &[u8]) -> Result<(), LineFault>
        ensures { LeavesTables result self.new (after_words self.old (words_of line.now)) }
    {
        let Some((keyword, words)) = next_word(line) else {
            return Ok(());
        };
        if keyword[0] == b'#' {
            return Ok(());
        }
        if keyword == b"origin".as_slice() {
            self.declare_origin(alloc, words)
        } else if keyword == b"in".as_slice() {
            self.declare_input(alloc, words)
        } else if keyword == b"out".as_slice() {
            self.declare_output(alloc, words)
        } else {
            Err(LineFault::Bad(PolicyKind::Keyword))
        }
    }

    fn declare_origin(&mut self, alloc: Global, words: &[u8]) -> Result<(), LineFault>
        ensures { LeavesTables result self.new (after_origin self.old (words_of words.now)) }
    {
        let Some(name) = only_word(words) else {
            return Err(LineFault::Bad(PolicyKind::Words));
        };
        let name = new_origin(alloc, &self.origins, name)?;
        self.origins.add(name)?;
        Ok(())
    }

    fn declare_input(&mut self, alloc: Global, words: &[u8]) -> Result<(), LineFault>
        ensures { LeavesTables result self.new (after_in self.old (words_of words.now)) }
    {
        let Some((name, list)) = only_two(words) else {
            return Err(LineFault::Bad(PolicyKind::Words));
        };
        let channel = new_channel(alloc, &self.origins, &self.inputs, name, list)?;
        self.inputs.push(channel)?;
        Ok(())
    }

    fn declare_output(&mut self, alloc: Global, words: &[u8]) -> Result<(), LineFault>
        ensures { LeavesTables result self.new (after_out self.old (words_of words.now)) }
    {
        let Some((name, list)) = only_two(words) else {
            return Err(LineFault::Bad(PolicyKind::Words));
        };
        let channel = new_channel(alloc, &self.origins, &self.outputs, name, list)?;
        self.outputs.push(channel)?;
        Ok(())
    }
}

// The name of a further origin.
#[tactic(auto, unfolding(crate::specs::Policies::with_new_origin))]
fn new_origin(alloc: Global, origins: &Origins, name: &[u8]) -> Result<Text, LineFault>
    ensures { GivesOrigin result origins.now (with_new_origin origins.now name.now) }
{
    let name = text_of(alloc, name)?;
    if !is_name(name.units()) {
        return Err(LineFault::Bad(PolicyKind::Name));
    }
    if origins.index_of(&name).is_some() {
        return Err(LineFault::Bad(PolicyKind::Repeat));
    }
    if origins.len() as usize >= TABLE_ROOM {
        return Err(LineFault::Bad(PolicyKind::Many));
    }
    Ok(name)
}

// A further channel with a list as its label.
#[tactic(auto, unfolding(crate::specs::Policies::with_new_channel))]
fn new_channel(
    alloc: Global,
    origins: &Origins,
    channels: &[Channel],
    name: &[u8],
    list: &[u8],
) -> Result<Channel, LineFault>
    requires { length origins.now ≤ table_room }
    ensures { GivesChannel result channels.now (with_new_channel origins.now channels.now name.now list.now) }
{
    let (name, list) = (text_of(alloc, name)?, text_of(alloc, list)?);
    if !is_name(name.units()) || !are_names(list.units()) {
        return Err(LineFault::Bad(PolicyKind::Name));
    }
    let label = label_in(alloc, origins, list.units())?;
    if has_channel(&name, channels) {
        return Err(LineFault::Bad(PolicyKind::Repeat));
    }
    if channels.len() >= TABLE_ROOM {
        return Err(LineFault::Bad(PolicyKind::Many));
    }
    Ok(Channel { name, label })
}

fn has_channel(name: &Text, channels: &[Channel]) -> bool
    ensures { result ≡ has_channel name.now channels.now }
{
    channels.iter().any(|channel| channel.name == *name)
}

/// Reads a policy: its first bad line, where there is one, or else what its lines declare.
pub fn read_policy(alloc: Global, bytes: &[u8]) -> Result<Policy, PolicyFault>
    ensures { GivesPolicy result (policy_of bytes.now) }
{
    let mut policy = Policy::new(alloc);
    let mut rest = bytes;
    let mut number = 0;
    while let Some((line, behind)) = next_line(rest) {
        number += 1;
        if let Err(fault) = policy.declare(alloc, line) {
            return Err(fault.at(number));
        }
        rest = behind;
    }
    Ok(policy)
}
