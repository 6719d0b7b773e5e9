//! What `clap` is told of the five commands.

ghost use Rattle.std.specs.Prelude.{◌≡◌, false, IfOk, codes};
ghost use Rattle.clap.specs.Walk.{rule_of};
ghost use Rattle.clap.specs.Simple.{App, with_rule, with_subcommand};
ghost use Rattle.command_line.specs.Arguments.{IsApp, bare_app, line_app, one_word_app, option_rule, pair_app, positional_rule, run_app};

use clap::{Arg, ArgAction, Command};
use std::alloc::{AllocError, Global};

/// A word that has to be there.
fn positional<'a>(alloc: Global, id: &'a str) -> Arg<'a>
    ensures rule { rule_of result ≡ positional_rule id.entry.now }
    ensures local { result.global ≡ false }
{
    Arg::new(alloc, id).required(true).action(ArgAction::Set)
}

/// An option with a value.
fn option<'a>(alloc: Global, name: &'a str) -> Arg<'a>
    ensures rule { rule_of result ≡ option_rule name.entry.now }
    ensures local { result.global ≡ false }
{
    Arg::new(alloc, name).long(name).action(ArgAction::Set)
}

fn with_word<'a>(
    alloc: Global,
    command: Command<'a>,
    id: &'a str,
) -> Result<Command<'a>, AllocError>
    ensures { IfOk result (λ c. (app : App) → IsApp app command.entry → IsApp (with_rule app (positional_rule id.entry.now)) c) }
{
    command.arg(positional(alloc, id))
}

fn with_option<'a>(
    alloc: Global,
    command: Command<'a>,
    name: &'a str,
) -> Result<Command<'a>, AllocError>
    ensures { IfOk result (λ c. (app : App) → IsApp app command.entry → IsApp (with_rule app (option_rule name.entry.now)) c) }
{
    command.arg(option(alloc, name))
}

fn run<'a>(alloc: Global) -> Result<Command<'a>, AllocError>
    ensures { IfOk result (IsApp run_app) }
{
    let bare = Command::new(alloc, "run");
    let turns = with_option(alloc, bare, "turns")?;
    let observer = with_option(alloc, turns, "observer")?;
    let script = with_word(alloc, observer, "script")?;
    let policy = with_word(alloc, script, "policy")?;
    with_word(alloc, policy, "input")
}

fn pair<'a>(alloc: Global) -> Result<Command<'a>, AllocError>
    ensures { IfOk result (IsApp pair_app) }
{
    let bare = Command::new(alloc, "pair");
    let turns = with_option(alloc, bare, "turns")?;
    let script = with_word(alloc, turns, "script")?;
    let policy = with_word(alloc, script, "policy")?;
    let first = with_word(alloc, policy, "first")?;
    let second = with_word(alloc, first, "second")?;
    with_word(alloc, second, "view")
}

fn one_word<'a>(alloc: Global, name: &'a str) -> Result<Command<'a>, AllocError>
    ensures { IfOk result (IsApp (one_word_app name.entry.now)) }
{
    with_word(alloc, Command::new(alloc, name), "word")
}

/// No command yet, and none of the words and flags that `clap` adds.
fn bare<'a>(alloc: Global) -> Command<'a>
    ensures { IsApp bare_app result }
{
    Command::new(alloc, "jsflow")
        .no_binary_name(true)
        .disable_help_flag(true)
        .disable_help_subcommand(true)
}

/// A command with one more below it, if that one could be made.
fn with_command<'a>(
    command: Command<'a>,
    below: Result<Command<'a>, AllocError>,
) -> Result<Command<'a>, AllocError>
    ensures { IfOk result (λ c. (app sub : App) → IsApp app command.entry → IfOk below.entry (IsApp sub) → IsApp (with_subcommand app sub.top) c) }
{
    match below {
        Ok(below) => command.subcommand(below),
        Err(fault) => Err(fault),
    }
}

/// The five commands.
pub(crate) fn line_command<'a>(alloc: Global) -> Result<Command<'a>, AllocError>
    ensures { IfOk result (IsApp line_app) }
{
    let one = with_command(bare(alloc), run(alloc))?;
    let two = with_command(one, one_word(alloc, "check"))?;
    let three = with_command(two, pair(alloc))?;
    let four = with_command(three, one_word(alloc, "make"))?;
    with_command(four, one_word(alloc, "trial"))
}
