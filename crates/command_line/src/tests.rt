//! Words with the commands that they state.

use crate::{Command, WordsFault, read_words};
use std::alloc::{AllocError, Global};
use std::test::*;

// A command line, its words parted by spaces (`_` for the empty word), and the command with its parts parted by spaces.
const ROWS: &[(&str, &str)] = &[
    ("run a b c", "run a b c 1000000 all"),
    ("run --turns 5 a b c", "run a b c 5 all"),
    ("run a b c --turns=5", "run a b c 5 all"),
    ("run a --observer A,B b c", "run a b c 1000000 for A,B"),
    ("run a b c --observer -", "run a b c 1000000 for -"),
    ("run a b c --observer=-", "run a b c 1000000 for -"),
    ("run a b c --observer=", "usage"),
    ("run a b c --observer A,,B", "usage"),
    ("run --turns 0 a b c", "usage"),
    ("run --turns 1000000000 a b c", "run a b c 1000000000 all"),
    ("run --turns 1000000001 a b c", "usage"),
    ("run --turns 00000000005 a b c", "usage"),
    ("run --turns 0000000005 a b c", "run a b c 5 all"),
    ("run --turns 5 --turns 6 a b c", "usage"),
    ("run --turns=5 --turns=5 a b c", "usage"),
    ("run a b c --turns", "usage"),
    ("run a b c --turns -- 5", "usage"),
    ("run a b c --turns -5", "usage"),
    ("run a b c --turns= 5", "usage"),
    ("run --observer --turns a b c", "usage"),
    ("run -x a b c", "usage"),
    ("run a b c d", "usage"),
    ("run a b", "usage"),
    ("run - - -", "run - - - 1000000 all"),
    ("run -- -a --b --", "run -a --b -- 1000000 all"),
    ("run -- a b", "usage"),
    ("run a b -- c", "run a b c 1000000 all"),
    ("run a b c --", "run a b c 1000000 all"),
    ("run a b c -- --turns 5", "usage"),
    ("run --turn 5 a b c", "usage"),
    ("run --=5 a b c", "usage"),
    ("check x", "check x"),
    ("check", "usage"),
    ("check --turns 5 x", "usage"),
    ("check -h", "usage"),
    ("check check", "check check"),
    ("--help", "usage"),
    ("help", "usage"),
    ("-h", "usage"),
    ("help run", "usage"),
    ("run --help", "usage"),
    ("pair s p f g A,B", "pair s p f g A,B 1000000"),
    ("pair s p f g -", "pair s p f g - 1000000"),
    ("pair s p f g A-B", "usage"),
    ("pair --turns 5 s p f g A", "pair s p f g A 5"),
    ("pair s p f g A --observer A", "usage"),
    ("pair s p f g", "usage"),
    ("make 10", "make 10"),
    ("make 0", "usage"),
    ("make 10000", "make 10000"),
    ("make 10001", "usage"),
    ("make x", "usage"),
    ("make 1 2", "usage"),
    ("trial 1000", "trial 1000"),
    ("trial", "usage"),
    ("Run a b c", "usage"),
    ("--turns 5 run a b c", "usage"),
    ("-- run a b c", "usage"),
    ("--", "usage"),
    ("run _ b c", "run  b c 1000000 all"),
    ("_", "usage"),
];

// The command, with its parts parted by spaces.
fn spelled(alloc: Global, command: Command<'_>) -> Result<String, AllocError> {
    match command {
        Command::Run(run) => match run.observer {
            None => format!(in alloc;
                "run {} {} {} {} all",
                run.script, run.policy, run.input, run.turns
            ),
            Some(observer) => format!(in alloc;
                "run {} {} {} {} for {}",
                run.script, run.policy, run.input, run.turns, observer
            ),
        },
        Command::Check { script } => format!(in alloc; "check {}", script),
        Command::Pair(pair) => {
            format!(in alloc;
                "pair {} {} {} {} {} {}",
                pair.script, pair.policy, pair.first, pair.second, pair.observer, pair.turns
            )
        }
        Command::Make { number } => format!(in alloc; "make {}", number),
        Command::Trial { number } => format!(in alloc; "trial {}", number),
    }
}

fn words_of(alloc: Global, line: &str) -> Result<Vec<String>, AllocError> {
    let mut words = Vec::new(alloc);
    for word in line.split(' ') {
        let word = if word == "_" { "" } else { word };
        words.push(String::from_str(alloc, word)?)?;
    }
    Ok(words)
}

// Whether the words of a line state the command.
fn states(alloc: Global, line: &str, command: &str) -> Result<bool, AllocError> {
    let words = words_of(alloc, line)?;
    let is = match read_words(alloc, words.as_slice()) {
        Ok(found) => {
            let spelled = spelled(alloc, found)?;
            spelled.as_str() == command
        }
        Err(WordsFault::Usage) => command == "usage",
        Err(WordsFault::OutOfMemory) => false,
    };
    Ok(is)
}

#[test]
fn table(rt: HostRuntime) {
    for (line, command) in ROWS {
        let is = match states(rt.alloc(), *line, *command) {
            Ok(is) => is,
            Err(_) => false,
        };
        assert!(rt; is, "{line}");
    }
}

#[test]
fn no_words(rt: HostRuntime) {
    let is = matches!(read_words(rt.alloc(), &[]), Err(WordsFault::Usage));
    assert!(rt; is);
}
