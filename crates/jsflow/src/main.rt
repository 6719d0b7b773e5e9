//! The program: the system's words, files and standard output for the shell, and its status for the system.
#![tactic(auto)]

use flow_io::{RealSink, RealStore};
use js_shell::{Status, shell};
use std::io::ErrorKind;
use std::process::ExitCode;
use std::{env, io};

fn main(rt: HostRuntime) -> ExitCode {
    let words = match words(&rt) {
        Ok(words) => words,
        Err(error) if error.kind() == ErrorKind::OutOfMemory => {
            return ExitCode::from(Status::OutOfMemory.number());
        }
        // A word that isn't UTF-8 makes no command, and no words don't either.
        Err(_) => Vec::new(rt.alloc()),
    };
    let mut store = RealStore::new(&rt);
    let mut sink = RealSink::new(io::writer(&rt));
    let status = shell(rt.alloc(), &words, &mut store, &mut sink);
    ExitCode::from(status.number())
}

/// The words behind the program's name.
fn words(rt: &HostRuntime) -> io::Result<Vec<String>> {
    Ok(env::args(rt)?.skip(1).collect(rt.alloc())?)
}
