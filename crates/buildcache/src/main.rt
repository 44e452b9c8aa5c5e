//! The program `buildcache`: hands its words and its streams to the crate `cli`.
#![tactic(auto)]

use cli::run_words;
use commands::System;
use std::alloc::AllocError;
use std::env;
use std::fs::File;
use std::io::{ErrorKind, IsTerminal};
use std::process::ExitCode;

/// The words after the program's name; `None` where one of them is no UTF-8.
fn words(rt: &HostRuntime) -> Result<Option<Vec<String>>, AllocError> {
    match env::args(rt) {
        Ok(all) => Ok(Some(all.skip(1).collect(rt.alloc())?)),
        Err(e) if e.kind() == ErrorKind::OutOfMemory => Err(AllocError),
        Err(_e) => Ok(None),
    }
}

fn main(rt: HostRuntime) -> ExitCode {
    // The next file gets the number of a closed standard stream: one of these, not a connection, so
    // that what is written there is refused.
    let _held = [
        File::open(&rt, "/dev/null"),
        File::open(&rt, "/dev/null"),
        File::open(&rt, "/dev/null"),
    ];
    match words(&rt) {
        Ok(Some(words)) => ExitCode::from(run_words(
            &rt,
            &System(&rt),
            System(&rt),
            words.as_slice(),
            &mut rt.stdout(),
            &mut rt.stderr(),
            rt.stderr().is_terminal().then(|| rt.stderr()),
        )),
        Ok(None) => {
            let _ = eprintln!(rt; "error: a word of the command line is not UTF-8");
            ExitCode::from(2)
        }
        Err(_e) => {
            let _ = eprintln!(rt; "error: out of memory");
            ExitCode::from(3)
        }
    }
}
