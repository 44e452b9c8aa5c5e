//! The command line over real files: does what the lines of the file `rows` say, one after another,
//! and prints each with what came of it. What has to come stands in the file `stdout`.
#![tactic(auto)]

mod files;

use cli::run_words;
use commands::System;
use files::{lay, lay_all};
use std::{fs, io};
use test_support::{named, spelled};

fn main(rt: HostRuntime) -> io::Result<()> {
    let names = fs::read_to_string(&rt, "names")?;
    let rows = fs::read_to_string(&rt, "rows")?;
    for line in rows.as_str().lines() {
        println!(rt; "{line}")?;
        if let Some(command) = line.strip_prefix("$ buildcache ") {
            run(&rt, names.as_str(), command)?;
        } else if let Some(file) = line.strip_prefix("lay ") {
            lay_all(&rt, names.as_str(), file)?;
        } else {
            lay(&rt, names.as_str(), line)?;
        }
    }
    Ok(())
}

/// Runs the program on these words, and prints its output, its error and its status. Where `grep
/// -o` is asked for a text, of the output only that text, if it has it.
fn run(rt: &HostRuntime, names: &str, command: &str) -> io::Result<()> {
    let (line, sought) = match command.split_once(" | grep -o ") {
        Some((line, sought)) => (line, Some(sought)),
        None => (command, None),
    };
    let (status, out, err) = ended(rt, names, line)?;
    match sought {
        None => tell(rt, names, '>', &out)?,
        Some(sought) => find(rt, sought, &out)?,
    }
    tell(rt, names, '!', &err)?;
    println!(rt; "status {status}")
}

/// The status of the program, and what it printed.
fn ended(rt: &HostRuntime, names: &str, line: &str) -> io::Result<(u8, Vec<u8>, Vec<u8>)> {
    let alloc = rt.alloc();
    let mut words = Vec::new(alloc);
    for word in spelled(alloc, names, line)?.as_str().split(' ') {
        words.push(String::from_str(alloc, word)?)?;
    }
    let mut out = Vec::new(alloc);
    let mut err = Vec::new(alloc);
    let status = run_words(
        rt,
        &System(rt),
        System(rt),
        words.as_slice(),
        &mut out,
        &mut err,
        None::<Vec<u8>>,
    );
    Ok((status, out, err))
}

/// Prints what was printed, each line after the mark.
fn tell(rt: &HostRuntime, names: &str, mark: char, bytes: &[u8]) -> io::Result<()> {
    let text = String::from_utf8_lossy(rt.alloc(), bytes)?;
    let text = named(rt.alloc(), names, text.as_str())?;
    for line in text.as_str().split_inclusive('\n') {
        print!(rt; "{mark} {line}")?;
    }
    if bytes.is_empty() || bytes.ends_with(b"\n") {
        Ok(())
    } else {
        println!(rt; " (no line feed)")
    }
}

/// Prints the text that was sought, if it is in what was printed.
fn find(rt: &HostRuntime, sought: &str, bytes: &[u8]) -> io::Result<()> {
    if String::from_utf8_lossy(rt.alloc(), bytes)?
        .as_str()
        .contains(sought)
    {
        println!(rt; "> {sought}")
    } else {
        Ok(())
    }
}
