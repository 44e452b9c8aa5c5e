//! Requests and replies: does what the rows of the files in `data/` say, one after another, and
//! prints each with what came of it. What has to come stands in the file `stdout`.
#![tactic(auto)]

mod clients;
mod faults;
mod folders;
mod noting;
mod rows;
mod servers;
mod sessions;
mod streams;
mod text;
mod texts;
mod turns;
mod verbs;

use folders::read_folder;
use rows::Row;
use std::alloc::{AllocError, Global};
use std::hash::RandomState;
use std::{fs, io};
use test_support::{named, spelled, unescaped};
use verbs::run_row;

fn main(rt: HostRuntime) -> io::Result<()> {
    let names = fs::read_to_string(&rt, "names")?;
    let state = RandomState::new(&rt)?;
    for file in ["sessions", "texts", "servers", "clients"] {
        run_file(&rt, state, names.as_str(), file)?;
    }
    read_folder(&rt)
}

/// Prints each line of a file of rows, and what came of it.
fn run_file(rt: &HostRuntime, state: RandomState, names: &str, file: &str) -> io::Result<()> {
    let lines = fs::read_to_string(rt, file)?;
    let mut stream = Vec::new(rt.alloc());
    let mut next = Vec::new(rt.alloc());
    let mut tried = 0u64;
    for line in lines.as_str().lines() {
        println!(rt; "{line}")?;
        if let Some(count) = line.strip_prefix("tried ") {
            let enough = count.parse::<u64>().is_ok_and(|count| tried >= count);
            println!(rt; "{}", if enough { "yes" } else { "no" })?;
            tried = 0;
        } else if line.is_empty() {
            stream.clear();
            next.clear();
            tried = 0;
        } else if line.starts_with('>') {
            push_stream(rt.alloc(), names, line, &mut stream, &mut next)?;
        } else if !line.starts_with('#') {
            tried = tried.saturating_add(run_line(rt, state, names, line, &stream, &next)?);
        }
    }
    Ok(())
}

/// Adds the bytes of a line to the first stream, by `> `, or to the next, by `>> `.
fn push_stream(
    heap: Global,
    names: &str,
    line: &str,
    stream: &mut Vec<u8>,
    next: &mut Vec<u8>,
) -> Result<(), AllocError> {
    let (mark, text) = line.split_once(' ').unwrap_or((line, ""));
    let bytes = unescaped(heap, spelled(heap, names, text)?.as_str())?;
    if mark == ">" {
        stream.extend_from_slice(&bytes)
    } else {
        next.extend_from_slice(&bytes)
    }
}

/// Prints what came of a row over the streams, and gives how many requests were refused.
fn run_line(
    rt: &HostRuntime,
    state: RandomState,
    names: &str,
    line: &str,
    stream: &[u8],
    next: &[u8],
) -> io::Result<u64> {
    let heap = rt.alloc();
    let (verb, words) = line.split_once(' ').unwrap_or((line, ""));
    let row = Row::new(heap, state, words, stream, next);
    let mut text = String::new(heap);
    let tried = run_row(verb, &row, &mut text)?;
    print!(rt; "{}", named(heap, names, text.as_str())?)?;
    Ok(tried)
}
