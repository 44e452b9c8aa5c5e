//! Reads the archives that standard input names, one a line, with the paths that are looked for in
//! it behind a tab each, and prints of each archive its refusal, or the digest of each path's file,
//! and then that of an archive of the files that it found, written in their order.
#![tactic(auto)]

use anyhow::Result;
use archive::{Archive, Entry, write_archive};
use blob_digest::Digest;
use std::alloc::{AllocError, Global};
use std::fs::File;
use std::io::{BufRead, BufReader};
use std::str::Split;

/// A file that was found.
#[derive(Drop)]
struct Found<'a> {
    path: &'a str,
    content: Vec<u8>,
}

/// The files, to be written.
fn entries<'a>(alloc: Global, found: &'a [Found<'_>]) -> Result<Vec<Entry<'a>>, AllocError> {
    let mut entries = Vec::new(alloc);
    for file in found {
        entries.push(Entry {
            path: file.path,
            content: &file.content,
        })?;
    }
    Ok(entries)
}

/// Prints the digest of an archive of these files.
fn print_written(rt: &HostRuntime, found: &[Found<'_>]) -> Result<()> {
    match write_archive(rt.alloc(), &entries(rt.alloc(), found)?) {
        Ok(bytes) => {
            let digest = Digest::of(&bytes).write_text(rt.alloc())?;
            println!(rt; "  written {digest}")?;
        }
        Err(error) => println!(rt; "  not written: {error}")?,
    }
    Ok(())
}

/// Keeps a file that was found.
fn keep<'a>(found: &mut Vec<Found<'a>>, path: &'a str, content: Vec<u8>) -> Result<(), AllocError> {
    found.push(Found { path, content })?;
    Ok(())
}

/// Prints the digests of the files of these paths, and that of an archive of them.
fn print_files(
    rt: &HostRuntime,
    archive: &Archive<'_, File, Global>,
    paths: Split<'_, char>,
) -> Result<()> {
    let mut found = Vec::new(rt.alloc());
    for path in paths {
        match archive.read(rt.alloc(), path)? {
            Some(bytes) => {
                let digest = Digest::of(&bytes).write_text(rt.alloc())?;
                println!(rt; "  {digest}")?;
                keep(&mut found, path, bytes)?;
            }
            None => println!(rt; "  none")?,
        }
    }
    print_written(rt, &found)
}

fn print_archive(rt: &HostRuntime, line: &str) -> Result<()> {
    let mut words = line.split('\t');
    let Some(name) = words.next() else {
        return Ok(());
    };
    let file = File::open(rt, name)?;
    match Archive::of(rt.alloc(), &file) {
        Ok(archive) => {
            println!(rt; "{name}")?;
            print_files(rt, &archive, words)
        }
        Err(error) => {
            println!(rt; "{name}: {error}")?;
            Ok(())
        }
    }
}

fn main(rt: HostRuntime) -> Result<()> {
    let input = BufReader::new(rt.alloc(), rt.stdin())?;
    for line in input.lines(rt.alloc()) {
        let line = line?;
        print_archive(&rt, &line)?;
    }
    Ok(())
}
