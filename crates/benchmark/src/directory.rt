use crate::ROUNDS;
use crate::timing::{percent, time_hash};
use anyhow::{Context, Result, bail, ensure};
use blob_digest::Digest;
use messages::{Directory, FileNode, Name};
use std::fs;
use std::time::{Duration, Instant};

/// The encoding of a directory of one file.
fn encoded_file(rt: &HostRuntime, number: u32) -> Result<Vec<u8>> {
    let alloc = rt.alloc();
    let name = format!(in alloc; "file{number:06}")?;
    let mut files = Vec::new(alloc);
    files.push(FileNode {
        name: Name::new(alloc, name.as_bytes())?,
        digest: Digest::of(name.as_bytes()),
        executable: false,
    })?;
    let directory = Directory::new(files, Vec::new(alloc), Vec::new(alloc))?;
    Ok(directory.encode(alloc)?)
}

/// The encoding of a directory of this many files: those of directories of one file each, in order.
fn encoded_files(rt: &HostRuntime, files: u32) -> Result<Vec<u8>> {
    let mut bytes = Vec::with_capacity(rt.alloc(), 90usize.saturating_mul(files as usize))?;
    for number in 0..files {
        bytes.extend_from_slice(&encoded_file(rt, number)?)?;
    }
    Ok(bytes)
}

/// A line of this process's state, in KiB.
fn state_kib(rt: &HostRuntime, what: &str) -> Result<u64> {
    let text = fs::read_to_string(rt, "/proc/self/status").context("/proc/self/status")?;
    for line in text.lines() {
        if let Some(rest) = line.strip_prefix(what) {
            let number = rest.trim_start().trim_end_matches(" kB");
            return number.parse::<u64>().context("a number of KiB");
        }
    }
    bail!("no such line in /proc/self/status")
}

/// How many KiB more than before this process held at most while it decoded.
fn memory_of_decode(rt: &HostRuntime, bytes: &[u8]) -> Result<u64> {
    let before = state_kib(rt, "VmRSS:")?;
    let directory = Directory::decode(rt.alloc(), bytes)?;
    let peak = state_kib(rt, "VmHWM:")?;
    ensure!(directory.symlinks().is_empty(), "a symbolic link");
    Ok(peak.saturating_sub(before))
}

/// How long one call took, and a part of what it gave.
fn time_decode(rt: &HostRuntime, bytes: &[u8]) -> Result<(Duration, usize)> {
    let start = Instant::now(rt)?;
    let directory = Directory::decode(rt.alloc(), bytes)?;
    Ok((start.elapsed(rt)?, directory.files().len()))
}

/// Prints how long it takes to hash and to decode a directory of this many files, and how much
/// memory decoding takes.
pub fn measure_directory(rt: &HostRuntime, files: u32) -> Result<()> {
    let bytes = encoded_files(rt, files)?;
    let kib = bytes.len() as u64 / 1024;
    let memory = memory_of_decode(rt, &bytes)?;
    let mut hash = Duration::MAX;
    let mut decode = Duration::MAX;
    for _ in 0..ROUNDS {
        let (time, _) = time_hash(rt, &bytes)?;
        hash = hash.min(time);
        let (time, count) = time_decode(rt, &bytes)?;
        decode = decode.min(time);
        ensure!(count == files as usize, "files are missing");
    }
    let hash = hash.as_micros();
    let decode = decode.as_micros();
    let time = percent(decode, hash);
    let space = percent(u128::from(memory), u128::from(kib));
    println!(rt;
        "{files} files, {kib} KiB: Digest::of {hash} us, decode {decode} us ({time} %), \
         {memory} KiB more ({space} %)"
    )
    .context("printing")
}
