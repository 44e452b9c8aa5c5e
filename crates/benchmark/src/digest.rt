use crate::ROUNDS;
use anyhow::{Context, Result, ensure};
use blob_digest::Digest;
use sha2::{Digest as _, Sha256};
use std::time::{Duration, Instant};

/// How long one call took, and the first byte of what it gave, so that it isn't left out.
fn time_digest(rt: &HostRuntime, blob: &[u8]) -> Result<(Duration, u8)> {
    let start = Instant::now(rt)?;
    let hash = Digest::of(blob).hash();
    Ok((start.elapsed(rt)?, hash[0]))
}

fn time_sha2(rt: &HostRuntime, blob: &[u8]) -> Result<(Duration, u8)> {
    let start = Instant::now(rt)?;
    let hash: [u8; 32] = Sha256::digest(blob);
    Ok((start.elapsed(rt)?, hash[0]))
}

/// Prints how long it takes to hash this many MiB.
pub fn measure_digest(rt: &HostRuntime, mebibytes: usize) -> Result<()> {
    let len = mebibytes.saturating_mul(1 << 20);
    let blob: Vec<u8> = vec![in rt.alloc(); 0x61; len]?;
    let mut ours = Duration::MAX;
    let mut theirs = Duration::MAX;
    for _ in 0..ROUNDS {
        let (time, first) = time_digest(rt, &blob)?;
        ours = ours.min(time);
        let (time, same) = time_sha2(rt, &blob)?;
        theirs = theirs.min(time);
        ensure!(first == same, "two hashes of one blob");
    }
    let ours = ours.as_micros();
    let theirs = theirs.as_micros();
    println!(rt; "{mebibytes} MiB: Digest::of {ours} us, sha2 {theirs} us").context("printing")
}
