use anyhow::Result;
use blob_digest::Digest;
use std::time::{Duration, Instant};

/// How long hashing took, and a part of what it gave.
pub fn time_hash(rt: &HostRuntime, bytes: &[u8]) -> Result<(Duration, u8)> {
    let start = Instant::now(rt)?;
    let hash = Digest::of(bytes).hash();
    Ok((start.elapsed(rt)?, hash[0]))
}

/// Percent of the base, 0 where that is 0.
pub fn percent(part: u128, base: u128) -> u128 {
    part.saturating_mul(100).checked_div(base).unwrap_or(0)
}
