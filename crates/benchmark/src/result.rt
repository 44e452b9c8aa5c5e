use crate::ROUNDS;
use crate::timing::{percent, time_hash};
use action_messages::{ActionResult, OutputFile, Stream};
use anyhow::{Context, Result, ensure};
use blob_digest::Digest;
use messages::Path;
use std::time::{Duration, Instant};

/// The encoding of a result of one file.
fn encoded_output(rt: &HostRuntime, number: u32) -> Result<Vec<u8>> {
    let alloc = rt.alloc();
    let path = format!(in alloc; "bin/out/file{number:06}")?;
    let mut files = Vec::new(alloc);
    files.push(OutputFile {
        path: Path::new(alloc, path.as_bytes())?,
        digest: Digest::of(path.as_bytes()),
        executable: false,
    })?;
    let stdout = Stream::new(Vec::new(alloc), None);
    let stderr = Stream::new(Vec::new(alloc), None);
    let result = ActionResult::new(files, Vec::new(alloc), Vec::new(alloc), 0, stdout, stderr)?;
    Ok(result.encode(alloc)?)
}

/// A result of this many files, the last first or the first first: those of results of one file
/// each.
fn encoded_outputs(rt: &HostRuntime, outputs: u32, backwards: bool) -> Result<Vec<u8>> {
    let mut bytes = Vec::with_capacity(rt.alloc(), 100usize.saturating_mul(outputs as usize))?;
    for number in 0..outputs {
        let number = if backwards {
            outputs - 1 - number
        } else {
            number
        };
        bytes.extend_from_slice(&encoded_output(rt, number)?)?;
    }
    Ok(bytes)
}

fn time_decode(rt: &HostRuntime, bytes: &[u8]) -> Result<(Duration, usize)> {
    let start = Instant::now(rt)?;
    let result = ActionResult::decode(rt.alloc(), bytes)?;
    Ok((start.elapsed(rt)?, result.files().len()))
}

fn measure_order(rt: &HostRuntime, outputs: u32, backwards: bool) -> Result<()> {
    let bytes = encoded_outputs(rt, outputs, backwards)?;
    let kib = bytes.len() as u64 / 1024;
    let mut hash = Duration::MAX;
    let mut decode = Duration::MAX;
    for _ in 0..ROUNDS {
        let (time, _) = time_hash(rt, &bytes)?;
        hash = hash.min(time);
        let (time, count) = time_decode(rt, &bytes)?;
        decode = decode.min(time);
        ensure!(count == outputs as usize, "outputs are missing");
    }
    let hash = hash.as_micros();
    let decode = decode.as_micros();
    let time = percent(decode, hash);
    let order = if backwards { "backwards" } else { "in order" };
    println!(rt;
        "{outputs} outputs {order}, {kib} KiB: Digest::of {hash} us, decode {decode} us ({time} %)"
    ).context("printing")
}

/// Prints how long it takes to hash and to decode a result of this many files, in the order of
/// their paths and backwards.
pub fn measure_result(rt: &HostRuntime, outputs: u32) -> Result<()> {
    measure_order(rt, outputs, false)?;
    measure_order(rt, outputs, true)
}
