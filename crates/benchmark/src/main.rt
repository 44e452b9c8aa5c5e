//! Measures the product by hand: `benchmark digest 64` hashes 64 MiB by `Digest::of` and by `sha2`
//! alone, `benchmark directory 200000` hashes and decodes a directory of that many files,
//! `benchmark result 10000` a result of that many outputs. Each is done five times in turn, and the
//! least time is printed. `benchmark store 100000` puts and gets entries of 1 KiB in a full store
//! of that many.
#![tactic(auto)]

mod digest;
mod directory;
mod result;
mod store;
mod timing;

use anyhow::{Context, Result};
use digest::measure_digest;
use directory::measure_directory;
use result::measure_result;
use std::env;
use store::measure_store;

/// How often each call is timed.
pub const ROUNDS: u32 = 5;

const USAGE: &str = "\
usage: benchmark digest MIB
       benchmark directory FILES
       benchmark result OUTPUTS
       benchmark store ENTRIES";

fn main(rt: HostRuntime) -> Result<()> {
    let alloc = rt.alloc();
    let words: Vec<String> = env::args(&rt)?.skip(1).collect(alloc)?;
    match words.as_slice() {
        [what, size] if what.as_str() == "digest" => {
            let mebibytes = size.as_str().parse::<usize>().context("the size in MiB")?;
            measure_digest(&rt, mebibytes)
        }
        [what, size] if what.as_str() == "directory" => {
            let files = size.as_str().parse::<u32>().context("the count of files")?;
            measure_directory(&rt, files)
        }
        [what, size] if what.as_str() == "result" => {
            let outputs = size
                .as_str()
                .parse::<u32>()
                .context("the count of outputs")?;
            measure_result(&rt, outputs)
        }
        [what, size] if what.as_str() == "store" => {
            let entries = size
                .as_str()
                .parse::<u64>()
                .context("the count of entries")?;
            measure_store(&rt, entries)
        }
        _ => println!(rt; "{USAGE}").context("printing"),
    }
}
