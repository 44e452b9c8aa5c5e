//! Rows of sources of 64 levels, in which each directory stands twice, by the number of pairs of
//! lines: the first of each goes down by `a`, the second by `b`.
use crate::answers::{Broken, compared, number_in};
use crate::verdicts::{judged, verdict_told};
use blob_digest::Digest;
use messages::{Directory, DirectoryNode, Name};
use std::alloc::{Allocator, Global};
use test_support::{Refusing, Row};
use tree::MemorySource;

/// How many levels stand above the one with the file.
const LEVELS: usize = 63;

/// A Directory with the directories `a` and `b`, both the one with this digest.
fn level<A: Allocator + Copy>(alloc: A, below: Digest) -> Result<Vec<u8, A>, Broken> {
    let mut directories = Vec::new(alloc);
    for name in [b"a", b"b"] {
        directories.push(DirectoryNode {
            name: Name::new(alloc, name)?,
            digest: below,
        })?;
    }
    let directory = Directory::new(Vec::new(alloc), directories, Vec::new(alloc))?;
    Ok(directory.encode(alloc)?)
}

/// A plan of this many pairs of lines: the first of each goes down by `a`, the second by `b`.
fn plan_of<A: Allocator + Copy>(alloc: A, pairs: u8) -> Result<Vec<u8, A>, Broken> {
    let mut text = Vec::from_slice(alloc, b"buildplan 1\nroot\n")?;
    for (target, name) in [(b"t", b"a/"), (b"u", b"b/")] {
        for pair in 0..pairs {
            text.extend_from_slice(b"in ")?;
            text.extend_from_slice(target)?;
            if pair > 0 {
                text.push(b'0' + pair / 10)?;
                text.push(b'0' + pair % 10)?;
            }
            text.extend_from_slice(b" src ")?;
            for _ in 0..LEVELS {
                text.extend_from_slice(name)?;
            }
            text.extend_from_slice(b"a\n")?;
        }
    }
    Ok(text)
}

/// Holds the levels above the directory of these bytes, and answers the digest of the highest.
fn hold_levels<A: Allocator + Copy>(
    alloc: A,
    source: &mut MemorySource<A>,
    lowest: &[u8],
) -> Result<Digest, Broken> {
    let mut sources = Digest::of(lowest);
    source.hold_blob(sources, Vec::from_slice(alloc, lowest)?)?;
    for _ in 0..LEVELS {
        let bytes = level(alloc, sources)?;
        sources = Digest::of(&bytes);
        source.hold_blob(sources, bytes)?;
    }
    Ok(sources)
}

/// How many requests for memory were refused where the rows come to what they say. The first
/// request of a row's verdict and each after so many is refused before, over one source.
pub fn run(global: Global, group: &[Row], stride: u64, noted: &mut String) -> Result<u64, Broken> {
    let mut refused = 0u64;
    for row in group {
        let (told, requests) = insisted(global, &row.fields, stride)?;
        compared(row, told.as_str(), noted)?;
        refused = refused.saturating_add(requests);
    }
    Ok(refused)
}

/// The verdict, and how often the source was called for it, by the lowest Directory, the number of
/// pairs and the claim; and how many requests were refused before.
fn insisted(global: Global, fields: &[Vec<u8>], stride: u64) -> Result<(String, u64), Broken> {
    let [lowest, pairs, claim, _] = fields else {
        return Err(Broken::NoRow);
    };
    let Ok(pairs) = u8::try_from(number_in(pairs)?) else {
        return Err(Broken::NoRow);
    };
    let heap = Refusing::new(global, 0);
    let mut source = MemorySource::new(&heap);
    let sources = hold_levels(&heap, &mut source, lowest)?;
    let plan = plan_of(global, pairs)?;
    let claim = Digest::read_text(claim)?;
    let texts = (plan.as_slice(), b"buildrecord 1\n".as_slice());
    for turn in 0..1_000_000u64 {
        let before = source.calls();
        heap.refuse(turn.saturating_mul(stride).saturating_add(1));
        let verdict = judged(&heap, texts, &sources, &claim, &mut source);
        let is_refused = heap.has_refused();
        heap.refuse(0);
        match verdict {
            Ok(verdict) if !is_refused => {
                let told = verdict_told(global, &verdict)?;
                let calls = source.calls().saturating_sub(before);
                return Ok((format!(in global; "{told} by {calls}")?, turn));
            }
            Err(Broken::Memory) if is_refused => {}
            Err(broken) => return Err(broken),
            Ok(_) => return Err(Broken::Untold),
        }
    }
    Err(Broken::Untold)
}
