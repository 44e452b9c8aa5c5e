//! Rows of look-ups, merges, comparisons and unfoldings over a source.
use crate::answers::{Answer, Broken, digest_text, number_in, push_digest, said, word};
use crate::merges::merged;
use crate::nodes::{node_told, phrase, refusal_told};
use blob_digest::Digest;
use messages::Path;
use std::alloc::{AllocError, Allocator, Global};
use tree::{
    Difference, Folded, Memo, MemorySource, TreeError, first_difference, fold, lookup, unfold,
};

pub fn answer<A: Allocator + Copy>(
    global: Global,
    alloc: A,
    source: &mut MemorySource<A>,
    fields: &[Vec<u8>],
) -> Answer {
    let [kind, given @ .., _] = fields else {
        return Err(Broken::NoRow);
    };
    match word(kind) {
        "merge" => made(global, alloc, source, given),
        "compare" => difference(global, alloc, source, given),
        kind => other(global, alloc, source, kind, given),
    }
}

/// What has a number of fields of its own.
fn other<A: Allocator + Copy>(
    global: Global,
    alloc: A,
    source: &mut MemorySource<A>,
    kind: &str,
    given: &[Vec<u8>],
) -> Answer {
    match given {
        [given] => of_one(global, alloc, source, kind, given),
        [first, second] => of_two(global, alloc, source, kind, first, second),
        _ if kind == "nested" => nested(global, alloc, source, given),
        _ => Err(Broken::NoRow),
    }
}

fn of_one<A: Allocator + Copy>(
    global: Global,
    alloc: A,
    source: &mut MemorySource<A>,
    kind: &str,
    given: &[u8],
) -> Answer {
    match kind {
        "hold" => hold(global, alloc, source, given),
        "unfold" => unfolded(global, alloc, source, given),
        _ => Err(Broken::NoRow),
    }
}

fn of_two<A: Allocator + Copy>(
    global: Global,
    alloc: A,
    source: &mut MemorySource<A>,
    kind: &str,
    first: &[u8],
    second: &[u8],
) -> Answer {
    match kind {
        "lookup" => looked_up(global, alloc, source, first, second),
        "hold as" => hold_as(global, alloc, source, first, second),
        _ => Err(Broken::NoRow),
    }
}

/// What was told, and how often the source was called by then.
fn with_calls(global: Global, mut told: Vec<u8>, calls: u64) -> Answer {
    let text = format!(in global; " by {calls}")?;
    told.extend_from_slice(text.as_bytes())?;
    Ok(told)
}

/// Holds the bytes under their digest, and tells this.
pub fn hold<A: Allocator + Copy>(
    global: Global,
    alloc: A,
    source: &mut MemorySource<A>,
    bytes: &[u8],
) -> Answer {
    let digest = Digest::of(bytes);
    hold_under(alloc, source, digest, bytes)?;
    digest_text(global, &digest)
}

/// Holds the bytes under the digest.
fn hold_under<A: Allocator + Copy>(
    alloc: A,
    source: &mut MemorySource<A>,
    digest: Digest,
    bytes: &[u8],
) -> Result<(), AllocError> {
    source.hold_blob(digest, Vec::from_slice(alloc, bytes)?)
}

/// Holds the bytes under another digest.
pub fn hold_as<A: Allocator + Copy>(
    global: Global,
    alloc: A,
    source: &mut MemorySource<A>,
    digest: &[u8],
    bytes: &[u8],
) -> Answer {
    hold_under(alloc, source, Digest::read_text(digest)?, bytes)?;
    said(global, "held")
}

/// Holds the Directory of these bytes below this many of one directory of this name, of one letter,
/// and tells the digest of the highest.
fn nested<A: Allocator + Copy>(
    global: Global,
    alloc: A,
    source: &mut MemorySource<A>,
    given: &[Vec<u8>],
) -> Answer {
    let [name, count, bytes] = given else {
        return Err(Broken::NoRow);
    };
    let count = number_in(count)?;
    let mut digest = Digest::of(bytes);
    hold_under(alloc, source, digest, bytes)?;
    for _ in 0..count {
        let above = directory_over(alloc, name, &digest)?;
        digest = Digest::of(&above);
        hold_under(alloc, source, digest, &above)?;
    }
    digest_text(global, &digest)
}

/// A Directory with one of 75 bytes, which has this digest, under this name of one letter.
fn directory_over<A: Allocator>(
    alloc: A,
    name: &[u8],
    digest: &Digest,
) -> Result<Vec<u8, A>, AllocError> {
    let mut bytes = Vec::from_slice(alloc, b"\x12\x49\x0a\x01")?;
    bytes.extend_from_slice(name)?;
    bytes.extend_from_slice(b"\x12\x44\x0a\x40")?;
    bytes.extend_from_slice(&digest.hash_text())?;
    bytes.extend_from_slice(b"\x10\x4b")?;
    Ok(bytes)
}

/// What stands at the path, which is `.` for the directory itself.
fn looked_up<A: Allocator + Copy>(
    global: Global,
    alloc: A,
    source: &mut MemorySource<A>,
    root: &[u8],
    path: &[u8],
) -> Answer {
    let root = Digest::read_text(root)?;
    let path = if path == b".".as_slice() {
        None
    } else {
        Some(Path::new(alloc, path)?)
    };
    let told = match lookup(alloc, &root, path.as_ref(), source) {
        Ok(node) => node_told(global, &node),
        Err(error) => refusal_told(global, error),
    };
    with_calls(global, told?, source.calls())
}

/// How many entries the unfolded directory has, if it is that directory which they fold to.
fn unfolded<A: Allocator + Copy>(
    global: Global,
    alloc: A,
    source: &mut MemorySource<A>,
    root: &[u8],
) -> Answer {
    let root = Digest::read_text(root)?;
    let tree = match unfold(alloc, &root, source) {
        Ok(tree) => tree,
        Err(error) => return refusal_told(global, error),
    };
    let folded = fold(alloc, &tree)?;
    if folded.root != root {
        return said(global, "folded otherwise");
    }
    let (entries, directories) = (tree.len(), folded.directories.len());
    Ok(format!(in global; "{entries} entries {directories} directories")?.into_bytes())
}

/// The digests of the Directories, in the order of their first visits, each with a comma after it.
pub fn directories_told<A: Allocator>(global: Global, folded: &Folded<A>) -> Answer {
    let mut told = Vec::new(global);
    for directory in &folded.directories {
        push_digest(global, &mut told, &Digest::of(directory))?;
    }
    if told.starts_with(&folded.root.hash_text()) {
        Ok(told)
    } else {
        said(global, "another root")
    }
}

/// The Directories of what the lines put together.
fn made<A: Allocator + Copy>(
    global: Global,
    alloc: A,
    source: &mut MemorySource<A>,
    lines: &[Vec<u8>],
) -> Answer {
    let told = match merged(alloc, lines, source)? {
        Ok(folded) => directories_told(global, &folded),
        Err(error) => refusal_told(global, error),
    };
    with_calls(global, told?, source.calls())
}

/// The first difference of what lines put together and a recorded directory, which stands before
/// them.
fn difference<A: Allocator + Copy>(
    global: Global,
    alloc: A,
    source: &mut MemorySource<A>,
    given: &[Vec<u8>],
) -> Answer {
    let [recorded, lines @ ..] = given else {
        return Err(Broken::NoRow);
    };
    let recorded = Digest::read_text(recorded)?;
    let made = match merged(alloc, lines, source)? {
        Ok(made) => made,
        Err(error) => return refusal_told(global, error),
    };
    let mut memo = Memo::new(alloc);
    let told = match first_difference(alloc, &made, &recorded, &mut memo, source) {
        Ok(difference) => difference_told(global, &difference),
        Err(error) => refusal_told(global, error),
    };
    with_calls(global, told?, source.calls())
}

fn difference_told<A: Allocator>(global: Global, difference: &Option<Difference<A>>) -> Answer {
    match difference {
        None => said(global, "same"),
        Some(difference) => named(global, difference),
    }
}

/// The kind of the difference and its path.
fn named<A: Allocator>(global: Global, difference: &Difference<A>) -> Answer {
    let (word, path) = match difference {
        Difference::Unexplained(path) => ("unexplained", path),
        Difference::Absent(path) => ("absent", path),
        Difference::Differs(path) => ("differs", path),
    };
    phrase(global, word, path.as_bytes())
}
