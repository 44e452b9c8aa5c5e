//! The build that the rows of a file change: its texts, its digests, and what the source holds.
//!
//! Changes are fields: `plan OLD -> NEW` and `record OLD -> NEW` replace a part of a text,
//! `sources DIGEST` and `claim DIGEST` a digest, `holds blob DIGEST BYTES` and `holds result DIGEST
//! BYTES` what is held under it, and by `lacks blob DIGEST` and `lacks result DIGEST` nothing is.
use crate::answers::{Broken, is};
use blob_digest::Digest;
use std::alloc::{Allocator, Global};
use test_support::Row;
use tree::MemorySource;

/// What stands in the stock's row of this kind.
fn stocked<'a>(stock: &'a [Row], kind: &str) -> Result<&'a str, Broken> {
    for row in stock {
        match row.fields.as_slice() {
            [name, text] if is(name, kind) => return Ok(str::from_utf8(text)?),
            _ => {}
        }
    }
    Err(Broken::NoRow)
}

/// What stands after these words in a change, if it begins with them.
fn after<'a>(change: &'a [u8], words: &str) -> Result<Option<&'a str>, Broken> {
    Ok(str::from_utf8(change)?.strip_prefix(words))
}

/// A build that is judged: the texts of its plan and record, its sources and the claim.
#[derive(Drop)]
pub struct Case {
    pub plan: String,
    pub record: String,
    pub sources: Digest,
    pub claim: Digest,
}

/// The stock's build with the changes.
pub fn case_of(global: Global, stock: &[Row], changes: &[Vec<u8>]) -> Result<Case, Broken> {
    let sources = digest_of(stock, changes, "sources", "sources ")?;
    let claim = digest_of(stock, changes, "claim", "claim ")?;
    let plan = text_of(global, stock, changes, "plan", "plan ")?;
    let record = text_of(global, stock, changes, "record", "record ")?;
    Ok(Case {
        plan,
        record,
        sources,
        claim,
    })
}

/// The text of the stock with the changes of those that begin with these words.
fn text_of(
    global: Global,
    stock: &[Row],
    changes: &[Vec<u8>],
    kind: &str,
    words: &str,
) -> Result<String, Broken> {
    let mut text = String::from_str(global, stocked(stock, kind)?)?;
    for change in changes {
        if let Some(parts) = after(change, words)? {
            let Some((old, new)) = parts.split_once(" -> ") else {
                return Err(Broken::NoRow);
            };
            text = text.replace(global, old, new)?;
        }
    }
    Ok(text)
}

/// The digest of the first change that begins with these words, and else that of the stock.
fn digest_of(
    stock: &[Row],
    changes: &[Vec<u8>],
    kind: &str,
    words: &str,
) -> Result<Digest, Broken> {
    for change in changes {
        if let Some(other) = after(change, words)? {
            return Ok(Digest::read_text(other.as_bytes())?);
        }
    }
    Ok(Digest::read_text(stocked(stock, kind)?.as_bytes())?)
}

/// Whether the changes say that nothing is held under the digest, by these words.
fn is_lacking(changes: &[Vec<u8>], words: &str, digest: &[u8]) -> Result<bool, Broken> {
    for change in changes {
        match after(change, words)? {
            Some(other) if other.as_bytes() == digest => return Ok(true),
            _ => {}
        }
    }
    Ok(false)
}

/// Holds what the rows of the stock hold but what is lacking.
fn hold_stock<A: Allocator + Copy>(
    alloc: A,
    source: &mut MemorySource<A>,
    stock: &[Row],
    changes: &[Vec<u8>],
) -> Result<(), Broken> {
    for row in stock {
        let [kind, digest, bytes] = row.fields.as_slice() else {
            continue;
        };
        if is(kind, "blob") && !is_lacking(changes, "lacks blob ", digest)? {
            source.hold_blob(Digest::read_text(digest)?, Vec::from_slice(alloc, bytes)?)?;
        }
        if is(kind, "result") && !is_lacking(changes, "lacks result ", digest)? {
            source.hold_result(Digest::read_text(digest)?, Vec::from_slice(alloc, bytes)?)?;
        }
    }
    Ok(())
}

/// The digest and the bytes that stand after these words in a change, if it begins with them.
fn held_after<'a>(change: &'a [u8], words: &str) -> Result<Option<(&'a str, &'a str)>, Broken> {
    match after(change, words)? {
        Some(held) => Ok(held.split_once(' ')),
        None => Ok(None),
    }
}

/// Holds what the change says.
fn hold_changed<A: Allocator + Copy>(
    alloc: A,
    source: &mut MemorySource<A>,
    change: &[u8],
) -> Result<(), Broken> {
    if let Some((digest, bytes)) = held_after(change, "holds blob ")? {
        let bytes = Vec::from_slice(alloc, bytes.as_bytes())?;
        source.hold_blob(Digest::read_text(digest.as_bytes())?, bytes)?;
    }
    if let Some((digest, bytes)) = held_after(change, "holds result ")? {
        let bytes = Vec::from_slice(alloc, bytes.as_bytes())?;
        source.hold_result(Digest::read_text(digest.as_bytes())?, bytes)?;
    }
    Ok(())
}

/// A source with what the stock and the changes hold.
pub fn source_of<A: Allocator + Copy>(
    alloc: A,
    stock: &[Row],
    changes: &[Vec<u8>],
) -> Result<MemorySource<A>, Broken> {
    let mut source = MemorySource::new(alloc);
    hold_stock(alloc, &mut source, stock, changes)?;
    for change in changes {
        hold_changed(alloc, &mut source, change)?;
    }
    Ok(source)
}
