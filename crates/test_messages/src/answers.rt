//! What rows come to, as the text that they are compared with.
ghost use Rattle.std.specs.Prelude.{IfOk, ◌<◌, ◌^◌};

use action_cache::CacheError;
use blob_digest::{Digest, DigestError};
use blob_source::FetchError;
use blob_store::BlobError;
use canonical::CanonError;
use eviction::BoundedError;
use messages::MessageError;
use plan::{PlanError, ReadError};
use std::alloc::{AllocError, AllocFailed, Global};
use test_support::Row;
use wire::WireError;

/// Why a row has no answer but a refusal.
#[derive(Clone, Copy)]
pub enum Broken {
    Memory,
    Digest(DigestError),
    Wire(WireError),
    Canon(CanonError),
    Message(MessageError),
    Plan(PlanError),
    Bounded(BoundedError),
    Blob(BlobError),
    Cache(CacheError),
    /// A row comes to something else than it says, which is noted.
    Differs,
    /// A request was refused, and that isn't told.
    Untold,
    /// The line is no row.
    NoRow,
}

pub type Answer = Result<Vec<u8>, Broken>;

impl From<AllocError> for Broken {
    fn from(_e: AllocError) -> Broken {
        Broken::Memory
    }
}

impl<T: Drop> From<AllocFailed<T>> for Broken {
    fn from(_e: AllocFailed<T>) -> Broken {
        Broken::Memory
    }
}

impl From<FetchError> for Broken {
    fn from(e: FetchError) -> Broken {
        match e {
            FetchError::Memory => Broken::Memory,
            FetchError::Failed => Broken::NoRow,
        }
    }
}

impl From<DigestError> for Broken {
    fn from(e: DigestError) -> Broken {
        Broken::Digest(e)
    }
}

impl From<WireError> for Broken {
    fn from(e: WireError) -> Broken {
        Broken::Wire(e)
    }
}

impl From<CanonError> for Broken {
    fn from(e: CanonError) -> Broken {
        match e {
            CanonError::Memory => Broken::Memory,
            e => Broken::Canon(e),
        }
    }
}

impl From<MessageError> for Broken {
    fn from(e: MessageError) -> Broken {
        match e {
            MessageError::Memory => Broken::Memory,
            e => Broken::Message(e),
        }
    }
}

impl From<ReadError> for Broken {
    fn from(e: ReadError) -> Broken {
        match e {
            ReadError::Memory => Broken::Memory,
            ReadError::Faulty(e) => Broken::Plan(e),
        }
    }
}

impl From<BoundedError> for Broken {
    fn from(e: BoundedError) -> Broken {
        match e {
            BoundedError::Memory => Broken::Memory,
            e => Broken::Bounded(e),
        }
    }
}

impl From<BlobError> for Broken {
    fn from(e: BlobError) -> Broken {
        match e {
            BlobError::Memory => Broken::Memory,
            e => Broken::Blob(e),
        }
    }
}

impl From<CacheError> for Broken {
    fn from(e: CacheError) -> Broken {
        match e {
            CacheError::Memory => Broken::Memory,
            e => Broken::Cache(e),
        }
    }
}

/// The field as a word, which is empty where the field is no text.
pub fn word(field: &[u8]) -> &str {
    str::from_utf8(field).unwrap_or("")
}

/// The text, for a row.
pub fn said(global: Global, text: &str) -> Answer {
    Ok(Vec::from_slice(global, text.as_bytes())?)
}

/// The bytes, for a row.
pub fn copied(global: Global, bytes: &[u8]) -> Answer {
    Ok(Vec::from_slice(global, bytes)?)
}

/// Yes or no, for a row.
pub fn yes_or_no(global: Global, is: bool) -> Answer {
    said(global, if is { "yes" } else { "no" })
}

/// A number, for a row.
pub fn number(global: Global, number: u64) -> Answer {
    Ok(format!(in global; "{number}")?.into_bytes())
}

/// A digest's text, for a row.
pub fn digest_text(global: Global, digest: &Digest) -> Answer {
    Ok(digest.write_text(global)?.into_bytes())
}

/// Adds a digest's text and a comma.
pub fn push_digest(global: Global, told: &mut Vec<u8>, digest: &Digest) -> Result<(), AllocError> {
    let text = digest.write_text(global)?;
    told.extend_from_slice(text.as_bytes())?;
    Ok(told.push(b',')?)
}

/// Adds a text and a comma.
pub fn push_text(told: &mut Vec<u8>, text: &[u8]) -> Result<(), AllocError> {
    told.extend_from_slice(text)?;
    Ok(told.push(b',')?)
}

/// The number that a field spells.
pub fn number_in(field: &[u8]) -> Result<u64, Broken> {
    let Ok(text) = str::from_utf8(field) else {
        return Err(Broken::NoRow);
    };
    match text.parse::<u64>() {
        Ok(number) => Ok(number),
        Err(_) => Err(Broken::NoRow),
    }
}

/// The limit of a store that a field spells.
pub fn limit_in(field: &[u8]) -> Result<u64, Broken>
    ensures { IfOk result (λ limit. limit < 2 ^ 63) }
{
    let limit = number_in(field)?;
    if limit < 1 << 63 {
        Ok(limit)
    } else {
        Err(Broken::NoRow)
    }
}

/// What a cache's refusal is called.
fn cache_text(global: Global, error: CacheError) -> Result<String, AllocError> {
    match error {
        CacheError::Incomplete(digest) => incomplete_text(global, &digest),
        error => Ok(format!(in global; "{error:?}")?),
    }
}

fn incomplete_text(global: Global, digest: &Digest) -> Result<String, AllocError> {
    let digest = digest.write_text(global)?;
    format!(in global; "Incomplete({digest})")
}

/// What a plan's refusal is called.
fn plan_text(global: Global, error: PlanError) -> Result<String, AllocError> {
    let PlanError { line, fault } = error;
    format!(in global; "{fault:?} in line {line}")
}

/// What a refusal is called.
fn refusal_text(global: Global, broken: Broken) -> Result<String, Broken> {
    match broken {
        Broken::Digest(e) => Ok(format!(in global; "{e:?}")?),
        Broken::Wire(e) => Ok(format!(in global; "{e:?}")?),
        Broken::Canon(e) => Ok(format!(in global; "{e:?}")?),
        Broken::Message(e) => Ok(format!(in global; "{e:?}")?),
        Broken::Bounded(e) => Ok(format!(in global; "{e:?}")?),
        Broken::Blob(e) => Ok(format!(in global; "{e:?}")?),
        Broken::Plan(e) => Ok(plan_text(global, e)?),
        Broken::Cache(e) => Ok(cache_text(global, e)?),
        broken => Err(broken),
    }
}

/// What is told before the number of a source's calls.
fn before_calls(text: &[u8]) -> &str {
    let (told, _) = word(text).rsplit_once("by ").unwrap_or(("", ""));
    told
}

/// Whether the texts differ in a number of a source's calls alone.
fn differ_in_calls(one: &[u8], other: &[u8]) -> bool {
    let told = before_calls(one);
    !told.is_empty() && told == before_calls(other)
}

/// Whether the row comes to what it says, where it may be but for the calls of a source. Notes what
/// it comes to otherwise.
pub fn compared(
    global: Global,
    row: &Row,
    answer: Answer,
    but_for_calls: bool,
    noted: &mut Vec<u8>,
) -> Result<(), Broken> {
    let told = match answer {
        Ok(told) => told,
        Err(broken) => refusal_text(global, broken)?.into_bytes(),
    };
    match row.fields.last() {
        Some(expected) if expected.as_slice() == told.as_slice() => Ok(()),
        Some(expected) if but_for_calls && differ_in_calls(expected, &told) => Ok(()),
        _ => {
            noted.extend_from_slice(&told)?;
            noted.extend_from_slice(b": ")?;
            noted.extend_from_slice(row.line.as_bytes())?;
            Err(Broken::Differs)
        }
    }
}
