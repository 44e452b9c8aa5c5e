//! What rows come to, as the text that they are compared with.
use blob_digest::DigestError;
use messages::MessageError;
use plan::ReadError;
use std::alloc::{AllocError, AllocFailed, Global};
use std::str::Utf8Error;
use test_support::Row;
use tree::FetchError;

/// Why a row has no answer.
#[derive(Clone, Copy)]
pub enum Broken {
    Memory,
    /// A row comes to something else than it says, which is noted.
    Differs,
    /// A request was refused, and that isn't told.
    Untold,
    /// The line is no row.
    NoRow,
}

pub type Answer = Result<String, Broken>;

impl From<AllocError> for Broken {
    fn from(_e: AllocError) -> Broken {
        Broken::Memory
    }
}

impl<T: Drop> From<AllocFailed<T>> for Broken {
    fn from(_e: AllocFailed<T>) -> Broken {
        Broken::Memory
    }
}

impl From<FetchError> for Broken {
    fn from(e: FetchError) -> Broken {
        match e {
            FetchError::Memory => Broken::Memory,
            FetchError::Failed => Broken::NoRow,
        }
    }
}

impl From<MessageError> for Broken {
    fn from(e: MessageError) -> Broken {
        match e {
            MessageError::Memory => Broken::Memory,
            _ => Broken::NoRow,
        }
    }
}

impl From<ReadError> for Broken {
    fn from(e: ReadError) -> Broken {
        match e {
            ReadError::Memory => Broken::Memory,
            ReadError::Faulty(_) => Broken::NoRow,
        }
    }
}

impl From<DigestError> for Broken {
    fn from(_e: DigestError) -> Broken {
        Broken::NoRow
    }
}

impl From<Utf8Error> for Broken {
    fn from(_e: Utf8Error) -> Broken {
        Broken::NoRow
    }
}

/// Whether the field is this word.
pub fn is(field: &[u8], word: &str) -> bool {
    field == word.as_bytes()
}

/// The field as a word, which is empty where the field is no text.
pub fn word(field: &[u8]) -> &str {
    str::from_utf8(field).unwrap_or("")
}

/// The text, for a row.
pub fn said(global: Global, text: &str) -> Answer {
    Ok(String::from_str(global, text)?)
}

/// The number that a field spells.
pub fn number_in(field: &[u8]) -> Result<u64, Broken> {
    match str::from_utf8(field)?.parse::<u64>() {
        Ok(number) => Ok(number),
        Err(_) => Err(Broken::NoRow),
    }
}

/// The count, or the number of a step, that a field spells.
pub fn count_in(field: &[u8]) -> Result<usize, Broken> {
    match usize::try_from(number_in(field)?) {
        Ok(count) => Ok(count),
        Err(_) => Err(Broken::NoRow),
    }
}

/// Whether the row comes to what it says. Notes what it comes to otherwise.
pub fn compared(row: &Row, told: &str, noted: &mut String) -> Result<(), Broken> {
    match row.fields.last() {
        Some(expected) if expected.as_slice() == told.as_bytes() => Ok(()),
        _ => {
            let line = row.line.as_str();
            write!(noted, "{told}: {line}")?;
            Err(Broken::Differs)
        }
    }
}
