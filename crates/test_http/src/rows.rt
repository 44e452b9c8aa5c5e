use std::alloc::{AllocError, Global};
use std::hash::RandomState;

/// What a row is about.
#[derive(Clone, Copy)]
pub struct Row<'a> {
    pub heap: Global,
    pub state: RandomState,
    /// What stands after its verb.
    pub words: &'a str,
    /// The bytes of a stream.
    pub stream: &'a [u8],
    /// The bytes of the stream that is opened after it.
    pub next: &'a [u8],
    /// The lengths of the pieces in which they come, in turn.
    pub lengths: [usize; 3],
}

impl<'a> Row<'a> {
    /// A row whose streams come in pieces of 1,000 bytes.
    pub fn new(
        heap: Global,
        state: RandomState,
        words: &'a str,
        stream: &'a [u8],
        next: &'a [u8],
    ) -> Row<'a> {
        Row {
            heap,
            state,
            words,
            stream,
            next,
            lengths: [1000, 1000, 1000],
        }
    }

    /// The stream in its pieces.
    pub fn pieces(&self) -> Result<Vec<&'a [u8]>, AllocError> {
        let mut pieces = Vec::new(self.heap);
        let mut rest = self.stream;
        for turn in 0..self.stream.len() {
            let (piece, more) = rest.split_at(self.lengths[turn % 3].min(rest.len()));
            rest = more;
            if !piece.is_empty() {
                pieces.push(piece)?;
            }
        }
        Ok(pieces)
    }
}
