ghost use Rattle.std.specs.Prelude.{◌≡◌, IfOk, length};

use std::alloc::{AllocError, Global};

/// How many bytes are read at once, and gathered to be written.
const PIECE: usize = 65536;

/// What the connections share for their turns.
#[derive(Drop)]
pub(crate) struct Desk {
    pub(crate) alloc: Global,
    pub(crate) buffer: Vec<u8, Global>,
    pub(crate) gathered: Vec<u8, Global>,
}

impl Desk {
    pub(crate) fn new(alloc: Global) -> Result<Desk, AllocError>
        ensures room { IfOk result (λ desk. length desk.buffer.items ≡ 65536) }
    {
        Ok(Desk {
            alloc,
            buffer: Vec::from_elem(alloc, 0, PIECE)?,
            gathered: Vec::with_capacity(alloc, PIECE)?,
        })
    }
}
