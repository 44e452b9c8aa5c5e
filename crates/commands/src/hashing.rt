ghost use Rattle.std.specs.Prelude.{◌≡◌, IfOk};
ghost use Rattle.commands.specs.Hashed.{IsDigestOfRest};

use blob_digest::{Digest, Hasher};
use std::io;
use std::io::{ErrorKind, Read};

/// How many bytes are read at a time at most.
const PIECE: usize = 65_536;

/// The most bytes that are hashed.
const GREATEST: u64 = 1_152_921_504_606_846_976;

/// The digest of what a file has from here to its end, which is hashed in pieces.
pub(crate) fn digest_to_end<F: Read>(file: &mut F) -> io::Result<Digest>
    ensures { IfOk result (IsDigestOfRest (F.remaining file.old)) }
{
    let mut hasher = Hasher::new();
    let mut buffer = [0; PIECE];
    'pieces: while hasher.taken() < GREATEST {
        let count = file.read(&mut buffer)?;
        if count == 0 {
            return Ok(hasher.finish());
        }
        let (piece, _) = buffer.split_at(count);
        hasher.update(piece);
    }
    Err(io::Error::from(ErrorKind::FileTooLarge))
}
