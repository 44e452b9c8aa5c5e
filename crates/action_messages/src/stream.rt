ghost use Rattle.std.specs.Prelude.{◌≡◌, ◌≤◌, ◌<◌, ◌+◌, ◌++◌, None, IsOk, OnOk, option_map};
ghost use Rattle.wire.specs.Record.{IsFieldNumber};
ghost use Rattle.wire.specs.Spelling.{spelling};
ghost use Rattle.canonical.specs.Fields.{bytes_field, message_field};
ghost use Rattle.messages.specs.DigestMessage.{digest_bytes};
ghost use Rattle.action_messages.specs.Stream.{IsStream};

use blob_digest::Digest;
use canonical::{write_bytes, write_message};
use messages::Encode;
use std::alloc::{AllocError, Allocator};
use std::marker::Model;

/// What a process wrote to standard output or standard error: bytes that stand in the result
/// itself, and the digest of a blob that holds them.
#[derive(Drop)]
#[derive_where(Debug)]
pub struct Stream<A: Allocator> {
    raw: Vec<u8, A>,
    digest: Option<Digest>,
}

impl<A: Allocator> Model for Stream<A> {
    ghost use Rattle.action_messages.specs.Stream.{StreamValue, IsStream};

    ghost Value = { StreamValue };

    ghost view = { λ a. record { raw = a.raw.items; digest = a.digest } };

    ghost invariant = { λ a. IsStream (record { raw = a.raw.items; digest = a.digest }) };
}

impl<A: Allocator> Stream<A> {
    /// What these fields say.
    pub fn new(raw: Vec<u8, A>, digest: Option<Digest>) -> Stream<A>
        ensures { result ≡ record { raw = raw.items; digest = digest } }
    {
        if let Some(digest) = &digest {
            let _ = digest.size();
        }
        Stream { raw, digest }
    }

    /// The bytes that stand in the result.
    pub fn raw(&self) -> &[u8]
        ensures value { result.now ≡ self.now.raw }
        ensures valid { IsStream self.now }
    {
        &self.raw
    }

    /// The digest of the blob.
    pub fn digest(&self) -> Option<Digest>
        ensures value { result ≡ self.now.digest }
        ensures valid { IsStream self.now }
    {
        self.digest
    }
}

/// Writes a digest as a single field, if there is one.
fn write_digest<A: Allocator + Copy>(
    alloc: A,
    out: &mut Vec<u8, A>,
    number: u32,
    digest: Option<Digest>,
) -> Result<(), AllocError>
    requires number { IsFieldNumber number }
    ensures appended { OnOk result
        (out.new.items
        ≡ out.old.items ++ spelling (message_field number (option_map digest_bytes digest))) }
    ensures absent { digest ≡ None → IsOk result }
{
    match digest {
        Some(digest) => write_message(out, number, Some(&digest.write(alloc)?)),
        None => Ok(()),
    }
}

/// Writes the bytes as the field of this number, and the digest as the next.
pub(crate) fn write_stream<A: Allocator + Copy>(
    alloc: A,
    out: &mut Vec<u8, A>,
    number: u32,
    stream: &Stream<A>,
) -> Result<(), AllocError>
    requires at_least { 1 ≤ number }
    requires at_most { number < 536870911 }
    ensures { OnOk result
        (out.new.items
        ≡ out.old.items ++ spelling (bytes_field number stream.now.raw)
        ++ spelling (message_field (number + 1) (option_map digest_bytes stream.now.digest))) }
{
    write_bytes(out, number, stream.raw())?;
    write_digest(alloc, out, number + 1, stream.digest())
}
