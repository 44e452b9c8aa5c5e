ghost use Rattle.std.specs.Prelude.{◌≡◌, ◌↔◌, IsTrue, IfOk, OnErr, IfSome, IsSome, string_bytes};
ghost use Rattle.std.specs.List.{list_all};
ghost use Rattle.http_core.specs.Host.{is_delimiter, is_host_byte, is_host};

use crate::prefix::is_unreserved;
use std::alloc::{AllocError, Allocator};
use std::marker::Model;

/// The server's name, or its address, and perhaps a port, as the `Host` field of a request has it.
#[derive(Drop)]
pub struct Host<A: Allocator> {
    text: String<A>,
}

impl<A: Allocator> Model for Host<A> {
    ghost use Rattle.std.specs.Prelude.{List, ℕ, IsTrue, string_bytes};
    ghost use Rattle.http_core.specs.Host.{is_host};

    ghost Value = { List ℕ };

    ghost view = { λ h. string_bytes h.text };

    ghost invariant = { λ h. IsTrue (is_host (string_bytes h.text)) };
}

fn is_delimiter(byte: u8) -> bool
    ensures { result ≡ is_delimiter byte }
{
    matches!(
        byte,
        b'!' | b'$' | b'&' | b'\'' | b'(' | b')' | b'*' | b'+' | b',' | b';' | b'='
    )
}

fn is_host_byte(byte: &u8) -> bool
    ensures { result ≡ is_host_byte byte.now }
{
    is_unreserved(byte) || is_delimiter(*byte) || matches!(*byte, b'%' | b':' | b'[' | b']')
}

fn are_host_bytes(text: &[u8]) -> bool
    ensures { result ≡ list_all is_host_byte text.now }
{
    text.iter().all(is_host_byte)
}

/// Whether a `Host` field may hold it.
fn is_host(text: &[u8]) -> bool
    ensures { result ≡ is_host text.now }
{
    !text.is_empty() && are_host_bytes(text)
}

impl<A: Allocator + Copy> Host<A> {
    /// Reads a host: one or more of the bytes that a URI's host and port have, so that no line of a
    /// request can end in it. Any other text is refused without memory.
    pub fn read(alloc: A, text: &str) -> Result<Option<Host<A>>, AllocError>
        ensures text { IfOk result (λ found. IfSome found (λ host. host ≡ text.now)) }
        ensures found { IfOk result (λ found. IsSome found ↔ IsTrue (is_host text.now)) }
        ensures memory { OnErr result (IsTrue (is_host text.now)) }
    {
        if !is_host(text.as_bytes()) {
            return Ok(None);
        }
        let text = String::from_str(alloc, text)?;
        Ok(Some(Host { text }))
    }

    /// A copy.
    pub fn copied(&self, alloc: A) -> Result<Host<A>, AllocError>
        ensures { IfOk result (λ host. host ≡ self.now) }
    {
        Ok(Host {
            text: String::from_str(alloc, &self.text)?,
        })
    }
}

impl<A: Allocator> Host<A> {
    /// The text of the host.
    pub fn as_str(&self) -> &str
        ensures { result.now ≡ self.now }
    {
        self.text.as_str()
    }
}
