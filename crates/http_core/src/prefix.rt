ghost use Rattle.std.specs.Prelude.{◌≡◌, ◌↔◌, ◌==◌, IsTrue, IfOk, OnErr, IfSome, IsSome};
ghost use Rattle.std.specs.List.{list_all, slice_split};
ghost use Rattle.http_core.specs.Prefix.{is_unreserved, is_prefix_segment, are_segments, is_prefix};

use std::alloc::{AllocError, Allocator};
use std::marker::Model;

/// The most bytes that a prefix has.
const MAX_PREFIX: usize = 256;

/// What stands before the area in each target: nothing, or segments, each after a slash.
#[derive(Drop)]
pub struct Prefix<A: Allocator> {
    text: Vec<u8, A>,
}

impl<A: Allocator> Model for Prefix<A> {
    ghost use Rattle.std.specs.Prelude.{List, ℕ, IsTrue};
    ghost use Rattle.http_core.specs.Prefix.{is_prefix};

    ghost Value = { List ℕ };

    ghost view = { λ a. a.text.items };

    ghost invariant = { λ a. IsTrue (is_prefix a.text.items) };
}

/// Whether the byte stands for itself in a segment.
pub(crate) fn is_unreserved(byte: &u8) -> bool
    ensures { result ≡ is_unreserved byte.now }
{
    byte.is_ascii_alphanumeric() || matches!(*byte, b'-' | b'.' | b'_' | b'~')
}

fn are_unreserved(text: &[u8]) -> bool
    ensures { result ≡ list_all is_unreserved text.now }
{
    text.iter().all(is_unreserved)
}

fn is_segment(text: &[u8]) -> bool
    ensures { result ≡ is_prefix_segment text.now }
{
    !text.is_empty() && are_unreserved(text)
}

fn all_are_segments(text: &[u8]) -> bool
    ensures { result ≡ list_all is_prefix_segment (slice_split (λ b. b == 47) text.now) }
{
    text.split(|byte| *byte == b'/').all(is_segment)
}

/// Whether it is a list of segments, each after a slash.
fn are_segments(text: &[u8]) -> bool
    ensures { result ≡ are_segments text.now }
{
    match text.split_first() {
        None => true,
        Some((first, rest)) => *first == b'/' && all_are_segments(rest),
    }
}

/// Whether it is a prefix.
fn is_prefix(text: &[u8]) -> bool
    ensures { result ≡ is_prefix text.now }
{
    text.len() <= MAX_PREFIX && are_segments(text)
}

impl<A: Allocator + Copy> Prefix<A> {
    /// Reads a prefix: nothing, or 2 to 256 bytes of segments, each a `/` and one or more of the
    /// unreserved characters of a URI. Any other text is refused without memory.
    pub fn read(alloc: A, text: &[u8]) -> Result<Option<Prefix<A>>, AllocError>
        ensures text { IfOk result (λ found. IfSome found (λ prefix. prefix ≡ text.now)) }
        ensures found { IfOk result (λ found. IsSome found ↔ IsTrue (is_prefix text.now)) }
        ensures memory { OnErr result (IsTrue (is_prefix text.now)) }
    {
        if !is_prefix(text) {
            return Ok(None);
        }
        let text = Vec::from_slice(alloc, text)?;
        Ok(Some(Prefix { text }))
    }

    /// A copy.
    pub fn copied(&self, alloc: A) -> Result<Prefix<A>, AllocError>
        ensures { IfOk result (λ prefix. prefix ≡ self.now) }
    {
        Ok(Prefix {
            text: Vec::from_slice(alloc, &self.text)?,
        })
    }
}

impl<A: Allocator> Prefix<A> {
    /// The bytes of the prefix.
    pub fn as_bytes(&self) -> &[u8]
        ensures { result.now ≡ self.now }
    {
        &self.text
    }
}
