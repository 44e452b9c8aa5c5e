ghost use Rattle.std.specs.Prelude.{◌≡◌, IfOk, Ok};
ghost use Rattle.messages.specs.Gives.{GivesUnlessMemory, RefusesBeforeMemory};
ghost use Rattle.messages.specs.Name.{is_dots, is_segment, IsName, name_of};

use crate::error::MessageError;
use std::alloc::{AllocError, Allocator};
use std::cmp::Ordering;
use std::marker::Model;

/// The name of a file, a directory or a symbolic link: 1 to 255 bytes of UTF-8 without `/` and
/// NUL, and neither `.` nor `..`. Names are ordered by their bytes.
#[derive(Drop)]
#[derive_where(Debug)]
#[derive_where(Clone; A)]
pub struct Name<A: Allocator> {
    text: String<A>,
}

impl<A: Allocator> Model for Name<A> {
    ghost use Rattle.std.specs.Prelude.{List, ℕ};
    ghost use Rattle.std.specs.String.{string_bytes};
    ghost use Rattle.messages.specs.Name.{IsName};

    ghost Value = { List ℕ };

    ghost view = { λ a. string_bytes a.text };

    ghost invariant = { λ a. IsName (string_bytes a.text) };
}

impl<A: Allocator> PartialEq for Name<A> {
    ghost use Rattle.std.specs.Prelude.{nat_eq};
    ghost use Rattle.std.specs.Cmp.Lexicographic.{pointwise};
    ghost use Rattle.std.proofs.Common.{rules};
    ghost use Rattle.std.specs.Cmp.Rules.{comparing};

    ghost eq = { pointwise nat_eq };

    ghost laws = { Prim.search (comparing, rules) };

    fn eq(&self, other: &Name<A>) -> bool {
        self.text.as_bytes() == other.text.as_bytes()
    }
}

impl<A: Allocator> Eq for Name<A> {
    ghost use Rattle.std.proofs.Common.{rules};
    ghost use Rattle.std.specs.Cmp.Rules.{comparing};

    ghost laws = { Prim.search (comparing, rules) };
}

impl<A: Allocator> Ord for Name<A> {
    ghost use Rattle.std.specs.Ordering.{nat_cmp};
    ghost use Rattle.std.specs.Cmp.Lexicographic.{slice_cmp, nat_list_cmp_total};
    ghost use Rattle.std.proofs.Common.{rules};
    ghost use Rattle.std.specs.Cmp.Rules.{comparing};

    ghost cmp = { slice_cmp nat_cmp };

    ghost total = { nat_list_cmp_total };

    ghost matches_partial_cmp = { Prim.search (comparing, rules) };

    ghost matches_eq = { Prim.search (comparing, rules) };

    fn cmp(&self, other: &Name<A>) -> Ordering {
        self.text.as_bytes().cmp(other.text.as_bytes())
    }
}

impl<A: Allocator> PartialOrd for Name<A> {
    ghost use Rattle.std.specs.Ordering.{nat_cmp, as_partial_cmp};
    ghost use Rattle.std.specs.Cmp.Lexicographic.{slice_cmp, texts_po};

    ghost partial_cmp = { as_partial_cmp (slice_cmp nat_cmp) };

    ghost laws = { texts_po };

    fn partial_cmp(&self, other: &Name<A>) -> Option<Ordering> {
        Some(self.cmp(other))
    }
}

fn is_dots(text: &[u8]) -> bool
    ensures { result ≡ is_dots text.now }
{
    match text {
        [a] => *a == b'.',
        [a, b] => *a == b'.' && *b == b'.',
        _ => false,
    }
}

/// Whether the bytes are those of a name, but for UTF-8.
pub(crate) fn is_segment(bytes: &[u8]) -> bool
    ensures { result ≡ is_segment bytes.now }
{
    !bytes.is_empty()
        && bytes.len() < 256
        && !bytes.contains(&b'/')
        && !bytes.contains(&0)
        && !is_dots(bytes)
}

fn read_name<A: Allocator>(alloc: A, text: &[u8]) -> Result<Name<A>, MessageError>
    ensures exact { GivesUnlessMemory (λ n. n) result (name_of text.now) }
    ensures refused { RefusesBeforeMemory result (name_of text.now) }
{
    match str::from_utf8(text) {
        Ok(text) if is_segment(text.as_bytes()) => Ok(Name {
            text: String::from_str(alloc, text)?,
        }),
        _ => Err(MessageError::BadName),
    }
}

impl<A: Allocator> Name<A> {
    /// The name of these bytes. `BadName` where they are none.
    pub fn new(alloc: A, text: &[u8]) -> Result<Name<A>, MessageError>
        ensures found { IfOk result (λ name. IsName name × (text.now ≡ name)) }
        ensures only { IsName text.now → GivesUnlessMemory (λ n. n) result (Ok text.now) }
        ensures exact { GivesUnlessMemory (λ n. n) result (name_of text.now) }
        ensures refused { RefusesBeforeMemory result (name_of text.now) }
    {
        read_name(alloc, text)
    }

    /// The name of a text that is one.
    pub(crate) fn of_part(alloc: A, text: &str) -> Result<Name<A>, AllocError>
        requires { IsName text.now }
        ensures { IfOk result (λ n. n ≡ text.now) }
    {
        Ok(Name {
            text: String::from_str(alloc, text)?,
        })
    }

    /// A copy of the name, over another allocator.
    pub fn copy_of<B: Allocator>(alloc: A, name: &Name<B>) -> Result<Name<A>, AllocError>
        ensures { IfOk result (λ n. n ≡ name.now) }
    {
        Ok(Name {
            text: String::from_str(alloc, name.text.as_str())?,
        })
    }

    /// The text.
    pub fn as_str(&self) -> &str
        ensures value { result.now ≡ self.now }
        ensures valid { IsName self.now }
    {
        self.text.as_str()
    }

    /// The bytes of the text.
    pub fn as_bytes(&self) -> &[u8]
        ensures value { result.now ≡ self.now }
        ensures valid { IsName self.now }
    {
        self.as_str().as_bytes()
    }
}
