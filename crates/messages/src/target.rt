ghost use Rattle.std.specs.Prelude.{◌≡◌, IfOk, Ok};
ghost use Rattle.messages.specs.Gives.{GivesUnlessMemory, RefusesBeforeMemory};
ghost use Rattle.messages.specs.Target.{is_link, IsTarget, target_of};

use crate::error::MessageError;
use std::alloc::{AllocError, Allocator};
use std::marker::Model;

/// Where a symbolic link leads: 1 to 4,096 bytes of UTF-8 without NUL.
#[derive(Drop)]
#[derive_where(Debug)]
#[derive_where(Clone; A)]
pub struct Target<A: Allocator> {
    text: String<A>,
}

impl<A: Allocator> Model for Target<A> {
    ghost use Rattle.std.specs.Prelude.{List, ℕ};
    ghost use Rattle.std.specs.String.{string_bytes};
    ghost use Rattle.messages.specs.Target.{IsTarget};

    ghost Value = { List ℕ };

    ghost view = { λ a. string_bytes a.text };

    ghost invariant = { λ a. IsTarget (string_bytes a.text) };
}

impl<A: Allocator> PartialEq for Target<A> {
    ghost use Rattle.std.specs.Prelude.{nat_eq};
    ghost use Rattle.std.specs.Cmp.Lexicographic.{pointwise};
    ghost use Rattle.std.proofs.Common.{rules};
    ghost use Rattle.std.specs.Cmp.Rules.{comparing};

    ghost eq = { pointwise nat_eq };

    ghost laws = { Prim.search (comparing, rules) };

    fn eq(&self, other: &Target<A>) -> bool {
        self.text.as_bytes() == other.text.as_bytes()
    }
}

impl<A: Allocator> Eq for Target<A> {
    ghost use Rattle.std.proofs.Common.{rules};
    ghost use Rattle.std.specs.Cmp.Rules.{comparing};

    ghost laws = { Prim.search (comparing, rules) };
}

/// Whether the bytes are those of a target, but for UTF-8.
fn is_link(bytes: &[u8]) -> bool
    ensures { result ≡ is_link bytes.now }
{
    !bytes.is_empty() && bytes.len() < 4097 && !bytes.contains(&0)
}

fn read_target<A: Allocator>(alloc: A, text: &[u8]) -> Result<Target<A>, MessageError>
    ensures exact { GivesUnlessMemory (λ n. n) result (target_of text.now) }
    ensures refused { RefusesBeforeMemory result (target_of text.now) }
{
    match str::from_utf8(text) {
        Ok(text) if is_link(text.as_bytes()) => Ok(Target {
            text: String::from_str(alloc, text)?,
        }),
        _ => Err(MessageError::BadPath),
    }
}

impl<A: Allocator> Target<A> {
    /// The target of these bytes. `BadPath` where they are none.
    pub fn new(alloc: A, text: &[u8]) -> Result<Target<A>, MessageError>
        ensures found { IfOk result (λ target. IsTarget target × (text.now ≡ target)) }
        ensures only { IsTarget text.now → GivesUnlessMemory (λ n. n) result (Ok text.now) }
        ensures exact { GivesUnlessMemory (λ n. n) result (target_of text.now) }
        ensures refused { RefusesBeforeMemory result (target_of text.now) }
    {
        read_target(alloc, text)
    }

    /// A copy of the target, over another allocator.
    pub fn copy_of<B: Allocator>(alloc: A, target: &Target<B>) -> Result<Target<A>, AllocError>
        ensures { IfOk result (λ t. t ≡ target.now) }
    {
        Ok(Target {
            text: String::from_str(alloc, target.text.as_str())?,
        })
    }

    /// The text.
    pub fn as_str(&self) -> &str
        ensures value { result.now ≡ self.now }
        ensures valid { IsTarget self.now }
    {
        self.text.as_str()
    }

    /// The bytes of the text.
    pub fn as_bytes(&self) -> &[u8]
        ensures value { result.now ≡ self.now }
        ensures valid { IsTarget self.now }
    {
        self.as_str().as_bytes()
    }
}
