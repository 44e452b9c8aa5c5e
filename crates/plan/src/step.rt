ghost use Rattle.std.specs.Prelude.{◌≡◌, ◌↔◌, ◌++◌, IsTrue, Ok, None, IfOk, OnOk, IfSome, IfNone};
ghost use Rattle.plan.specs.Line.{IsStepName, line_text, step_words};

use crate::line::Line;
use blob_digest::Digest;
use std::alloc::{AllocError, Allocator};
use std::marker::Model;

/// The name of a step: 1 to 64 of `a` to `z`, `0` to `9`, `_` and `-`.
#[derive(Drop)]
#[derive_where(Debug)]
pub struct StepName<A: Allocator> {
    text: String<A>,
}

impl<A: Allocator> Model for StepName<A> {
    ghost use Rattle.std.specs.Prelude.{List, ℕ};
    ghost use Rattle.std.specs.String.{string_bytes};
    ghost use Rattle.plan.specs.Line.{IsStepName};

    ghost Value = { List ℕ };

    ghost view = { λ a. string_bytes a.text };

    ghost invariant = { λ a. IsStepName (string_bytes a.text) };
}

/// Whether the bytes are those of a step's name. It takes no memory.
pub fn is_step_name(name: &[u8]) -> bool
    ensures { IsTrue result ↔ IsStepName name.now }
{
    !name.is_empty()
        && name.len() <= 64
        && name
            .iter()
            .all(|b| matches!(*b, b'a'..=b'z' | b'0'..=b'9' | b'_' | b'-'))
}

impl<A: Allocator> StepName<A> {
    /// The name of these bytes. `None` where they are no name.
    pub fn new(alloc: A, name: &[u8]) -> Result<Option<StepName<A>>, AllocError>
        ensures found { IfOk result (λ read. IfSome read (λ n. IsStepName n × (n ≡ name.now))) }
        ensures none { IfOk result (λ read. IfNone read (¬ IsStepName name.now)) }
        // It takes no memory to refuse.
        ensures refused { ¬ IsStepName name.now → result ≡ Ok None }
    {
        if !is_step_name(name) {
            return Ok(None);
        }
        Ok(Some(StepName::of_valid(alloc, name)?))
    }

    /// The name of bytes that are one.
    pub(crate) fn of_valid(alloc: A, name: &[u8]) -> Result<StepName<A>, AllocError>
        requires { IsStepName name.now }
        ensures { IfOk result (λ n. n ≡ name.now) }
    {
        Ok(StepName {
            text: String::from_str(alloc, str::from_utf8(name).unwrap())?,
        })
    }

    /// A copy of the name, over another allocator.
    pub fn copy_of<B: Allocator>(alloc: A, name: &StepName<B>) -> Result<StepName<A>, AllocError>
        ensures { IfOk result (λ n. n ≡ name.now) }
    {
        Ok(StepName {
            text: String::from_str(alloc, name.text.as_str())?,
        })
    }

    /// The text.
    pub fn as_str(&self) -> &str
        ensures value { result.now ≡ self.now }
        ensures valid { IsStepName self.now }
    {
        self.text.as_str()
    }

    /// The bytes of the text.
    pub fn as_bytes(&self) -> &[u8]
        ensures value { result.now ≡ self.now }
        ensures valid { IsStepName self.now }
    {
        self.as_str().as_bytes()
    }
}

/// A step of a plan: the digest of its action without an input, and the lines of its input.
#[derive(Drop)]
#[derive_where(Debug)]
pub struct Step<A: Allocator> {
    pub name: StepName<A>,
    pub frame: Digest,
    pub lines: Vec<Line<A>, A>,
}

impl<A: Allocator> Model for Step<A> {
    ghost use Rattle.plan.specs.Values.{StepValue};

    ghost Value = { StepValue };

    ghost view = { λ a. record { name = a.name; frame = a.frame; lines = a.lines.items } };
}

/// Writes the line of a step, or of an entry of a record, at the end of the text.
pub(crate) fn write_step_line<A: Allocator + Copy>(
    alloc: A,
    text: &mut Vec<u8, A>,
    name: &StepName<A>,
    digest: &Digest,
) -> Result<(), AllocError>
    ensures { OnOk result
        (text.new.items ≡ text.old.items ++ line_text (step_words name.now digest.now)) }
{
    text.extend_from_slice(b"step ")?;
    text.extend_from_slice(name.as_bytes())?;
    text.push(b' ')?;
    text.extend_from_slice(digest.write_text(alloc)?.as_bytes())?;
    text.push(b'\n')?;
    Ok(())
}
