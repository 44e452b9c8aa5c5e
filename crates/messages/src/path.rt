ghost use Rattle.std.specs.Prelude.{◌≡◌, ◌↔◌, ℕ, List, [], ◌∷◌, IsTrue, IfOk, Ok, Err};
ghost use Rattle.std.specs.Prelude.{length};
ghost use Rattle.std.specs.List.{list_all};
ghost use Rattle.messages.specs.declared.error.MessageError.TheVariants as errors;
ghost use Rattle.messages.specs.Gives.{GivesUnlessMemory, RefusesBeforeMemory};
ghost use Rattle.messages.specs.Name.{is_segment};
ghost use Rattle.std.specs.Str.Iter.{split_text, split_has_more, split_pattern};
ghost use Rattle.messages.specs.Path.{path_below, IsPath, is_path, parts_of, path_of, path_text};
ghost use Rattle.messages.specs.Path.{text_cmp};

use crate::error::MessageError;
use crate::name::{Name, is_segment};
use std::alloc::{AllocError, Allocator};
use std::cmp::Ordering;
use std::marker::Model;
use std::str::Split;

/// A path: 1 to 64 names, joined by `/`. Contracts see its names. It has no `Ord`: as text
/// `a-b` comes before `a/x`, by names after it (`compare_text`).
#[derive(Drop)]
#[derive_where(Debug)]
#[derive_where(Clone; A)]
pub struct Path<A: Allocator> {
    text: String<A>,
}

impl<A: Allocator> Model for Path<A> {
    ghost use Rattle.std.specs.Prelude.{List, ℕ};
    ghost use Rattle.std.specs.String.{string_bytes};
    ghost use Rattle.messages.specs.Path.{IsPath, parts_of};

    ghost Value = { List (List ℕ) };

    ghost view = { λ a. parts_of (string_bytes a.text) };

    ghost invariant = { λ a. IsPath (parts_of (string_bytes a.text)) };
}

fn part_count(text: &str) -> usize
    ensures { result ≡ length (parts_of text.now) }
{
    text.split('/').count()
}

fn are_segments(text: &str) -> bool
    ensures { result ≡ list_all is_segment (parts_of text.now) }
{
    text.split('/').all(|part| is_segment(part.as_bytes()))
}

/// Whether the text is that of a path. It takes no memory.
pub fn is_path(text: &str) -> bool
    ensures test { result ≡ is_path text.now }
    ensures rule { IsTrue result ↔ IsPath (parts_of text.now) }
{
    part_count(text) < 65 && are_segments(text)
}

fn read_path<A: Allocator>(alloc: A, text: &[u8]) -> Result<Path<A>, MessageError>
    ensures exact { GivesUnlessMemory (λ p. p) result (path_of text.now) }
    ensures refused { RefusesBeforeMemory result (path_of text.now) }
{
    match str::from_utf8(text) {
        Ok(text) if is_path(text) => Ok(Path {
            text: String::from_str(alloc, text)?,
        }),
        _ => Err(MessageError::BadPath),
    }
}

impl<A: Allocator> Path<A> {
    /// The path of this text. `BadPath` where it is none.
    pub fn new(alloc: A, text: &[u8]) -> Result<Path<A>, MessageError>
        ensures found { IfOk result (λ path. IsPath path × (text.now ≡ path_text path)) }
        ensures only { (path : List (List ℕ)) → IsPath path → text.now ≡ path_text path
            → GivesUnlessMemory (λ p. p) result (Ok path) }
        ensures exact { GivesUnlessMemory (λ p. p) result (path_of text.now) }
        ensures refused { RefusesBeforeMemory result (path_of text.now) }
    {
        read_path(alloc, text)
    }

    /// A copy of the path, over another allocator.
    pub fn copy_of<B: Allocator>(alloc: A, path: &Path<B>) -> Result<Path<A>, AllocError>
        ensures { IfOk result (λ p. p ≡ path.now) }
    {
        Ok(Path {
            text: String::from_str(alloc, path.text.as_str())?,
        })
    }

    /// The path of one name.
    pub fn of_name<B: Allocator>(alloc: A, name: &Name<B>) -> Result<Path<A>, AllocError>
        ensures { IfOk result (λ p. p ≡ name.now ∷ []) }
    {
        Ok(Path {
            text: String::from_str(alloc, name.as_str())?,
        })
    }

    /// The path of one more name below this one. `BadPath` where this one has 64 names.
    pub fn below<B: Allocator, C: Allocator>(
        alloc: A,
        parent: &Path<B>,
        name: &Name<C>,
    ) -> Result<Path<A>, MessageError>
        ensures exact { GivesUnlessMemory (λ p. p) result (path_below parent.now name.now) }
        ensures refused { RefusesBeforeMemory result (path_below parent.now name.now) }
    {
        if part_count(parent.as_str()) == 64 {
            return Err(MessageError::BadPath);
        }
        let mut text = String::from_str(alloc, parent.as_str())?;
        text.push('/')?;
        text.push_str(name.as_str())?;
        Ok(Path { text })
    }

    /// The names, one after another.
    pub fn names(&self) -> Split<'_, char>
        ensures text { split_text result ≡ path_text self.now }
        ensures has_more { IsTrue (split_has_more result) }
        ensures pattern { split_pattern result ≡ 47 }
        ensures parts { parts_of (split_text result) ≡ self.now }
    {
        self.as_str().split('/')
    }

    /// The names, each as a value of its own.
    pub fn to_names<B: Allocator + Copy>(&self, alloc: B) -> Result<Vec<Name<B>, B>, AllocError>
        ensures value { IfOk result (λ names. names.items ≡ self.now) }
        ensures valid { IsPath self.now }
    {
        let mut names = Vec::new(alloc);
        let text = self.as_str();
        for name in text.split('/') {
            names.push(Name::of_part(alloc, name)?)?;
        }
        Ok(names)
    }

    /// The text.
    pub fn as_str(&self) -> &str
        ensures value { result.now ≡ path_text self.now }
        ensures parts { parts_of result.now ≡ self.now }
        ensures valid { IsPath self.now }
    {
        self.text.as_str()
    }

    /// The bytes of the text.
    pub fn as_bytes(&self) -> &[u8]
        ensures value { result.now ≡ path_text self.now }
        ensures parts { parts_of result.now ≡ self.now }
        ensures valid { IsPath self.now }
    {
        self.text.as_bytes()
    }

    /// The order of the two texts by their bytes, in which messages list paths. It is not that of
    /// the names.
    pub fn compare_text<B: Allocator>(&self, other: &Path<B>) -> Ordering
        ensures { result ≡ text_cmp self.now other.now }
    {
        self.as_bytes().cmp(other.as_bytes())
    }
}
