ghost use Rattle.std.specs.Prelude.{◌≡◌, ◌∷◌, ◌++◌, List, ℕ, Contains, MatchOption};
ghost use Rattle.blob_digest.specs.Digest.{DigestValue, IsDigest};
ghost use Rattle.plan.specs.Faults.{BeginsWithLine};
ghost use Rattle.plan.specs.Line.{Begins, IsStepName, line_text, step_words};
ghost use Rattle.plan.specs.Lines.{step_line};

use crate::step::is_step_name;
use blob_digest::Digest;

/// What follows these bytes at the front.
pub(crate) fn strip<'a>(text: &'a [u8], front: &[u8]) -> Option<&'a [u8]>
    ensures { MatchOption result (¬ Begins front.now text.now)
        (λ rest. text.now ≡ front.now ++ rest.now) }
{
    text.strip_prefix(front)
}

/// What stands before the first such byte, and what after it.
pub(crate) fn split_once(text: &[u8], byte: u8) -> Option<(&[u8], &[u8])>
    ensures { MatchOption result (¬ Contains text.now byte)
        (λ parts. (text.now ≡ parts.0.now ++ byte ∷ parts.1.now) × ¬ Contains parts.0.now byte) }
{
    let place = text.iter().position(|b| *b == byte)?;
    let (front, rest) = text.split_at(place);
    Some((front, &rest[1..]))
}

/// The name and the digest of the words `step NAME HASH/SIZE`.
fn read_step_words(words: &[u8]) -> Option<(&[u8], Digest)>
    ensures { MatchOption result
        ((name : List ℕ) (digest : DigestValue) → IsStepName name → IsDigest digest
        → ¬ (words.now ≡ step_words name digest))
        (λ r. IsStepName r.0.now × IsDigest r.1 × (words.now ≡ step_words r.0.now r.1)) }
{
    let rest = strip(words, b"step ")?;
    let (name, digest) = split_once(rest, b' ')?;
    if !is_step_name(name) {
        return None;
    }
    match Digest::read_text(digest) {
        Ok(digest) => Some((name, digest)),
        Err(_) => None,
    }
}

/// The line `step NAME HASH/SIZE` that a text begins with.
#[derive(Clone, Copy)]
pub(crate) struct StepLine<'a> {
    pub(crate) name: &'a [u8],
    pub(crate) digest: Digest,
    /// The text after the line.
    pub(crate) behind: &'a [u8],
}

/// The line `step NAME HASH/SIZE` that the text begins with. `None` where it begins with none.
pub(crate) fn first_step(text: &[u8]) -> Option<StepLine<'_>>
    ensures { MatchOption result
        ((name : List ℕ) (digest : DigestValue) → ¬ BeginsWithLine (step_line name digest) text.now)
        (λ r. IsStepName r.name.now × IsDigest r.digest
        × (text.now ≡ line_text (step_words r.name.now r.digest) ++ r.behind.now)) }
{
    let (words, behind) = split_once(text, b'\n')?;
    match read_step_words(words) {
        Some((name, digest)) => Some(StepLine {
            name,
            digest,
            behind,
        }),
        None => None,
    }
}
