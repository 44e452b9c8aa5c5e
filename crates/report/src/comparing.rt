ghost use Rattle.std.specs.Prelude.{◌≡◌, ◌↔◌, IfOk, IsTrue, OnOk, codes, decimal};
ghost use Rattle.std.specs.Prelude.{string_bytes};
ghost use Rattle.blob_digest.specs.Text.{digest_text};
ghost use Rattle.plan.specs.Escape.{escaped_path};
ghost use Rattle.report.specs.Compared.{IsSame, compared_line, differ_line, digests_line};
ghost use Rattle.report.specs.Compared.{same_text, step_words};
ghost use Rattle.report.specs.Line.{HasNoNewline, IsOneLine};

use crate::compared::Compared;
use blob_digest::Digest;
use messages::Path;
use plan::{StepName, write_path};
use std::alloc::{AllocError, Allocator};

/// `same`, the root and the number of steps.
fn same_line<A: Allocator + Copy>(
    alloc: A,
    root: &Digest,
    steps: u64,
) -> Result<String<A>, AllocError>
    ensures value { IfOk result (λ text. string_bytes text ≡ same_text root.now steps) }
    ensures one { OnOk result (IsOneLine (same_text root.now steps)) }
{
    // A read for the prover: a digest's hash has 32 bytes.
    let _ = root.hash();
    let root = root.write_text(alloc)?;
    format!(in alloc; "same {root} steps {steps}\n")
}

/// `differ`, what does, and two words on it.
fn differ_line<A: Allocator + Copy>(
    alloc: A,
    what: &str,
    one: &str,
    other: &str,
) -> Result<String<A>, AllocError>
    requires what { HasNoNewline what.now }
    requires one { HasNoNewline one.now }
    requires other { HasNoNewline other.now }
    ensures value { IfOk result
        (λ text. string_bytes text ≡ differ_line what.now one.now other.now) }
    ensures one { OnOk result (IsOneLine (differ_line what.now one.now other.now)) }
{
    format!(in alloc; "differ {what} {one} {other}\n")
}

/// `differ`, what does, and the two digests.
fn digests_line<A: Allocator + Copy>(
    alloc: A,
    what: &str,
    one: &Digest,
    other: &Digest,
) -> Result<String<A>, AllocError>
    requires { HasNoNewline what.now }
    ensures value { IfOk result
        (λ text. string_bytes text ≡ digests_line what.now one.now other.now) }
    ensures one { OnOk result (IsOneLine (digests_line what.now one.now other.now)) }
{
    // Reads for the prover: a digest's hash has 32 bytes.
    let _ = one.hash();
    let _ = other.hash();
    let one = one.write_text(alloc)?;
    let other = other.write_text(alloc)?;
    differ_line(alloc, what, one.as_str(), other.as_str())
}

/// The line of plans that differ first in a line.
fn plans_line<A: Allocator + Copy>(alloc: A, line: u64) -> Result<String<A>, AllocError>
    ensures value { IfOk result
        (λ text. string_bytes text ≡ differ_line (codes "plan") (codes "line") (decimal line)) }
    ensures one { OnOk result
        (IsOneLine (differ_line (codes "plan") (codes "line") (decimal line))) }
{
    let number = format!(in alloc; "{line}")?;
    differ_line(alloc, "plan", "line", number.as_str())
}

/// `step`, the step's name, and what follows.
fn step_words<A: Allocator + Copy, B: Allocator>(
    alloc: A,
    name: &StepName<B>,
    words: &str,
) -> Result<String<A>, AllocError>
    requires { HasNoNewline words.now }
    ensures value { IfOk result (λ text. string_bytes text ≡ step_words name.now words.now) }
    ensures unbroken { OnOk result (HasNoNewline (step_words name.now words.now)) }
{
    let name = name.as_str();
    format!(in alloc; "step {name}{words}")
}

/// The line of a step whose action came to outcomes that differ first at a path.
fn step_line<A: Allocator + Copy, B: Allocator>(
    alloc: A,
    name: &StepName<B>,
    action: &Digest,
    path: &Path<B>,
) -> Result<String<A>, AllocError>
    ensures value { IfOk result (λ text. string_bytes text ≡ differ_line
        (step_words name.now (codes " action")) (digest_text action.now)
        (escaped_path path.now)) }
    ensures one { OnOk result (IsOneLine (differ_line (step_words name.now (codes " action"))
        (digest_text action.now) (escaped_path path.now))) }
{
    // A read for the prover: a digest's hash has 32 bytes.
    let _ = action.hash();
    let what = step_words(alloc, name, " action")?;
    let action = action.write_text(alloc)?;
    let path = write_path(alloc, path)?;
    differ_line(alloc, what.as_str(), action.as_str(), path.as_str())
}

/// The line of a step that has two actions.
fn actions_line<A: Allocator + Copy, B: Allocator>(
    alloc: A,
    name: &StepName<B>,
    one: &Digest,
    other: &Digest,
) -> Result<String<A>, AllocError>
    ensures value { IfOk result (λ text. string_bytes text
        ≡ digests_line (step_words name.now (codes " actions")) one.now other.now) }
    ensures one { OnOk result
        (IsOneLine (digests_line (step_words name.now (codes " actions")) one.now other.now)) }
{
    let what = step_words(alloc, name, " actions")?;
    digests_line(alloc, what.as_str(), one, other)
}

/// The one line of what is said of two builds, with its newline: `same`, the root and the number of
/// steps; or `differ` and what does.
pub fn report_compared<A: Allocator + Copy, B: Allocator>(
    alloc: A,
    compared: &Compared<B>,
) -> Result<String<A>, AllocError>
    ensures value { IfOk result (λ text. string_bytes text ≡ compared_line compared.now) }
    // No newline stands before the one at its end.
    ensures one { OnOk result (IsOneLine (compared_line compared.now)) }
{
    match compared {
        Compared::Same { root, steps } => same_line(alloc, root, *steps),
        Compared::Plans { line } => plans_line(alloc, *line),
        Compared::Sources { one, other } => digests_line(alloc, "sources", one, other),
        Compared::Step { name, action, path } => step_line(alloc, name, action, path),
        Compared::Actions { name, one, other } => actions_line(alloc, name, one, other),
        Compared::Roots { one, other } => digests_line(alloc, "root", one, other),
    }
}

/// Whether the builds are the same.
pub fn is_same<B: Allocator>(compared: &Compared<B>) -> bool
    ensures { IsTrue result ↔ IsSame compared.now }
{
    matches!(compared, Compared::Same { .. })
}
