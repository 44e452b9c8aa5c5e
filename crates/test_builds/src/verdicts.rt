//! Rows of verdicts: changes of the stock's build, and the verdict on it.
use crate::answers::{Answer, Broken, is, said};
use crate::calls::{with_digest, with_path};
use crate::stock::{Case, case_of, source_of};
use blob_digest::Digest;
use plan::{Plan, Record};
use std::alloc::{Allocator, Global};
use test_support::Row;
use tree::MemorySource;
use verifier::{Cause, Place, Verdict, VerifyError, verify};

/// The verdict on the changed build, and by the change `calls` how often the source was called.
pub fn answer<A: Allocator + Copy>(
    global: Global,
    alloc: A,
    stock: &[Row],
    changes: &[Vec<u8>],
) -> Answer {
    let case = case_of(global, stock, changes)?;
    let mut source = source_of(alloc, stock, changes)?;
    let told = told_of(global, alloc, &case, &mut source)?;
    if changes.iter().any(|change| is(change, "calls")) {
        let calls = source.calls();
        return Ok(format!(in global; "{told} by {calls}")?);
    }
    Ok(told)
}

fn told_of<A: Allocator + Copy>(
    global: Global,
    alloc: A,
    case: &Case,
    source: &mut MemorySource<A>,
) -> Answer {
    let texts = (case.plan.as_bytes(), case.record.as_bytes());
    let verdict = judged(alloc, texts, &case.sources, &case.claim, source)?;
    Ok(verdict_told(global, &verdict)?)
}

/// The verdict on the plan and the record of these texts.
pub fn judged<A: Allocator + Copy>(
    alloc: A,
    (plan, record): (&[u8], &[u8]),
    sources: &Digest,
    claim: &Digest,
    source: &mut MemorySource<A>,
) -> Result<Verdict<A>, Broken> {
    let plan = Plan::read(alloc, plan)?;
    let record = Record::read(alloc, record, &plan)?;
    match verify(alloc, sources, &plan, &record, claim, source) {
        Ok(verdict) => Ok(verdict),
        Err(VerifyError::Memory) => Err(Broken::Memory),
        Err(VerifyError::Fetch) => Err(Broken::NoRow),
    }
}

/// The number of a cause, and what it names.
fn cause_shown<A: Allocator>(global: Global, cause: &Cause<A>) -> Answer {
    match cause {
        Cause::DoNotCache => said(global, "4"),
        Cause::FrameDiffers => said(global, "6"),
        Cause::ResultMissing => said(global, "10"),
        Cause::ResultMalformed => said(global, "11"),
        Cause::ExitCode(code) => Ok(format!(in global; "12 {code}")?),
        Cause::BlobMissing(digest) => with_digest(global, 1, digest),
        Cause::BlobWrong(digest) => with_digest(global, 2, digest),
        Cause::BlobMalformed(digest) => with_digest(global, 3, digest),
        Cause::RootDiffers(root) => with_digest(global, 14, root),
        cause => path_shown(global, cause),
    }
}

/// The number of a cause that names a path, and this.
fn path_shown<A: Allocator>(global: Global, cause: &Cause<A>) -> Answer {
    let (number, path) = match cause {
        Cause::OriginMissing(path) => (5, path),
        Cause::InputUnexplained(path) => (7, path),
        Cause::InputAbsent(path) => (8, path),
        Cause::InputDiffers(path) => (9, path),
        Cause::OutputUnlisted(path) => (13, path),
        Cause::InputConflict(path) => (15, path),
        _ => return Err(Broken::NoRow),
    };
    with_path(global, number, path)
}

/// A verdict as the rows spell it.
pub fn verdict_told<A: Allocator>(global: Global, verdict: &Verdict<A>) -> Answer {
    match verdict {
        Verdict::Yes { root, steps } => {
            let root = root.write_text(global)?;
            Ok(format!(in global; "yes {root} steps {steps}")?)
        }
        Verdict::No(place, cause) => {
            let place = place_told(global, place)?;
            let cause = cause_shown(global, cause)?;
            Ok(format!(in global; "{place} {cause}")?)
        }
    }
}

fn place_told<A: Allocator>(global: Global, place: &Place<A>) -> Answer {
    match place {
        Place::Root => said(global, "root"),
        Place::Step(name) => {
            let name = name.as_str();
            Ok(format!(in global; "step {name}")?)
        }
    }
}
