//! Rows of the lines that tell a verdict, as docs/FORMATS.md spells them.
use crate::answers::{Answer, Broken, is, number_in, said};
use blob_digest::Digest;
use messages::Path;
use plan::StepName;
use report::{is_yes, report};
use std::alloc::{AllocError, Allocator, Global};
use verifier::{Cause, Place, Verdict};

pub fn answer<A: Allocator + Copy>(global: Global, alloc: A, fields: &[Vec<u8>]) -> Answer {
    match fields {
        [kind, root, steps, _] if is(kind, "yes") => {
            let root = Digest::read_text(root)?;
            let verdict: Verdict<A> = Verdict::Yes {
                root,
                steps: number_in(steps)?,
            };
            told(global, alloc, &verdict, true)
        }
        [place, number, named, _] => {
            let cause = cause_of(alloc, number_in(number)?, named)?;
            let verdict = Verdict::No(place_of(alloc, place)?, cause);
            told(global, alloc, &verdict, false)
        }
        _ => Err(Broken::NoRow),
    }
}

/// The line of the verdict, if that is a yes where it should be.
fn told<A: Allocator + Copy>(global: Global, alloc: A, verdict: &Verdict<A>, yes: bool) -> Answer {
    let line = report(alloc, verdict)?;
    if is_yes(verdict) == yes {
        said(global, line.as_str())
    } else {
        said(global, "no verdict")
    }
}

/// The step of this name, or the root where there is none.
fn place_of<A: Allocator + Copy>(alloc: A, name: &[u8]) -> Result<Place<A>, AllocError> {
    Ok(match StepName::new(alloc, name)? {
        Some(name) => Place::Step(name),
        None => Place::Root,
    })
}

/// The cause with this number, and with what it names: a digest or a path, or an exit code.
fn cause_of<A: Allocator + Copy>(alloc: A, number: u64, named: &[u8]) -> Result<Cause<A>, Broken> {
    Ok(match number {
        4 => Cause::DoNotCache,
        6 => Cause::FrameDiffers,
        10 => Cause::ResultMissing,
        11 => Cause::ResultMalformed,
        12 => Cause::ExitCode(code_in(named)?),
        5 | 7 | 8 | 9 | 13 | 15 => of_path(number, Path::new(alloc, named)?),
        _ => of_digest(number, Digest::read_text(named)?),
    })
}

fn code_in(field: &[u8]) -> Result<i32, Broken> {
    match str::from_utf8(field)?.parse::<i32>() {
        Ok(code) => Ok(code),
        Err(_) => Err(Broken::NoRow),
    }
}

fn of_path<A: Allocator>(number: u64, path: Path<A>) -> Cause<A> {
    match number {
        5 => Cause::OriginMissing(path),
        7 => Cause::InputUnexplained(path),
        8 => Cause::InputAbsent(path),
        9 => Cause::InputDiffers(path),
        15 => Cause::InputConflict(path),
        _ => Cause::OutputUnlisted(path),
    }
}

fn of_digest<A: Allocator>(number: u64, digest: Digest) -> Cause<A> {
    match number {
        1 => Cause::BlobMissing(digest),
        2 => Cause::BlobWrong(digest),
        3 => Cause::BlobMalformed(digest),
        _ => Cause::RootDiffers(digest),
    }
}
