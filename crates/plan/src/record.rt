ghost use Rattle.std.specs.Prelude.{◌≡◌, ◌≢◌, ◌↔◌, ◌≤◌, [], ◌∷◌, ◌++◌, List, ℕ, Err, IfOk, IfErr};
ghost use Rattle.std.specs.Prelude.{MatchResult, IsTrue, length, map};
ghost use Rattle.std.specs.List.{AllByRecursion};
ghost use Rattle.blob_digest.specs.Digest.{IsDigest};
ghost use Rattle.plan.specs.Line.{IsStepName, line_text, step_words};
ghost use Rattle.plan.specs.Parts.{BeginsWithEntry};
ghost use Rattle.plan.specs.Record.{RecordValue, IsRecord, IsNextEntryFault, IsEntryFault};
ghost use Rattle.plan.specs.Record.{names_of, Fits, entries_text, record_header, build_record_text};
ghost use Rattle.plan.specs.Record.{IsRecordFault};
ghost use Rattle.plan.specs.Reading.{FaultyUnlessMemory, ReadsUnlessMemory};
ghost use Rattle.plan.specs.declared.error.PlanError.{PlanError};

use crate::error::{Fault, ReadError};
use crate::plan::Plan;
use crate::step::{Step, StepName, write_step_line};
use crate::words::{StepLine, first_step, strip};
use blob_digest::Digest;
use std::alloc::{AllocError, Allocator};
use std::marker::Model;

const HEADER: &[u8] = b"buildrecord 1\n";

/// What a build recorded: the digest of the action of each step of a plan.
#[derive(Drop)]
#[derive_where(Debug)]
pub struct Record<A: Allocator> {
    names: Vec<StepName<A>, A>,
    digests: Vec<Digest, A>,
}

impl<A: Allocator> Model for Record<A> {
    ghost use Rattle.std.specs.Prelude.{◌≡◌, length};
    ghost use Rattle.plan.specs.Record.{RecordValue};

    ghost Value = { RecordValue };

    ghost view = { λ a. record { names = a.names.items; digests = a.digests.items } };

    ghost invariant = { λ a. length a.digests.items ≡ length a.names.items };
}

/// The entry of this name that the text begins with.
fn read_entry<'a>(text: &'a [u8], name: &[u8]) -> Result<StepLine<'a>, Fault>
    ensures { MatchResult result
        (λ line. IsDigest line.digest
        × (text.now ≡ line_text (step_words name.now line.digest) ++ line.behind.now))
        (λ fault. (more : List (List ℕ)) → IsNextEntryFault (name.now ∷ more) text.now fault) }
{
    if text.is_empty() {
        return Err(Fault::RecordDiffers);
    }
    match first_step(text) {
        Some(line) => {
            if line.name == name {
                Ok(line)
            } else {
                Err(Fault::RecordDiffers)
            }
        }
        None => Err(Fault::BadLine),
    }
}

/// The digests of the entries of these steps, the first of which is line 2.
fn read_entries<A: Allocator + Copy>(
    alloc: A,
    steps: &[Step<A>],
    text: &[u8],
) -> Result<Vec<Digest, A>, ReadError>
    requires valid { AllByRecursion (λ s. IsStepName s.name) steps.now }
    requires few { length steps.now ≤ 4096 }
    ensures found { IfOk result
        (λ digests. IsRecord
        (record { names = map (λ s. s.name) steps.now; digests = digests.items })
        × (text.now ≡ entries_text (map (λ s. s.name) steps.now) digests.items)) }
    ensures fault { IfErr result
        (FaultyUnlessMemory
        (IsEntryFault (map (λ s. s.name) steps.now) (record_header ++ text.now))) }
    // Line 2 takes no memory.
    ensures late { result ≡ Err ReadError.Memory
        → BeginsWithEntry (map (λ s. s.name) steps.now) text.now }
{
    let mut digests = Vec::new(alloc);
    let mut rest = text;
    for step in steps {
        match read_entry(rest, step.name.as_bytes()) {
            Ok(line) => {
                digests.push(line.digest)?;
                rest = line.behind;
            }
            Err(fault) => return Err(ReadError::at(digests.len() as u64 + 2, fault)),
        }
    }
    if rest.is_empty() {
        return Ok(digests);
    }
    Err(ReadError::at(digests.len() as u64 + 2, end_fault(rest)))
}

/// What is wrong with a text after the last entry.
fn end_fault(text: &[u8]) -> Fault
    requires { text.now ≢ [] }
    ensures { IsNextEntryFault [] text.now result }
{
    match first_step(text) {
        Some(_) => Fault::RecordDiffers,
        None => Fault::BadLine,
    }
}

fn copy_names<A: Allocator + Copy>(
    alloc: A,
    steps: &[Step<A>],
) -> Result<Vec<StepName<A>, A>, AllocError>
    ensures { IfOk result (λ names. names.items ≡ map (λ s. s.name) steps.now) }
{
    let mut names = Vec::new(alloc);
    for step in steps {
        names.push(StepName::copy_of(alloc, &step.name)?)?;
    }
    Ok(names)
}

impl<A: Allocator + Copy> Record<A> {
    /// The record of the plan with these digests, one a step.
    pub fn new(alloc: A, plan: &Plan<A>, digests: Vec<Digest, A>) -> Result<Record<A>, AllocError>
        requires { length digests.items ≡ length plan.now.steps }
        ensures { IfOk result
            (λ r. r ≡ record { names = names_of plan.now; digests = digests.items }) }
    {
        Ok(Record {
            names: copy_names(alloc, plan.steps())?,
            digests,
        })
    }

    /// The record of this text, for the plan. The first line at fault decides: its form
    /// (`BadHeader`, `BadLine`), then whether the plan's next step is another (`RecordDiffers`).
    pub fn read(alloc: A, text: &[u8], plan: &Plan<A>) -> Result<Record<A>, ReadError>
        // The text is that of the record, which is of the plan.
        ensures found { IfOk result
            (λ r. IsRecord r × Fits r plan.now × (text.now ≡ build_record_text r)) }
        // The record whose text it is is answered.
        ensures only { (r : RecordValue) → IsRecord r → Fits r plan.now
            → text.now ≡ build_record_text r → ReadsUnlessMemory result r }
        // Which line is at fault, and how.
        ensures fault { IfErr result
            (FaultyUnlessMemory (IsRecordFault (names_of plan.now) text.now)) }
        // Lines 1 and 2 take no memory.
        ensures early { (e : PlanError) → IsRecordFault (names_of plan.now) text.now e
            → e.line ≤ 2 → result ≡ Err (ReadError.Faulty e) }
    {
        let Some(rest) = strip(text, HEADER) else {
            return Err(ReadError::at(1, Fault::BadHeader));
        };
        let digests = read_entries(alloc, plan.steps(), rest)?;
        Ok(Record::new(alloc, plan, digests)?)
    }

    /// The text of the record.
    pub fn write(&self, alloc: A) -> Result<Vec<u8, A>, AllocError>
        ensures { IfOk result (λ text. text.items ≡ build_record_text self.now) }
    {
        let mut text = Vec::new(alloc);
        text.extend_from_slice(HEADER)?;
        for (number, name) in self.names.iter().enumerate() {
            write_step_line(alloc, &mut text, name, &self.digests[number])?;
        }
        Ok(text)
    }

    /// The digests, one for each step in order.
    pub fn digests(&self) -> &[Digest]
        ensures value { result.now ≡ self.now.digests }
        ensures same_length { length self.now.digests ≡ length self.now.names }
    {
        self.digests.as_slice()
    }

    /// Whether the names are those of the plan's steps, in order.
    pub fn fits(&self, plan: &Plan<A>) -> bool
        ensures fits { IsTrue result ↔ Fits self.now plan.now }
        ensures same_length { length self.now.digests ≡ length self.now.names }
    {
        let steps = plan.steps();
        if self.names.len() != steps.len() {
            return false;
        }
        for (number, name) in self.names.iter().enumerate() {
            let step = &steps[number];
            if name.as_bytes() != step.name.as_bytes() {
                return false;
            }
        }
        true
    }
}
