ghost use Rattle.std.specs.Prelude.{◌≡◌, ◌≤◌, ◌+◌, List, [], Err, IfOk, IsErrOf, MatchOption};
ghost use Rattle.std.specs.Prelude.{length, slice_get};
ghost use Rattle.std.specs.List.{AllByRecursion};
ghost use Rattle.plan.specs.Values.{IsLine};
ghost use Rattle.plan.specs.Plan.{AreSteps, IsPlan};
ghost use Rattle.plan.specs.Record.{Fits};
ghost use Rattle.blob_source.specs.Called.{Called};
ghost use Rattle.tree.specs.Memo.{Asked, AsksNoOther, Covers, IsKnownOf, Learns, known_by};
ghost use Rattle.tree.specs.Folded.{IsFoldOfPassed};
ghost use Rattle.verifier.specs.Answers.{IsChecked, IsMadeOther, IsNoOther, IsStopped};
ghost use Rattle.verifier.specs.Checks.{Checks};
ghost use Rattle.verifier.specs.Headline.{EveryRunEndsIn, NoRunIsStuck};
ghost use Rattle.verifier.specs.LooksAt.{PlanLooksAt, RootLooksAt, StepsLookAt};
ghost use Rattle.verifier.specs.Made.{HandsOut};
ghost use Rattle.verifier.specs.Together.{put_together};
ghost use Rattle.verifier.specs.Verdict.{root_check, IsVerdict, IsYes};
ghost use Rattle.verifier.specs.declared.verdict.Cause.TheVariants.{RootDiffers};

use crate::error::VerifyError;
use crate::fault::Fault;
use crate::made::{Made, made_of};
use crate::origins::together;
use crate::steps::check_step;
use crate::verdict::{Cause, Place, Verdict};
use actions::Outcome;
use blob_digest::Digest;
use plan::{Line, Plan, Record, Step, StepName};
use std::alloc::{AllocError, Allocator};
use tree::{BlobSource, Folded, Memo};

/// The verdict, and what builds make, where that isn't the claim.
#[derive(Drop)]
#[derive_where(Debug)]
pub struct Judged<A: Allocator> {
    pub verdict: Verdict<A>,
    pub made: Option<Made<A>>,
}

/// What was recorded of all steps, or the first fault and its step.
#[derive(Drop)]
enum Checked<A: Allocator> {
    Outcomes(Vec<Outcome<A>, A>),
    First(StepName<A>, Cause<A>),
}

/// The cause that a fault is, unless the source failed or memory ran out.
fn cause_in<A: Allocator>(fault: Fault<A>) -> Result<Cause<A>, VerifyError>
    ensures cause { IfOk result (λ c. fault ≡ Fault.Cause c) }
    ensures failed { IsErrOf result VerifyError.Fetch → fault ≡ Fault.Fetch }
    ensures memory { IsErrOf result VerifyError.Memory → fault ≡ Fault.Memory }
    ensures told { fault ≡ Fault.Fetch → IsErrOf result VerifyError.Fetch }
{
    match fault {
        Fault::Cause(cause) => Ok(cause),
        Fault::Fetch => Err(VerifyError::Fetch),
        Fault::Memory => Err(VerifyError::Memory),
    }
}

/// The outcomes of the steps, each with its recorded action, up to the first fault.
fn check_steps<A: Allocator + Copy, S: BlobSource<A>>(
    alloc: A,
    sources: &Digest,
    steps: &[Step<A>],
    recorded: &[Digest],
    memo: &mut Memo<A>,
    source: &mut S,
) -> Result<Checked<A>, VerifyError>
    requires valid { AreSteps [] steps.now }
    requires each { length recorded.now ≡ length steps.now }
    requires known { IsKnownOf (known_by memo.old) (S.tells source.old) }
    ensures checked { IfOk result (IsChecked (S.tells source.new) sources.now steps.now
        recorded.now) }
    ensures called { Called (S.tells source.old) (S.tells source.new)
        (IsErrOf result VerifyError.Fetch) }
    ensures learned { Learns (StepsLookAt A (S.tells source.new) sources.now [] steps.now
        recorded.now) (IsStopped result)
        (known_by memo.old) (known_by memo.new) (S.tells source.old) (S.tells source.new) }
{
    let mut outcomes = Vec::new(alloc);
    for (index, step) in steps.iter().enumerate() {
        match check_step(
            alloc,
            sources,
            &outcomes,
            step,
            &recorded[index],
            memo,
            source,
        ) {
            Ok(outcome) => outcomes.push(outcome)?,
            Err(fault) => {
                let cause = cause_in(fault)?;
                return Ok(Checked::First(StepName::copy_of(alloc, &step.name)?, cause));
            }
        }
    }
    Ok(Checked::Outcomes(outcomes))
}

/// The check of the root, and the tree that its lines put together, where that isn't the claim.
#[derive(Drop)]
struct RootChecked<A: Allocator> {
    check: Result<(), Fault<A>>,
    other: Option<Folded<A>>,
}

/// The lines of the root put the claim together. The steps came to these outcomes.
fn check_root<A: Allocator + Copy, S: BlobSource<A>>(
    alloc: A,
    sources: &Digest,
    outcomes: &[Outcome<A>],
    lines: &[Line<A>],
    claim: &Digest,
    memo: &mut Memo<A>,
    source: &mut S,
) -> RootChecked<A>
    requires valid { AllByRecursion (IsLine (length outcomes.now)) lines.now }
    requires known { IsKnownOf (known_by memo.old) (S.tells source.old) }
    ensures checked { Checks
        (λ tells. root_check tells sources.now outcomes.now lines.now claim.now)
        (λ tells. RootLooksAt A tells sources.now outcomes.now lines.now)
        (known_by memo.old) (known_by memo.new) (S.tells source.old) (S.tells source.new)
        result.check }
    ensures other { MatchOption result.other (IsNoOther result.check) (λ made.
        IsFoldOfPassed (put_together (S.tells source.new).blobs sources.now
        (slice_get outcomes.now) lines.now) made
        × (result.check ≡ Err (Fault.Cause (RootDiffers made.root)))) }
{
    let made = match together(alloc, sources, outcomes, lines, memo, source) {
        Ok(made) => made,
        Err(fault) => {
            return RootChecked {
                check: Err(fault),
                other: None,
            };
        }
    };
    if made.root == *claim {
        return RootChecked {
            check: Ok(()),
            other: None,
        };
    }
    RootChecked {
        check: Err(Fault::Cause(Cause::RootDiffers(made.root))),
        other: Some(made),
    }
}

/// What builds make, whose steps come to these outcomes, where their root isn't the claim.
fn made_other<A: Allocator + Copy>(
    alloc: A,
    other: Option<Folded<A>>,
    outcomes: &[Outcome<A>],
) -> Result<Option<Made<A>>, AllocError>
    ensures { IfOk result (λ made. IsMadeOther other outcomes.now made) }
{
    match other {
        Some(root) => Ok(Some(made_of(alloc, root, outcomes)?)),
        None => Ok(None),
    }
}

/// The verdict, as far as it is told by what is checked.
fn decide<A: Allocator + Copy, S: BlobSource<A>>(
    alloc: A,
    sources: &Digest,
    plan: &Plan<A>,
    recorded: &[Digest],
    claim: &Digest,
    memo: &mut Memo<A>,
    source: &mut S,
) -> Result<Judged<A>, VerifyError>
    requires each { length recorded.now ≡ length plan.now.steps }
    requires known { IsKnownOf (known_by memo.old) (S.tells source.old) }
    ensures verdict { IfOk result (λ judged. IsVerdict (S.tells source.new) sources.now plan.now
        recorded.now claim.now judged.verdict) }
    ensures made { IfOk result (λ judged. HandsOut (S.tells source.new) sources.now plan.now
        recorded.now judged.verdict judged.made) }
    ensures valid { IsPlan plan.now }
    ensures called { Called (S.tells source.old) (S.tells source.new)
        (IsErrOf result VerifyError.Fetch) }
    ensures learned { Learns (PlanLooksAt A (S.tells source.new) sources.now plan.now
        recorded.now) (Unit {0})
        (known_by memo.old) (known_by memo.new) (S.tells source.old) (S.tells source.new) }
{
    let outcomes = match check_steps(alloc, sources, plan.steps(), recorded, memo, source)? {
        Checked::First(name, cause) => {
            return Ok(Judged {
                verdict: Verdict::No(Place::Step(name), cause),
                made: None,
            });
        }
        Checked::Outcomes(outcomes) => outcomes,
    };
    let RootChecked { check, other } = check_root(
        alloc,
        sources,
        &outcomes,
        plan.root(),
        claim,
        memo,
        source,
    );
    match check {
        Err(fault) => {
            let cause = cause_in(fault)?;
            let made = made_other(alloc, other, &outcomes)?;
            Ok(Judged {
                verdict: Verdict::No(Place::Root, cause),
                made,
            })
        }
        Ok(()) => Ok(Judged {
            verdict: Verdict::Yes {
                root: *claim,
                steps: outcomes.len() as u64,
            },
            made: None,
        }),
    }
}

/// The verdict on a plan and its record, as `verify` gives it, and what builds of the plan make,
/// where that isn't the claim.
pub fn judge<A: Allocator + Copy, S: BlobSource<A>>(
    alloc: A,
    sources: &Digest,
    plan: &Plan<A>,
    record: &Record<A>,
    claim: &Digest,
    source: &mut S,
) -> Result<Judged<A>, VerifyError>
    requires { Fits «record».now plan.now }
    // The one verdict, by what the source tells.
    ensures verdict { IfOk result (λ judged. IsVerdict (S.tells source.new) sources.now plan.now
        «record».now.digests claim.now judged.verdict) }
    ensures made { IfOk result (λ judged. HandsOut (S.tells source.new) sources.now plan.now
        «record».now.digests judged.verdict judged.made) }
    // Where it is yes, every complete run of the plan ends in exactly the claimed root, and no run
    // is ever stuck: each can be finished.
    ensures holds { IfOk result (λ judged. IsYes judged.verdict
        → EveryRunEndsIn (S.tells source.new).blobs (S.tells source.new).results
        sources.now plan.now «record».now.digests claim.now) }
    ensures unstuck { IfOk result (λ judged. IsYes judged.verdict
        → NoRunIsStuck (S.tells source.new).blobs (S.tells source.new).results
        sources.now plan.now «record».now.digests) }
    ensures called { Called (S.tells source.old) (S.tells source.new)
        (IsErrOf result VerifyError.Fetch) }
    // Of what the checks look at, up to the first fault, the source is asked at most once for each.
    ensures few { (list : List Asked)
        → Covers (PlanLooksAt A (S.tells source.new) sources.now plan.now
        «record».now.digests) list
        → (S.tells source.new).calls ≤ (S.tells source.old).calls + length list }
    // And for no other blob.
    ensures only { AsksNoOther (PlanLooksAt A (S.tells source.new) sources.now plan.now
        «record».now.digests) (S.tells source.old) (S.tells source.new) }
{
    let mut memo = Memo::new(alloc);
    decide(
        alloc,
        sources,
        plan,
        record.digests(),
        claim,
        &mut memo,
        source,
    )
}

/// The verdict on a plan and its record. Yes says that every build of the plan, from sources with
/// this digest, ends in the claimed root, under the premises of `EveryRunEndsIn`; no says what the
/// first fault is, and where. The record says which actions the steps had. The steps are checked in
/// the order of the plan, and then the lines of the root. No blob is asked for but those that the
/// checks look at: messages (`only_messages_are_looked_at`), and so no file's content.
pub fn verify<A: Allocator + Copy, S: BlobSource<A>>(
    alloc: A,
    sources: &Digest,
    plan: &Plan<A>,
    record: &Record<A>,
    claim: &Digest,
    source: &mut S,
) -> Result<Verdict<A>, VerifyError>
    requires { Fits «record».now plan.now }
    // The one verdict, by what the source tells.
    ensures verdict { IfOk result (IsVerdict (S.tells source.new) sources.now plan.now
        «record».now.digests claim.now) }
    // Where it is yes, every complete run of the plan ends in exactly the claimed root, and no run
    // is ever stuck: each can be finished.
    ensures holds { IfOk result (λ verdict. IsYes verdict
        → EveryRunEndsIn (S.tells source.new).blobs (S.tells source.new).results
        sources.now plan.now «record».now.digests claim.now) }
    ensures unstuck { IfOk result (λ verdict. IsYes verdict
        → NoRunIsStuck (S.tells source.new).blobs (S.tells source.new).results
        sources.now plan.now «record».now.digests) }
    ensures called { Called (S.tells source.old) (S.tells source.new)
        (IsErrOf result VerifyError.Fetch) }
    // Of what the checks look at, up to the first fault, the source is asked at most once for each.
    ensures few { (list : List Asked)
        → Covers (PlanLooksAt A (S.tells source.new) sources.now plan.now
        «record».now.digests) list
        → (S.tells source.new).calls ≤ (S.tells source.old).calls + length list }
    // And for no other blob.
    ensures only { AsksNoOther (PlanLooksAt A (S.tells source.new) sources.now plan.now
        «record».now.digests) (S.tells source.old) (S.tells source.new) }
{
    let judged = judge(alloc, sources, plan, record, claim, source)?;
    Ok(judged.verdict)
}
