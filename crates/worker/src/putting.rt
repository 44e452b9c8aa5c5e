ghost use Rattle.std.specs.Prelude.{◌≡◌, ◌+◌, ◌-◌, ◌<◌, ◌≤◌, [], ◌∷◌, ◌++◌, Some, IsSome, IfErr};
ghost use Rattle.std.specs.Prelude.{OnOk, length};
ghost use Rattle.std.specs.Result.{IsErrAnd};
ghost use Rattle.blob_digest.specs.Digest.{digest_of};
ghost use Rattle.action_messages.specs.Action.{action_bytes};
ghost use Rattle.wire.specs.Bytes.{IsBytes};
ghost use Rattle.blob_source.specs.Sink.{HasRight};
ghost use Rattle.runs.specs.Engine.{finished_in};
ghost use Rattle.worker.specs.Storing.{HasPut, HasPutAll, HasResultOf, IsKeptBut, IsResultOfStep};
ghost use Rattle.worker.specs.Storing.{StaysPut, WerePut, not_put};
ghost use Rattle.worker.specs.Outcomes.{HasAllRight, HasTrees, directories_of, tree_blobs};
ghost use Rattle.worker.specs.Counted.{Counts, IsFetch};
ghost use Rattle.tree.specs.Folded.{items_of};
ghost use Rattle.worker.specs.Stopped.{IsStoreFault};
ghost use Rattle.worker.specs.Stored.{IsKept, PutsNoOther};

use crate::error::StepRefusal;
use actions::{Outcome, Output};
use blob_digest::Digest;
use messages::Tree;
use runs::{Engine, Job};
use std::alloc::Allocator;
use std::collections::BTreeSet;
use tree::BlobSink;

/// Puts blobs, each under its digest. Refusals: `Fetch` and `Memory`. Any of them may have been put
/// then.
#[tactic(auto, using(crate::proofs::Keeping::kept_none, crate::proofs::Keeping::kept_trans, crate::proofs::Keeping::kept_blob))]
pub fn put_all<A: Allocator + Copy, S: BlobSink<A>>(
    alloc: A,
    sink: &mut S,
    blobs: &[Vec<u8, A>],
) -> Result<(), StepRefusal<A>>
    ensures kept { IsKept (S.tells sink.old) (S.tells sink.new) }
    ensures held { OnOk result (HasAllRight (S.tells sink.new).blobs (items_of blobs.now)) }
    // What stands under the digest of none of them stays.
    ensures only { PutsNoOther (items_of blobs.now) (S.tells sink.old).blobs
        (S.tells sink.new).blobs }
    // The store is called at most once for each.
    ensures once { (S.tells sink.new).calls ≤ (S.tells sink.old).calls + length blobs.now }
    ensures failed { IfErr result IsStoreFault }
    ensures fetched { Counts (S.tells sink.old).failures (S.tells sink.new).failures
        (IsErrAnd result IsFetch) }
{
    for blob in blobs {
        sink.put_blob(alloc, blob)?;
    }
    Ok(())
}

/// Puts a blob, unless it was put before.
#[tactic(auto, using(crate::proofs::Keeping::kept_none, crate::proofs::Keeping::kept_blob, crate::proofs::PutOnce::one_call))]
fn put_once<A: Allocator + Copy, S: BlobSink<A>>(
    alloc: A,
    sink: &mut S,
    put: &mut BTreeSet<Digest, A>,
    blob: &[u8],
) -> Result<(), StepRefusal<A>>
    requires put { WerePut put.old (S.tells sink.old).blobs }
    ensures put { WerePut put.new (S.tells sink.new).blobs }
    ensures kept { IsKept (S.tells sink.old) (S.tells sink.new) }
    ensures held { OnOk result (HasRight (S.tells sink.new).blobs (digest_of blob.now)) }
    ensures stays { StaysPut put.old put.new }
    ensures listed { OnOk result (HasPut put.new (digest_of blob.now)) }
    ensures only { PutsNoOther (blob.now ∷ []) (S.tells sink.old).blobs (S.tells sink.new).blobs }
    ensures once { (S.tells sink.new).calls
        ≤ (S.tells sink.old).calls + not_put put.old (blob.now ∷ []) }
    ensures failed { IfErr result IsStoreFault }
    ensures fetched { Counts (S.tells sink.old).failures (S.tells sink.new).failures
        (IsErrAnd result IsFetch) }
{
    let digest = Digest::of(blob);
    if put.contains(&digest) {
        return Ok(());
    }
    sink.put_blob(alloc, blob)?;
    put.insert(digest)?;
    Ok(())
}

/// Puts the action of a job and the Directories of its input.
#[tactic(auto, using(crate::proofs::Keeping::kept_none, crate::proofs::Keeping::kept_trans, crate::proofs::Keeping::kept_blob))]
pub(crate) fn put_input<A: Allocator + Copy, S: BlobSink<A>>(
    alloc: A,
    sink: &mut S,
    put: &mut BTreeSet<Digest, A>,
    job: &Job<A>,
) -> Result<(), StepRefusal<A>>
    requires put { WerePut put.old (S.tells sink.old).blobs }
    ensures put { WerePut put.new (S.tells sink.new).blobs }
    ensures kept { IsKept (S.tells sink.old) (S.tells sink.new) }
    ensures held { OnOk result
        (HasRight (S.tells sink.new).blobs (digest_of (action_bytes job.now.action))) }
    ensures input { OnOk result
        (HasAllRight (S.tells sink.new).blobs (items_of job.now.input.directories.items)) }
    ensures stays { StaysPut put.old put.new }
    ensures listed { OnOk result (HasPutAll put.new (items_of job.now.input.directories.items)) }
    ensures only { PutsNoOther (action_bytes job.now.action
        ∷ items_of job.now.input.directories.items)
        (S.tells sink.old).blobs (S.tells sink.new).blobs }
    // The store is called for the action, and at most once for each Directory that wasn't put.
    ensures once { (S.tells sink.new).calls ≤ (S.tells sink.old).calls + 1
        + not_put put.old (items_of job.now.input.directories.items) }
    ensures failed { IfErr result IsStoreFault }
    ensures fetched { Counts (S.tells sink.old).failures (S.tells sink.new).failures
        (IsErrAnd result IsFetch) }
{
    let action = job.action.encode(alloc)?;
    sink.put_blob(alloc, &action)?;
    for directory in &job.input.directories {
        put_once(alloc, sink, put, directory)?;
    }
    Ok(())
}

/// Puts the Directories of a Tree.
#[tactic(auto, using(crate::proofs::Keeping::kept_none, crate::proofs::Keeping::kept_trans, crate::proofs::Keeping::kept_blob))]
fn put_directories<A: Allocator + Copy, S: BlobSink<A>>(
    alloc: A,
    sink: &mut S,
    tree: &Tree<A>,
) -> Result<(), StepRefusal<A>>
    ensures kept { IsKept (S.tells sink.old) (S.tells sink.new) }
    ensures held { OnOk result
        (HasAllRight (S.tells sink.new).blobs (directories_of tree.now)) }
    ensures only { PutsNoOther (directories_of tree.now) (S.tells sink.old).blobs
        (S.tells sink.new).blobs }
    ensures once { OnOk result
        ((S.tells sink.new).calls ≤ (S.tells sink.old).calls + length (directories_of tree.now)) }
    ensures failed { IfErr result IsStoreFault }
    ensures fetched { Counts (S.tells sink.old).failures (S.tells sink.new).failures
        (IsErrAnd result IsFetch) }
{
    sink.put_blob(alloc, &tree.root().encode(alloc)?)?;
    for child in tree.children() {
        sink.put_blob(alloc, &child.encode(alloc)?)?;
    }
    Ok(())
}

/// Puts the Trees among the outputs, and their Directories.
#[tactic(auto, using(crate::proofs::Keeping::kept_none, crate::proofs::Keeping::kept_trans, crate::proofs::Keeping::kept_blob))]
pub(crate) fn put_trees<A: Allocator + Copy, S: BlobSink<A>>(
    alloc: A,
    sink: &mut S,
    outcome: &Outcome<A>,
) -> Result<(), StepRefusal<A>>
    ensures kept { IsKept (S.tells sink.old) (S.tells sink.new) }
    ensures held { OnOk result (HasTrees (S.tells sink.new).blobs outcome.now) }
    ensures only { PutsNoOther (tree_blobs outcome.now.outputs) (S.tells sink.old).blobs
        (S.tells sink.new).blobs }
    // The store is called at most once for each Tree and each of its Directories.
    ensures once { OnOk result ((S.tells sink.new).calls
        ≤ (S.tells sink.old).calls + length (tree_blobs outcome.now.outputs)) }
    ensures failed { IfErr result IsStoreFault }
    ensures fetched { Counts (S.tells sink.old).failures (S.tells sink.new).failures
        (IsErrAnd result IsFetch) }
{
    for output in outcome.outputs() {
        if let Output::Tree(tree) = &output.1 {
            put_directories(alloc, sink, tree)?;
            sink.put_blob(alloc, &tree.encode(alloc)?)?;
        }
    }
    Ok(())
}

/// Puts the encoding of a result under the digest of an action.
fn put_encoded<A: Allocator + Copy, S: BlobSink<A>>(
    alloc: A,
    sink: &mut S,
    action: &Digest,
    bytes: &[u8],
) -> Result<(), StepRefusal<A>>
    ensures kept { IsKeptBut action.now (λ b. b ≡ bytes.now) (S.tells sink.old) (S.tells sink.new) }
    ensures held { OnOk result ((S.tells sink.new).results action.now ≡ Some bytes.now) }
    ensures listed { OnOk result
        ((S.tells sink.new).puts ≡ (S.tells sink.old).puts ++ action.now ∷ []) }
    ensures blobs { (S.tells sink.new).blobs ≡ (S.tells sink.old).blobs }
    // For the prover: what is in a slice are bytes.
    ensures bytes { IsBytes bytes.now }
    ensures failed { IfErr result IsStoreFault }
    ensures fetched { Counts (S.tells sink.old).failures (S.tells sink.new).failures
        (IsErrAnd result IsFetch) }
{
    sink.put_result(alloc, action, bytes)?;
    Ok(())
}

/// Puts the result of a step that has finished under the digest of an action.
pub(crate) fn put_outcome<A: Allocator + Copy, S: BlobSink<A>>(
    alloc: A,
    engine: &Engine<'_, A>,
    sink: &mut S,
    step: usize,
    action: &Digest,
) -> Result<(), StepRefusal<A>>
    requires { IsSome (finished_in step engine.now) }
    // What is put, or may have been, reads as the step's result.
    ensures kept { IsKeptBut action.now (IsResultOfStep engine.now step)
        (S.tells sink.old) (S.tells sink.new) }
    ensures put { OnOk result (HasResultOf (S.tells sink.new) engine.now step action.now) }
    ensures listed { OnOk result
        ((S.tells sink.new).puts ≡ (S.tells sink.old).puts ++ action.now ∷ []) }
    ensures blobs { (S.tells sink.new).blobs ≡ (S.tells sink.old).blobs }
    ensures failed { IfErr result IsStoreFault }
    ensures fetched { Counts (S.tells sink.old).failures (S.tells sink.new).failures
        (IsErrAnd result IsFetch) }
{
    let result = engine.result(alloc, step)?.encode(alloc)?;
    put_encoded(alloc, sink, action, &result)
}
