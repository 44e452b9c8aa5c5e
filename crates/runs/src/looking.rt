ghost use Rattle.std.specs.Prelude.{◌≡◌, ◌↔◌, IfOk, IfErr, IsErrOf, IsSome, IsTrue};
ghost use Rattle.std.specs.Option.{option_copied};
ghost use Rattle.std.specs.List.{AllByRecursion};
ghost use Rattle.tree.specs.Memo.{IsKnownOf, WasRefused, Learns, known_by};
ghost use Rattle.blob_source.specs.Called.{Called};
ghost use Rattle.tree.specs.Folded.{IsFoldOfPassed};
ghost use Rattle.verifier.specs.Together.{AreThere};
ghost use Rattle.runs.specs.Engine.{at_number};
ghost use Rattle.runs.specs.Calls.{HaveAllFinished, IsRootFault};
ghost use Rattle.runs.specs.Ties.{IsRootOf, TellsConflict, TellsMissing};
ghost use Rattle.runs.specs.Served.{IsServedYes};
ghost use Rattle.runs.specs.LooksAt.{LinesNeed, RootNeeds};
ghost use Rattle.runs.specs.Looking.{ExplainsRefusal, StandsIn, outcomes_in, together_in};

use crate::engine::{Engine, Finished};
use crate::error::RunsError;
use actions::Outcome;
use plan::Line;
use std::alloc::Allocator;
use tree::{BlobSource, Folded, Memo, TreeError};
use verifier::{Outcomes, put_together};

/// What a step came to, if it has finished.
pub(crate) fn finished_at<A: Allocator>(
    finished: &[Option<Finished<A>>],
    step: usize,
) -> Option<&Finished<A>>
    ensures { option_copied result ≡ at_number finished.now step }
{
    match finished.get(step) {
        Some(Some(finished)) => Some(finished),
        _ => None,
    }
}

impl<'p, A: Allocator> Outcomes<A> for Engine<'p, A> {
    ghost came_to = { λ e. outcomes_in e.finished };

    fn outcome(&self, step: usize) -> Option<&Outcome<A>> {
        match finished_at(&self.finished, step) {
            Some(finished) => Some(&finished.outcome),
            None => None,
        }
    }
}

impl<'p, A: Allocator + Copy> Engine<'p, A> {
    /// The tree that lines put together. Refusals: `Origin`, `Source` and `Conflict`.
    pub(crate) fn put_together<S: BlobSource<A>>(
        &self,
        alloc: A,
        lines: &[Line<A>],
        memo: &mut Memo<A>,
        source: &mut S,
    ) -> Result<Folded<A>, RunsError<A>>
        requires there { AreThere (outcomes_in self.now.finished) lines.now }
        requires known { IsKnownOf (known_by memo.old) (S.tells source.old) }
        ensures told { IfOk result
            (IsFoldOfPassed (together_in (S.tells source.new).blobs self.now lines.now)) }
        ensures faulty { IfErr result
            (ExplainsRefusal (together_in (S.tells source.new).blobs self.now lines.now).fails) }
        ensures called { Called (S.tells source.old) (S.tells source.new)
            (IsErrOf result (RunsError.Source TreeError.Fetch)) }
        ensures learned { Learns (LinesNeed (S.tells source.new).blobs self.now lines.now)
            (WasRefused result)
            (known_by memo.old) (known_by memo.new) (S.tells source.old) (S.tells source.new) }
    {
        let folded = put_together(alloc, &self.sources, self, lines, memo, source)?;
        Ok(folded)
    }
}

/// Whether each step has finished.
fn have_all_finished<A: Allocator>(finished: &[Option<Finished<A>>]) -> bool
    ensures { IsTrue result ↔ AllByRecursion IsSome finished.now }
{
    for step in finished {
        if step.is_none() {
            return false;
        }
    }
    true
}

impl<'p, A: Allocator + Copy> Engine<'p, A> {
    /// The tree that the root's lines put together.
    fn merge_root<S: BlobSource<A>>(
        &self,
        alloc: A,
        memo: &mut Memo<A>,
        source: &mut S,
    ) -> Result<Folded<A>, RunsError<A>>
        requires there { AreThere (outcomes_in self.now.finished) self.now.plan.root_lines }
        requires known { IsKnownOf (known_by memo.old) (S.tells source.old) }
        ensures told { IfOk result (IsFoldOfPassed
            (together_in (S.tells source.new).blobs self.now self.now.plan.root_lines)) }
        ensures faulty { IfErr result (ExplainsRefusal
            (together_in (S.tells source.new).blobs self.now self.now.plan.root_lines).fails) }
        ensures called { Called (S.tells source.old) (S.tells source.new)
            (IsErrOf result (RunsError.Source TreeError.Fetch)) }
        ensures learned { Learns (LinesNeed (S.tells source.new).blobs self.now
            self.now.plan.root_lines)
            (WasRefused result)
            (known_by memo.old) (known_by memo.new) (S.tells source.old) (S.tells source.new) }
    {
        self.put_together(alloc, self.plan().root(), memo, source)
    }

    /// The tree in which the build ends: the digest of its root, and the Directories that putting
    /// it together made. Refusals: `NotReady` while a step hasn't finished, `Origin`, `Source` and
    /// `Conflict`. A Directory that the memo knows isn't fetched, and one that is fetched is kept.
    pub fn root_tree<S: BlobSource<A>>(
        &self,
        alloc: A,
        memo: &mut Memo<A>,
        source: &mut S,
    ) -> Result<Folded<A>, RunsError<A>>
        requires { IsKnownOf (known_by memo.old) (S.tells source.old) }
        ensures told { IfOk result (IsFoldOfPassed
            (together_in (S.tells source.new).blobs self.now self.now.plan.root_lines)) }
        ensures complete { IfOk result (λ _. HaveAllFinished self.now) }
        // Its root is that of the end of every run that the engine mirrors.
        ensures state { IfOk result
            (λ tree. IsRootOf (S.tells source.new).blobs self.now tree.root) }
        // With it, the recorded digests are answered yes wherever blobs and results serve the run.
        ensures served { IfOk result
            (λ tree. IsServedYes A (S.tells source.new).blobs self.now tree.root) }
        ensures refused { IfErr result (IsRootFault (S.tells source.new).blobs self.now) }
        ensures stands { IfErr result (StandsIn (S.tells source.new).blobs) }
        // `Origin` says that nothing stands at the origin in any run that the engine mirrors.
        ensures missing { IfErr result
            (TellsMissing (S.tells source.new).blobs self.now self.now.plan.root_lines) }
        // `Conflict` says that the lines don't merge in any run that the engine mirrors.
        ensures conflict { IfErr result
            (TellsConflict (S.tells source.new).blobs self.now self.now.plan.root_lines) }
        ensures called { Called (S.tells source.old) (S.tells source.new)
            (IsErrOf result (RunsError.Source TreeError.Fetch)) }
        // Of what the lines need, the source is asked at most once for each that isn't known; and
        // nothing else is learned.
        ensures learned { Learns (RootNeeds (S.tells source.new).blobs self.now)
            (WasRefused result)
            (known_by memo.old) (known_by memo.new) (S.tells source.old) (S.tells source.new) }
    {
        let _ = self.plan.root();
        if !have_all_finished(&self.finished) {
            return Err(RunsError::NotReady);
        }
        self.merge_root(alloc, memo, source)
    }
}
