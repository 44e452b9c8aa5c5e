ghost use Rattle.std.specs.Prelude.{◌≡◌, IfOk, IfErr, IsErrOf, length, slice_get};
ghost use Rattle.std.specs.List.{AllByRecursion};
ghost use Rattle.std.specs.Option.{option_copied};
ghost use Rattle.plan.specs.Lines.{origin_value};
ghost use Rattle.plan.specs.Values.{IsLine};
ghost use Rattle.tree.specs.Folded.{IsFoldOfPassed};
ghost use Rattle.tree.specs.Form.{node_value};
ghost use Rattle.tree.specs.Merging.{AreHeld, IsHeldIn, merge_lines, node_within, within_value};
ghost use Rattle.blob_source.specs.Called.{Called};
ghost use Rattle.tree.specs.Memo.{IsKnownOf, WasRefused, Learns, known_by};
ghost use Rattle.verifier.specs.Stage.{ExplainsFault};
ghost use Rattle.verifier.specs.StepChecks.{together};
ghost use Rattle.verifier.specs.Together.{AreThere, Earlier, ExplainsLines, FirstFault, IsThere};
ghost use Rattle.verifier.specs.Together.{LineFault, LinesLookAt, OriginLooksAt};
ghost use Rattle.verifier.specs.Together.{Resolves, StandsAtOrigin, TogetherLooksAt, put_together};

use crate::fault::{Fault, fault_of};
use actions::Outcome;
use blob_digest::Digest;
use messages::Path;
use plan::{Line, Origin};
use std::alloc::Allocator;
use tree::{BlobSource, Folded, Memo, Node, TreeError, Within, merge};

/// What steps came to.
pub trait Outcomes<A: Allocator> {
    /// By a step's number, if it came to an outcome.
    ghost came_to: { Self → Earlier };

    /// What the step with a number came to.
    fn outcome(&self, step: usize) -> Option<&Outcome<A>>
        ensures { option_copied result ≡ came_to self.now step };
}

impl<'a, A: Allocator> Outcomes<A> for &'a [Outcome<A>] {
    ghost came_to = { λ outcomes. slice_get outcomes.now };

    fn outcome(&self, step: usize) -> Option<&Outcome<A>> {
        self.get(step)
    }
}

/// What stands at the line's origin, in the sources or in what a step came to, and where what is
/// below it is read.
fn find_origin<'a, A: Allocator + Copy, O: Outcomes<A>, S: BlobSource<A>>(
    alloc: A,
    sources: &Digest,
    outcomes: &'a O,
    line: &Line<A>,
    memo: &mut Memo<A>,
    source: &mut S,
) -> Result<(Node<A>, Within<'a, A>), TreeError<A>>
    requires there { IsThere (O.came_to outcomes.now) line.now.origin }
    requires known { IsKnownOf (known_by memo.old) (S.tells source.old) }
    ensures told { IfOk result (λ x. StandsAtOrigin (S.tells source.new).blobs sources.now
        (O.came_to outcomes.now) line.now.origin (node_within x.0 x.1)) }
    ensures held { IfOk result (λ x. IsHeldIn (within_value x.1) (node_value x.0)) }
    ensures faulty { IfErr result (ExplainsLines (LineFault (S.tells source.new).blobs sources.now
        (O.came_to outcomes.now) line.now)) }
    ensures called { Called (S.tells source.old) (S.tells source.new)
        (IsErrOf result TreeError.Fetch) }
    ensures learned { Learns (OriginLooksAt (S.tells source.new).blobs sources.now line.now.origin)
        (WasRefused result)
        (known_by memo.old) (known_by memo.new) (S.tells source.old) (S.tells source.new) }
{
    match &line.origin {
        Origin::Source(path) => match memo.lookup(alloc, sources, path.as_ref(), source) {
            Ok(node) => Ok((node, Within::Source)),
            Err(error) => Err(error),
        },
        Origin::Output(step, path) => {
            let Some(outcome) = outcomes.outcome(*step) else {
                unreachable!();
            };
            match outcome.lookup_within(alloc, path)? {
                Some(found) => Ok(found),
                None => Err(TreeError::Absent(Path::copy_of(alloc, path)?)),
            }
        }
    }
}

/// What stands at the origin of each line, with its target, or the fault of the first line that has
/// none.
fn resolve<'a, A: Allocator + Copy, O: Outcomes<A>, S: BlobSource<A>>(
    alloc: A,
    sources: &Digest,
    outcomes: &'a O,
    lines: &[Line<A>],
    memo: &mut Memo<A>,
    source: &mut S,
) -> Result<Vec<(Path<A>, Node<A>, Within<'a, A>), A>, TreeError<A>>
    requires there { AreThere (O.came_to outcomes.now) lines.now }
    requires known { IsKnownOf (known_by memo.old) (S.tells source.old) }
    ensures told { IfOk result (λ nodes. Resolves (S.tells source.new).blobs sources.now
        (O.came_to outcomes.now) lines.now (merge_lines nodes.items)) }
    ensures held { IfOk result (λ nodes. AreHeld (merge_lines nodes.items)) }
    ensures faulty { IfErr result (ExplainsLines (FirstFault (S.tells source.new).blobs sources.now
        (O.came_to outcomes.now) lines.now)) }
    ensures called { Called (S.tells source.old) (S.tells source.new)
        (IsErrOf result TreeError.Fetch) }
    ensures learned { Learns (LinesLookAt (S.tells source.new).blobs sources.now
        (O.came_to outcomes.now) lines.now) (WasRefused result)
        (known_by memo.old) (known_by memo.new) (S.tells source.old) (S.tells source.new) }
{
    let mut nodes = Vec::new(alloc);
    for line in lines {
        let (node, within) = find_origin(alloc, sources, outcomes, line, memo, source)?;
        nodes.push((Path::copy_of(alloc, &line.target)?, node, within))?;
    }
    Ok(nodes)
}

/// The tree that lines put together, over what steps came to, or their first fault: `Absent` with
/// the path of the first origin at which nothing stands, `Conflict` with the first path at which
/// they don't merge, or the Directory that can't be read. One that the memo knows isn't fetched.
pub fn put_together<A: Allocator + Copy, O: Outcomes<A>, S: BlobSource<A>>(
    alloc: A,
    sources: &Digest,
    outcomes: &O,
    lines: &[Line<A>],
    memo: &mut Memo<A>,
    source: &mut S,
) -> Result<Folded<A>, TreeError<A>>
    requires there { AreThere (O.came_to outcomes.now) lines.now }
    requires known { IsKnownOf (known_by memo.old) (S.tells source.old) }
    ensures told { IfOk result (IsFoldOfPassed (put_together (S.tells source.new).blobs sources.now
        (O.came_to outcomes.now) lines.now)) }
    ensures faulty { IfErr result (ExplainsLines (put_together (S.tells source.new).blobs
        sources.now (O.came_to outcomes.now) lines.now).fails) }
    ensures called { Called (S.tells source.old) (S.tells source.new)
        (IsErrOf result TreeError.Fetch) }
    ensures learned { Learns (TogetherLooksAt (S.tells source.new).blobs sources.now
        (O.came_to outcomes.now) lines.now) (WasRefused result)
        (known_by memo.old) (known_by memo.new) (S.tells source.old) (S.tells source.new) }
{
    let nodes = resolve(alloc, sources, outcomes, lines, memo, source)?;
    // A match for the prover: it tells the two answers apart.
    match merge(alloc, &nodes, memo, source) {
        Ok(made) => Ok(made),
        Err(error) => Err(error),
    }
}

/// The tree that lines put together, or the cause that there is none.
pub(crate) fn together<A: Allocator + Copy, S: BlobSource<A>>(
    alloc: A,
    sources: &Digest,
    outcomes: &[Outcome<A>],
    lines: &[Line<A>],
    memo: &mut Memo<A>,
    source: &mut S,
) -> Result<Folded<A>, Fault<A>>
    requires lines { AllByRecursion (IsLine (length outcomes.now)) lines.now }
    requires known { IsKnownOf (known_by memo.old) (S.tells source.old) }
    ensures told { IfOk result (IsFoldOfPassed (put_together (S.tells source.new).blobs sources.now
        (slice_get outcomes.now) lines.now)) }
    ensures faulty { IfErr result (ExplainsFault (together (S.tells source.new).blobs sources.now
        outcomes.now lines.now).fails) }
    ensures called { Called (S.tells source.old) (S.tells source.new) (IsErrOf result Fault.Fetch) }
    ensures learned { Learns (TogetherLooksAt (S.tells source.new).blobs sources.now
        (slice_get outcomes.now) lines.now) (WasRefused result)
        (known_by memo.old) (known_by memo.new) (S.tells source.old) (S.tells source.new) }
{
    match put_together(alloc, sources, &outcomes, lines, memo, source) {
        Ok(made) => Ok(made),
        Err(error) => Err(fault_of(error)),
    }
}
