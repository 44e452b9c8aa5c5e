ghost use Rattle.std.specs.Prelude.{◌≡◌, length, IfOk, IfErr, IsErrOf, IsOk};
ghost use Rattle.blob_source.specs.Source.{Asks};
ghost use Rattle.blob_source.specs.Called.{Calls};
ghost use Rattle.tree.specs.Memo.{AsksNoOther, IsKnownOf, WasRefused, Learns, known_by};
ghost use Rattle.tree.specs.TreeError.{Explains};
ghost use Rattle.action_messages.specs.OutputFile.{OutputFileValue};
ghost use Rattle.action_messages.specs.Outputs.{directories_among, file, recorded_value};
ghost use Rattle.action_messages.specs.Outputs.{recorded_values};
ghost use Rattle.actions.specs.Outcome.{output_value, outputs_in};
ghost use Rattle.actions.specs.Recorded.{IsRecorded, StandsFor, StandForAll};
ghost use Rattle.actions.specs.Recorded.{IsFirstTreeFault, IsOutputFault, IsWithoutTree};
ghost use Rattle.actions.specs.Recorded.{StopsAtFault};
ghost use Rattle.actions.specs.LooksAt.{OutputLooksAt, TreesLookAt};

use crate::outcome::{Outcome, Output};
use action_messages::{ActionResult, RecordedOutput};
use messages::{Path, Target};
use std::alloc::Allocator;
use tree::{BlobSource, Memo, TreeError};

impl<A: Allocator + Copy> Output<A> {
    /// What an output of a result stands for: a directory is the Tree with its digest, the one
    /// thing for which the source is asked. Refusals: `BlobMissing`, `BlobWrong` and
    /// `BlobMalformed`.
    pub fn read<S: BlobSource<A>>(
        alloc: A,
        recorded: &RecordedOutput<'_, A>,
        source: &mut S,
    ) -> Result<Output<A>, TreeError<A>>
        ensures found { IfOk result (λ x.
            StandsFor (S.tells source.new).blobs (recorded_value recorded.now) (output_value x)) }
        ensures faulty { IfErr result (Explains
            (IsOutputFault (S.tells source.new).blobs (recorded_value recorded.now))) }
        ensures called { Calls (Asks 1) (S.tells source.old) (S.tells source.new)
            (IsErrOf result TreeError.Fetch) }
        ensures only { AsksNoOther (OutputLooksAt (recorded_value recorded.now))
            (S.tells source.old) (S.tells source.new) }
        ensures unasked { IsWithoutTree (recorded_value recorded.now)
            → S.tells source.new ≡ S.tells source.old }
        // A file takes no memory.
        ensures file { (f : OutputFileValue) → recorded_value recorded.now ≡ file f
            → IsOk result }
    {
        Output::read_with(alloc, recorded, &mut Memo::new(alloc), source)
    }

    /// What an output of a result stands for, as `read` answers it, over what was told before: a
    /// Tree that is kept isn't asked for. The refusals are those of `read`.
    pub fn read_with<S: BlobSource<A>>(
        alloc: A,
        recorded: &RecordedOutput<'_, A>,
        memo: &mut Memo<A>,
        source: &mut S,
    ) -> Result<Output<A>, TreeError<A>>
        requires { IsKnownOf (known_by memo.old) (S.tells source.old) }
        ensures found { IfOk result (λ x.
            StandsFor (S.tells source.new).blobs (recorded_value recorded.now) (output_value x)) }
        ensures faulty { IfErr result (Explains
            (IsOutputFault (S.tells source.new).blobs (recorded_value recorded.now))) }
        ensures called { Calls (Asks 1) (S.tells source.old) (S.tells source.new)
            (IsErrOf result TreeError.Fetch) }
        ensures only { AsksNoOther (OutputLooksAt (recorded_value recorded.now))
            (S.tells source.old) (S.tells source.new) }
        ensures unasked { IsWithoutTree (recorded_value recorded.now)
            → S.tells source.new ≡ S.tells source.old }
        // A file takes no memory.
        ensures file { (f : OutputFileValue) → recorded_value recorded.now ≡ file f
            → IsOk result }
        ensures learned { Learns (OutputLooksAt (recorded_value recorded.now)) (WasRefused result)
            (known_by memo.old) (known_by memo.new) (S.tells source.old) (S.tells source.new) }
    {
        match recorded {
            RecordedOutput::File(file) => Ok(Output::File {
                digest: file.digest,
                executable: file.executable,
            }),
            RecordedOutput::Directory(directory) => Ok(Output::Tree(memo.message(
                alloc,
                source,
                &directory.tree_digest,
            )?)),
            RecordedOutput::Link(link) => Ok(Output::Link {
                target: Target::copy_of(alloc, &link.target)?,
            }),
        }
    }
}

/// What each stands for, at its path.
fn read_outputs<A: Allocator + Copy, S: BlobSource<A>>(
    alloc: A,
    recorded: &[RecordedOutput<'_, A>],
    source: &mut S,
) -> Result<Vec<(Path<A>, Output<A>), A>, TreeError<A>>
    ensures found { IfOk result (λ v. StandForAll (S.tells source.new).blobs
        (recorded_values recorded.now) (outputs_in v.items)) }
    ensures faulty { IfErr result (Explains (IsFirstTreeFault (S.tells source.new).blobs
        (directories_among (recorded_values recorded.now)))) }
    ensures called { Calls (Asks (length (directories_among (recorded_values recorded.now))))
        (S.tells source.old) (S.tells source.new) (IsErrOf result TreeError.Fetch) }
    ensures only { AsksNoOther (TreesLookAt (directories_among (recorded_values recorded.now)))
        (S.tells source.old) (S.tells source.new) }
    ensures few { StopsAtFault (directories_among (recorded_values recorded.now))
        (S.tells source.old) (S.tells source.new) }
{
    let mut outputs = Vec::new(alloc);
    for output in recorded {
        let read = Output::read(alloc, output, source)?;
        outputs.push((Path::copy_of(alloc, output.path())?, read))?;
    }
    Ok(outputs)
}

/// The outcome that a result stands for. Of the blobs only the Trees of its directories are
/// fetched, in the order of the paths' texts; the first that isn't told ends it. Refusals:
/// `BlobMissing`, `BlobWrong` and `BlobMalformed`.
pub fn recorded<A: Allocator + Copy, S: BlobSource<A>>(
    alloc: A,
    made: &ActionResult<A>,
    source: &mut S,
) -> Result<Outcome<A>, TreeError<A>>
    // The outcome, or the fault of the first directory whose Tree isn't told.
    ensures found { IfOk result (IsRecorded (S.tells source.new).blobs made.now) }
    ensures faulty { IfErr result (Explains
        (IsFirstTreeFault (S.tells source.new).blobs made.now.directories)) }
    ensures called { Calls (Asks (length made.now.directories))
        (S.tells source.old) (S.tells source.new) (IsErrOf result TreeError.Fetch) }
    // No blob is asked for but the Trees of the result's directories.
    ensures only { AsksNoOther (TreesLookAt made.now.directories)
        (S.tells source.old) (S.tells source.new) }
    ensures few { StopsAtFault made.now.directories (S.tells source.old) (S.tells source.new) }
{
    let recorded = made.outputs(alloc)?;
    let outputs = read_outputs(alloc, &recorded, source)?;
    Ok(Outcome::from_outputs(made.exit_code(), outputs))
}
