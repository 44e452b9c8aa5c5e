ghost use Rattle.std.specs.Prelude.{◌≡◌, ℕ, List, Err, IfErr, IfOk, IsErrOf, OnOk};
ghost use Rattle.std.specs.Prelude.{string_bytes};
ghost use Rattle.std.specs.declared.io.Error.{Error};
ghost use Rattle.worker.specs.Counted.{TellsRunFailure};
ghost use Rattle.worker.specs.Values.{failed};
ghost use Rattle.tree.specs.Folded.{items_of};
ghost use Rattle.worker.specs.declared.failure.FailureCause.TheVariants.{Unread};
ghost use Rattle.processes.specs.Collected.{AreCollected, HasNoOutput, IsFirstBad, IsMore};
ghost use Rattle.processes.specs.Collected.{IsUnread};
ghost use Rattle.processes.specs.Walking.{IsUnreadOutput, TellsTrouble};

use crate::laying::place_in;
use crate::trouble::Trouble;
use crate::walking::{keep_file, keep_folder};
use crate::workshop::{Left, Standing, Workshop};
use actions::{Outcome, Output};
use messages::Path;
use std::alloc::Allocator;
use worker::{Produced, RunError};

/// Takes what stands at a place as the output of a path.
fn take_output<A: Allocator + Copy, W: Workshop>(
    alloc: A,
    left: &Left<'_, W>,
    place: &str,
    path: &Path<A>,
    outcome: &mut Outcome<A>,
    blobs: &mut Vec<Vec<u8, A>, A>,
) -> Result<(), Trouble>
    ensures more { OnOk result (IsMore W.works left.now.ended.now place.now path.now outcome.old
        (items_of blobs.old.items) outcome.new (items_of blobs.new.items)) }
    ensures bad { IsErrOf result Trouble.NoOutput
        → HasNoOutput W.works left.now.ended.now place.now }
    ensures failed { IfErr result (TellsTrouble
        (IsUnreadOutput W.works left.now.ended.now place.now outcome.old path.now)) }
{
    let output = match left.workshop.look(left.ended, place)? {
        Standing::Nothing => return Ok(()),
        Standing::File => {
            let digest = keep_file(alloc, left, place, blobs)?;
            let executable = false;
            Output::File { digest, executable }
        }
        Standing::Folder => Output::Tree(keep_folder(alloc, left, place, blobs)?),
        Standing::Other => return Err(Trouble::NoOutput),
    };
    outcome.add(alloc, Path::copy_of(alloc, path)?, output)?;
    Ok(())
}

/// The outcome of a program that ended with this exit code, with what stands at the paths below a
/// folder as its outputs, and their blobs.
pub(crate) fn collect<A: Allocator + Copy, W: Workshop>(
    alloc: A,
    left: &Left<'_, W>,
    program: String<A>,
    folder: &str,
    paths: &[Path<A>],
    exit_code: i32,
) -> Result<Produced<A>, RunError<A>>
    ensures code { IfOk result (λ p. p.outcome.exit_code ≡ exit_code) }
    ensures outputs { IfOk result
        (λ p. AreCollected W.works left.now.ended.now folder.now paths.now p.outcome p.blobs) }
    ensures error { result ≡ Err RunError.NotAbsolute → ⊥ }
    ensures bad { (path : List (List ℕ)) → IsErrOf result (RunError.BadOutput path)
        → IsFirstBad W.works left.now.ended.now folder.now paths.now path }
    ensures failed { IfErr result (TellsRunFailure (λ e. (error : Error)
        × (e ≡ failed (string_bytes program) (Unread error))
        × IsUnread W.works left.now.ended.now folder.now paths.now error)) }
{
    let mut outcome = Outcome::new(alloc, exit_code);
    let mut blobs = Vec::new(alloc);
    for path in paths {
        let Ok(place) = place_in(alloc, folder, path.as_str()) else {
            return Err(RunError::Memory);
        };
        match take_output(alloc, left, place.as_str(), path, &mut outcome, &mut blobs) {
            Ok(()) => {}
            Err(trouble) => return Err(trouble.at(alloc, program, path)),
        }
    }
    Ok(Produced { outcome, blobs })
}
