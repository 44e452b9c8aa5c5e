ghost use Rattle.std.specs.Prelude.{◌≡◌, ◌+◌, ◌-◌, ℕ, IfErr, IfOk, IsErrOf, OnOk, OnErr};
ghost use Rattle.std.specs.Result.{IsErrAnd};
ghost use Rattle.worker.specs.declared.runner.RunError.TheVariants as errors;
ghost use Rattle.worker.specs.Counted.{Counts, IsFailure, TellsRunFailure};
ghost use Rattle.worker.specs.Outcomes.{YieldsFor, YieldsNoMore};
ghost use Rattle.worker.specs.Values.{IsAbsolute, SaysNoMore, StartsOne, StartsNone, made, bad_at};

use crate::failure::FailureCause;
use crate::laid::Layout;
use actions::{Command, Outcome};
use messages::Path;
use std::alloc::{AllocError, AllocFailed, Allocator};
use std::marker::Model;
use thiserror::Error;

/// What a child came to: its outcome, and the blobs to which it refers.
#[derive(Drop)]
pub struct Produced<A: Allocator> {
    pub outcome: Outcome<A>,
    pub blobs: Vec<Vec<u8, A>, A>,
}

impl<A: Allocator> Model for Produced<A> {
    ghost use Rattle.worker.specs.Values.{ProducedValue};
    ghost use Rattle.tree.specs.Folded.{items_of};

    ghost Value = { ProducedValue };

    ghost view = { λ a. record { outcome = a.outcome; blobs = items_of a.blobs.items } };
}

/// Why a child isn't started, or came to nothing.
#[derive(Drop, Error)]
#[derive_where(Debug)]
pub enum RunError<A: Allocator> {
    /// The first argument doesn't begin with a slash.
    #[error("the program isn't named by a path from the root")]
    NotAbsolute,
    /// The process of a program failed, and the runner counted that. A runner whose count is full
    /// answers `Memory` instead.
    #[error("the process failed")]
    Device {
        program: String<A>,
        cause: FailureCause,
    },
    /// What stands at the path is no output.
    #[error("what stands at an output path is no output")]
    BadOutput(Path<A>),
    /// No memory was left.
    #[error("out of memory")]
    Memory,
}

impl<A: Allocator> From<AllocError> for RunError<A> {
    ghost from_gives = { λ _ e. e ≡ errors.Memory };

    fn from(_e: AllocError) -> RunError<A> {
        RunError::Memory
    }
}

impl<A: Allocator, T: Drop> From<AllocFailed<T>> for RunError<A> {
    ghost from_gives = { λ _ e. e ≡ errors.Memory };

    fn from(_e: AllocFailed<T>) -> RunError<A> {
        RunError::Memory
    }
}

/// What starts and finishes children.
pub trait Runner<A: Allocator> {
    /// A child that was started.
    type Job: Drop;

    ghost use Rattle.action_messages.specs.Command.{CommandValue};
    ghost use Rattle.std.specs.Prelude.{List};
    ghost use Rattle.worker.specs.Values.{LayoutValue, EndValue, StartValue};

    /// What may come of a layout and a command.
    ghost yields: { Self → LayoutValue → CommandValue → EndValue → Type 0 };

    /// What may come of a child. It is the child's own: no later call changes it.
    ghost may_give: { Self.Job → EndValue → Type 0 };

    /// The children that it may have started, the latest last.
    ghost starts: { Self → List StartValue → Type 0 };

    /// How many children were started and not yet waited for.
    ghost alive: { Self → ℕ };

    /// How often it failed.
    ghost failures: { Self → ℕ };

    /// What may be said of all the children that it started, once each was waited for.
    ghost ran: { Self → List StartValue → Type 0 };

    /// Starts a child for a command in a layout. After an error none was started.
    fn start(
        &mut self,
        alloc: A,
        layout: &Layout<A>,
        command: &Command<A>,
    ) -> Result<Self::Job, RunError<A>>
        ensures gives { IfOk result (λ job. (e : EndValue)
            → may_give job e → YieldsFor (yields self.new) layout.now command.now e) }
        ensures same { YieldsNoMore (yields self.new) (yields self.old) }
        ensures listed { OnOk result (StartsOne (starts self.old) (starts self.new)
            (record { layout = layout.now; command = command.now })) }
        ensures unlisted { OnErr result (StartsNone (starts self.old) (starts self.new)) }
        ensures opened { OnOk result (alive self.new ≡ alive self.old + 1) }
        ensures unopened { OnErr result (alive self.new ≡ alive self.old) }
        ensures no_more { SaysNoMore (ran self.new) (ran self.old) }
        ensures refused { IsErrOf result RunError.NotAbsolute → IsAbsolute command.now → ⊥ }
        ensures bad { (path : List (List ℕ)) → IsErrOf result (RunError.BadOutput path) → ⊥ }
        ensures device { IfErr result
            (TellsRunFailure (YieldsFor (yields self.new) layout.now command.now)) }
        ensures counted { Counts (failures self.old) (failures self.new)
            (IsErrAnd result IsFailure) };

    /// Waits for a child, which is spent also where the call is refused.
    fn finish(&mut self, alloc: A, job: Self::Job) -> Result<Produced<A>, RunError<A>>
        ensures gave { IfOk result (λ p. may_give job (made p)) }
        ensures bad { (path : List (List ℕ)) → IsErrOf result (RunError.BadOutput path)
            → may_give job (bad_at path) }
        ensures same { YieldsNoMore (yields self.new) (yields self.old) }
        ensures unlisted { StartsNone (starts self.old) (starts self.new) }
        ensures closed { alive self.new ≡ alive self.old - 1 }
        ensures no_more { SaysNoMore (ran self.new) (ran self.old) }
        ensures absolute { IsErrOf result RunError.NotAbsolute → ⊥ }
        ensures device { IfErr result (TellsRunFailure (may_give job)) }
        ensures counted { Counts (failures self.old) (failures self.new)
            (IsErrAnd result IsFailure) };
}
