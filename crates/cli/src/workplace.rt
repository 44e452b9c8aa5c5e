ghost use Rattle.std.specs.Prelude.{◌≡◌, [], string_bytes};
ghost use Rattle.processes.specs.Running.{HaveRun, HaveStarted, alive_of, errors_of, may_yield};
ghost use Rattle.processes.specs.Running.{next_of, work_of, workshop_of};
ghost use Rattle.worker.specs.Outcomes.{YieldsNoMore};
ghost use Rattle.worker.specs.Values.{SaysNoMore};

use commands::System;
use processes::{ChildErrors, Disk, ProcessRunner, Workshop};
use std::alloc::Global;
use std::rt::{Files, Processes};
use worker::Runner;

/// Where the processes of a build's steps run. It is spent for its runner, so that there is no
/// other.
pub trait Workplace {
    /// What runs the steps of a build.
    type Steps: Runner<Global> + Drop;

    ghost use Rattle.cli.specs.Built.{Below};
    ghost use Rattle.processes.specs.declared.disk.ChildErrors.{ChildErrors};

    /// What is known of the steps that run below a folder, where this becomes of their errors.
    ghost below: { Self → ChildErrors → Below };

    /// What runs steps below a folder. It has started none.
    fn steps(self, work: String, errors: ChildErrors) -> Self::Steps
        ensures yields { YieldsNoMore (Self.Steps.yields result)
            (below self errors (string_bytes work)).yields }
        ensures no_more { SaysNoMore (Self.Steps.ran result)
            (below self errors (string_bytes work)).ran }
        ensures unstarted { Self.Steps.starts result [] }
        ensures idle { Self.Steps.alive result ≡ 0 };

    /// Ends what ran steps. Each process that it has started was waited for.
    fn end_steps(steps: Self::Steps)
        requires idle { Self.Steps.alive steps ≡ 0 }
        ensures ran { SaysNoMore (Self.Steps.starts steps) (Self.Steps.ran steps) };
}

impl<'r, R: AllocGlobal + Clone + Drop + Files + Processes> Workplace for System<'r, R> {
    type Steps = ProcessRunner<Disk<'r, R>, Global>;

    ghost below = { λ _ _ work. record {
      yields = may_yield (⟦<Disk<'r, R> as Workshop>⟧.works) (λ _. Unit {0}) work;
      ran = HaveRun (⟦<Disk<'r, R> as Workshop>⟧.works) work;
    } };

    fn steps(self, work: String, errors: ChildErrors) -> ProcessRunner<Disk<'r, R>, Global>
        ensures work { work_of result ≡ string_bytes work }
        ensures yields { YieldsNoMore
            (may_yield (⟦<Disk<'r, R> as Workshop>⟧.works)
            (⟦<Disk<'r, R> as Workshop>⟧.unstarted (workshop_of result)) (work_of result))
            (may_yield (⟦<Disk<'r, R> as Workshop>⟧.works) (λ _. Unit {0}) (string_bytes work)) }
        ensures no_more { SaysNoMore (HaveRun (⟦<Disk<'r, R> as Workshop>⟧.works) (work_of result))
            (HaveRun (⟦<Disk<'r, R> as Workshop>⟧.works) (string_bytes work)) }
        ensures unstarted { HaveStarted (⟦<Disk<'r, R> as Workshop>⟧.works) (work_of result)
            (next_of result) [] }
        ensures idle { alive_of result ≡ 0 }
        ensures errors { errors_of (workshop_of result) ≡ errors }
    {
        ProcessRunner::new(Disk::new(self.0, errors), work)
    }

    fn end_steps(_steps: ProcessRunner<Disk<'r, R>, Global>) {}
}
