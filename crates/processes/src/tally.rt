ghost use Rattle.std.specs.Prelude.{◌≡◌, ◌⊎◌, ◌+◌, ◌-◌, ◌<◌, IfErr, IfOk, OnErr, OnOk};
ghost use Rattle.blob_source.specs.Source.{greatest_count};
ghost use Rattle.std.specs.Result.{IsErrAnd};
ghost use Rattle.worker.specs.Counted.{Counts, IsFailure};
ghost use Rattle.processes.specs.Laying.{IsRunOut, IsUnstarted};
ghost use Rattle.processes.specs.Workshop.{StartsIn};
ghost use Rattle.processes.specs.Running.{alive_in, failures_in};

use crate::workshop::{Exit, Workshop};
use actions::Command;
use std::alloc::Allocator;
use std::io;
use std::io::ErrorKind;
use worker::RunError;

/// How many children haven't been waited for yet, and how often something failed. Only `start` and
/// `wait` change the first.
#[derive(Drop)]
pub(crate) struct Tally {
    alive: u64,
    failures: u64,
}

/// The error of a runner that has run out.
pub(crate) fn run_out(text: &'static str) -> io::Error
    ensures { IsRunOut result }
{
    io::Error::new(ErrorKind::QuotaExceeded, text)
}

impl Tally {
    /// No child and no failure yet.
    pub(crate) fn new() -> Tally
        ensures alive { alive_in result ≡ 0 }
        ensures failures { failures_in result ≡ 0 }
    {
        Tally {
            alive: 0,
            failures: 0,
        }
    }

    /// Starts a child in a room, and counts it. None is started where the count is full.
    pub(crate) fn start<A: Allocator + Copy, W: Workshop>(
        &mut self,
        alloc: A,
        workshop: &W,
        room: W::Room,
        command: &Command<A>,
        folder: &str,
    ) -> io::Result<W::Child>
        ensures runs { IfOk result (StartsIn W.works room command.now folder.now) }
        ensures opened { OnOk result (alive_in self.new ≡ alive_in self.old + 1) }
        ensures unopened { OnErr result (alive_in self.new ≡ alive_in self.old) }
        ensures failed { IfErr result (λ error. IsUnstarted (W.unstarted workshop.now) error
            ⊎ (IsRunOut error × (alive_in self.old ≡ greatest_count))) }
        ensures full { alive_in self.old ≡ greatest_count → IsErrAnd result IsRunOut }
        ensures failures { failures_in self.new ≡ failures_in self.old }
    {
        let Some(more) = self.alive.checked_add(1) else {
            return Err(run_out("too many processes run"));
        };
        let child = workshop.spawn(alloc, room, command, folder)?;
        self.alive = more;
        Ok(child)
    }

    /// Waits for a child, which is no longer counted then.
    pub(crate) fn wait<W: Workshop>(
        &mut self,
        workshop: &W,
        child: W::Child,
    ) -> io::Result<(W::Ended, Exit)>
        ensures waited { W.works.waited child }
        ensures ended { IfOk result (λ e. W.works.ended child e.0 e.1) }
        ensures failed { IfErr result (W.works.unwaited child) }
        ensures closed { alive_in self.new ≡ alive_in self.old - 1 }
        ensures failures { failures_in self.new ≡ failures_in self.old }
    {
        let ended = workshop.wait(child);
        self.alive = self.alive.saturating_sub(1);
        ended
    }

    /// The refusal, and a failure is counted. Where the count is full it is lack of memory.
    pub(crate) fn refuse<A: Allocator>(&mut self, error: RunError<A>) -> RunError<A>
        ensures told { failures_in self.old < greatest_count → result ≡ error }
        ensures others { (IsFailure error → ⊥) → result ≡ error }
        ensures only { (result ≡ error) ⊎ (result ≡ RunError.Memory) }
        ensures counted { Counts (failures_in self.old) (failures_in self.new) (IsFailure result) }
        ensures alive { alive_in self.new ≡ alive_in self.old }
    {
        match error {
            RunError::Device { program, cause } => match self.failures.checked_add(1) {
                Some(more) => {
                    self.failures = more;
                    RunError::Device { program, cause }
                }
                None => RunError::Memory,
            },
            error => error,
        }
    }
}
