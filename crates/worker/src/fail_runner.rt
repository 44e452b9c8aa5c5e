ghost use Rattle.std.specs.Prelude.{◌≡◌, ◌≢◌, ◌+◌, ◌-◌, ◌<◌, ◌↔◌, ℕ, List, Ok, Err, IfErr, IfOk};
ghost use Rattle.std.specs.Prelude.{IsErr, IsErrOf, IsTrue, OnErr, OnOk, string_bytes};
ghost use Rattle.std.specs.Result.{IsErrAnd};
ghost use Rattle.blob_source.specs.Source.{greatest_count};
ghost use Rattle.worker.specs.Counted.{Counts, IsFailure, TellsRunFailure};
ghost use Rattle.worker.specs.FailRunner.{FailsRun, IsFreshRunner, failures_of, inner_of};
ghost use Rattle.worker.specs.FailRunner.{may_give_of, program_in, until_failure_of, yields_of};
ghost use Rattle.worker.specs.Outcomes.{YieldsFor, YieldsNoMore};
ghost use Rattle.worker.specs.Values.{IsAbsolute, EndValue, SaysNoMore, StartsNone, StartsOne};
ghost use Rattle.worker.specs.Values.{bad_at, failed, made, program_of};

use crate::failure::{FailureCause, program_of};
use crate::laid::Layout;
use crate::runner::{Produced, RunError, Runner};
use actions::Command;
use std::alloc::Allocator;

/// The signal of which the call that fails tells.
const OWN_SIGNAL: i32 = 9;

/// A runner that hands each call on to another, but for one, which fails as if a signal had ended
/// the process: a start doesn't reach the other then, and what a finish answers is lost. Its count
/// of failures is its own.
#[derive(Drop)]
pub struct FailRunner<N> {
    inner: N,
    until_failure: u64,
    failures: u64,
}

/// A child of the other runner, with the program of its command.
#[derive(Drop)]
pub struct FailJob<J, A: Allocator> {
    job: J,
    program: String<A>,
}

impl<N> FailRunner<N> {
    /// A runner over this one, of whose calls the one of this number fails: 1 is the first, and
    /// with 0 none does.
    pub fn new(inner: N, number: u64) -> FailRunner<N>
        ensures { IsFreshRunner inner number result }
    {
        FailRunner {
            inner,
            until_failure: number,
            failures: 0,
        }
    }

    /// The runner that gets the other calls.
    pub fn inner(&self) -> &N
        ensures { result.now ≡ inner_of self.now }
    {
        &self.inner
    }

    /// The call from here on that fails, 1 being the next; 0 where none will.
    pub fn until_failure(&self) -> u64
        ensures { result ≡ until_failure_of self.now }
    {
        self.until_failure
    }

    /// How often it failed, be it by itself or since the other did.
    pub fn failures(&self) -> u64
        ensures { result ≡ failures_of self.now }
    {
        self.failures
    }

    /// Counts a failure. One whose count is full is lack of memory instead.
    fn fail<T, A: Allocator>(
        &mut self,
        program: String<A>,
        cause: FailureCause,
    ) -> Result<T, RunError<A>>
        ensures failed { failures_of self.old < greatest_count
            → result ≡ Err (RunError.Device program cause) }
        ensures counted { Counts (failures_of self.old) (failures_of self.new)
            (IsErrAnd result IsFailure) }
        ensures told { IsErrAnd result (λ e. IsFailure e → e ≡ RunError.Device program cause) }
        ensures absolute { IsErrOf result RunError.NotAbsolute → ⊥ }
        ensures bad { (path : List (List ℕ)) → IsErrOf result (RunError.BadOutput path) → ⊥ }
        ensures number { until_failure_of self.new ≡ until_failure_of self.old }
        ensures inner { inner_of self.new ≡ inner_of self.old }
    {
        let count = &mut self.failures;
        let Some(failures) = count.checked_add(1) else {
            return Err(RunError::Memory);
        };
        *count = failures;
        Err(RunError::Device { program, cause })
    }

    /// Counts a call, and tells whether it is the one that fails.
    fn is_due(&mut self) -> bool
        ensures due { IsTrue result ↔ (until_failure_of self.old ≡ 1) }
        ensures number { until_failure_of self.new ≡ until_failure_of self.old - 1 }
        ensures inner { inner_of self.new ≡ inner_of self.old }
        ensures failures { failures_of self.new ≡ failures_of self.old }
    {
        let number = &mut self.until_failure;
        let is_due = *number == 1;
        *number = number.saturating_sub(1);
        is_due
    }

    /// The answer of the other runner, whose failure is counted.
    fn pass_on<T, A: Allocator>(&mut self, answer: Result<T, RunError<A>>) -> Result<T, RunError<A>>
        ensures ok { IfOk result (λ value. answer ≡ Ok value) }
        ensures err { OnErr result (IsErr answer) }
        ensures absolute { IsErrOf result RunError.NotAbsolute
            → IsErrOf answer RunError.NotAbsolute }
        ensures bad { (path : List (List ℕ)) → IsErrOf result (RunError.BadOutput path)
            → IsErrOf answer (RunError.BadOutput path) }
        ensures told { IfErr result (λ e. IsFailure e → answer ≡ Err e) }
        ensures passed { failures_of self.old < greatest_count → result ≡ answer }
        ensures counted { Counts (failures_of self.old) (failures_of self.new)
            (IsErrAnd result IsFailure) }
        ensures number { until_failure_of self.new ≡ until_failure_of self.old }
        ensures inner { inner_of self.new ≡ inner_of self.old }
    {
        match answer {
            Err(RunError::Device { program, cause }) => self.fail(program, cause),
            answer => answer,
        }
    }
}

impl<A: Allocator + Copy, N: Runner<A>> Runner<A> for FailRunner<N> {
    type Job = FailJob<N::Job, A>;

    ghost use Rattle.worker.specs.FailRunner.{failures_of, inner_of, may_give_of, yields_of};

    ghost yields = { yields_of N.yields };

    ghost may_give = { may_give_of N.may_give };

    ghost starts = { λ r. N.starts (inner_of r) };

    ghost alive = { λ r. N.alive (inner_of r) };

    ghost failures = { failures_of };

    ghost ran = { λ r. N.ran (inner_of r) };

    fn start(
        &mut self,
        alloc: A,
        layout: &Layout<A>,
        command: &Command<A>,
    ) -> Result<FailJob<N::Job, A>, RunError<A>>
        ensures gives { IfOk result (λ job. (e : EndValue) → may_give_of N.may_give job e
            → YieldsFor (yields_of N.yields self.new) layout.now command.now e) }
        ensures same { YieldsNoMore (yields_of N.yields self.new) (yields_of N.yields self.old) }
        ensures listed { OnOk result (StartsOne (N.starts (inner_of self.old))
            (N.starts (inner_of self.new))
            (record { layout = layout.now; command = command.now })) }
        ensures unlisted { OnErr result
            (StartsNone (N.starts (inner_of self.old)) (N.starts (inner_of self.new))) }
        ensures opened { OnOk result
            (N.alive (inner_of self.new) ≡ N.alive (inner_of self.old) + 1) }
        ensures unopened { OnErr result
            (N.alive (inner_of self.new) ≡ N.alive (inner_of self.old)) }
        ensures no_more { SaysNoMore (N.ran (inner_of self.new)) (N.ran (inner_of self.old)) }
        ensures refused { IsErrOf result RunError.NotAbsolute → IsAbsolute command.now → ⊥ }
        ensures bad { (path : List (List ℕ)) → IsErrOf result (RunError.BadOutput path) → ⊥ }
        ensures device { IfErr result
            (TellsRunFailure (YieldsFor (yields_of N.yields self.new) layout.now command.now)) }
        ensures counted { Counts (failures_of self.old) (failures_of self.new)
            (IsErrAnd result IsFailure) }
        ensures fails { FailsRun N.failures (program_of command.now) self.old self.new result }
        ensures unreached { until_failure_of self.old ≡ 1
            → inner_of self.new ≡ inner_of self.old }
    {
        let is_due = self.is_due();
        let program = program_of(alloc, command)?;
        if is_due {
            return self.fail(program, FailureCause::Signal(OWN_SIGNAL));
        }
        let started = self.inner.start(alloc, layout, command);
        let job = self.pass_on(started)?;
        Ok(FailJob { job, program })
    }

    fn finish(&mut self, alloc: A, job: FailJob<N::Job, A>) -> Result<Produced<A>, RunError<A>>
        ensures gave { IfOk result (λ p. may_give_of N.may_give job (made p)) }
        ensures bad { (path : List (List ℕ)) → IsErrOf result (RunError.BadOutput path)
            → may_give_of N.may_give job (bad_at path) }
        ensures same { YieldsNoMore (yields_of N.yields self.new) (yields_of N.yields self.old) }
        ensures unlisted { StartsNone (N.starts (inner_of self.old))
            (N.starts (inner_of self.new)) }
        ensures closed { N.alive (inner_of self.new) ≡ N.alive (inner_of self.old) - 1 }
        ensures no_more { SaysNoMore (N.ran (inner_of self.new)) (N.ran (inner_of self.old)) }
        ensures absolute { IsErrOf result RunError.NotAbsolute → ⊥ }
        ensures device { IfErr result (TellsRunFailure (may_give_of N.may_give job)) }
        ensures counted { Counts (failures_of self.old) (failures_of self.new)
            (IsErrAnd result IsFailure) }
        ensures fails { FailsRun N.failures (program_in job) self.old self.new result }
        // It takes no memory to tell of it.
        ensures failed { until_failure_of self.old ≡ 1 → failures_of self.old < greatest_count
            → IsErrAnd result IsFailure }
    {
        let FailJob { job, program } = job;
        let is_due = self.is_due();
        let made = self.inner.finish(alloc, job);
        if is_due {
            return self.fail(program, FailureCause::Signal(OWN_SIGNAL));
        }
        self.pass_on(made)
    }
}
