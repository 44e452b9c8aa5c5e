//! Rows of one call that fails: of the source of a verdict, and of the store and the runner of a
//! build. Each call fails in turn, and one beyond the last.
ghost use Rattle.std.specs.Prelude.{◌<◌};

use crate::answers::{Answer, Broken, count_in, said, word};
use crate::children::{came_of, failure_told, told_of};
use crate::counting::{Came, Counting};
use crate::stock::{Case, case_of, source_of};
use crate::verdicts::verdict_told;
use blob_digest::Digest;
use builder::{Fault, fault_of, tell_build};
use plan::{Plan, Record};
use std::alloc::Global;
use test_support::Row;
use tree::{FailSink, MemorySource};
use verifier::{VerifyError, verify};
use worker::{FailRunner, Unwatched};

/// The verdict on the changed build, and how many calls of its source fail in turn, after each of
/// which there is none.
pub fn verdict(global: Global, stock: &[Row], changes: &[Vec<u8>]) -> Answer {
    for number in 1..1000u64 {
        if let Some(told) = verdict_without(global, stock, changes, number)? {
            let faults = number - 1;
            return Ok(format!(in global; "{told}, {faults} faults")?);
        }
    }
    Err(Broken::NoRow)
}

/// The verdict, where the call of this number fails if there is one; none if that failed.
fn verdict_without(
    global: Global,
    stock: &[Row],
    changes: &[Vec<u8>],
    number: u64,
) -> Result<Option<String>, Broken> {
    let case = case_of(global, stock, changes)?;
    let mut source = FailSink::new(source_of(global, stock, changes)?, number);
    let verdict = judged_over(global, &case, &mut source)?;
    let is_reached = source.until_failure() == 0;
    match verdict {
        None if is_reached && source.failures() == 1 => Ok(None),
        Some(told) if !is_reached && source.failures() == 0 => Ok(Some(told)),
        _ => Err(Broken::Untold),
    }
}

/// The verdict; none where the source failed.
fn judged_over(
    global: Global,
    case: &Case,
    source: &mut FailSink<MemorySource<Global>>,
) -> Result<Option<String>, Broken> {
    let plan = Plan::read(global, case.plan.as_bytes())?;
    let record = Record::read(global, case.record.as_bytes(), &plan)?;
    match verify(global, &case.sources, &plan, &record, &case.claim, source) {
        Ok(verdict) => Ok(Some(verdict_told(global, &verdict)?)),
        Err(VerifyError::Fetch) => Ok(None),
        Err(VerifyError::Memory) => Err(Broken::Memory),
    }
}

/// What comes of a build, and how many calls of its store and of its runner fail in turn.
pub fn build(global: Global, stock: &[Row], fields: &[Vec<u8>]) -> Answer {
    let [plan, came, jobs, failure, _] = fields else {
        return Err(Broken::NoRow);
    };
    let tried = Tried {
        global,
        stock,
        plan,
        came: came_of(came),
        jobs: count_in(jobs)?,
        failure: word(failure),
    };
    let Ended::Told(told) = tried.build(0, 0, "")? else {
        return Err(Broken::NoRow);
    };
    let Some(calls) = tried.faults(told.as_str(), true)? else {
        return said(global, "otherwise where a call of the store fails");
    };
    let Some(children) = tried.faults(told.as_str(), false)? else {
        return said(global, "otherwise where a call of the runner fails");
    };
    Ok(format!(in global; "{told}{calls} faults of the store, {children} of the runner")?)
}

/// How a build ended.
#[derive(Drop)]
enum Ended {
    /// With this line and this record.
    Told(String),
    /// With the failure of its store, or of its runner.
    Failed,
    /// Otherwise than it should.
    Otherwise,
}

/// The build that a row is of.
#[derive(Clone, Copy)]
struct Tried<'a> {
    global: Global,
    stock: &'a [Row],
    plan: &'a [u8],
    came: Came,
    jobs: usize,
    /// What is told of a call of the runner that fails.
    failure: &'a str,
}

impl Tried<'_> {
    /// How many calls of the store, or of the runner, fail in turn until none does and the build
    /// tells what is expected; none where one isn't told as it should be.
    fn faults(&self, expected: &str, of_store: bool) -> Result<Option<u64>, Broken> {
        for number in 1..1000u64 {
            let (call, child) = if of_store { (number, 0) } else { (0, number) };
            match self.build(call, child, expected)? {
                Ended::Failed => {}
                Ended::Told(told) if told.as_str() == expected => return Ok(Some(number - 1)),
                _ => return Ok(None),
            }
        }
        Ok(None)
    }

    /// Builds the plan over the stock where the calls of the store and the runner of these numbers
    /// fail, and after a failure once more over what is left of both, where none does any more.
    fn build(&self, call: u64, child: u64, expected: &str) -> Result<Ended, Broken> {
        let store = source_of(self.global, self.stock, &[])?;
        let mut store = FailSink::new(store, call);
        let mut runner = FailRunner::new(Counting::new(self.came), child);
        let first = self.build_once(&mut store, &mut runner)?;
        if !matches!(first, Ended::Failed) {
            return Ok(first);
        }
        let again = self.build_once(&mut store, &mut runner)?;
        Ok(match again {
            Ended::Told(told) if told.as_str() == expected => Ended::Failed,
            _ => Ended::Otherwise,
        })
    }

    fn build_once(
        &self,
        store: &mut FailSink<MemorySource<Global>>,
        runner: &mut FailRunner<Counting>,
    ) -> Result<Ended, Broken> {
        let plan = Plan::read(self.global, self.plan)?;
        let sources = Digest::empty();
        let jobs = self.jobs.max(1);
        let told = tell_build(
            self.global,
            &sources,
            &plan,
            store,
            runner,
            &mut Unwatched,
            jobs,
        );
        if !runner.inner().is_idle() {
            return Ok(Ended::Otherwise);
        }
        let error = match told {
            Ok(told) => return Ok(Ended::Told(told_of(self.global, &told)?)),
            Err(error) => error,
        };
        let failure = failure_told(self.global, &error)?;
        Ok(match (fault_of(&error), failure) {
            (Fault::Fetch(_), None) if store.failures() == 1 => Ended::Failed,
            (Fault::Device(_), Some(words))
                if runner.failures() == 1 && words.as_str() == self.failure => { Ended::Failed }
            _ => Ended::Otherwise,
        })
    }
}
