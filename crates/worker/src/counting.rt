ghost use Rattle.std.specs.Prelude.{◌≡◌, ◌↔◌, ◌+◌, ◌<◌, ◌^◌, ℕ, List, [], IsSome, IsTrue, length};
ghost use Rattle.std.specs.Prelude.{if◌then◌else◌};
ghost use Rattle.runs.specs.Engine.{EngineValue, finished_in};
ghost use Rattle.worker.specs.Calls.{Call, running};
ghost use Rattle.worker.specs.Going.{AreJobsOf, FinishesOnly, IsJobOf, IsTurn, is_start, jobs_with};
ghost use Rattle.worker.specs.Going.{step_of, taken_in};
ghost use Rattle.worker.specs.Watching.{IsProgressOf, first_step, jobs_after, taken_count};

use crate::child::Child;
use crate::turns::Turn;
use crate::watching::Progress;
use runs::Engine;
use std::alloc::Allocator;
use std::collections::VecDeque;

/// A turn that is to be taken.
#[derive(Clone, Copy)]
pub(crate) struct Before {
    /// The step of the turn.
    step: usize,
    is_start: bool,
    /// Whether the step had finished.
    had_finished: bool,
}

/// How far a build of which no job runs is.
pub(crate) fn first_progress<A: Allocator + Copy>(engine: &Engine<'_, A>) -> Progress
    requires { running engine.now.jobs ≡ 0 }
    ensures { IsProgressOf [] engine.now result }
{
    let steps = engine.plan().steps().len();
    let mut finished = 0;
    for step in 0..steps {
        if engine.finished(step) {
            finished += 1;
        }
    }
    Progress {
        steps,
        finished,
        taken: 0,
        running: 0,
        longest: None,
    }
}

/// The step of the child that was started first.
fn longest<J, A: Allocator>(children: &VecDeque<Child<J>, A>) -> Option<usize>
    ensures { result ≡ first_step (jobs_with children.now.items) }
{
    Some(children.front()?.step)
}

/// The step of a turn.
fn step_of<A: Allocator + Copy, J>(
    engine: &Engine<'_, A>,
    children: &VecDeque<Child<J>, A>,
    turn: &Turn,
) -> usize
    requires can { (most : ℕ) × IsTurn most engine.now children.now.items turn.now }
    requires there { AreJobsOf IsJobOf engine.now.jobs children.now.items }
    ensures value { result ≡ step_of turn.now children.now.items }
    ensures within { result < length engine.now.plan.steps }
{
    let _ = engine.plan();
    match turn {
        Turn::Start(step) => *step,
        Turn::Finish => match children.front() {
            Some(child) => child.step,
            None => unreachable!(),
        },
    }
}

/// What a turn that is to be taken finds.
pub(crate) fn before_turn<A: Allocator + Copy, J>(
    engine: &Engine<'_, A>,
    children: &VecDeque<Child<J>, A>,
    turn: &Turn,
) -> Before
    requires can { (most : ℕ) × IsTurn most engine.now children.now.items turn.now }
    requires there { AreJobsOf IsJobOf engine.now.jobs children.now.items }
    ensures step { result.step ≡ step_of turn.now children.now.items }
    ensures within { result.step < length engine.now.plan.steps }
    ensures start { result.is_start ≡ is_start turn.now }
    ensures finished { IsTrue result.had_finished ↔ IsSome (finished_in result.step engine.now) }
{
    let step = step_of(engine, children, turn);
    Before {
        step,
        is_start: matches!(turn, Turn::Start(_)),
        had_finished: engine.finished(step),
    }
}

/// The count, or one more. One that is full stays so.
fn counted(count: usize, is_more: bool) -> usize
    ensures { let n = count + (if is_more then 1 else 0) in n < 2 ^ 64 → result ≡ n }
{
    if is_more {
        count.saturating_add(1)
    } else {
        count
    }
}

/// How far a build is after a turn.
pub(crate) fn progress_after<A: Allocator + Copy, J>(
    progress: Progress,
    turn: Before,
    engine: &Engine<'_, A>,
    children: &VecDeque<Child<J>, A>,
) -> Progress
    requires within { turn.step < length engine.now.plan.steps }
    requires there { AreJobsOf IsJobOf engine.now.jobs children.now.items }
    ensures { (old : EngineValue) (calls all : List Call) → IsProgressOf calls old progress
        → IsTrue turn.had_finished ↔ IsSome (finished_in turn.step old)
        → FinishesOnly turn.step old engine.now
        → taken_count all
        ≡ taken_count calls + taken_in turn.is_start turn.step old engine.now
        → jobs_after [] all ≡ jobs_with children.now.items → IsProgressOf all engine.now result }
{
    let comes = engine.finished(turn.step) && !turn.had_finished;
    let is_taken = comes && turn.is_start;
    Progress {
        steps: engine.plan().steps().len(),
        finished: counted(progress.finished, comes),
        taken: counted(progress.taken, is_taken),
        running: children.len(),
        longest: longest(children),
    }
}
