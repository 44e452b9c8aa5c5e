//! Calls of an engine over one memo. Each request for memory is refused in turn; after each the
//! call is asked twice more, and the second time nothing is fetched.
ghost use Rattle.tree.specs.Memo.{IsKnownOf, known_by};

use crate::answers::{Answer, Broken};
use crate::calls::{root_over, start_over};
use runs::Engine;
use std::alloc::{Allocator, Global};
use test_support::Refusing;
use tree::{BlobSource, Memo, MemorySource};

/// What is asked: a start of the step, whose job is then lost, or the root.
#[derive(Clone, Copy)]
pub enum Question {
    Start(usize),
    Root,
}

/// The answer over what the memo knows, where no other job runs.
fn asked<A: Allocator + Copy, S: BlobSource<A>>(
    global: Global,
    alloc: A,
    engine: &mut Engine<'_, A>,
    memo: &mut Memo<A>,
    source: &mut S,
    question: Question,
) -> Answer
    requires { IsKnownOf (known_by memo.old) (S.tells source.old) }
    ensures { IsKnownOf (known_by memo.new) (S.tells source.new) }
{
    match question {
        Question::Root => root_over(global, alloc, engine, memo, source),
        Question::Start(step) => {
            let told = start_over(global, alloc, engine, memo, source, step);
            let _ = engine.lose(0);
            told
        }
    }
}

/// The answer, and how often the source was called for it; and how many requests were refused
/// before.
pub fn insisted<'h>(
    global: Global,
    heap: &'h Refusing<Global>,
    engine: &mut Engine<'_, &'h Refusing<Global>>,
    source: &mut MemorySource<&'h Refusing<Global>>,
    question: Question,
    expected: &[u8],
) -> Result<(String, u64), Broken> {
    for number in 1..1_000u64 {
        heap.refuse(number);
        if let Some(told) = asked_thrice(global, heap, engine, source, question, expected)? {
            return Ok((told, number - 1));
        }
    }
    Err(Broken::Untold)
}

/// The answer and the calls for it, if none of its requests was refused; and none if one was, and
/// was told as such.
fn asked_thrice<'h>(
    global: Global,
    heap: &'h Refusing<Global>,
    engine: &mut Engine<'_, &'h Refusing<Global>>,
    source: &mut MemorySource<&'h Refusing<Global>>,
    question: Question,
    expected: &[u8],
) -> Result<Option<String>, Broken> {
    let mut memo = Memo::new(heap);
    let before = source.calls();
    let first = asked(global, heap, engine, &mut memo, source, question);
    let is_refused = heap.has_refused();
    heap.refuse(0);
    let calls = source.calls().saturating_sub(before);
    let second = asked(global, heap, engine, &mut memo, source, question)?;
    let known = source.calls();
    let third = asked(global, heap, engine, &mut memo, source, question)?;
    if second != third || source.calls() != known || !expected.starts_with(second.as_bytes()) {
        return Err(Broken::Untold);
    }
    match first {
        Err(Broken::Memory) if is_refused => Ok(None),
        Ok(told) if !is_refused => Ok(Some(format!(in global; "{told} by {calls}")?)),
        _ => Err(Broken::Untold),
    }
}
