//! Rows of many jobs of an engine.
use crate::answers::{Answer, Broken, number_in, said, word};
use crate::calls::asked;
use crate::engines::insisted;
use crate::stock::source_of;
use blob_digest::Digest;
use plan::Plan;
use runs::Engine;
use std::alloc::Global;
use test_support::{Refusing, Row};
use tree::MemorySource;

/// What the start after this many of the first step is told, and how many jobs run then. Each
/// request for memory of each start is refused before.
pub fn answer(global: Global, stock: &[Row], fields: &[Vec<u8>]) -> Answer {
    let [plan, count, action, _] = fields else {
        return Err(Broken::NoRow);
    };
    let count = number_in(count)?;
    let heap = Refusing::new(global, 0);
    let mut source = source_of(&heap, stock, &[])?;
    let plan = Plan::read(&heap, plan)?;
    match Engine::new(&heap, &plan, Digest::empty(), &mut source) {
        Ok(mut engine) => many_jobs(global, &heap, &mut engine, &mut source, count, word(action)),
        Err(_) => Err(Broken::NoRow),
    }
}

fn many_jobs<'h>(
    global: Global,
    heap: &'h Refusing<Global>,
    engine: &mut Engine<'_, &'h Refusing<Global>>,
    source: &mut MemorySource<&'h Refusing<Global>>,
    count: u64,
    action: &str,
) -> Answer {
    if !are_started(global, heap, engine, source, count, action)? {
        return said(global, "another job");
    }
    let last = start_first(global, heap, engine, source)?;
    let running = asked(global, heap, engine, "running", 0)?;
    Ok(format!(in global; "{last} beside {running}")?)
}

/// Whether this many starts of the first step are told as jobs with this action, in their order.
fn are_started<'h>(
    global: Global,
    heap: &'h Refusing<Global>,
    engine: &mut Engine<'_, &'h Refusing<Global>>,
    source: &mut MemorySource<&'h Refusing<Global>>,
    count: u64,
    action: &str,
) -> Result<bool, Broken> {
    for number in 0..count {
        let told = start_first(global, heap, engine, source)?;
        let expected = format!(in global; "job {number} {action}")?;
        if told.as_str() != expected.as_str() {
            return Ok(false);
        }
    }
    Ok(true)
}

/// What a start of the first step is told once no request for memory is refused any more.
fn start_first<'h>(
    global: Global,
    heap: &'h Refusing<Global>,
    engine: &mut Engine<'_, &'h Refusing<Global>>,
    source: &mut MemorySource<&'h Refusing<Global>>,
) -> Answer {
    let call = [
        Vec::from_slice(global, b"start")?,
        Vec::from_slice(global, b"0")?,
        Vec::new(global),
    ];
    let (told, _) = insisted(global, heap, engine, source, &call)?;
    Ok(told)
}
