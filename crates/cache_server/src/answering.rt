ghost use Rattle.std.specs.Prelude.{◌⊎◌, IfErr, OnErr, OnOk, [], map};
ghost use Rattle.http_core.specs.Event.{event_of};
ghost use Rattle.cache_server.specs.Connection.{IsFoundBy};
ghost use Rattle.cache_server.specs.Writing.{IsTold, IsToldInPart, StopsTelling, TellsBut};

use crate::cache::Cache;
use crate::error::ConnError;
use crate::streams::Outgoing;
use crate::writing::write_answer;
use http_core::Event;
use std::alloc::Allocator;

/// Answers an event.
fn answer_event<A: Allocator + Copy, W: Outgoing>(
    alloc: A,
    cache: &mut Cache<A>,
    event: Event<A>,
    writer: &mut W,
) -> Result<(), ConnError>
    ensures ok { OnOk result (IsTold cache.old (event_of event)
        (W.contents writer.old) (W.contents writer.new) cache.new) }
    ensures err { IfErr result (IsToldInPart cache.old (event_of event)
        (W.contents writer.old) (W.contents writer.new) cache.new) }
    ensures fault { IfErr result (IsFoundBy ⊥ (W.broken writer.new)) }
    ensures pieces { W.in_pieces writer.old → W.in_pieces writer.new }
{
    match event {
        Event::Ask(ask, close) => cache.answer(alloc, ask, close, writer),
        Event::Refuse(status, close) => write_answer(writer, &cache.refuse(alloc, status, close)),
    }
}

/// Answers the events one after another. After an `Err` the cache is as some of them left it, from
/// the first on, and a beginning of their texts is written.
fn answer_all<A: Allocator + Copy, W: Outgoing>(
    alloc: A,
    cache: &mut Cache<A>,
    events: Vec<Event<A>, A>,
    writer: &mut W,
) -> Result<(), ConnError>
    ensures ok { OnOk result (TellsBut cache.old (map event_of events.items)
        (W.contents writer.old) (W.contents writer.new) cache.new [] []) }
    ensures err { IfErr result (StopsTelling cache.old (map event_of events.items)
        (W.contents writer.old) (W.contents writer.new) cache.new) }
    ensures fault { IfErr result (IsFoundBy ⊥ (W.broken writer.new)) }
    ensures pieces { W.in_pieces writer.old → W.in_pieces writer.new }
{
    for event in events {
        answer_event(alloc, cache, event, writer)?;
    }
    Ok(())
}

/// Answers the events, if there are any, and flushes the answers; where memory is wanting, those
/// that were written. A writer that has failed isn't flushed.
pub(crate) fn answer_and_flush<A: Allocator + Copy, W: Outgoing>(
    alloc: A,
    cache: &mut Cache<A>,
    events: Vec<Event<A>, A>,
    writer: &mut W,
) -> Result<(), ConnError>
    ensures ok { OnOk result (TellsBut cache.old (map event_of events.items)
        (W.contents writer.old) (W.contents writer.new) cache.new [] []) }
    ensures err { IfErr result (StopsTelling cache.old (map event_of events.items)
        (W.contents writer.old) (W.contents writer.new) cache.new) }
    ensures fault { IfErr result (IsFoundBy ⊥ (W.broken writer.new)) }
    ensures flushed { OnOk result (W.flushed writer.old → W.flushed writer.new) }
    ensures sent_on { OnErr result (W.broken writer.new ⊎ W.flushed writer.new) }
    ensures pieces { W.in_pieces writer.old → W.in_pieces writer.new }
{
    if events.is_empty() {
        return Ok(());
    }
    match answer_all(alloc, cache, events, writer) {
        Ok(()) => match writer.flush() {
            Ok(()) => Ok(()),
            Err(_) => Err(ConnError::WriteFault),
        },
        Err(ConnError::Memory) => {
            let _flushed = writer.flush();
            Err(ConnError::Memory)
        }
        Err(fault) => Err(fault),
    }
}
