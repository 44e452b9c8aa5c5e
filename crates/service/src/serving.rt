ghost use Rattle.std.specs.Prelude.{◌<◌, IfErr, IfOk, OnErr, OnOk};
ghost use Rattle.service.specs.Turns.{CountsOn, EndsAtOnce, FailsAfter, HasCounted, LedByStreams};
ghost use Rattle.service.specs.Turns.{ServesInTurn, ServesNext};

use crate::accepted::{Accepted, Streams};
use crate::error::NotAccepted;
use crate::listening::{Listener, SystemListener};
use crate::telling::{Traffic, tell};
use cache_server::{Cache, Counts, run};
use http_core::Prefix;
use log::{Log, warn};
use std::alloc::Global;
use std::io;
use std::time::Clock;

/// How often in a row it is tried to accept a connection; of many at once, while none is open.
pub(crate) const TRIES: u32 = 100;

/// Serves so many connections of the listener, one after another: `serve_listener` over sockets of
/// the system.
#[tactic(auto, using(crate::proofs::Failing::led_by_streams))]
pub fn serve<R: AllocGlobal + Clock + Log>(
    rt: &R,
    listener: &mut SystemListener<'_, R>,
    connections: u64,
    cache: &mut Cache<Global>,
    prefix: &Prefix<Global>,
) -> Result<(), NotAccepted>
    // The requests of some streams, one for each connection, led to the cache. No contract says
    // which bytes a socket gives and takes: what is said of these is said over `Listener`.
    ensures ok { OnOk result (LedByStreams prefix.now cache.old connections cache.new) }
    ensures err { IfErr result (λ fault.
        LedByStreams prefix.now cache.old fault.accepted cache.new) }
    ensures few { IfErr result (λ fault. fault.accepted < connections) }
    // So many were accepted, and as many have ended.
    ensures counts { OnOk result
        (CountsOn HasCounted connections connections listener.old listener.new) }
    ensures counted { IfErr result (λ fault.
        CountsOn HasCounted fault.accepted fault.accepted listener.old listener.new) }
{
    serve_listener(rt, listener, connections, cache, prefix)
}

/// Serves so many connections of the listener, one after another, under the prefix. A fault of one
/// connection ends that connection alone, and one that ended as it was accepted is one of them.
/// What can't be accepted isn't counted; after 100 faults in a row no more are waited for.
pub fn serve_listener<R: AllocGlobal + Log, L: Listener>(
    rt: &R,
    listener: &mut L,
    connections: u64,
    cache: &mut Cache<Global>,
    prefix: &Prefix<Global>,
) -> Result<(), NotAccepted>
    // Each connection was opened, run to its end or to a fault, and ended.
    ensures ok { OnOk result
        (ServesInTurn L.opened L.ended L.lost L.sent prefix.now cache.old connections cache.new) }
    ensures err { IfErr result (λ fault.
        ServesInTurn L.opened L.ended L.lost L.sent prefix.now
        cache.old fault.accepted cache.new) }
    ensures few { IfErr result (λ fault. fault.accepted < connections) }
    // No others were accepted.
    ensures counts { OnOk result
        (CountsOn L.counts connections connections listener.old listener.new) }
    ensures counted { IfErr result (λ fault.
        CountsOn L.counts fault.accepted fault.accepted listener.old listener.new) }
    ensures tried { IfErr result (λ fault.
        FailsAfter L.failed fault.accepted 100 listener.old listener.new) }
    ensures last { IfErr result (λ fault. L.refused listener.new fault.fault) }
{
    for number in 0..connections {
        let accepted = match accept(rt, listener, number) {
            Ok(accepted) => accepted,
            Err(fault) => return Err(NotAccepted {
                accepted: number,
                fault,
            }),
        };
        serve_next(rt, listener, number, accepted, cache, prefix);
    }
    Ok(())
}

/// The next connection, or the last of so many faults in a row. The log tells of the others.
fn accept<R: Log, L: Listener>(
    rt: &R,
    listener: &mut L,
    number: u64,
) -> io::Result<Accepted<Streams<L::Reader, L::Writer>>>
    ensures opens { IfOk result (λ it. IfOk it.opened (λ streams. L.opened number
        (L.Reader.remaining streams.reader) (L.Writer.contents streams.writer))) }
    ensures clean { IfOk result (λ it.
        IfOk it.opened (λ streams. L.Writer.flushed streams.writer)) }
    ensures gives { IfOk result (λ it.
        OnOk it.opened (CountsOn L.counts 1 0 listener.old listener.new)) }
    ensures ends { IfOk result (λ it.
        IfErr it.opened (EndsAtOnce L.opened L.ended L.lost L.sent number)) }
    ensures loses { IfOk result (λ it.
        OnErr it.opened (CountsOn L.counts 1 1 listener.old listener.new)) }
    ensures still { OnErr result (CountsOn L.counts 0 0 listener.old listener.new) }
    ensures again { OnOk result (L.failed listener.new 0) }
    ensures fails { OnErr result (FailsAfter L.failed 0 100 listener.old listener.new) }
    ensures last { IfErr result (L.refused listener.new) }
{
    for tried in 1..TRIES {
        match listener.accept(number) {
            Ok(accepted) => return Ok(accepted),
            Err(fault) => warn!(rt; "{number}: not accepted, try {tried}: {fault}"),
        }
    }
    listener.accept(number)
}

/// Serves a connection, unless it has ended already, and tells of it in the log.
#[tactic(auto, using(crate::proofs::Failing::fault_lost, crate::proofs::Failing::sends_on, crate::proofs::Failing::serves_none))]
fn serve_next<R: AllocGlobal + Log, L: Listener>(
    rt: &R,
    listener: &mut L,
    number: u64,
    accepted: Accepted<Streams<L::Reader, L::Writer>>,
    cache: &mut Cache<Global>,
    prefix: &Prefix<Global>,
)
    requires opens { IfOk accepted.opened (λ streams. L.opened number
        (L.Reader.remaining streams.reader) (L.Writer.contents streams.writer)) }
    requires clean { IfOk accepted.opened (λ streams. L.Writer.flushed streams.writer) }
    requires ended { IfErr accepted.opened (EndsAtOnce L.opened L.ended L.lost L.sent number) }
    ensures serves { ServesNext L.opened L.ended L.lost L.sent prefix.now number
        cache.old cache.new }
    ensures keeps { FailsAfter L.failed 0 0 listener.old listener.new }
    ensures ends { OnOk accepted.opened (CountsOn L.counts 0 1 listener.old listener.new) }
    ensures still { OnErr accepted.opened (CountsOn L.counts 0 0 listener.old listener.new) }
{
    let Accepted { peer, opened } = accepted;
    let (mut reader, mut writer) = match opened {
        Ok(Streams { reader, writer }) => (reader, writer),
        Err(why) => {
            tell(rt, number, &peer, &Traffic::none(), &Err(why));
            return;
        }
    };
    let before = cache.counts();
    let end = run(rt.alloc(), &mut reader, &mut writer, cache, prefix);
    let mut counts = Counts::none();
    counts.add_between(&before, &cache.counts());
    let (read, written) = listener.end(number, reader, writer, end);
    let traffic = Traffic {
        counts,
        read,
        written,
    };
    tell(rt, number, &peer, &traffic, &end);
}
