ghost use Rattle.std.specs.Prelude.{◌≡◌, ◌/◌, ◌<◌, ◌≤◌, ◌⊎◌, ◌||◌, ℕ, List, [], None, IfErr};
ghost use Rattle.std.specs.Prelude.{IfOk, IsTrue, OnOk, false, max, option_map, true};
ghost use Rattle.std.specs.Duration.{as_nanos};
ghost use Rattle.std.specs.IoError.{error_kind};
ghost use Rattle.std.specs.List.{list_any};
ghost use Rattle.std.specs.Option.{is_none};
ghost use Rattle.std.specs.declared.io.ErrorKind.TheVariants.{OutOfMemory};
ghost use Rattle.cache_server.specs.Server.{ServerValue};
ghost use Rattle.service.specs.Member.{millis_of, no_load};
ghost use Rattle.service.specs.Sockets.{HasGiven, ServesPlaces};
ghost use Rattle.service.specs.Talks.{LedByConnections, ServesConnections, Stops};
ghost use Rattle.service.specs.Together.{AreMarkedBy, AreSeenTo, GoesOnTogether, LeavesPlaced};
ghost use Rattle.service.specs.Together.{LeavesTogether, StaysPlaced, WakesAfter, member_at};
ghost use Rattle.service.specs.Together.{pause_of};
ghost use Rattle.service.specs.declared.sockets.Ready.{Ready};

use crate::desk::Desk;
use crate::epoll::{EVENTS, SystemSockets};
use crate::error::NotAccepted;
use crate::load::{GREATEST, Scales};
use crate::member::Member;
use crate::sockets::{Peer, Ready, Sockets};
use crate::status::{ErrorTerminal, Status, StatusLine};
use crate::timer::{Timer, millis};
use cache_server::Server;
use log::Log;
use std::alloc::Global;
use std::collections::{BTreeMap, VecDeque};
use std::io;
use std::io::{ErrorKind, Stderr};
use std::time::{Clock, Duration};

/// Connections that are served at once.
#[derive(Drop)]
pub(crate) struct Together<S: Peer> {
    // The open ones, each under its number.
    pub(crate) members: BTreeMap<u64, Member<S>, Global>,
    // Those with something to do, each once; and whether memory was wanting to queue one there.
    pub(crate) ready: VecDeque<u64, Global>,
    pub(crate) short: bool,
    // Those that wait until others hold less.
    pub(crate) held: VecDeque<u64, Global>,
    pub(crate) scales: Scales,
    // How many bytes of a request each may keep, where all together hold too much.
    pub(crate) share: u64,
    // A connection may wait to be accepted; and when it is tried again after a fault.
    pub(crate) waits: bool,
    pub(crate) retry: u64,
    pub(crate) idle: Option<u64>,
    pub(crate) timer: Timer,
    // When a member may have been silent for too long.
    pub(crate) wake: u64,
    pub(crate) desk: Desk,
    pub(crate) line: StatusLine,
}

/// Serves so many connections of the listener, up to `at_once` of them at a time, none of which
/// waits for another, but where all together hold too much: `serve_sockets` over epoll. Where
/// standard error is a terminal, a line there says how many are open, and the hits so far.
#[tactic(auto, using(crate::proofs::Whole::led_by_served))]
pub fn serve_together<R: AllocGlobal + Clock + ErrorTerminal + Log>(
    rt: &R,
    sockets: &mut SystemSockets,
    connections: u64,
    at_once: usize,
    idle: Option<Duration>,
    server: &mut Server<Global>,
) -> Result<(), NotAccepted>
    // What came over some connections led to the server, in the order of its calls. No contract
    // says which bytes a socket gives and takes: what is said of these is said over `Sockets`.
    ensures ok { OnOk result (LedByConnections server.old connections server.new) }
    ensures err { IfErr result (λ fault.
        LedByConnections server.old fault.accepted server.new) }
    ensures few { IfErr result (λ fault. fault.accepted ≤ connections) }
    // So many were accepted.
    ensures places { OnOk result
        (ServesPlaces HasGiven at_once connections sockets.old sockets.new) }
    ensures placed { IfErr result (λ fault.
        ServesPlaces HasGiven at_once fault.accepted sockets.old sockets.new) }
{
    serve_sockets(
        rt,
        sockets,
        connections,
        at_once,
        idle,
        rt.error_terminal(),
        server,
    )
}

/// Serves so many connections of the sockets, up to `at_once` of them at a time, none of which
/// waits for another, but where all together hold too much. Each is read only while it has no
/// answer that isn't sent. A line on the terminal, if there is one, says how many are open, and the
/// hits so far.
#[tactic(auto, using(crate::proofs::Whole::serves_all, crate::proofs::Whole::serves_cut, crate::proofs::Whole::serves_kept, crate::proofs::Whole::serves_none))]
pub fn serve_sockets<R: AllocGlobal + Clock + Log, N: Sockets>(
    rt: &R,
    sockets: &mut N,
    connections: u64,
    at_once: usize,
    idle: Option<Duration>,
    terminal: Option<Stderr>,
    server: &mut Server<Global>,
) -> Result<(), NotAccepted>
    // Of each connection a beginning of what was read came to the server, and the answers to that
    // were sent but for a part of one; and it ended for a reason, or was cut off with the run. What
    // came led to the server, in the order of its calls.
    ensures ok { OnOk result
        (ServesConnections false N.ended N.lost server.old connections server.new) }
    ensures err { IfErr result (λ fault.
        ServesConnections true N.ended N.lost server.old fault.accepted server.new) }
    ensures few { IfErr result (λ fault. fault.accepted ≤ connections) }
    // Never were more than so many open, and none is in the end. No others were accepted.
    ensures places { OnOk result
        (ServesPlaces N.places at_once connections sockets.old sockets.new) }
    ensures placed { IfErr result (λ fault.
        ServesPlaces N.places at_once fault.accepted sockets.old sockets.new) }
    // It was cut off; or none was open, and a hundred accepts in a row failed.
    ensures stops { IfErr result (λ fault. Stops N.failed N.refused N.broken
        (ServesConnections false N.ended N.lost server.old fault.accepted server.new)
        sockets.new fault.fault) }
{
    let mut accepted: u64 = 0;
    let mut together = match Together::new(rt, at_once, idle, terminal) {
        Ok(together) => together,
        Err(fault) => return Err(NotAccepted { accepted, fault }),
    };
    let served = together.serve(rt, sockets, &mut accepted, connections, at_once, server);
    together.line.clear();
    match served {
        Ok(()) => Ok(()),
        Err(fault) => {
            if together.members.is_empty() {
                return Err(NotAccepted { accepted, fault });
            }
            together.end_all(rt, sockets, server);
            Err(NotAccepted { accepted, fault })
        }
    }
}

impl<S: Peer + Drop> Together<S> {
    fn new<R: AllocGlobal + Clock>(
        rt: &R,
        at_once: usize,
        idle: Option<Duration>,
        terminal: Option<Stderr>,
    ) -> io::Result<Together<S>>
        ensures ok { IfOk result (λ together. together.members.entries ≡ []) }
        ensures waits { IfOk result (λ together. IsTrue together.waits) }
        ensures idle { IfOk result (λ together. together.idle
            ≡ option_map (λ time. max 1 (millis_of time)) idle) }
        ensures share { IfOk result (λ together. 0 < at_once
            → together.share ≡ 268435456 / at_once) }
        ensures scales { IfOk result (λ together. (together.scales.load ≡ no_load)
            × (together.scales.senior ≡ None) × (together.wake ≡ u64.MAX)
            × (together.short ≡ false)) }
        ensures seen { IfOk result (AreSeenTo S.full S.dry) }
        ensures err { IfErr result (λ e. error_kind e ≡ OutOfMemory) }
    {
        let alloc = rt.alloc();
        Ok(Together {
            members: BTreeMap::new(alloc),
            ready: VecDeque::with_capacity(alloc, at_once)?,
            short: false,
            held: VecDeque::new(alloc),
            scales: Scales::new(),
            share: GREATEST / (at_once as u64).max(1),
            waits: true,
            retry: u64::MAX,
            idle: match &idle {
                Some(time) => Some(millis(time).max(1)),
                None => None,
            },
            timer: Timer::begin(rt),
            wake: u64::MAX,
            desk: Desk::new(alloc)?,
            line: StatusLine::new(terminal),
        })
    }

    /// How long the system may be waited for at this time: to the next wake, and a millisecond
    /// more, since the time is whole milliseconds; not at all while one has something to do, or
    /// those that were held may have, since less is held.
    fn timeout(&self, now: u64) -> Option<Duration>
        ensures { option_map as_nanos result ≡ pause_of self.now now }
    {
        if !self.ready.is_empty() || self.scales.eased {
            return Some(Duration::from_secs(0));
        }
        let wake = self.wake.min(self.line.due()).min(self.retry);
        if wake == u64::MAX {
            return None;
        }
        Some(Duration::from_millis(wake.saturating_sub(now) + 1))
    }

    /// Waits until the system has something, or to the next wake, and notes what it tells. All were
    /// looked at by this time.
    fn pause<N: Sockets<Stream = S>>(
        &mut self,
        sockets: &mut N,
        events: &mut Vec<Ready, Global>,
        now: u64,
    ) -> io::Result<()>
        requires seen { AreSeenTo S.full S.dry self.old }
        requires swept { WakesAfter now self.old.wake }
        ensures told { OnOk result ((told : List Ready)
            × N.waited sockets.new (pause_of self.old now) told
            × AreMarkedBy told self.old.members.entries self.new.members.entries
            × (self.new.waits ≡ (self.old.waits || list_any (λ e. is_none e.number) told))) }
        ensures seen { AreSeenTo S.full S.dry self.new }
        ensures keeps { (server : ServerValue) → LeavesTogether S.spoke N.ended N.lost
            (self.old.members.entries, server) (self.new.members.entries, server) }
        ensures places { LeavesPlaced N.places (sockets.old, self.old.members.entries)
            (sockets.new, self.new.members.entries) }
        ensures short { OnOk result (self.old.short ≡ false) }
        ensures rest { self.new ≡ record self.old {
          members = self.new.members;
          ready = self.new.ready;
          short = self.new.short;
          waits = self.new.waits;
        } }
        ensures stops { IfErr result (λ e. N.broken e
            ⊎ ((self.old.short ≡ true) × (error_kind e ≡ OutOfMemory))) }
    {
        if self.short {
            return Err(io::Error::from(ErrorKind::OutOfMemory));
        }
        events.clear();
        sockets.wait(self.timeout(now), events)?;
        self.mark(events.as_slice());
        Ok(())
    }

    /// Serves so many connections, up to `at_once` at a time, to the end of each, or as many as can
    /// be accepted.
    #[tactic(auto, using(crate::proofs::Keeping::keeps_nowhere, crate::proofs::Keeping::keeps_further, crate::proofs::Keeping::keeps_same, crate::proofs::Places::placed_nowhere, crate::proofs::Places::placed_further, crate::proofs::Places::placed_still))]
    fn serve<R: AllocGlobal + Clock + Log, N: Sockets<Stream = S>>(
        &mut self,
        rt: &R,
        sockets: &mut N,
        accepted: &mut u64,
        connections: u64,
        at_once: usize,
        server: &mut Server<Global>,
    ) -> io::Result<()>
        requires few { accepted.old ≤ connections }
        requires seen { AreSeenTo S.full S.dry self.old }
        ensures keeps { GoesOnTogether false S.spoke N.ended N.lost
            self.old.members.entries accepted.old server.old
            self.new.members.entries accepted.new server.new }
        ensures places { StaysPlaced N.places at_once
            sockets.old self.old.members.entries accepted.old
            sockets.new self.new.members.entries accepted.new }
        ensures within { accepted.new ≤ connections }
        ensures all { OnOk result (accepted.new ≡ connections) }
        ensures gone { OnOk result ((k : ℕ) → member_at self.new.members.entries k ≡ None) }
        ensures share { self.new.share ≡ self.old.share }
        ensures idle { self.new.idle ≡ self.old.idle }
        ensures stops { IfErr result
            (Stops N.failed N.refused N.broken (self.new.members.entries ≡ []) sockets.new) }
    {
        let mut events = Vec::with_capacity(rt.alloc(), EVENTS)?;
        for _ in 0..u64::MAX {
            let now = self.timer.now(rt);
            self.sweep(rt, sockets, server, now);
            self.accept_some(rt, sockets, accepted, connections, at_once, server, now)?;
            if *accepted >= connections && self.members.is_empty() {
                return Ok(());
            }
            self.show(server, now);
            self.pause(sockets, &mut events, now)?;
            self.run(rt, sockets, server);
        }
        Err(io::Error::from(ErrorKind::OutOfMemory))
    }

    /// Shows on the terminal how many are open, and the hits so far.
    fn show(&mut self, server: &Server<Global>, now: u64)
        ensures { self.new ≡ record self.old { line = self.new.line } }
    {
        if !self.line.has_terminal() {
            return;
        }
        let status = Status {
            open: self.members.len(),
            hits: server.counts().hits,
        };
        self.line.show(status, now);
    }
}
