//! How connections come in.
ghost use Rattle.std.specs.Prelude.{◌≡◌, ◌+◌, ◌<◌, ◌≤◌, ◌⊎◌, [], IfErr, IfNone, IfOk, IfSome};
ghost use Rattle.std.specs.Prelude.{IsTrue, OnErr, OnOk, false, length, min};
ghost use Rattle.std.specs.Option.{unwrap_or};
ghost use Rattle.cache_server.specs.History.{End};
ghost use Rattle.cache_server.specs.Server.{LeadsTo};
ghost use Rattle.service.specs.Member.{deadline_at, new_member};
ghost use Rattle.service.specs.Sockets.{IsAccepted, KeepsPlaces};
ghost use Rattle.service.specs.Talks.{AcceptsNone, FindsNone};
ghost use Rattle.service.specs.Together.{AreSame, AreSeenTo, EntersAt, GoesOnTogether};
ghost use Rattle.service.specs.Together.{StaysPlaced, WakesAfter};

use crate::accepted::Accepted;
use crate::error::finds_none;
use crate::member::Member;
use crate::serving::TRIES;
use crate::sockets::{Peer, Sockets};
use crate::telling::{Traffic, tell};
use crate::together::Together;
use cache_server::{ConnError, Server};
use log::{Log, warn};
use std::alloc::Global;
use std::io;
use std::net::SocketAddr;

/// How many milliseconds none is accepted after a fault.
const PAUSE: u64 = 500;

impl<S: Peer + Drop> Together<S> {
    /// Accepts the connections that wait, as long as fewer than `at_once` are open.
    #[tactic(auto, using(crate::proofs::Keeping::keeps_nowhere, crate::proofs::Keeping::keeps_further, crate::proofs::Keeping::keeps_same, crate::proofs::Keeping::keeps_entered, crate::proofs::Places::placed_nowhere, crate::proofs::Places::placed_further))]
    pub(crate) fn accept_some<R: AllocGlobal + Log, N: Sockets<Stream = S>>(
        &mut self,
        rt: &R,
        sockets: &mut N,
        accepted: &mut u64,
        connections: u64,
        at_once: usize,
        server: &mut Server<Global>,
        now: u64,
    ) -> io::Result<()>
        requires { accepted.old ≤ connections }
        ensures keeps { GoesOnTogether false S.spoke N.ended N.lost
            self.old.members.entries accepted.old server.old
            self.new.members.entries accepted.new server.new }
        ensures places { StaysPlaced N.places at_once
            sockets.old self.old.members.entries accepted.old
            sockets.new self.new.members.entries accepted.new }
        ensures within { accepted.new ≤ connections }
        ensures fails { IfErr result (AcceptsNone N.failed N.refused sockets.new) }
        ensures more { OnOk result ((self.new.waits ≡ false) ⊎ ((accepted.new ≡ connections)
            ⊎ (at_once ≤ length self.new.members.entries))) }
        ensures none { OnErr result (self.new.members.entries ≡ []) }
        ensures again { (IsTrue self.old.waits ⊎ (self.old.retry ≤ now)) → self.new.waits ≡ false
            → FindsNone N.refused sockets.new ⊎ (self.new.retry ≡ min (now + 500) u64.MAX) }
        ensures seen { AreSeenTo S.full S.dry self.old → AreSeenTo S.full S.dry self.new }
        ensures wake { AreSeenTo S.full S.dry self.old
            → WakesAfter now self.old.wake → WakesAfter now self.new.wake }
        ensures rest { self.new ≡ record self.old {
          members = self.new.members;
          ready = self.new.ready;
          short = self.new.short;
          waits = self.new.waits;
          retry = self.new.retry;
          wake = self.new.wake;
          line = self.new.line;
        } }
    {
        self.try_again(now);
        for _ in 0..u64::MAX {
            if !self.waits || *accepted >= connections || self.members.len() >= at_once {
                return Ok(());
            }
            self.accept_one(rt, sockets, accepted, connections, at_once, server, now)?;
        }
        Ok(())
    }

    /// Accepts a connection, if one waits. One for which memory is wanting, or a call fails, is
    /// ended at once, and none is accepted for a while.
    fn accept_one<R: AllocGlobal + Log, N: Sockets<Stream = S>>(
        &mut self,
        rt: &R,
        sockets: &mut N,
        accepted: &mut u64,
        connections: u64,
        at_once: usize,
        server: &mut Server<Global>,
        now: u64,
    ) -> io::Result<()>
        requires more { accepted.old < connections }
        requires place { length self.old.members.entries < at_once }
        ensures keeps { GoesOnTogether false S.spoke N.ended N.lost
            self.old.members.entries accepted.old server.old
            self.new.members.entries accepted.new server.new }
        ensures places { StaysPlaced N.places at_once
            sockets.old self.old.members.entries accepted.old
            sockets.new self.new.members.entries accepted.new }
        ensures within { accepted.new ≤ connections }
        ensures one { OnOk result ((accepted.new ≡ accepted.old + 1)
            ⊎ ((self.new.waits ≡ false) × (accepted.new ≡ accepted.old))) }
        ensures fails { IfErr result (AcceptsNone N.failed N.refused sockets.new) }
        ensures none { OnErr result (self.new.members.entries ≡ []) }
        ensures again { IsTrue self.old.waits → self.new.waits ≡ false
            → FindsNone N.refused sockets.new ⊎ (self.new.retry ≡ min (now + 500) u64.MAX) }
        ensures seen { AreSeenTo S.full S.dry self.old → AreSeenTo S.full S.dry self.new }
        ensures wake { AreSeenTo S.full S.dry self.old
            → WakesAfter now self.old.wake → WakesAfter now self.new.wake }
        ensures rest { self.new ≡ record self.old {
          members = self.new.members;
          ready = self.new.ready;
          short = self.new.short;
          waits = self.new.waits;
          retry = self.new.retry;
          wake = self.new.wake;
          line = self.new.line;
        } }
    {
        let number = *accepted;
        let Some(Accepted { peer, opened }) = self.next(rt, sockets, number, now)? else {
            return Ok(());
        };
        *accepted = number + 1;
        match opened {
            Ok(stream) => match self.enter(rt.alloc(), number, stream, peer, now) {
                Ok(()) => (),
                Err(stream) => {
                    sockets.end(stream, Err(ConnError::Memory));
                    self.let_go(rt, server, number, &peer, ConnError::Memory, now);
                }
            },
            Err(why) => self.let_go(rt, server, number, &peer, why, now),
        }
        Ok(())
    }

    /// Tells of a connection that has ended as it was accepted, after which none is accepted for a
    /// while.
    fn let_go<R: Log>(
        &mut self,
        rt: &R,
        server: &mut Server<Global>,
        number: u64,
        peer: &SocketAddr,
        why: ConnError,
        now: u64,
    )
        ensures ends { LeadsTo server.old (End number) server.new }
        ensures prefix { server.new.prefix ≡ server.old.prefix }
        ensures rest { self.new ≡ record self.old {
          waits = false;
          retry = min (now + 500) u64.MAX;
          line = self.new.line;
        } }
    {
        server.end(number);
        self.line.clear();
        tell(rt, number, peer, &Traffic::none(), &Err(why));
        self.put_off(now);
    }

    /// The next connection, if one waits, or the last of so many faults in a row, while none is
    /// open. While one is open, it is tried again after a pause, or when one has ended. The log
    /// tells of each fault.
    fn next<R: Log, N: Sockets<Stream = S>>(
        &mut self,
        rt: &R,
        sockets: &mut N,
        number: u64,
        now: u64,
    ) -> io::Result<Option<Accepted<S>>>
        ensures accepts { IfOk result (λ found. IfSome found (λ it. IsAccepted S.spoke S.quiet
            N.ended N.lost N.places number now sockets.old sockets.new it.opened)) }
        ensures keeps { IfOk result (λ found.
            IfNone found (KeepsPlaces N.places sockets.old sockets.new)) }
        ensures fails { IfErr result (AcceptsNone N.failed N.refused sockets.new) }
        ensures none { OnErr result (self.new.members.entries ≡ []) }
        ensures stays { OnErr result (KeepsPlaces N.places sockets.old sockets.new) }
        ensures waits { IfOk result (λ found. IfNone found (self.new.waits ≡ false)) }
        ensures again { IsTrue self.old.waits → self.new.waits ≡ false
            → FindsNone N.refused sockets.new ⊎ (self.new.retry ≡ min (now + 500) u64.MAX) }
        ensures rest { self.new ≡ record self.old {
          waits = self.new.waits;
          retry = self.new.retry;
          line = self.new.line;
        } }
    {
        for failed in 0..TRIES {
            let fault = match sockets.accept(number, now) {
                Ok(accepted) => return Ok(Some(accepted)),
                Err(fault) => fault,
            };
            if finds_none(&fault) {
                self.waits = false;
                return Ok(None);
            }
            let tried = failed + 1;
            self.line.clear();
            warn!(rt; "{number}: not accepted, try {tried}: {fault}");
            if !self.members.is_empty() {
                self.put_off(now);
                return Ok(None);
            }
            if tried == TRIES {
                return Err(fault);
            }
        }
        Ok(None)
    }

    /// Once the pause after a fault is over, one may wait.
    fn try_again(&mut self, now: u64)
        ensures waits { (IsTrue self.old.waits ⊎ (self.old.retry ≤ now)) → IsTrue self.new.waits }
        ensures over { self.old.retry ≤ now → self.new.retry ≡ u64.MAX }
        ensures still { now < self.old.retry → self.new ≡ self.old }
        ensures rest { self.new
            ≡ record self.old { waits = self.new.waits; retry = self.new.retry } }
    {
        if self.retry <= now {
            self.retry = u64::MAX;
            self.waits = true;
        }
    }

    /// None is accepted until a pause is over.
    fn put_off(&mut self, now: u64)
        ensures { self.new
            ≡ record self.old { waits = false; retry = min (now + 500) u64.MAX } }
    {
        self.waits = false;
        self.retry = now.saturating_add(PAUSE);
    }

    /// A connection takes a place, or comes back where memory is wanting.
    fn enter(
        &mut self,
        alloc: Global,
        number: u64,
        stream: S,
        peer: SocketAddr,
        now: u64,
    ) -> Result<(), S>
        requires { S.quiet stream now }
        ensures ok { OnOk result (EntersAt number stream now
            self.old.members.entries self.new.members.entries) }
        ensures err { OnErr result (AreSame self.old.members.entries self.new.members.entries) }
        ensures still { OnErr result (self.new.wake ≡ self.old.wake) }
        ensures back { IfErr result (λ it. it ≡ stream) }
        ensures wake { OnOk result (self.new.wake ≡ min self.old.wake
            (unwrap_or (deadline_at (new_member stream now) self.old.idle) u64.MAX)) }
        ensures seen { AreSeenTo S.full S.dry self.old → AreSeenTo S.full S.dry self.new }
        ensures rest { self.new ≡ record self.old {
          members = self.new.members;
          ready = self.new.ready;
          short = self.new.short;
          wake = self.new.wake;
        } }
    {
        let member = Member::new(alloc, stream, peer, now);
        let deadline = member.deadline(self.idle, false);
        match self.members.insert(number, member) {
            Ok(_) => (),
            Err(refused) => {
                let (_, member) = refused.value;
                let (stream, _, _) = member.into_parts();
                return Err(stream);
            }
        }
        self.wake = self.wake.min(deadline.unwrap_or(u64::MAX));
        self.queue(number);
        Ok(())
    }
}
