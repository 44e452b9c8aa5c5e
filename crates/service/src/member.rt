ghost use Rattle.std.specs.Prelude.{◌≡◌, ◌↔◌, ◌-◌, ◌<◌, ◌≤◌, ◌⊎◌, [], drop, length};
ghost use Rattle.std.specs.Prelude.{IfSome, IsSome, IsTrue, None, Ok, Some, false, true};
ghost use Rattle.cache_server.specs.Server.{IsOpenAt, session_at};
ghost use Rattle.std.specs.declared.io.ErrorKind.TheVariants.{WouldBlock};
ghost use Rattle.service.specs.Member.{CountsKept, CountsRead, EndsWell, GoesAhead, HasNoLeave};
ghost use Rattle.service.specs.Member.{HoldsAlone, IsDeadline, MovesOn, PausesFor};
ghost use Rattle.service.specs.Member.{answer_size, deadline_at, end_of, new_member, own_size};
ghost use Rattle.service.specs.Member.{pressed_limit, roused, unsent_of};
ghost use Rattle.service.specs.Sockets.{Failed, Finished, Shut, Stays};
ghost use Rattle.service.specs.Talks.{IsReason};

mod sending;

use crate::desk::Desk;
use crate::error::finds_none;
use crate::lingering::{Lingering, deadline_of, limit_of};
use crate::load::{Leave, Load};
use crate::sockets::{Peer, Ready};
use crate::telling::Traffic;
use crate::turn::{Turn, after_fault};
use crate::watched::Watched;
use cache_server::{Answer, ConnError, Server};
use std::alloc::Global;
use std::io::ErrorKind;
use std::marker::Model;
use std::mem;
use std::net::SocketAddr;

/// The most steps of a turn, so that one busy client starves nobody.
const STEPS: u32 = 16;

/// A connection that holds more bytes may be silent less long, where others wait for memory.
const HEAVY: u64 = 65_536;

/// An open connection, one of many. Clauses see its stream, what was read and hasn't come to the
/// server, what of the answers isn't sent, what it holds, and what its deadline comes of.
#[derive(Drop)]
pub(crate) struct Member<S: Peer> {
    stream: Watched<S>,
    peer: SocketAddr,
    traffic: Traffic,
    // What was read and isn't taken, from `at` on.
    input: Vec<u8, Global>,
    at: usize,
    // The answer that isn't sent, from `sent` on.
    answer: Option<Answer<Global>>,
    sent: usize,
    // How many bytes the session keeps of a request that isn't whole.
    kept: u64,
    // There may be something to read; the peer will send no more.
    readable: bool,
    read_closed: bool,
    // Its writing side was ended.
    lingering: Option<Lingering>,
    is_queued: bool,
    is_held: bool,
}

impl<S: Peer> Model for Member<S> {
    ghost use Rattle.service.specs.Member.{MemberValue, answer_size, own_size, unsent_of};
    ghost use Rattle.service.specs.Sockets.{Shut};
    ghost use Rattle.std.specs.Prelude.{◌≡◌, IsSome, drop, false};

    ghost Value = { MemberValue S };

    ghost view = { λ m. record {
      stream = m.stream.stream;
      left = drop m.at m.input.items;
      unsent = unsent_of m.answer m.sent;
      load = record { answers = answer_size m.answer; requests = m.kept };
      own = own_size m.answer;
      moved = m.stream.moved;
      lingering = m.lingering;
      readable = m.readable;
      closed = m.read_closed;
      held = m.is_held;
      queued = m.is_queued;
    } };

    ghost invariant = { λ m. (IsSome m.lingering → S.over m.stream.stream Shut)
        × (m.readable ≡ false → S.dry m.stream.stream × (m.read_closed ≡ false)) };
}

impl<S: Peer + Drop> Member<S> {
    pub(crate) fn new(alloc: Global, stream: S, peer: SocketAddr, now: u64) -> Member<S>
        requires { S.quiet stream now }
        ensures { result ≡ new_member stream now }
    {
        Member {
            stream: Watched::new(stream, now),
            peer,
            traffic: Traffic::none(),
            input: Vec::new(alloc),
            at: 0,
            answer: None,
            sent: 0,
            kept: 0,
            readable: true,
            read_closed: false,
            lingering: None,
            is_queued: false,
            is_held: false,
        }
    }

    /// Its stream, its address, and what came and went.
    pub(crate) fn into_parts(self) -> (S, SocketAddr, Traffic)
        ensures { result.0 ≡ self.stream }
    {
        (self.stream.into_inner(), self.peer, self.traffic)
    }

    /// What it holds.
    pub(crate) fn load(&self) -> Load
        ensures { result ≡ self.now.load }
    {
        let answers = match &self.answer {
            Some(answer) => answer.body().len() as u64,
            None => 0,
        };
        Load {
            answers,
            requests: self.kept,
        }
    }

    /// How many bytes of its answer nobody else holds: all or none, and all that nobody else can.
    #[tactic(auto, using(crate::proofs::Waking::shared_owns_none))]
    pub(crate) fn held_alone(&self) -> u64
        ensures { HoldsAlone self.now result }
    {
        let Some(answer) = &self.answer else {
            return 0;
        };
        if !answer.is_alone() {
            return 0;
        }
        answer.body().len() as u64
    }

    pub(crate) fn is_held(&self) -> bool
        ensures { result ≡ self.now.held }
    {
        self.is_held
    }

    /// Notes whether it is queued for a turn, and tells whether it was.
    pub(crate) fn queue(&mut self, is_queued: bool) -> bool
        ensures was { result ≡ self.old.queued }
        ensures is { self.new ≡ record self.old { queued = is_queued } }
    {
        let was_queued = self.is_queued;
        self.is_queued = is_queued;
        was_queued
    }

    /// It needn't wait for others any more: as long as it did, it wasn't silent.
    pub(crate) fn release(&mut self, now: u64)
        ensures stays { Stays S.spoke self.old.stream self.new.stream }
        ensures free { self.new
            ≡ record self.old { stream = self.new.stream; moved = now; held = false } }
    {
        self.stream.hold(now);
        self.is_held = false;
    }

    /// The system may have something to read, or nothing more. The end is there to be read too.
    pub(crate) fn wake(&mut self, event: &Ready)
        ensures { self.new ≡ roused event.now self.old }
    {
        self.readable = self.readable || (event.readable || event.read_closed);
        self.read_closed = self.read_closed || event.read_closed;
    }

    /// When it will have been silent for too long. Where others wait for memory, that is sooner for
    /// one that holds much.
    pub(crate) fn deadline(&self, idle: Option<u64>, pressed: bool) -> Option<u64>
        ensures is { IsDeadline self.now idle pressed result }
        ensures heavy { IsTrue pressed → (65536 < self.now.own) ⊎ (65536 < self.now.load.requests)
            → result ≡ deadline_at self.now (Some (pressed_limit idle)) }
    {
        let is_pressed = pressed && self.held_alone().max(self.kept) > HEAVY;
        deadline_of(
            self.lingering,
            self.is_held,
            self.stream.moved(),
            limit_of(idle, is_pressed),
        )
    }

    /// Why it ends, where it was silent for too long: this deadline is over, and so its stream
    /// says. After the last answer that is no fault.
    #[tactic(auto, using(crate::proofs::Talking::sender_silent, crate::proofs::Talking::reader_silent))]
    pub(crate) fn silence(
        &self,
        is_open: bool,
        deadline: u64,
        now: u64,
    ) -> Option<Result<(), ConnError>>
        ensures reason { IfSome result (λ why. IsReason (S.over self.now.stream)
            (IsTrue is_open → ⊥) self.now.left self.now.unsent why) }
        ensures known { IfSome result (λ why. why ≡ Err ConnError.Memory → ⊥) }
        ensures done { IsSome self.now.lingering → is_open ≡ false → self.now.unsent ≡ []
            → IfSome result (λ why. why ≡ Ok tt) }
        ensures silent { IsSome result ↔ (deadline - self.now.moved ≤ now - self.now.moved) }
    {
        if !self.stream.was_silent(deadline, now) {
            return None;
        }
        if !self.is_sent() {
            return Some(Err(ConnError::WriteFault));
        }
        if self.lingering.is_some() && !is_open {
            return Some(Ok(()));
        }
        Some(Err(ConnError::ReadFault))
    }

    /// Does what can be done without waiting and with this leave, up to so many steps.
    #[tactic(auto, using(crate::proofs::Talking::moves_nowhere, crate::proofs::Talking::moves_further, crate::proofs::Talking::stays_moves))]
    pub(crate) fn turn(
        &mut self,
        number: u64,
        server: &mut Server<Global>,
        desk: &mut Desk,
        leave: Leave,
        now: u64,
    ) -> Turn
        ensures moves { MovesOn S.spoke S.over 16 (end_of result) number
            server.old self.old server.new self.new }
        ensures pauses { PausesFor S.full S.dry (HasNoLeave leave self.new.load) result self.new }
        ensures held { IsTrue self.new.held ↔ (result ≡ Turn.Held) }
        ensures queued { self.new.queued ≡ self.old.queued }
        ensures ahead { result ≡ Turn.Again → GoesAhead S.tried now self.old self.new }
        ensures counts { end_of result ≡ None → CountsKept server.old number self.old
            → CountsKept server.new number self.new }
    {
        for _ in 0..STEPS {
            match self.step(number, server, desk, leave, now) {
                Turn::Again => self.is_held = false,
                Turn::Held => {
                    self.hold(now);
                    return Turn::Held;
                }
                Turn::Waits => {
                    self.is_held = false;
                    return Turn::Waits;
                }
                Turn::Ends(end) => {
                    self.is_held = false;
                    return Turn::Ends(end);
                }
            }
        }
        Turn::Again
    }

    #[tactic(auto, using(crate::proofs::Talking::moves_nowhere, crate::proofs::Talking::passes_moves, crate::proofs::Talking::stays_moves, crate::proofs::Talking::lingers_moves))]
    fn step(
        &mut self,
        number: u64,
        server: &mut Server<Global>,
        desk: &mut Desk,
        leave: Leave,
        now: u64,
    ) -> Turn
        ensures moves { MovesOn S.spoke S.over 1 (end_of result) number
            server.old self.old server.new self.new }
        ensures pauses { PausesFor S.full S.dry (HasNoLeave leave self.new.load) result self.new }
        ensures bound { leave.answers ≡ false → server.new ≡ server.old }
        ensures share { self.old.left ≡ [] → leave.kept < self.old.load.requests
            → server.new ≡ server.old }
        ensures queued { self.new.queued ≡ self.old.queued }
        ensures ahead { result ≡ Turn.Again → GoesAhead S.tried now self.old self.new }
        ensures counts { end_of result ≡ None → CountsKept server.old number self.old
            → CountsKept server.new number self.new }
    {
        if !self.is_sent() {
            return self.send(desk, now);
        }
        if !server.is_open(number) {
            return self.linger(desk, now);
        }
        if !leave.answers {
            return Turn::Held;
        }
        if self.at < self.input.len() {
            return self.go_on(number, server, desk);
        }
        if !self.readable {
            return Turn::Waits;
        }
        if self.kept > leave.kept {
            return Turn::Held;
        }
        self.receive(number, server, desk, now)
    }

    /// It waits for others.
    fn hold(&mut self, now: u64)
        ensures stays { Stays S.spoke self.old.stream self.new.stream }
        ensures held { self.new
            ≡ record self.old { stream = self.new.stream; moved = now; held = true } }
    {
        self.stream.hold(now);
        self.is_held = true;
    }

    /// Ends the writing side after the last answer.
    fn shut(&mut self, now: u64)
        ensures stays { Stays S.spoke self.old.stream self.new.stream }
        ensures since { self.new ≡ record self.old {
          stream = self.new.stream;
          lingering = Some (record { begun = now; reads = 0 });
          readable = true;
        } }
        ensures tried { S.tried self.new.stream now }
    {
        self.stream.shut(now);
        self.lingering = Some(Lingering::begin(now));
        self.readable = true;
    }

    /// After the last answer: ends the writing side, and drops what still comes for a while. A
    /// client that is still sending would lose that answer to a reset if the stream were closed at
    /// once.
    fn linger(&mut self, desk: &mut Desk, now: u64) -> Turn
        ensures end { EndsWell (S.over self.new.stream Shut) (end_of result) }
        ensures left { self.new.left ≡ self.old.left }
        ensures unsent { self.new.unsent ≡ self.old.unsent }
        ensures queued { self.new.queued ≡ self.old.queued }
        ensures stays { Stays S.spoke self.old.stream self.new.stream }
        ensures begun { IfSome self.old.lingering (λ it.
            IfSome self.new.lingering (λ next. next.begun ≡ it.begun)) }
        ensures lingers { IsSome self.old.lingering → IsSome self.new.lingering }
        ensures begins { self.old.lingering ≡ None → result ≡ Turn.Again }
        ensures ends { IfSome self.old.lingering (λ it. IsSome (end_of result)
            → (1024 ≤ it.reads) ⊎ (S.over self.new.stream Finished
            ⊎ S.over self.new.stream (Failed ConnError.ReadFault))) }
        ensures reads { IfSome self.old.lingering (λ it. IfSome self.new.lingering (λ next.
            CountsRead (end_of result) now self.old self.new it next)) }
        ensures pauses { PausesFor S.full S.dry ⊥ result self.new }
        ensures tried { result ≡ Turn.Again → S.tried self.new.stream now }
        ensures load { self.new.load ≡ self.old.load }
    {
        let Some(lingering) = self.lingering else {
            self.shut(now);
            return Turn::Again;
        };
        if !self.readable {
            return Turn::Waits;
        }
        match self.stream.discard(desk.buffer.as_mut_slice(), now) {
            Ok(0) => Turn::Ends(Ok(())),
            Ok(_) => {
                let Some(lingering) = lingering.read_again() else {
                    return Turn::Ends(Ok(()));
                };
                self.lingering = Some(lingering);
                Turn::Again
            }
            Err(fault) => match fault.kind() {
                ErrorKind::WouldBlock => {
                    self.readable = false;
                    self.read_closed = false;
                    Turn::Waits
                }
                ErrorKind::Interrupted => Turn::Again,
                _ => Turn::Ends(Ok(())),
            },
        }
    }

    /// Answers the next request of what was read before.
    fn go_on(&mut self, number: u64, server: &mut Server<Global>, desk: &Desk) -> Turn
        requires unsent { self.old.unsent ≡ [] }
        requires more { IsOpenAt (session_at server.old number) }
        requires some { self.old.left ≡ [] → ⊥ }
        ensures moves { MovesOn S.spoke S.over 1 (end_of result) number
            server.old self.old server.new self.new }
        ensures pauses { PausesFor S.full S.dry ⊥ result self.new }
        ensures queued { self.new.queued ≡ self.old.queued }
        ensures stream { self.new.stream ≡ self.old.stream }
        ensures less { end_of result ≡ None → length self.new.left < length self.old.left }
        ensures counts { end_of result ≡ None → CountsKept server.new number self.new }
    {
        let input = mem::replace(&mut self.input, Vec::new(desk.alloc));
        let at = self.at.min(input.len());
        let (_, rest) = input.as_slice().split_at(at);
        let before = server.counts();
        match server.next(desk.alloc, number, rest) {
            Ok((taken, answer)) => {
                self.traffic.counts.add_between(&before, &server.counts());
                let kept = server.held_bytes(number) as u64;
                self.keep(desk.alloc, answer, input, at + taken, kept);
                Turn::Again
            }
            Err(_) => Turn::Ends(Err(ConnError::Memory)),
        }
    }

    /// Reads, and answers the first request that is whole. What comes after it is kept.
    fn receive(
        &mut self,
        number: u64,
        server: &mut Server<Global>,
        desk: &mut Desk,
        now: u64,
    ) -> Turn
        requires left { self.old.left ≡ [] }
        requires unsent { self.old.unsent ≡ [] }
        requires more { IsOpenAt (session_at server.old number) }
        ensures moves { MovesOn S.spoke S.over 1 (end_of result) number
            server.old self.old server.new self.new }
        ensures pauses { PausesFor S.full S.dry ⊥ result self.new }
        ensures queued { self.new.queued ≡ self.old.queued }
        ensures tried { S.tried self.new.stream now }
        ensures counts { end_of result ≡ None → CountsKept server.old number self.old
            → CountsKept server.new number self.new }
    {
        let buffer = desk.buffer.as_mut_slice();
        let count = match self.stream.read(buffer, now) {
            Ok(count) => count,
            Err(fault) => {
                // Where neither a byte nor the end is at hand, another event tells of them.
                let finds_none = finds_none(&fault);
                self.readable = !finds_none;
                self.read_closed = self.read_closed && !finds_none;
                return after_fault(&fault, ConnError::ReadFault);
            }
        };
        self.readable = count >= buffer.len() || self.read_closed;
        if count == 0 {
            return Turn::Ends(Ok(()));
        }
        self.traffic.read = self.traffic.read.saturating_add(count as u64);
        let (piece, _) = buffer.split_at(count);
        let before = server.counts();
        match server.next(desk.alloc, number, piece) {
            Ok((taken, answer)) => {
                self.traffic.counts.add_between(&before, &server.counts());
                let (_, rest) = piece.split_at(taken);
                let mut input = Vec::new(desk.alloc);
                if input.extend_from_slice(rest).is_err() {
                    return Turn::Ends(Err(ConnError::Memory));
                }
                let kept = server.held_bytes(number) as u64;
                self.keep(desk.alloc, answer, input, 0, kept);
                Turn::Again
            }
            Err(_) => Turn::Ends(Err(ConnError::Memory)),
        }
    }

    /// Keeps an answer to be sent, and what comes after its request.
    fn keep(
        &mut self,
        alloc: Global,
        answer: Option<Answer<Global>>,
        input: Vec<u8, Global>,
        at: usize,
        kept: u64,
    )
        ensures { self.new ≡ record self.old {
          left = drop at input.items;
          unsent = unsent_of answer 0;
          load = record { answers = answer_size answer; requests = kept };
          own = own_size answer;
        } }
    {
        self.answer = answer;
        self.sent = 0;
        self.kept = kept;
        if at < input.len() {
            self.input = input;
            self.at = at;
        } else {
            self.input = Vec::new(alloc);
            self.at = 0;
        }
    }
}
