ghost use Rattle.std.specs.Prelude.{◌≡◌, ◌-◌, ◌<◌, ◌≤◌, ◌↔◌, length, take, IfErr, IfOk, IsTrue};
ghost use Rattle.std.specs.Prelude.{OnErr};
ghost use Rattle.std.specs.Io.{ReadsAtMost, WritesAtMost};
ghost use Rattle.std.specs.IoError.{error_kind};
ghost use Rattle.std.specs.declared.io.ErrorKind.TheVariants.{Interrupted, WouldBlock};
ghost use Rattle.cache_server.specs.declared.error.ConnError.{ConnError};
ghost use Rattle.service.specs.Sockets.{Failed, Finished, IsBroken, ReadsFrom, SendsTo, Shut};
ghost use Rattle.service.specs.Sockets.{Silent, Stays, StaysDry, StaysShut};
ghost use Rattle.service.specs.Member.{moved_by};

use crate::sockets::Peer;
use std::io;
use std::marker::Model;

/// A stream, and when a byte was moved there last, or it was held.
#[derive(Drop)]
pub(crate) struct Watched<S: Peer> {
    stream: S,
    moved: u64,
}

impl<S: Peer> Model for Watched<S> {
    ghost use Rattle.service.specs.Member.{WatchedValue};

    ghost Value = { WatchedValue S };

    ghost view = { λ w. record { stream = w.stream; moved = w.moved } };

    ghost invariant = { λ w. S.quiet w.stream w.moved };
}

impl<S: Peer> Watched<S> {
    /// One that was opened at this time.
    pub(crate) fn new(stream: S, now: u64) -> Watched<S>
        requires { S.quiet stream now }
        ensures { result ≡ record { stream = stream; moved = now } }
    {
        Watched { stream, moved: now }
    }

    pub(crate) fn into_inner(self) -> S
        ensures { result ≡ self.stream }
    {
        self.stream
    }

    /// When a byte was moved last, or it was held.
    pub(crate) fn moved(&self) -> u64
        ensures { result ≡ self.now.moved }
    {
        self.moved
    }

    pub(crate) fn read(&mut self, buffer: &mut [u8], now: u64) -> io::Result<usize>
        ensures tried { S.tried self.new.stream now }
        ensures bound { ReadsAtMost result buffer.new }
        ensures read { IfOk result (λ count.
            ReadsFrom S.spoke self.old.stream (take count buffer.new) self.new.stream) }
        ensures fault { OnErr result (Stays S.spoke self.old.stream self.new.stream) }
        ensures shut { StaysShut S.over self.old.stream self.new.stream }
        ensures end { IfOk result (λ count. count ≡ 0 → S.over self.new.stream Finished) }
        ensures short { IfOk result (λ count. count < length buffer.new → S.dry self.new.stream) }
        ensures nothing { IfErr result (λ e. error_kind e ≡ WouldBlock → S.dry self.new.stream) }
        ensures moved { self.new.moved ≡ moved_by result self.old.moved now }
        ensures broken { IfErr result (λ e. IsBroken e
            → S.over self.new.stream (Failed ConnError.ReadFault)) }
    {
        let called = self.stream.read(buffer, now);
        self.moved = moved_by(&called, self.moved, now);
        called
    }

    pub(crate) fn write(&mut self, bytes: &[u8], now: u64) -> io::Result<usize>
        ensures tried { S.tried self.new.stream now }
        ensures bound { WritesAtMost result bytes.now }
        ensures sent { IfOk result (λ count.
            SendsTo S.spoke self.old.stream (take count bytes.now) self.new.stream) }
        ensures fault { OnErr result (Stays S.spoke self.old.stream self.new.stream) }
        ensures shut { StaysShut S.over self.old.stream self.new.stream }
        ensures waits { StaysDry S.dry self.old.stream self.new.stream }
        ensures full { IfErr result (λ e. error_kind e ≡ WouldBlock → S.full self.new.stream) }
        ensures moved { self.new.moved ≡ moved_by result self.old.moved now }
        ensures end { IfOk result (λ count. count ≡ 0
            → S.over self.new.stream (Failed ConnError.WriteFault)) }
        ensures broken { IfErr result (λ e. IsBroken e
            → S.over self.new.stream (Failed ConnError.WriteFault)) }
    {
        let called = self.stream.write(bytes, now);
        self.moved = moved_by(&called, self.moved, now);
        called
    }

    pub(crate) fn discard(&mut self, buffer: &mut [u8], now: u64) -> io::Result<usize>
        ensures tried { S.tried self.new.stream now }
        ensures stays { Stays S.spoke self.old.stream self.new.stream }
        ensures shut { StaysShut S.over self.old.stream self.new.stream }
        ensures end { IfOk result (λ count. count ≡ 0 → S.over self.new.stream Finished) }
        ensures nothing { IfErr result (λ e. error_kind e ≡ WouldBlock → S.dry self.new.stream) }
        ensures moved { self.new.moved ≡ moved_by result self.old.moved now }
        ensures broken { IfErr result (λ e. (error_kind e ≡ WouldBlock → ⊥)
            → (error_kind e ≡ Interrupted → ⊥)
            → S.over self.new.stream (Failed ConnError.ReadFault)) }
    {
        let called = self.stream.discard(buffer, now);
        self.moved = moved_by(&called, self.moved, now);
        called
    }

    pub(crate) fn shut(&mut self, now: u64)
        ensures tried { S.tried self.new.stream now }
        ensures stays { Stays S.spoke self.old.stream self.new.stream }
        ensures shut { S.over self.new.stream Shut }
        ensures moved { self.new.moved ≡ self.old.moved }
    {
        self.stream.shut(now);
    }

    /// It waits for others, and isn't silent by itself.
    pub(crate) fn hold(&mut self, now: u64)
        ensures stays { Stays S.spoke self.old.stream self.new.stream }
        ensures shut { StaysShut S.over self.old.stream self.new.stream }
        ensures waits { StaysDry S.dry self.old.stream self.new.stream }
        ensures moved { self.new.moved ≡ now }
    {
        self.stream.hold(now);
        self.moved = now;
    }

    /// Whether it was silent for too long: since it moved a byte, to its deadline.
    pub(crate) fn was_silent(&self, deadline: u64, now: u64) -> bool
        ensures is { IsTrue result ↔ (deadline - self.now.moved ≤ now - self.now.moved) }
        ensures found { IsTrue result → S.over self.now.stream Silent }
    {
        let allowed = deadline.saturating_sub(self.moved);
        self.stream.is_silent(self.moved, now, allowed)
    }
}

/// When a byte was moved last, after a call at this time that moved so many.
fn moved_by(called: &io::Result<usize>, moved: u64, now: u64) -> u64
    ensures { result ≡ moved_by called.now moved now }
{
    match called {
        Ok(count) => if *count > 0 { now } else { moved },
        Err(_) => moved,
    }
}
