ghost use Rattle.std.specs.Prelude.{◌≡◌, ◌-◌, ◌<◌, ◌≤◌, ◌↔◌, ℕ, List, [], length, take, IfErr};
ghost use Rattle.std.specs.Prelude.{IfOk, IsTrue, OnErr, OnOk, Option, option_map};
ghost use Rattle.std.specs.Duration.{as_nanos};
ghost use Rattle.cache_server.specs.declared.error.ConnError.{ConnError};
ghost use Rattle.std.specs.Io.{ReadsAtMost, WritesAtMost};
ghost use Rattle.std.specs.IoError.{error_kind};
ghost use Rattle.std.specs.declared.io.Error.{Error};
ghost use Rattle.std.specs.declared.io.ErrorKind.TheVariants.{Interrupted, WouldBlock};
ghost use Rattle.service.specs.Sockets.{Cause, EndsAs, Failed, Finished, GivesPlace, IsAccepted};
ghost use Rattle.service.specs.Sockets.{IsBroken, IsQuietAfter, KeepsPlaces, ReadsFrom, SendsTo};
ghost use Rattle.service.specs.Sockets.{Shut, Silent, Stays, StaysDry, StaysQuiet, StaysShut};
ghost use Rattle.service.specs.Sockets.{Why};
ghost use Rattle.service.specs.Turns.{FailsAfter};
ghost use Rattle.service.specs.declared.sockets.Ready.{Ready};

use crate::accepted::Accepted;
use cache_server::ConnError;
use std::alloc::Global;
use std::io;
use std::time::Duration;

/// What the system has for a connection, or for the listener, which has no number.
#[derive(Clone, Copy, Debug, PartialEq, Eq)]
pub struct Ready {
    pub number: Option<u64>,
    /// There may be something to read.
    pub readable: bool,
    /// The peer will send no more.
    pub read_closed: bool,
}

/// The stream of an open connection. Nothing waits: what can't be done yet is `WouldBlock`.
pub trait Peer {
    /// That it is the connection with this number, and that so much was read of it and sent to it.
    ghost spoke: { ℕ → Self → List ℕ → List ℕ → Type 0 };

    /// That it is over, and why. Only the calls that found it so, or made it so, say it.
    ghost over: { Self → Cause → Type 0 };

    /// That no byte is at hand there, until an event tells of some. The end may be.
    ghost dry: { Self → Type 0 };

    /// That it takes no more bytes, until an event tells that it does.
    ghost full: { Self → Type 0 };

    /// That no byte has moved there since this time. Only the calls that open it and move bytes, or
    /// begin to count anew, say so.
    ghost quiet: { Self → ℕ → Type 0 };

    /// That a call was made there at this time. Only the calls say so.
    ghost tried: { Self → ℕ → Type 0 };

    /// Reads some bytes into a buffer that has room, none only at the end.
    fn read(&mut self, buffer: &mut [u8], now: u64) -> io::Result<usize>
        ensures tried { tried self.new now }
        ensures bound { ReadsAtMost result buffer.new }
        ensures read { IfOk result (λ count.
            ReadsFrom spoke self.old (take count buffer.new) self.new) }
        ensures fault { OnErr result (Stays spoke self.old self.new) }
        ensures shut { StaysShut over self.old self.new }
        ensures end { IfOk result (λ count. count ≡ 0 → over self.new Finished) }
        ensures short { IfOk result (λ count. count < length buffer.new → dry self.new) }
        ensures nothing { IfErr result (λ e. error_kind e ≡ WouldBlock → dry self.new) }
        ensures moved { IfOk result (IsQuietAfter quiet now self.old self.new) }
        ensures still { OnErr result (StaysQuiet quiet self.old self.new) }
        ensures broken { IfErr result (λ e. IsBroken e
            → over self.new (Failed ConnError.ReadFault)) };

    /// Sends some of the bytes, of which there are some, and none only where it is over.
    fn write(&mut self, bytes: &[u8], now: u64) -> io::Result<usize>
        ensures tried { tried self.new now }
        ensures bound { WritesAtMost result bytes.now }
        ensures sent { IfOk result (λ count.
            SendsTo spoke self.old (take count bytes.now) self.new) }
        ensures fault { OnErr result (Stays spoke self.old self.new) }
        ensures shut { StaysShut over self.old self.new }
        ensures waits { StaysDry dry self.old self.new }
        ensures moved { IfOk result (IsQuietAfter quiet now self.old self.new) }
        ensures still { OnErr result (StaysQuiet quiet self.old self.new) }
        ensures full { IfErr result (λ e. error_kind e ≡ WouldBlock → full self.new) }
        ensures end { IfOk result (λ count. count ≡ 0
            → over self.new (Failed ConnError.WriteFault)) }
        ensures broken { IfErr result (λ e. IsBroken e
            → over self.new (Failed ConnError.WriteFault)) };

    /// Begins to count anew how long it is silent: it waits for others.
    fn hold(&mut self, now: u64)
        ensures stays { Stays spoke self.old self.new }
        ensures shut { StaysShut over self.old self.new }
        ensures waits { StaysDry dry self.old self.new }
        ensures quiet { quiet self.new now };

    /// Whether it was silent for too long: since it moved a byte, where so many milliseconds are
    /// allowed.
    fn is_silent(&self, moved: u64, now: u64, allowed: u64) -> bool
        requires { quiet self.now moved }
        ensures is { IsTrue result ↔ (allowed ≤ now - moved) }
        ensures found { IsTrue result → over self.now Silent };

    /// Ends the writing side.
    fn shut(&mut self, now: u64)
        ensures tried { tried self.new now }
        ensures stays { Stays spoke self.old self.new }
        ensures still { StaysQuiet quiet self.old self.new }
        ensures shut { over self.new Shut };

    /// Drops some of what still comes, none only at the end.
    fn discard(&mut self, buffer: &mut [u8], now: u64) -> io::Result<usize>
        ensures tried { tried self.new now }
        ensures stays { Stays spoke self.old self.new }
        ensures moved { IfOk result (IsQuietAfter quiet now self.old self.new) }
        ensures still { OnErr result (StaysQuiet quiet self.old self.new) }
        ensures shut { StaysShut over self.old self.new }
        ensures end { IfOk result (λ count. count ≡ 0 → over self.new Finished) }
        ensures nothing { IfErr result (λ e. error_kind e ≡ WouldBlock → dry self.new) }
        ensures broken { IfErr result (λ e. (error_kind e ≡ WouldBlock → ⊥)
            → (error_kind e ≡ Interrupted → ⊥) → over self.new (Failed ConnError.ReadFault)) };
}

/// Where connections come from.
pub trait Sockets {
    type Stream: Peer + Drop;

    /// That the connection with this number has ended, when so much had been read of it and sent to
    /// it, and why. Only the call that ended it says so.
    ghost ended: { ℕ → List ℕ → List ℕ → Why → Type 0 };

    /// That it was over then, and why.
    ghost lost: { ℕ → Cause → Type 0 };

    /// That so many more connections may be open, and so many were accepted. Only the calls that
    /// accept and end them change it.
    ghost places: { Self → ℕ → ℕ → Type 0 };

    /// That so many accepts in a row have failed, up to the last, and not for want of a connection.
    ghost failed: { Self → ℕ → Type 0 };

    /// That the last accept failed so.
    ghost refused: { Self → Error → Type 0 };

    /// That a wait failed so.
    ghost broken: { Error → Type 0 };

    /// That the last wait was for so many nanoseconds at most, if not without end, and this is what
    /// the system told.
    ghost waited: { Self → Option ℕ → List Ready → Type 0 };

    /// The next connection, under this number, or `WouldBlock` where none waits. One for which
    /// memory is wanting, or a call fails, was accepted too, and has ended.
    fn accept(&mut self, number: u64, now: u64) -> io::Result<Accepted<Self::Stream>>
        ensures accepts { IfOk result (λ it. IsAccepted Self.Stream.spoke Self.Stream.quiet
            ended lost places number now self.old self.new it.opened) }
        ensures fails { IfErr result (λ e. (error_kind e ≡ WouldBlock → ⊥)
            → FailsAfter failed 0 1 self.old self.new) }
        ensures last { IfErr result (refused self.new) }
        ensures keeps { OnErr result (KeepsPlaces places self.old self.new) };

    /// Ends a connection, and is told why.
    fn end(&mut self, stream: Self::Stream, why: Result<(), ConnError>)
        ensures ends { EndsAs Self.Stream.spoke Self.Stream.over stream why ended lost }
        ensures gives { GivesPlace places self.old self.new };

    /// Waits until the system has something, for so long at most, and tells of it.
    fn wait(&mut self, timeout: Option<Duration>, ready: &mut Vec<Ready, Global>) -> io::Result<()>
        requires { ready.old.items ≡ [] }
        ensures told { OnOk result
            (waited self.new (option_map as_nanos timeout) ready.new.items) }
        ensures fails { IfErr result broken }
        ensures keeps { KeepsPlaces places self.old self.new };
}
