ghost use Rattle.std.specs.Prelude.{◌≡◌, ℕ, List, Option, IfErr, IfOk, OnErr, OnOk};
ghost use Rattle.std.specs.declared.io.Error.{Error};
ghost use Rattle.cache_server.specs.declared.error.ConnError.{ConnError};
ghost use Rattle.service.specs.Sockets.{Why};
ghost use Rattle.service.specs.Turns.{CountsOn, EndsAtOnce, FailsAfter, HasCounted, LosesAs};

use crate::accepted::{Accepted, Streams, lost_by};
use crate::closing::close;
use crate::metered::Metered;
use cache_server::{ConnError, Counted, Incoming, Outgoing};
use std::alloc::Global;
use std::io;
use std::io::BufWriter;
use std::marker::Model;
use std::net::{TcpListener, TcpStream};
use std::time::{Clock, Duration};

/// How many bytes of answers are gathered before they are written: heads go out with what is short.
const GATHERED: usize = 16384;

/// Where connections come from that are served one after another.
pub trait Listener {
    type Reader: Incoming + Drop;

    type Writer: Outgoing + Drop;

    /// That the connection with this number was opened, with this to be read and written there.
    ghost opened: { ℕ → Option (List ℕ) → Option (List ℕ) → Type 0 };

    /// That it has ended, with this left to be read and written there, and why. Only the calls that
    /// opened it and ended it say so.
    ghost ended: { ℕ → Option (List ℕ) → Option (List ℕ) → Why → Type 0 };

    /// That it had failed so then: its reader, or its writer.
    ghost lost: { ℕ → ConnError → Type 0 };

    /// That what was written there was sent on, as it ended. Only the call that ended it says so.
    ghost sent: { ℕ → Type 0 };

    /// That so many connections were accepted, and so many of them have ended. Only the calls that
    /// accept and end them change it.
    ghost counts: { Self → ℕ → ℕ → Type 0 };

    /// That so many accepts in a row have failed, up to the last. Only calls say so.
    ghost failed: { Self → ℕ → Type 0 };

    /// That the last accept failed so.
    ghost refused: { Self → Error → Type 0 };

    /// Waits for the next connection, under this number. One for which memory is wanting, or a call
    /// fails, was accepted too, and has ended.
    fn accept(&mut self, number: u64) -> io::Result<Accepted<Streams<Self::Reader, Self::Writer>>>
        ensures opens { IfOk result (λ it. IfOk it.opened (λ streams. opened number
            (Self.Reader.remaining streams.reader) (Self.Writer.contents streams.writer))) }
        ensures clean { IfOk result (λ it.
            IfOk it.opened (λ streams. Self.Writer.flushed streams.writer)) }
        ensures gives { IfOk result (λ it.
            OnOk it.opened (CountsOn counts 1 0 self.old self.new)) }
        ensures ends { IfOk result (λ it.
            IfErr it.opened (EndsAtOnce opened ended lost sent number)) }
        ensures loses { IfOk result (λ it.
            OnErr it.opened (CountsOn counts 1 1 self.old self.new)) }
        ensures still { OnErr result (CountsOn counts 0 0 self.old self.new) }
        ensures again { OnOk result (failed self.new 0) }
        ensures fails { OnErr result (FailsAfter failed 0 1 self.old self.new) }
        ensures last { IfErr result (refused self.new) };

    /// Ends a connection, is told why, and tells how many bytes were read and written.
    fn end(
        &mut self,
        number: u64,
        reader: Self::Reader,
        writer: Self::Writer,
        why: Result<(), ConnError>,
    ) -> (u64, u64)
        ensures ends { ended number
            (Self.Reader.remaining reader) (Self.Writer.contents writer) why }
        ensures lost { LosesAs (Self.Reader.broken reader) (Self.Writer.broken writer)
            (lost number) }
        ensures sent { Self.Writer.flushed writer → sent number }
        ensures counts { CountsOn counts 0 1 self.old self.new }
        ensures keeps { FailsAfter failed 0 0 self.old self.new };
}

/// A listener of the system. A connection that is silent for `idle`, or takes no answer for so
/// long, fails. Clauses see how many connections were accepted, and how many of them have ended.
#[derive(Drop)]
pub struct SystemListener<'r, R> {
    rt: &'r R,
    listener: &'r TcpListener,
    idle: Option<Duration>,
    accepted: u64,
    ended: u64,
}

impl<'r, R> Model for SystemListener<'r, R> {
    ghost use Rattle.service.specs.Turns.{ListenerValue};

    ghost Value = { ListenerValue };

    ghost view = { λ it. record { accepted = it.accepted; ended = it.ended } };
}

impl<'r, R: AllocGlobal> SystemListener<'r, R> {
    pub fn new(
        rt: &'r R,
        listener: &'r TcpListener,
        idle: Option<Duration>,
    ) -> SystemListener<'r, R>
        ensures { result ≡ record { accepted = 0; ended = 0 } }
    {
        SystemListener {
            rt,
            listener,
            idle,
            accepted: 0,
            ended: 0,
        }
    }

    /// What is read of a connection, and what is written to it.
    fn open(
        &self,
        stream: TcpStream,
    ) -> io::Result<Streams<Counted<Metered>, BufWriter<Metered, Global>>> {
        let _set = stream.set_nodelay(true);
        let _set = stream.set_read_timeout(self.idle);
        let _set = stream.set_write_timeout(self.idle);
        let sender = Metered::new(stream.try_clone()?);
        Ok(Streams {
            reader: Counted::new(Metered::new(stream)),
            writer: BufWriter::with_capacity(self.rt.alloc(), GATHERED, sender)?,
        })
    }
}

impl<'r, R: AllocGlobal + Clock> Listener for SystemListener<'r, R> {
    type Reader = Counted<Metered>;

    type Writer = BufWriter<Metered, Global>;

    ghost opened = { λ _ _ _. Unit {0} };

    ghost ended = { λ _ _ _ _. Unit {0} };

    ghost lost = { λ _ _. Unit {0} };

    ghost sent = { λ _. Unit {0} };

    ghost counts = { HasCounted };

    ghost failed = { λ _ _. Unit {0} };

    ghost refused = { λ _ _. Unit {0} };

    fn accept(
        &mut self,
        _number: u64,
    ) -> io::Result<Accepted<Streams<Counted<Metered>, BufWriter<Metered, Global>>>> {
        let (stream, peer) = self.listener.accept()?;
        self.accepted = self.accepted.saturating_add(1);
        let opened = match self.open(stream) {
            Ok(streams) => Ok(streams),
            Err(fault) => {
                self.ended = self.ended.saturating_add(1);
                Err(lost_by(&fault))
            }
        };
        Ok(Accepted { peer, opened })
    }

    fn end(
        &mut self,
        _number: u64,
        reader: Counted<Metered>,
        writer: BufWriter<Metered, Global>,
        why: Result<(), ConnError>,
    ) -> (u64, u64) {
        let (sender, _unsent) = writer.into_parts();
        // Without a fault the peer may still be sending.
        if why.is_ok() {
            close(self.rt, &reader.reader.stream);
        }
        self.ended = self.ended.saturating_add(1);
        (reader.reader.bytes, sender.bytes)
    }
}
