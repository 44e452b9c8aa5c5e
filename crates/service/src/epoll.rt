ghost use Rattle.std.specs.Prelude.{◌≡◌, ℕ, IfOk};
ghost use Rattle.service.specs.Sockets.{HasGiven};

use crate::accepted::{Accepted, lost_by};
use crate::sockets::{Peer, Ready, Sockets};
use cache_server::ConnError;
use mio::net::TcpStream;
use mio::unix::SourceFd;
use mio::{Events, Interest, Poll, Token};
use std::alloc::Global;
use std::io::{Read, Write};
use std::marker::Model;
use std::net::{Net, Shutdown, TcpListener};
use std::os::fd::AsRawFd;
use std::time::Duration;
use std::{io, net};

/// The token of the listener. A connection has its number as its token.
const LISTENER: Token = Token(usize::MAX);

/// How many events are taken from the system at once.
pub(crate) const EVENTS: usize = 256;

/// A listener of the system, and epoll. Clauses see how many connections were accepted.
#[derive(Drop)]
pub struct SystemSockets {
    poll: Poll,
    events: Events<Global>,
    listener: TcpListener,
    accepted: u64,
}

impl Model for SystemSockets {
    ghost Value = { ℕ };

    ghost view = { λ it. it.accepted };
}

impl SystemSockets {
    pub fn new<R: AllocGlobal + Net>(rt: &R, listener: TcpListener) -> io::Result<SystemSockets>
        ensures { IfOk result (λ sockets. sockets ≡ 0) }
    {
        listener.set_nonblocking(true)?;
        let poll = Poll::new(rt)?;
        poll.registry().register(
            &mut SourceFd(&listener.as_raw_fd()),
            LISTENER,
            Interest::READABLE,
        )?;
        let events = Events::with_capacity(rt.alloc(), EVENTS)?;
        Ok(SystemSockets {
            poll,
            events,
            listener,
            accepted: 0,
        })
    }

    /// The stream of a connection with this number, of which the system tells from here on.
    fn open(&self, number: u64, stream: net::TcpStream) -> io::Result<TcpStream> {
        stream.set_nonblocking(true)?;
        let _set = stream.set_nodelay(true);
        let mut stream = TcpStream::from_std(stream);
        let interests = Interest::READABLE | Interest::WRITABLE;
        self.poll
            .registry()
            .register(&mut stream, Token(number as usize), interests)?;
        Ok(stream)
    }
}

/// A socket, of whose bytes nothing is known.
impl Peer for TcpStream {
    ghost spoke = { λ _ _ _ _. Unit {0} };

    ghost over = { λ _ _. Unit {0} };

    ghost dry = { λ _. Unit {0} };

    ghost full = { λ _. Unit {0} };

    ghost quiet = { λ _ _. Unit {0} };

    ghost tried = { λ _ _. Unit {0} };

    fn read(&mut self, buffer: &mut [u8], _now: u64) -> io::Result<usize> {
        let mut stream = &*self;
        Read::read(&mut stream, buffer)
    }

    fn write(&mut self, bytes: &[u8], _now: u64) -> io::Result<usize> {
        let mut stream = &*self;
        Write::write(&mut stream, bytes)
    }

    fn hold(&mut self, _now: u64) {}

    fn is_silent(&self, moved: u64, now: u64, allowed: u64) -> bool {
        now.saturating_sub(moved) >= allowed
    }

    fn shut(&mut self, _now: u64) {
        let _ended = self.shutdown(Shutdown::Write);
    }

    fn discard(&mut self, buffer: &mut [u8], _now: u64) -> io::Result<usize> {
        let mut stream = &*self;
        Read::read(&mut stream, buffer)
    }
}

impl Sockets for SystemSockets {
    type Stream = TcpStream;

    ghost ended = { λ _ _ _ _. Unit {0} };

    ghost lost = { λ _ _. Unit {0} };

    ghost places = { HasGiven };

    ghost failed = { λ _ _. Unit {0} };

    ghost refused = { λ _ _. Unit {0} };

    ghost broken = { λ _. Unit {0} };

    ghost waited = { λ _ _ _. Unit {0} };

    fn accept(&mut self, number: u64, _now: u64) -> io::Result<Accepted<TcpStream>> {
        let (stream, peer) = self.listener.accept()?;
        self.accepted = self.accepted.saturating_add(1);
        let opened = match self.open(number, stream) {
            Ok(stream) => Ok(stream),
            Err(fault) => Err(lost_by(&fault)),
        };
        Ok(Accepted { peer, opened })
    }

    fn end(&mut self, _stream: TcpStream, _why: Result<(), ConnError>) {}

    fn wait(
        &mut self,
        timeout: Option<Duration>,
        ready: &mut Vec<Ready, Global>,
    ) -> io::Result<()> {
        self.poll.poll(&mut self.events, timeout)?;
        for event in &self.events {
            let Token(token) = event.token();
            let number = if event.token() == LISTENER {
                None
            } else {
                Some(token as u64)
            };
            let ends = event.is_read_closed() || event.is_error();
            ready.push(Ready {
                number,
                readable: event.is_readable() || ends,
                read_closed: ends,
            })?;
        }
        Ok(())
    }
}
