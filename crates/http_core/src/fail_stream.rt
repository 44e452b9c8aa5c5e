ghost use Rattle.std.specs.Prelude.{◌≡◌, ◌≢◌, ◌<◌, ◌↔◌, [], IsTrue, IsOk, Some};
ghost use Rattle.std.specs.Io.{ReadsAtMost, WritesAtMost};
ghost use Rattle.std.specs.Io.KnownBytes.{Keeps, ReadConsumes, WriteAppends};
ghost use Rattle.http_core.specs.FailStream.{FailsCall, GivesNext, TakesFront, with_a_call_counted};

use std::alloc::Allocator;
use std::io;
use std::io::{ErrorKind, Read, Write};
use std::marker::Model;

/// A stream in memory that fails at one call. Its reads give the bytes that it stores and its
/// writes are kept, at most so many bytes at once, but for one call, which fails and changes
/// nothing.
#[derive(Drop)]
pub struct FailStream<A: Allocator> {
    input: Vec<u8, A>,
    position: usize,
    output: Vec<u8, A>,
    most: usize,
    until_failure: u64,
}

impl<A: Allocator> Model for FailStream<A> {
    ghost use Rattle.std.specs.Prelude.{ℕ, ◌<◌, ◌≤◌, drop, length};
    ghost use Rattle.http_core.specs.FailStream.{FailStreamValue};

    ghost Value = { FailStreamValue };

    ghost view = { λ s. record {
      coming = drop s.position s.input.items;
      sent = s.output.items;
      most = s.most;
      until_failure = s.until_failure;
    } };

    ghost invariant = { λ s. (s.position ≤ length s.input.items) × (0 < s.most) };
}

impl<A: Allocator + Copy> FailStream<A> {
    /// A stream that gives these bytes, at most `most` at once, and of whose reads and writes the
    /// one of this number fails: 1 is the first, and with 0 none does.
    pub fn new(alloc: A, input: Vec<u8, A>, most: usize, number: u64) -> FailStream<A>
        requires { 0 < most }
        ensures coming { result.coming ≡ input.items }
        ensures sent { result.sent ≡ [] }
        ensures most { result.most ≡ most }
        ensures number { result.until_failure ≡ number }
    {
        FailStream {
            input,
            position: 0,
            output: Vec::new(alloc),
            most,
            until_failure: number,
        }
    }
}

impl<A: Allocator> FailStream<A> {
    /// What was written.
    pub fn sent(&self) -> &[u8]
        ensures { result.now ≡ self.now.sent }
    {
        &self.output
    }

    /// The call from here on that fails, 1 being the next; 0 where none will.
    pub fn until_failure(&self) -> u64
        ensures { result ≡ self.now.until_failure }
    {
        self.until_failure
    }

    /// Counts a call, and tells whether it is the one that fails.
    fn is_due(&mut self) -> bool
        ensures due { IsTrue result ↔ (self.old.until_failure ≡ 1) }
        ensures counted { self.new ≡ with_a_call_counted self.old }
    {
        let number = &mut self.until_failure;
        let is_due = *number == 1;
        *number = number.saturating_sub(1);
        is_due
    }
}

impl<A: Allocator> Read for FailStream<A> {
    ghost use Rattle.std.specs.Prelude.{Some};

    ghost remaining = { λ s. Some s.coming };

    fn read(&mut self, buf: &mut [u8]) -> io::Result<usize>
        ensures bound { ReadsAtMost result buf.new }
        ensures bytes { ReadConsumes (Some self.old.coming) (Some self.new.coming) result buf.new }
        ensures fails { self.old.until_failure ≡ 1 → FailsCall self.old self.new result }
        ensures unread { self.old.until_failure ≡ 1 → buf.new ≡ buf.old }
        ensures gives { self.old.until_failure ≢ 1
            → GivesNext self.old self.new buf.old buf.new result }
    {
        if self.is_due() {
            return Err(io::Error::from(ErrorKind::ConnectionReset));
        }
        let (_, coming) = self.input.split_at(self.position);
        let count = self.most.min(buf.len()).min(coming.len());
        let (given, _) = coming.split_at(count);
        let (room, _) = buf.split_at_mut(count);
        room.copy_from_slice(given);
        self.position += count;
        Ok(count)
    }
}

impl<A: Allocator> Write for FailStream<A> {
    ghost use Rattle.std.specs.Prelude.{Some};

    ghost contents = { λ s. Some s.sent };

    fn write(&mut self, buf: &[u8]) -> io::Result<usize>
        ensures bound { WritesAtMost result buf.now }
        ensures bytes { WriteAppends (Some self.old.sent) (Some self.new.sent) result buf.now }
        ensures fails { self.old.until_failure ≡ 1 → FailsCall self.old self.new result }
        ensures takes { self.old.until_failure ≢ 1
            → TakesFront self.old self.new buf.now result }
    {
        if self.is_due() {
            return Err(io::Error::from(ErrorKind::ConnectionReset));
        }
        let (front, _) = buf.split_at(self.most.min(buf.len()));
        self.output.extend_from_slice(front)?;
        Ok(front.len())
    }

    // Nothing is held back, and this is no call that fails.
    fn flush(&mut self) -> io::Result<()>
        ensures bytes { Keeps (Some self.old.sent) (Some self.new.sent) }
        ensures ok { IsOk result }
        ensures same { self.new ≡ self.old }
    {
        Ok(())
    }
}
