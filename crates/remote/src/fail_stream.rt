ghost use Rattle.std.specs.Prelude.{◌≡◌, ◌≢◌, IsErr, OnErr, OnOk};
ghost use Rattle.std.specs.Io.{ReadsAtMost, WritesAtMost};
ghost use Rattle.std.specs.Io.KnownBytes.{ReadConsumes, WriteAppends};
ghost use Rattle.http_core.specs.FailStream.{FailsCall, GivesNext, TakesFront};
ghost use Rattle.remote.specs.Flow.{IsOpenedAnew, IsSameStream, StaysClosed, TellsStop, flow_of};

use crate::stream::Stream;
use http_core::FailStream;
use std::alloc::Allocator;
use std::io;
use std::io::{ErrorKind, Read, Write};

/// A stream in memory, of whose calls one fails. It isn't opened anew.
impl<A: Allocator> Stream for FailStream<A> {
    ghost flow = { flow_of };

    fn receive(&mut self, buf: &mut [u8]) -> io::Result<usize>
        ensures bound { ReadsAtMost result buf.new }
        ensures bytes { ReadConsumes (flow_of self.old).coming (flow_of self.new).coming
            result buf.new }
        ensures kept { (flow_of self.new).sent ≡ (flow_of self.old).sent }
        ensures stop { TellsStop result (flow_of self.new) }
        ensures same { IsSameStream (flow_of self.old) (flow_of self.new) }
        ensures fails { self.old.until_failure ≡ 1 → FailsCall self.old self.new result }
        ensures gives { self.old.until_failure ≢ 1
            → GivesNext self.old self.new buf.old buf.new result }
    {
        Read::read(self, buf)
    }

    fn send(&mut self, buf: &[u8]) -> io::Result<usize>
        ensures bound { WritesAtMost result buf.now }
        ensures bytes { WriteAppends (flow_of self.old).sent (flow_of self.new).sent
            result buf.now }
        ensures kept { (flow_of self.new).coming ≡ (flow_of self.old).coming }
        ensures stop { TellsStop result (flow_of self.new) }
        ensures same { IsSameStream (flow_of self.old) (flow_of self.new) }
        ensures fails { self.old.until_failure ≡ 1 → FailsCall self.old self.new result }
        ensures takes { self.old.until_failure ≢ 1
            → TakesFront self.old self.new buf.now result }
    {
        Write::write(self, buf)
    }

    fn is_open(&self) -> bool {
        true
    }

    fn is_renewable(&self) -> bool {
        false
    }

    fn renew(&mut self) -> io::Result<()>
        ensures sent { (flow_of self.new).sent ≡ (flow_of self.old).sent }
        ensures opened { OnOk result (IsOpenedAnew (flow_of self.old) (flow_of self.new)) }
        ensures err { OnErr result (StaysClosed (flow_of self.old) (flow_of self.new)) }
        ensures refused { IsErr result }
        ensures unchanged { self.new ≡ self.old }
    {
        Err(io::Error::from(ErrorKind::Unsupported))
    }
}
