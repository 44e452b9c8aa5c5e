//! How an answer is sent.
ghost use Rattle.std.specs.Prelude.{◌≡◌, ◌↔◌, ◌<◌, ◌≤◌, [], length, take, IfErr, IfOk, IsTrue};
ghost use Rattle.std.specs.Prelude.{OnErr, OnOk};
ghost use Rattle.std.specs.IoError.{error_kind};
ghost use Rattle.std.specs.declared.io.ErrorKind.TheVariants.{OutOfMemory, WouldBlock};
ghost use Rattle.service.specs.Member.{Passes, PassesSent, PausesFor, end_of};
ghost use Rattle.service.specs.Sockets.{Failed, IsBroken, SendsTo, Stays};

use super::Member;
use crate::desk::Desk;
use crate::part::{gather, next_of, sent_with};
use crate::sockets::Peer;
use crate::turn::{Turn, after_fault};
use cache_server::ConnError;
use std::io;
use std::io::ErrorKind;

impl<S: Peer + Drop> Member<S> {
    /// Sends some of the answer.
    pub(super) fn send(&mut self, desk: &mut Desk, now: u64) -> Turn
        requires { self.old.unsent ≡ [] → ⊥ }
        ensures passes { Passes S.spoke S.over (end_of result) self.old self.new }
        ensures pauses { PausesFor S.full S.dry ⊥ result self.new }
        ensures queued { self.new.queued ≡ self.old.queued }
        ensures tried { result ≡ Turn.Again → S.tried self.new.stream now }
        ensures keeps { self.new.load.requests ≡ self.old.load.requests }
    {
        match self.write_some(desk, now) {
            Ok(count) => self.pass(count),
            Err(fault) => after_fault(&fault, ConnError::WriteFault),
        }
    }

    /// Writes some of what isn't sent.
    fn write_some(&mut self, desk: &mut Desk, now: u64) -> io::Result<usize>
        requires { self.old.unsent ≡ [] → ⊥ }
        ensures tried { OnOk result (S.tried self.new.stream now) }
        ensures failed { IfErr result (λ e. (error_kind e ≡ OutOfMemory → ⊥)
            → S.tried self.new.stream now) }
        ensures same { self.new
            ≡ record self.old { stream = self.new.stream; moved = self.new.moved } }
        ensures sent { IfOk result (λ count.
            SendsTo S.spoke self.old.stream (take count self.old.unsent) self.new.stream) }
        ensures within { IfOk result (λ count. count ≤ length self.old.unsent) }
        ensures fault { OnErr result (Stays S.spoke self.old.stream self.new.stream) }
        ensures full { IfErr result (λ e. error_kind e ≡ WouldBlock → S.full self.new.stream) }
        ensures end { IfOk result (λ count. count ≡ 0
            → S.over self.new.stream (Failed ConnError.WriteFault)) }
        ensures broken { IfErr result (λ e. IsBroken e
            → S.over self.new.stream (Failed ConnError.WriteFault)) }
    {
        let Some(answer) = &self.answer else {
            return Err(io::Error::from(ErrorKind::Interrupted));
        };
        let head = answer.head().len();
        if self.sent >= head {
            return self
                .stream
                .write(next_of(answer.body(), self.sent - head), now);
        }
        gather(answer, self.sent, &mut desk.gathered)?;
        self.stream.write(desk.gathered.as_slice(), now)
    }

    /// So much more of the answer is sent.
    #[tactic(auto, using(crate::proofs::Talking::sends_over, crate::proofs::Talking::sends_more))]
    fn pass(&mut self, count: usize) -> Turn
        requires within { count ≤ length self.old.unsent }
        requires over { count ≡ 0 → S.over self.old.stream (Failed ConnError.WriteFault) }
        ensures passes { PassesSent S.spoke S.over (end_of result) count self.old self.new }
        ensures none { count ≡ 0 → result ≡ Turn.Ends (Err ConnError.WriteFault) }
        ensures some { 0 < count → result ≡ Turn.Again }
        ensures queued { self.new.queued ≡ self.old.queued }
        ensures stream { self.new.stream ≡ self.old.stream }
        ensures keeps { self.new.load.requests ≡ self.old.load.requests }
    {
        if count == 0 {
            return Turn::Ends(Err(ConnError::WriteFault));
        }
        let sent = sent_with(&self.answer, self.sent, count);
        self.traffic.written = self.traffic.written.saturating_add(count as u64);
        self.sent = sent;
        if self.is_sent() {
            self.finish();
        }
        Turn::Again
    }

    /// Whether nothing is left to be sent.
    pub(super) fn is_sent(&self) -> bool
        ensures { IsTrue result ↔ (self.now.unsent ≡ []) }
    {
        match &self.answer {
            Some(answer) => {
                let head = answer.head().len();
                self.sent >= head && self.sent - head >= answer.body().len()
            }
            None => true,
        }
    }

    /// The answer is sent.
    fn finish(&mut self)
        ensures { self.new ≡ record self.old {
          unsent = [];
          load = record self.old.load { answers = 0 };
          own = 0;
        } }
    {
        self.answer = None;
        self.sent = 0;
    }
}
