//! How connections end.
ghost use Rattle.std.specs.Prelude.{◌≡◌, ◌+◌, ℕ, [], IfNone, IfSome, IsSome, IsTrue, None};
ghost use Rattle.std.specs.Prelude.{length, true};
ghost use Rattle.service.specs.Member.{load_after, no_load};
ghost use Rattle.service.specs.Together.{AreSame, EndsIfAny, GoesOnTogether, LeavesPlaced};
ghost use Rattle.service.specs.Together.{OthersAreSame, member_at};

use crate::load::Load;
use crate::member::Member;
use crate::sockets::{Peer, Sockets};
use crate::telling::tell;
use crate::together::Together;
use cache_server::{ConnError, Server};
use log::Log;
use std::alloc::Global;

impl<S: Peer + Drop> Together<S> {
    /// Ends the connection with the number, if it is open.
    #[tactic(auto, using(crate::proofs::Places::placed_still))]
    pub(crate) fn end<R: Log, N: Sockets<Stream = S>>(
        &mut self,
        rt: &R,
        sockets: &mut N,
        server: &mut Server<Global>,
        number: u64,
        why: Result<(), ConnError>,
    )
        ensures ends { EndsIfAny S.spoke S.over N.ended N.lost number why
            server.old self.old.members.entries server.new self.new.members.entries }
        ensures places { LeavesPlaced N.places (sockets.old, self.old.members.entries)
            (sockets.new, self.new.members.entries) }
        ensures again { IsSome (member_at self.old.members.entries number)
            → IsTrue self.new.waits }
        ensures waits { IsTrue self.old.waits → IsTrue self.new.waits }
        ensures load { IfSome (member_at self.old.members.entries number) (λ m.
            self.new.scales.load ≡ load_after self.old.scales.load m.load no_load) }
        ensures fewer { IsSome (member_at self.old.members.entries number)
            → length self.new.members.entries + 1 ≡ length self.old.members.entries }
        ensures eased { IsTrue self.old.scales.eased → IsTrue self.new.scales.eased }
        ensures rest { self.new ≡ record self.old {
          members = self.new.members;
          scales = self.new.scales;
          waits = self.new.waits;
          line = self.new.line;
        } }
    {
        let Some(member) = self.take(number) else {
            return;
        };
        self.scales
            .weigh(number, &member.load(), &Load::none(), self.share);
        self.waits = true;
        let (stream, peer, traffic) = member.into_parts();
        sockets.end(stream, why);
        server.end(number);
        self.line.clear();
        tell(rt, number, &peer, &traffic, &why);
    }

    /// Takes the member with the number out.
    fn take(&mut self, number: u64) -> Option<Member<S>>
        ensures held { member_at self.old.members.entries number ≡ result }
        ensures gone { member_at self.new.members.entries number ≡ None }
        ensures others { OthersAreSame number
            self.old.members.entries self.new.members.entries }
        ensures same { result ≡ None
            → AreSame self.old.members.entries self.new.members.entries }
        ensures fewer { IsSome result
            → length self.new.members.entries + 1 ≡ length self.old.members.entries }
        ensures rest { self.new ≡ record self.old { members = self.new.members } }
    {
        self.members.remove(&number)
    }

    /// Ends the connections that are still open.
    #[tactic(auto, using(crate::proofs::Keeping::keeps_nowhere, crate::proofs::Keeping::keeps_further, crate::proofs::Keeping::cut_ended, crate::proofs::Places::placed_nowhere))]
    pub(crate) fn end_all<R: Log, N: Sockets<Stream = S>>(
        &mut self,
        rt: &R,
        sockets: &mut N,
        server: &mut Server<Global>,
    )
        ensures keeps { (accepted : ℕ) → GoesOnTogether true S.spoke N.ended N.lost
            self.old.members.entries accepted server.old
            self.new.members.entries accepted server.new }
        ensures places { LeavesPlaced N.places (sockets.old, self.old.members.entries)
            (sockets.new, self.new.members.entries) }
        ensures all { (k : ℕ) → member_at self.new.members.entries k ≡ None }
    {
        for _ in 0..self.members.len() {
            let Some(number) = self.first_number() else {
                return;
            };
            self.end(rt, sockets, server, number, Err(ConnError::ReadFault));
        }
    }

    /// The number of an open connection, if there is one.
    fn first_number(&self) -> Option<u64>
        ensures some { IfSome result (λ k. IsSome (member_at self.now.members.entries k)) }
        ensures none { IfNone result (self.now.members.entries ≡ []) }
    {
        match self.members.first_key_value() {
            Some((number, _)) => Some(*number),
            None => None,
        }
    }
}
