//! Which connections were silent for too long.
ghost use Rattle.std.specs.Prelude.{◌≡◌, ◌+◌, ◌<◌, ◌≤◌, ◌⊎◌, IfErr, IfOk, IfSome, IsSome, Some};
ghost use Rattle.std.specs.Prelude.{Bool, IsTrue, None, OnOk, false, length, nat_le, true};
ghost use Rattle.service.specs.Member.{IsDeadline, load_after, no_load};
ghost use Rattle.service.specs.Rounds.{ArePressed, EndLate};
ghost use Rattle.service.specs.Together.{AreHeavyInTime, AreSeenTo, HoldLittle};
ghost use Rattle.service.specs.Together.{LeavesPlaced, LeavesTogether, MayEndAt, OthersAreSame};
ghost use Rattle.service.specs.Together.{SparesInTime, WakesAfter, WakesInTime};
ghost use Rattle.service.specs.Together.{first_deadline, member_at};

use crate::load::is_too_much;
use crate::sockets::{Peer, Sockets};
use crate::together::Together;
use cache_server::{ConnError, Server};
use log::Log;
use std::alloc::Global;

impl<S: Peer + Drop> Together<S> {
    /// Ends the connections that were silent for too long by this time, one after another. As long
    /// as others wait for memory, those that hold much may be silent for less.
    #[tactic(auto, using(crate::proofs::Keeping::keeps_nowhere, crate::proofs::Keeping::keeps_further, crate::proofs::Places::placed_nowhere, crate::proofs::Rounds::none_ends, crate::proofs::Waking::spares_all))]
    pub(crate) fn sweep<R: Log, N: Sockets<Stream = S>>(
        &mut self,
        rt: &R,
        sockets: &mut N,
        server: &mut Server<Global>,
        now: u64,
    )
        ensures keeps { LeavesTogether S.spoke N.ended N.lost
            (self.old.members.entries, server.old) (self.new.members.entries, server.new) }
        ensures places { LeavesPlaced N.places (sockets.old, self.old.members.entries)
            (sockets.new, self.new.members.entries) }
        ensures seen { AreSeenTo S.full S.dry self.old → AreSeenTo S.full S.dry self.new }
        ensures later { WakesAfter now self.new.wake }
        ensures wake { (now < self.old.wake)
            ⊎ WakesInTime self.old.idle self.new.members.entries now self.new.wake }
        ensures spares { (calm : Bool) → (calm ≡ true → HoldLittle self.old.scales.load)
            → SparesInTime calm self.old.idle now
            self.old.members.entries self.new.members.entries }
        ensures heavy { nat_le 268435456 self.new.scales.load.requests ≡ true
            → AreHeavyInTime self.old.idle now self.new.members.entries }
        ensures late { EndLate self.old.idle now self.old.members.entries self.old.scales.load
            self.new.members.entries self.new.scales.load }
        ensures waits { IsTrue self.old.waits → IsTrue self.new.waits }
        ensures rest { self.new ≡ record self.old {
          members = self.new.members;
          scales = self.new.scales;
          waits = self.new.waits;
          wake = self.new.wake;
          line = self.new.line;
        } }
    {
        if now < self.wake && !self.is_pressed() {
            return;
        }
        for _ in 0..self.members.len() {
            let pressed = self.is_pressed();
            match self.next_wake(pressed, now) {
                Ok(wake) => {
                    self.wake = wake;
                    return;
                }
                Err((number, deadline)) => {
                    self.give_up(rt, sockets, server, number, deadline, now);
                }
            }
        }
        self.wake = u64::MAX;
    }

    /// Whether others wait for memory, as requests that aren't whole or answers hold too much.
    fn is_pressed(&self) -> bool
        ensures { ArePressed self.now.members.entries self.now.scales.load result }
    {
        is_too_much(self.scales.load.requests) || self.is_full()
    }

    /// When the next connection will have been silent for too long, or one that was by this time,
    /// and its deadline.
    fn next_wake(&self, pressed: bool, now: u64) -> Result<u64, (u64, u64)>
        ensures wake { IfOk result (WakesInTime self.now.idle self.now.members.entries now) }
        ensures calm { pressed ≡ false → IfOk result (λ wake.
            wake ≡ first_deadline self.now.idle self.now.members.entries) }
        ensures heavy { IsTrue pressed
            → OnOk result (AreHeavyInTime self.now.idle now self.now.members.entries) }
        ensures open { IfErr result (λ it. IsSome (member_at self.now.members.entries it.0)) }
        ensures due { IfErr result (λ it. it.1 ≤ now) }
        ensures late { IfErr result (λ it. IfSome (member_at self.now.members.entries it.0) (λ m.
            IsDeadline m self.now.idle pressed (Some it.1))) }
    {
        let mut wake = u64::MAX;
        for (number, member) in self.members.iter() {
            let Some(deadline) = member.deadline(self.idle, pressed) else {
                continue;
            };
            if deadline <= now {
                return Err((*number, deadline));
            }
            wake = wake.min(deadline);
        }
        Ok(wake)
    }

    /// Ends the connection with the number, which was silent for too long.
    #[tactic(auto, using(crate::proofs::Keeping::keeps_nowhere, crate::proofs::Keeping::keeps_ended, crate::proofs::Places::placed_nowhere))]
    fn give_up<R: Log, N: Sockets<Stream = S>>(
        &mut self,
        rt: &R,
        sockets: &mut N,
        server: &mut Server<Global>,
        number: u64,
        deadline: u64,
        now: u64,
    )
        requires open { IsSome (member_at self.old.members.entries number) }
        requires due { deadline ≤ now }
        ensures keeps { LeavesTogether S.spoke N.ended N.lost
            (self.old.members.entries, server.old) (self.new.members.entries, server.new) }
        ensures places { LeavesPlaced N.places (sockets.old, self.old.members.entries)
            (sockets.new, self.new.members.entries) }
        ensures fewer { length self.new.members.entries + 1 ≡ length self.old.members.entries }
        ensures gone { member_at self.new.members.entries number ≡ None }
        ensures others { OthersAreSame number self.old.members.entries self.new.members.entries }
        ensures less { IfSome (member_at self.old.members.entries number) (λ m.
            self.new.scales.load ≡ load_after self.old.scales.load m.load no_load) }
        ensures seen { AreSeenTo S.full S.dry self.old → AreSeenTo S.full S.dry self.new }
        ensures little { HoldLittle self.old.scales.load → HoldLittle self.new.scales.load }
        ensures waits { IsTrue self.old.waits → IsTrue self.new.waits }
        ensures rest { self.new ≡ record self.old {
          members = self.new.members;
          scales = self.new.scales;
          waits = self.new.waits;
          line = self.new.line;
        } }
    {
        if let Some(why) = self.silence(server, number, deadline, now) {
            self.end(rt, sockets, server, number, why);
        }
    }

    /// Why the connection with the number ends, where it was silent for too long.
    fn silence(
        &self,
        server: &Server<Global>,
        number: u64,
        deadline: u64,
        now: u64,
    ) -> Option<Result<(), ConnError>>
        ensures may { IfSome result (λ why.
            MayEndAt S.over number server.now self.now.members.entries why) }
        ensures known { IfSome result (λ why. why ≡ Err ConnError.Memory → ⊥) }
        ensures due { deadline ≤ now → IsSome (member_at self.now.members.entries number)
            → IsSome result }
    {
        let is_open = server.is_open(number);
        match self.members.get(&number) {
            Some(member) => member.silence(is_open, deadline, now),
            None => None,
        }
    }
}
