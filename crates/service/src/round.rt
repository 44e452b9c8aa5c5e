//! A round: a turn of each that has something to do.
ghost use Rattle.std.specs.Prelude.{◌≡◌, ◌↔◌, ◌==◌, ◌&&◌, ℕ, [], None, IfSome, IsTrue, min, nat_le};
ghost use Rattle.std.specs.Prelude.{false, if◌then◌else◌, length, not, true};
ghost use Rattle.std.specs.Option.{option_map_or, unwrap_or};
ghost use Rattle.service.specs.Member.{AwaitsEvent, CountsKept, deadline_at, end_of, load_after};
ghost use Rattle.service.specs.Rounds.{GoesAheadAt, HasTurn, TakesTurns};
ghost use Rattle.service.specs.Together.{AreFull, AreSame, AreSeenTo, HoldAlone, LeavesPlaced};
ghost use Rattle.service.specs.Together.{LeavesTogether, MovesOnAt, member_at};

use crate::load::{Leave, is_too_much};
use crate::queue::list;
use crate::sockets::{Peer, Sockets};
use crate::together::Together;
use crate::turn::Turn;
use cache_server::{ConnError, Server};
use log::Log;
use std::alloc::Global;
use std::time::Clock;

impl<S: Peer + Drop> Together<S> {
    /// A turn of each member that has something to do.
    #[tactic(auto, using(crate::proofs::Keeping::keeps_nowhere, crate::proofs::Keeping::keeps_further, crate::proofs::Keeping::keeps_but_held, crate::proofs::Places::placed_nowhere))]
    pub(crate) fn run<R: AllocGlobal + Clock + Log, N: Sockets<Stream = S>>(
        &mut self,
        rt: &R,
        sockets: &mut N,
        server: &mut Server<Global>,
    )
        ensures keeps { LeavesTogether S.spoke N.ended N.lost
            (self.old.members.entries, server.old) (self.new.members.entries, server.new) }
        ensures places { LeavesPlaced N.places (sockets.old, self.old.members.entries)
            (sockets.new, self.new.members.entries) }
        ensures seen { AreSeenTo S.full S.dry self.old → AreSeenTo S.full S.dry self.new }
        // Each that is queued has a turn.
        ensures turns { TakesTurns S.tried S.spoke (length self.old.ready.items)
            self.old self.new }
        // Who waits for others goes on once less is held.
        ensures goes { IsTrue self.old.scales.eased → self.new.held.items ≡ [] }
        ensures over { self.new.scales.eased ≡ false }
        ensures waits { IsTrue self.old.waits → IsTrue self.new.waits }
        ensures share { self.new.share ≡ self.old.share }
        ensures retry { self.new.retry ≡ self.old.retry }
        ensures idle { self.new.idle ≡ self.old.idle }
    {
        for _ in 0..self.ready.len() {
            // All turns together may take so long that a connection would seem to be silent.
            let now = self.timer.now(rt);
            self.turn(rt, sockets, server, now);
        }
        if self.scales.eased {
            self.scales.eased = false;
            let now = self.timer.now(rt);
            self.release(now);
        }
    }

    /// A turn of the first member in the queue.
    #[tactic(auto, using(crate::proofs::Keeping::keeps_same, crate::proofs::Keeping::keeps_further, crate::proofs::Keeping::keeps_moved, crate::proofs::Keeping::keeps_left, crate::proofs::Keeping::keeps_lost, crate::proofs::Places::placed_still, crate::proofs::Places::placed_moved))]
    fn turn<R: AllocGlobal + Log, N: Sockets<Stream = S>>(
        &mut self,
        rt: &R,
        sockets: &mut N,
        server: &mut Server<Global>,
        now: u64,
    )
        ensures keeps { LeavesTogether S.spoke N.ended N.lost
            (self.old.members.entries, server.old) (self.new.members.entries, server.new) }
        ensures places { LeavesPlaced N.places (sockets.old, self.old.members.entries)
            (sockets.new, self.new.members.entries) }
        ensures seen { AreSeenTo S.full S.dry self.old → AreSeenTo S.full S.dry self.new }
        ensures eased { IsTrue self.old.scales.eased → IsTrue self.new.scales.eased }
        ensures turns { HasTurn S.tried now self.old self.new }
        ensures waits { IsTrue self.old.waits → IsTrue self.new.waits }
        ensures share { self.new.share ≡ self.old.share }
        ensures retry { self.new.retry ≡ self.old.retry }
        ensures idle { self.new.idle ≡ self.old.idle }
    {
        let Some(number) = self.ready.pop_front() else {
            return;
        };
        let Some((turn, was_held)) = self.advance(server, number, now) else {
            return;
        };
        match turn {
            Turn::Again => self.queue(number),
            Turn::Waits => (),
            Turn::Held => {
                if list(&mut self.held, number, was_held).is_err() {
                    self.end(rt, sockets, server, number, Err(ConnError::Memory));
                }
            }
            Turn::Ends(end) => self.end(rt, sockets, server, number, end),
        }
    }

    /// What the member with the number can do after its turn, and whether it was held before.
    #[tactic(auto, using(crate::proofs::Pausing::pauses_waits))]
    fn advance(
        &mut self,
        server: &mut Server<Global>,
        number: u64,
        now: u64,
    ) -> Option<(Turn, bool)>
        ensures some { IfSome result (λ out. MovesOnAt S.spoke S.over 16 (end_of out.0)
            number server.old self.old.members.entries server.new self.new.members.entries) }
        ensures wake { IfSome result (λ _. IfSome (member_at self.new.members.entries number) (λ m.
            self.new.wake
            ≡ min self.old.wake (unwrap_or (deadline_at m self.old.idle) u64.MAX))) }
        ensures load { IfSome (member_at self.old.members.entries number) (λ before.
            IfSome (member_at self.new.members.entries number) (λ after.
            self.new.scales.load ≡ load_after self.old.scales.load before.load after.load)) }
        ensures ahead { IfSome result (λ out. out.0 ≡ Turn.Again
            → GoesAheadAt S.tried now number self.old.members.entries self.new.members.entries) }
        ensures counts { IfSome result (λ out. end_of out.0 ≡ None
            → IfSome (member_at self.old.members.entries number) (λ before.
            IfSome (member_at self.new.members.entries number) (λ after.
            CountsKept server.old number before → CountsKept server.new number after))) }
        ensures queued { IfSome result (λ out. IfSome (member_at self.new.members.entries number)
            (λ m. m.queued ≡ false)) }
        ensures held { IfSome result (λ out. IfSome (member_at self.new.members.entries number)
            (λ m. IsTrue m.held ↔ (out.0 ≡ Turn.Held))) }
        ensures waits { IfSome result (λ out. IfSome (member_at self.new.members.entries number)
            (λ m. out.0 ≡ Turn.Waits → AwaitsEvent S.full S.dry m)) }
        ensures was { IfSome result (λ out. IfSome (member_at self.old.members.entries number)
            (λ m. out.1 ≡ m.held)) }
        ensures eased { IsTrue self.old.scales.eased → IsTrue self.new.scales.eased }
        ensures rest { self.new ≡ record self.old {
          members = self.new.members;
          wake = self.new.wake;
          scales = self.new.scales;
          desk = self.new.desk;
        } }
        ensures server { result ≡ None → server.new ≡ server.old }
        ensures members { result ≡ None
            → AreSame self.old.members.entries self.new.members.entries }
        ensures none { result ≡ None → member_at self.old.members.entries number ≡ None }
        ensures still { result ≡ None → self.new.wake ≡ self.old.wake }
    {
        let leave = self.leave(number);
        let (turn, was_held, before, after, deadline) = {
            let Some(member) = self.members.get_mut(&number) else {
                return None;
            };
            member.queue(false);
            let was_held = member.is_held();
            let before = member.load();
            let turn = member.turn(number, server, &mut self.desk, leave, now);
            let deadline = member.deadline(self.idle, false);
            (turn, was_held, before, member.load(), deadline)
        };
        self.wake = self.wake.min(deadline.unwrap_or(u64::MAX));
        self.scales.weigh(number, &before, &after, self.share);
        Some((turn, was_held))
    }

    /// What the connection with the number may do. Where requests that aren't whole hold too much,
    /// each may keep its share, and one of them is read to its end.
    fn leave(&self, number: u64) -> Leave
        ensures answers { AreFull self.now.members.entries self.now.scales.load
            (not result.answers) }
        ensures kept { result.kept ≡ (if nat_le 268435456 self.now.scales.load.requests
            && not (option_map_or (λ senior. senior == number) self.now.scales.senior true)
            then self.now.share else u64.MAX) }
    {
        let is_senior = match self.scales.senior {
            Some(senior) => senior == number,
            None => true,
        };
        let kept = if is_too_much(self.scales.load.requests) && !is_senior {
            self.share
        } else {
            u64::MAX
        };
        Leave {
            answers: !self.is_full(),
            kept,
        }
    }

    /// Whether answers hold too much. An answer that the cache holds too costs nothing, so they are
    /// looked at one by one only where all of them together would be too much.
    pub(crate) fn is_full(&self) -> bool
        ensures { AreFull self.now.members.entries self.now.scales.load result }
    {
        is_too_much(self.scales.load.answers) && is_too_much(self.held_alone())
    }

    /// How many bytes of answers nobody else holds.
    fn held_alone(&self) -> u64
        ensures { (alone : ℕ) × HoldAlone self.now.members.entries alone
            × (result ≡ min alone u64.MAX) }
    {
        let mut sum: u64 = 0;
        for (_, member) in self.members.iter() {
            sum = sum.saturating_add(member.held_alone());
        }
        sum
    }
}
