//! Who is queued for a turn, and who waits for others.
ghost use Rattle.std.specs.Prelude.{◌≡◌, ◌||◌, ◌++◌, ◌≤◌, [], ◌∷◌, IfSome, OnErr, OnOk, length};
ghost use Rattle.std.specs.Prelude.{false, if◌then◌else◌, min, option_map, true};
ghost use Rattle.std.specs.List.{AllByRecursion, list_any};
ghost use Rattle.std.specs.Option.{is_none, unwrap_or};
ghost use Rattle.std.specs.VecDeque.{deque_capacity, deque_len};
ghost use Rattle.service.specs.Member.{IsLetGo, deadline_at, in_queue, roused};
ghost use Rattle.service.specs.Together.{AreMarkedBy, AreSameButHeld, AreSeenTo, IsFree};
ghost use Rattle.service.specs.Together.{OthersAreSame, joining, member_at};

use crate::sockets::{Peer, Ready};
use crate::together::Together;
use std::alloc::{AllocError, Global};
use std::collections::VecDeque;

impl<S: Peer + Drop> Together<S> {
    /// The member with the number has something to do: it is queued for a turn.
    pub(crate) fn queue(&mut self, number: u64)
        ensures at { member_at self.new.members.entries number
            ≡ option_map in_queue (member_at self.old.members.entries number) }
        ensures others { OthersAreSame number self.old.members.entries self.new.members.entries }
        ensures many { length self.new.members.entries ≡ length self.old.members.entries }
        ensures list { self.new.short ≡ false → self.new.ready.items
            ≡ self.old.ready.items ++ joining (member_at self.old.members.entries number) number }
        ensures short { self.old.short ≡ true → self.new.short ≡ true }
        ensures full { self.old.short ≡ false → self.new.short ≡ true
            → deque_capacity self.old.ready ≤ deque_len self.old.ready }
        ensures rest { self.new ≡ record self.old {
          members = self.new.members;
          ready = self.new.ready;
          short = self.new.short;
        } }
    {
        if let Some(member) = self.members.get_mut(&number) {
            if !member.queue(true) && self.ready.push_back(number).is_err() {
                self.short = true;
            }
        }
    }

    /// The system has something for the member with the number.
    fn rouse(&mut self, number: u64, event: &Ready)
        ensures at { member_at self.new.members.entries number
            ≡ option_map (roused event.now) (member_at self.old.members.entries number) }
        ensures others { OthersAreSame number self.old.members.entries self.new.members.entries }
        ensures many { length self.new.members.entries ≡ length self.old.members.entries }
        ensures rest { self.new ≡ record self.old { members = self.new.members } }
    {
        if let Some(member) = self.members.get_mut(&number) {
            member.wake(event);
        }
    }

    /// Notes what the system tells.
    pub(crate) fn mark(&mut self, events: &[Ready])
        ensures marks { AreMarkedBy events.now self.old.members.entries self.new.members.entries }
        ensures waits { self.new.waits
            ≡ (self.old.waits || list_any (λ e. is_none e.number) events.now) }
        ensures seen { AreSeenTo S.full S.dry self.old → AreSeenTo S.full S.dry self.new }
        ensures rest { self.new ≡ record self.old {
          members = self.new.members;
          ready = self.new.ready;
          short = self.new.short;
          waits = self.new.waits;
        } }
    {
        for event in events {
            self.note(event);
        }
    }

    /// Notes an event.
    #[tactic(auto, using(crate::proofs::Marking::marks_none, crate::proofs::Marking::marks_one))]
    fn note(&mut self, event: &Ready)
        ensures marks { AreMarkedBy (event.now ∷ [])
            self.old.members.entries self.new.members.entries }
        ensures waits { self.new.waits ≡ (self.old.waits || is_none event.now.number) }
        ensures seen { AreSeenTo S.full S.dry self.old → AreSeenTo S.full S.dry self.new }
        ensures rest { self.new ≡ record self.old {
          members = self.new.members;
          ready = self.new.ready;
          short = self.new.short;
          waits = self.new.waits;
        } }
    {
        let Some(number) = event.number else {
            self.waits = true;
            return;
        };
        self.rouse(number, event);
        self.queue(number);
    }

    /// Those that were held have something to do, and aren't silent for too long before that.
    pub(crate) fn release(&mut self, now: u64)
        ensures same { AreSameButHeld S.spoke now
            self.old.members.entries self.new.members.entries }
        ensures free { AllByRecursion
            (λ k. IsFree now (member_at self.new.members.entries k)) self.old.held.items }
        ensures none { self.new.held.items ≡ [] }
        ensures seen { AreSeenTo S.full S.dry self.old → AreSeenTo S.full S.dry self.new }
        ensures rest { self.new ≡ record self.old {
          members = self.new.members;
          ready = self.new.ready;
          short = self.new.short;
          held = self.new.held;
          wake = self.new.wake;
        } }
    {
        for _ in 0..self.held.len() {
            let Some(number) = self.held.pop_front() else {
                return;
            };
            self.let_go_on(number, now);
        }
    }

    /// The member with the number needn't wait for others any more: it has a deadline again, and is
    /// queued for a turn.
    #[tactic(auto, using(crate::proofs::Marking::let_go_none, crate::proofs::Marking::let_go_some))]
    fn let_go_on(&mut self, number: u64, now: u64)
        ensures at { IsLetGo S.spoke now (member_at self.old.members.entries number)
            (member_at self.new.members.entries number) }
        ensures others { OthersAreSame number self.old.members.entries self.new.members.entries }
        ensures many { length self.new.members.entries ≡ length self.old.members.entries }
        ensures wake { IfSome (member_at self.new.members.entries number) (λ m. self.new.wake
            ≡ min self.old.wake (unwrap_or (deadline_at m self.old.idle) u64.MAX)) }
        ensures sooner { self.new.wake ≤ self.old.wake }
        ensures list { self.new.short ≡ false → self.new.ready.items
            ≡ self.old.ready.items ++ joining (member_at self.old.members.entries number) number }
        ensures short { self.old.short ≡ true → self.new.short ≡ true }
        ensures rest { self.new ≡ record self.old {
          members = self.new.members;
          ready = self.new.ready;
          short = self.new.short;
          wake = self.new.wake;
        } }
    {
        let deadline = {
            let Some(member) = self.members.get_mut(&number) else {
                return;
            };
            member.release(now);
            member.deadline(self.idle, false)
        };
        self.wake = self.wake.min(deadline.unwrap_or(u64::MAX));
        self.queue(number);
    }
}

/// Lists a number, if it wasn't held before, among those that wait for others.
pub(crate) fn list(
    held: &mut VecDeque<u64, Global>,
    number: u64,
    was_held: bool,
) -> Result<(), AllocError>
    ensures listed { OnOk result
        (held.new.items ≡ held.old.items ++ (if was_held then [] else number ∷ [])) }
    ensures same { OnErr result (held.new.items ≡ held.old.items) }
{
    if was_held {
        return Ok(());
    }
    match held.push_back(number) {
        Ok(()) => Ok(()),
        Err(_) => Err(AllocError),
    }
}
