ghost use Rattle.std.specs.Prelude.{◌≡◌, ◌+◌, ◌-◌, ◌<◌, ◌⊎◌, ◌↔◌, ◌==◌, ◌&&◌, ℕ, min, false};
ghost use Rattle.std.specs.Prelude.{IsTrue, None, Some, nat_le, nat_lt, if◌then◌else◌};
ghost use Rattle.service.specs.Member.{load_after, no_load};

/// The most bytes that may be held of answers that nothing else holds, and of requests that aren't
/// whole: over all connections, and of each kind.
pub(crate) const GREATEST: u64 = 268_435_456;

/// Whether so many bytes of one kind are too much for all connections.
pub(crate) fn is_too_much(bytes: u64) -> bool
    ensures { result ≡ nat_le 268435456 bytes }
{
    bytes >= GREATEST
}

/// How many bytes of answers aren't sent, and how many of requests are kept that aren't whole.
#[derive(Clone, Copy, Debug, PartialEq, Eq)]
pub(crate) struct Load {
    pub(crate) answers: u64,
    pub(crate) requests: u64,
}

impl Load {
    pub(crate) fn none() -> Load
        ensures { result ≡ no_load }
    {
        Load {
            answers: 0,
            requests: 0,
        }
    }

    pub(crate) fn with(&self, other: &Load) -> Load
        ensures answers { result.answers ≡ min (self.now.answers + other.now.answers) u64.MAX }
        ensures requests { result.requests ≡ min (self.now.requests + other.now.requests) u64.MAX }
    {
        Load {
            answers: self.answers.saturating_add(other.answers),
            requests: self.requests.saturating_add(other.requests),
        }
    }

    pub(crate) fn without(&self, other: &Load) -> Load
        ensures answers { result.answers ≡ self.now.answers - other.now.answers }
        ensures requests { result.requests ≡ self.now.requests - other.now.requests }
    {
        Load {
            answers: self.answers.saturating_sub(other.answers),
            requests: self.requests.saturating_sub(other.requests),
        }
    }

    /// Whether less is held of one kind or the other.
    pub(crate) fn is_less_than(&self, other: &Load) -> bool
        ensures { IsTrue result ↔ ((self.now.answers < other.now.answers)
            ⊎ (self.now.requests < other.now.requests)) }
    {
        self.answers < other.answers || self.requests < other.requests
    }
}

/// What a connection may do in a turn.
#[derive(Clone, Copy)]
pub(crate) struct Leave {
    /// Another request may be answered.
    pub(crate) answers: bool,
    /// More of a request is read only while no more bytes of it than these are kept.
    pub(crate) kept: u64,
}

/// What all connections hold together.
#[derive(Drop)]
pub(crate) struct Scales {
    pub(crate) load: Load,
    /// The one whose request is read to its end, though all together hold too much.
    pub(crate) senior: Option<u64>,
    /// A connection holds less since those that wait were looked at.
    pub(crate) eased: bool,
}

impl Scales {
    pub(crate) fn new() -> Scales
        ensures { result ≡ record {
          load = no_load;
          senior = None;
          eased = false;
        } }
    {
        Scales {
            load: Load::none(),
            senior: None,
            eased: false,
        }
    }

    /// Notes what the connection with the number holds now, and held before, where each has this
    /// share.
    pub(crate) fn weigh(&mut self, number: u64, before: &Load, after: &Load, share: u64)
        ensures load { self.new.load ≡ load_after self.old.load before.now after.now }
        ensures eased { IsTrue self.new.eased ↔ (IsTrue self.old.eased
            ⊎ ((after.now.answers < before.now.answers)
            ⊎ (after.now.requests < before.now.requests))) }
        // The senior stays so until its request is whole, and it keeps less.
        ensures stays { (senior : ℕ) → self.old.senior ≡ Some senior → self.new.senior
            ≡ (if (senior == number) && nat_lt after.now.requests before.now.requests
            then None else Some senior) }
        // One becomes it that keeps more than its share where all together hold too much.
        ensures becomes { self.old.senior ≡ None → self.new.senior
            ≡ (if nat_le 268435456 self.new.load.requests && nat_lt share after.now.requests
            then Some number else None) }
    {
        self.load = self.load.without(before).with(after);
        if after.is_less_than(before) {
            self.eased = true;
        }
        match self.senior {
            Some(senior) => if senior == number && after.requests < before.requests {
                self.senior = None;
            },
            None => if is_too_much(self.load.requests) && after.requests > share {
                self.senior = Some(number);
            },
        }
    }
}
