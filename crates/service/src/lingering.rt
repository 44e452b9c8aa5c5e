//! What is left to do after the last answer.
ghost use Rattle.std.specs.Prelude.{◌≡◌, ◌+◌, ◌≤◌, min, IfSome, IfNone, Some, if◌then◌else◌};
ghost use Rattle.service.specs.Member.{deadline_of, pressed_limit};

/// The most reads of what still comes.
const LAST_READS: u32 = 1024;

/// How many milliseconds they last at most, and how long one of them waits.
const LAST_TIME: u64 = 10_000;

const LAST_WAIT: u64 = 2_000;

/// How many milliseconds a connection may be silent that holds much, where others wait for memory.
const PRESSED_TIME: u64 = 5_000;

/// When the writing side was ended, and how often more was read since.
#[derive(Clone, Copy)]
pub(crate) struct Lingering {
    begun: u64,
    reads: u32,
}

impl Lingering {
    pub(crate) fn begin(now: u64) -> Lingering
        ensures begun { result.begun ≡ now }
        ensures reads { result.reads ≡ 0 }
    {
        Lingering {
            begun: now,
            reads: 0,
        }
    }

    /// With one read more, unless it was the last.
    pub(crate) fn read_again(&self) -> Option<Lingering>
        ensures more { IfSome result (λ next.
            (next.begun ≡ self.now.begun) × (next.reads ≡ self.now.reads + 1)) }
        ensures few { IfSome result (λ next. next.reads ≤ 1024) }
        ensures last { IfNone result (1024 ≤ self.now.reads) }
    {
        if self.reads >= LAST_READS {
            return None;
        }
        Some(Lingering {
            begun: self.begun,
            reads: self.reads + 1,
        })
    }

    /// When it is over, where a byte was moved last at this time.
    pub(crate) fn deadline(&self, moved: u64) -> u64
        ensures { result ≡ min (min (moved + 2000) (self.now.begun + 10000)) u64.MAX }
    {
        let silent = moved.saturating_add(LAST_WAIT);
        silent.min(self.begun.saturating_add(LAST_TIME))
    }
}

/// How many milliseconds a connection may be silent that has so many else, where it holds much and
/// others wait for memory.
pub(crate) fn limit_of(idle: Option<u64>, is_pressed: bool) -> Option<u64>
    ensures { result ≡ (if is_pressed then Some (pressed_limit idle) else idle) }
{
    if is_pressed {
        return Some(idle.unwrap_or(PRESSED_TIME).min(PRESSED_TIME));
    }
    idle
}

/// When a connection will have been silent for too long, where a byte was moved last at this time:
/// after the last answer sooner, and never while it waits for others.
pub(crate) fn deadline_of(
    lingering: Option<Lingering>,
    is_held: bool,
    moved: u64,
    limit: Option<u64>,
) -> Option<u64>
    ensures { result ≡ deadline_of lingering is_held moved limit }
{
    if let Some(lingering) = lingering {
        return Some(lingering.deadline(moved));
    }
    if is_held {
        return None;
    }
    Some(moved.saturating_add(limit?))
}
