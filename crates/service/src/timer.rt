ghost use Rattle.std.specs.Prelude.{◌≡◌};
ghost use Rattle.service.specs.Member.{millis_of};

use std::time::{Clock, Duration, Instant};

/// The milliseconds since a beginning.
#[derive(Drop)]
pub(crate) struct Timer {
    begun: Option<Instant>,
}

impl Timer {
    /// Begins now.
    pub(crate) fn begin<C: Clock>(clock: &C) -> Timer {
        Timer {
            begun: Instant::now(clock).ok(),
        }
    }

    /// How many there are by now; none where the clock doesn't tell.
    pub(crate) fn now<C: Clock>(&self, clock: &C) -> u64 {
        let Some(begun) = self.begun else {
            return 0;
        };
        match begun.elapsed(clock) {
            Ok(time) => millis(&time),
            Err(_) => 0,
        }
    }
}

/// So many milliseconds, as far as a machine word goes.
pub(crate) fn millis(time: &Duration) -> u64
    ensures { result ≡ millis_of time.now }
{
    time.as_millis().min(u64::MAX as u128) as u64
}
