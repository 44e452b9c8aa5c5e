ghost use Rattle.std.specs.Prelude.{◌≡◌};
ghost use Rattle.cache_server.specs.Counts.{no_counts, with_later, with_look_up, with_request};

/// How many requests were answered, how many of them were look-ups that found what they asked for,
/// and how many look-ups didn't.
#[derive(Clone, Copy, Debug, PartialEq, Eq)]
pub struct Counts {
    pub requests: u64,
    pub hits: u64,
    pub misses: u64,
}

impl Counts {
    /// The counts of no requests.
    pub fn none() -> Counts
        ensures { result ≡ no_counts }
    {
        Counts {
            requests: 0,
            hits: 0,
            misses: 0,
        }
    }

    /// Adds what was counted from the earlier of two counts to the later.
    pub fn add_between(&mut self, earlier: &Counts, later: &Counts)
        ensures { self.new ≡ with_later self.old earlier.now later.now }
    {
        let requests = later.requests.saturating_sub(earlier.requests);
        let hits = later.hits.saturating_sub(earlier.hits);
        let misses = later.misses.saturating_sub(earlier.misses);
        self.requests = self.requests.saturating_add(requests);
        self.hits = self.hits.saturating_add(hits);
        self.misses = self.misses.saturating_add(misses);
    }

    /// Counts a look-up, and whether it found what it asked for.
    pub(crate) fn count_look_up(&mut self, found: bool)
        ensures { self.new ≡ with_look_up found self.old }
    {
        self.count_other();
        if found {
            self.hits = self.hits.saturating_add(1);
        } else {
            self.misses = self.misses.saturating_add(1);
        }
    }

    /// Counts a request, which looks nothing up.
    pub(crate) fn count_other(&mut self)
        ensures { self.new ≡ with_request self.old }
    {
        self.requests = self.requests.saturating_add(1);
    }
}
