ghost use Rattle.std.specs.Prelude.{◌∷◌, []};
ghost use Rattle.worker.specs.Watching.{Hears};

/// How far a build is.
#[derive(Clone, Copy, Debug, PartialEq, Eq)]
pub struct Progress {
    /// How many steps the plan has.
    pub steps: usize,
    /// How many of them have finished.
    pub finished: usize,
    /// How many of these the build took from the store.
    pub taken: usize,
    /// How many run.
    pub running: usize,
    /// The step that runs longest.
    pub longest: Option<usize>,
}

/// What is told how far a build is. It has no part in the build.
pub trait Watcher {
    ghost use Rattle.std.specs.Prelude.{List, Option};
    ghost use Rattle.worker.specs.declared.watching.Progress.{Progress};

    /// What it was told, the latest last. Of one with `None` nothing is known.
    ghost told: { Self → Option (List Progress) };

    fn watch(&mut self, progress: Progress)
        ensures { Hears (told self.old) (told self.new) (progress ∷ []) };
}

/// A watcher that does nothing.
#[derive(Clone, Copy, Debug)]
pub struct Unwatched;

impl Watcher for Unwatched {
    ghost use Rattle.std.specs.Prelude.{None};

    ghost told = { λ _. None };

    fn watch(&mut self, _progress: Progress) {}
}
