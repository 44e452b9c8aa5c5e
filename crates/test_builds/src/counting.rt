ghost use Rattle.std.specs.Prelude.{◌≡◌, ℕ, List, Err, IsErrOf, IsTrue};
ghost use Rattle.std.specs.Result.{IsErrAnd};
ghost use Rattle.messages.specs.Path.{begins_with_slash};
ghost use Rattle.worker.specs.Counted.{Counts, IsFailure};
ghost use Rattle.worker.specs.Values.{IsAbsolute};

use actions::{Command, Outcome, Output};
use blob_digest::Digest;
use messages::Path;
use std::alloc::{AllocError, Allocator};
use worker::{FailureCause, Layout, Produced, Progress, RunError, Runner, Watcher, program_of};

/// What each child comes to.
#[derive(Clone, Copy)]
pub enum Came {
    /// An exit code, and no outputs.
    Code(i32),
    /// A file at the path, with this content.
    File(&'static str, &'static str),
    /// A failure: of its start, where the system says so of that.
    Fails(FailureCause),
}

/// Children of one kind, which it counts.
#[derive(Drop)]
pub struct Counting {
    came: Came,
    alive: u64,
    most: u64,
    started: u64,
    waited_for: u64,
    has_waited: bool,
    at_first: u64,
    failures: u64,
}

/// A child that was started for a command of this program.
#[derive(Drop)]
pub struct Counted<A: Allocator> {
    program: String<A>,
}

impl Counting {
    /// No child yet.
    pub fn new(came: Came) -> Counting {
        Counting {
            came,
            alive: 0,
            most: 0,
            started: 0,
            waited_for: 0,
            has_waited: false,
            at_first: 0,
            failures: 0,
        }
    }

    /// Whether each child that was started was waited for, once.
    pub fn is_idle(&self) -> bool {
        self.alive == 0 && self.started == self.waited_for
    }

    /// How many children weren't waited for yet.
    pub fn alive(&self) -> u64 {
        self.alive
    }

    /// How many children were started before the first was waited for, the most that were alive at
    /// once, and how many were started in all.
    pub fn counts(&self) -> (u64, u64, u64) {
        (self.at_first, self.most, self.started)
    }

    /// Counts a failure. One whose count is full is lack of memory instead.
    fn fail<T, A: Allocator>(
        &mut self,
        program: String<A>,
        cause: FailureCause,
    ) -> Result<T, RunError<A>>
        ensures told { IsErrAnd result (λ e. IsFailure e → e ≡ RunError.Device program cause) }
        ensures absolute { IsErrOf result RunError.NotAbsolute → ⊥ }
        ensures bad { (path : List (List ℕ)) → IsErrOf result (RunError.BadOutput path) → ⊥ }
        ensures counted { Counts self.old.failures self.new.failures (IsErrAnd result IsFailure) }
        ensures alive { self.new.alive ≡ self.old.alive }
    {
        let count = &mut self.failures;
        let Some(failures) = count.checked_add(1) else {
            return Err(RunError::Memory);
        };
        *count = failures;
        Err(RunError::Device { program, cause })
    }
}

fn begins_with_slash(bytes: &[u8]) -> bool
    ensures { result ≡ begins_with_slash bytes.now }
{
    match bytes {
        [b'/', ..] => true,
        _ => false,
    }
}

/// Whether the command names its program by a path from the root of the file system.
fn is_absolute<A: Allocator>(command: &Command<A>) -> bool
    ensures { IsAbsolute command.now → IsTrue result }
{
    match command.arguments() {
        [program, ..] => begins_with_slash(program.as_bytes()),
        [] => false,
    }
}

/// The path of this text.
fn path_of<A: Allocator>(alloc: A, text: &str) -> Result<Path<A>, AllocError> {
    match Path::new(alloc, text.as_bytes()) {
        Ok(path) => Ok(path),
        Err(_) => Err(AllocError),
    }
}

/// A child's outcome of one file, whose content is among the blobs.
fn made_file<A: Allocator + Copy>(
    alloc: A,
    path: &str,
    content: &str,
) -> Result<Produced<A>, AllocError> {
    let digest = Digest::of(content.as_bytes());
    let output = Output::File {
        digest,
        executable: false,
    };
    let mut outcome = Outcome::new(alloc, 0);
    let path = path_of(alloc, path)?;
    if outcome.add(alloc, path, output).is_err() {
        return Err(AllocError);
    }
    let mut blobs = Vec::new(alloc);
    blobs.push(Vec::from_slice(alloc, content.as_bytes())?)?;
    Ok(Produced { outcome, blobs })
}

impl<A: Allocator + Copy> Runner<A> for Counting {
    type Job = Counted<A>;

    ghost use Rattle.std.specs.Prelude.{string_bytes};
    ghost use Rattle.worker.specs.Values.{IsOf};

    ghost yields = { λ _ _ _ _. Unit {0} };

    ghost may_give = { λ child e. IsOf (string_bytes child.program) e };

    ghost starts = { λ _ _. Unit {0} };

    ghost alive = { λ r. r.alive };

    ghost failures = { λ r. r.failures };

    ghost ran = { λ _ _. Unit {0} };

    fn start(
        &mut self,
        alloc: A,
        _layout: &Layout<A>,
        command: &Command<A>,
    ) -> Result<Counted<A>, RunError<A>> {
        if !is_absolute(command) {
            return Err(RunError::NotAbsolute);
        }
        let program = program_of(alloc, command)?;
        if let Came::Fails(FailureCause::Unstarted(error)) = self.came {
            return self.fail(program, FailureCause::Unstarted(error));
        }
        let Some(alive) = self.alive.checked_add(1) else {
            return Err(RunError::Memory);
        };
        self.alive = alive;
        self.most = self.most.max(alive);
        self.started = self.started.saturating_add(1);
        if !self.has_waited {
            self.at_first = self.started;
        }
        Ok(Counted { program })
    }

    fn finish(&mut self, alloc: A, job: Counted<A>) -> Result<Produced<A>, RunError<A>> {
        self.has_waited = true;
        self.waited_for = self.waited_for.saturating_add(1);
        self.alive = self.alive.saturating_sub(1);
        match self.came {
            Came::Code(code) => Ok(Produced {
                outcome: Outcome::new(alloc, code),
                blobs: Vec::new(alloc),
            }),
            Came::File(path, content) => Ok(made_file(alloc, path, content)?),
            Came::Fails(cause) => self.fail(job.program, cause),
        }
    }
}

/// Keeps the last that it was told, and the most children that ran at once.
#[derive(Drop)]
pub struct Noting {
    finished: usize,
    taken: usize,
    most: usize,
}

impl Noting {
    /// Nothing was told yet.
    pub fn new() -> Noting {
        Noting {
            finished: 0,
            taken: 0,
            most: 0,
        }
    }

    /// How many steps had finished and how many of them were taken from the store, as it was told
    /// last, and the most children that ran at once.
    pub fn counts(&self) -> (usize, usize, usize) {
        (self.finished, self.taken, self.most)
    }
}

impl Watcher for Noting {
    ghost use Rattle.std.specs.Prelude.{None};

    ghost told = { λ _. None };

    fn watch(&mut self, progress: Progress) {
        self.finished = progress.finished;
        self.taken = progress.taken;
        self.most = self.most.max(progress.running);
    }
}
