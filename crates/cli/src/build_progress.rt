ghost use Rattle.std.specs.Prelude.{◌≡◌, IfOk, None, false, string_bytes};
ghost use Rattle.cli.specs.Progress.{progress_line};

use commands::TerminalLine;
use plan::Plan;
use std::alloc::{AllocError, Global};
use std::io::Write;
use worker::{Progress, Watcher};

/// How far a build is, told on a terminal in one line that is written over. Without a terminal
/// nothing is told. It is no `Drop`, so that it has to be ended.
pub(crate) struct BuildProgress<'a, T: Write + Drop> {
    alloc: Global,
    plan: &'a Plan<Global>,
    line: TerminalLine<T>,
}

impl<'a, T: Write + Drop> BuildProgress<'a, T> {
    pub(crate) fn new(
        alloc: Global,
        plan: &'a Plan<Global>,
        terminal: Option<T>,
    ) -> BuildProgress<'a, T>
        ensures plan { result.plan.now ≡ plan.now }
        ensures terminal { result.line.terminal ≡ terminal }
        ensures unwritten { result.line.is_written ≡ false }
    {
        BuildProgress {
            alloc,
            plan,
            line: TerminalLine::new(terminal),
        }
    }

    /// Takes the line away.
    pub(crate) fn clear(&mut self)
        ensures cleared { self.new.line.is_written ≡ false }
        ensures silent { self.old.line.terminal ≡ None → self.new.line.terminal ≡ None }
    {
        self.line.clear();
    }

    /// Ends it, once its line was taken away, and gives its terminal back.
    pub(crate) fn end(self) -> Option<T>
        requires { self.line.is_written ≡ false }
        ensures { result ≡ self.entry.line.terminal }
    {
        let BuildProgress {
            alloc: _alloc,
            plan: _plan,
            line,
        } = self;
        line.terminal
    }
}

/// The line: steps finished of all, how many the store had, how many run, and which runs longest.
fn progress_line(
    alloc: Global,
    plan: &Plan<Global>,
    progress: Progress,
) -> Result<String, AllocError>
    ensures { IfOk result (λ line.
        string_bytes line ≡ progress_line plan.now.steps progress) }
{
    let Progress {
        steps,
        finished,
        taken,
        running,
        longest,
    } = progress;
    let counts = format!(in alloc; "build {finished} of {steps} steps, {taken} from the store")?;
    let Some(number) = longest else {
        return Ok(counts);
    };
    let Some(step) = plan.steps().get(number) else {
        return Ok(counts);
    };
    let name = step.name.as_str();
    format!(in alloc; "{counts}, {running} running, longest {name}")
}

impl<T: Write + Drop> Watcher for BuildProgress<'_, T> {
    ghost use Rattle.std.specs.Prelude.{None};

    ghost told = { λ _. None };

    fn watch(&mut self, progress: Progress) {
        if !self.line.has_terminal() {
            return;
        }
        if let Ok(line) = progress_line(self.alloc, self.plan, progress) {
            self.line.write(line.as_str());
        }
    }
}
