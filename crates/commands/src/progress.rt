ghost use Rattle.std.specs.Prelude.{◌≡◌, ◌+◌, ◌/◌, ◌++◌, IfOk, None, codes, decimal, false, min};
ghost use Rattle.std.specs.Prelude.{string_bytes};

use crate::terminal_line::TerminalLine;
use std::alloc::{AllocError, Global};
use std::io::Write;
use std::time::{Clock, Duration, Instant};

/// How many milliseconds a line stands at least.
const STANDS: u64 = 100;

/// What counts the files that were put, and their bytes.
pub(crate) trait Counter {
    ghost use Rattle.std.specs.Prelude.{ℕ};

    ghost files: { Self → ℕ };

    ghost size: { Self → ℕ };

    /// Counts a file that was put.
    fn count(&mut self, bytes: u64)
        ensures files { files self.new ≡ min (files self.old + 1) 18446744073709551615 }
        ensures bytes { size self.new ≡ min (size self.old + bytes) 18446744073709551615 };
}

/// How far a `put` is, told on a terminal in one line that is written over. Without a terminal
/// nothing is told. It is no `Drop`, so that it has to be ended.
pub(crate) struct PutProgress<R: Drop, T: Write + Drop> {
    rt: R,
    line: TerminalLine<T>,
    last: Option<Instant>,
    files: u64,
    bytes: u64,
}

impl<R: AllocGlobal + Clock + Clone + Drop, T: Write + Drop> PutProgress<R, T> {
    pub(crate) fn new(rt: &R, terminal: Option<T>) -> Result<PutProgress<R, T>, AllocError>
        ensures terminal { IfOk result (λ put. put.line.terminal ≡ terminal) }
        ensures unwritten { IfOk result (λ put. put.line.is_written ≡ false) }
        ensures none { IfOk result (λ put. (put.files ≡ 0) × (put.bytes ≡ 0)) }
    {
        Ok(PutProgress {
            rt: rt.clone()?,
            line: TerminalLine::new(terminal),
            last: None,
            files: 0,
            bytes: 0,
        })
    }

    /// Writes the line anew, where the last one stands long enough.
    fn show(&mut self)
        ensures files { self.new.files ≡ self.old.files }
        ensures bytes { self.new.bytes ≡ self.old.bytes }
    {
        let Ok(now) = Instant::now(&self.rt) else {
            return;
        };
        if self.last.is_some_and(|last| now.duration_since(last) < Duration::from_millis(STANDS)) {
            return;
        }
        self.last = Some(now);
        if let Ok(text) = self.text(self.rt.alloc()) {
            self.line.write(text.as_str());
        }
    }

    fn text(&self, alloc: Global) -> Result<String, AllocError>
        ensures { IfOk result (λ text. string_bytes text
            ≡ codes "put " ++ (decimal self.now.files ++ (codes " files, "
            ++ (decimal (self.now.bytes / 1048576) ++ codes " MiB")))) }
    {
        let mebibytes = self.bytes / 1_048_576;
        format!(in alloc; "put {} files, {mebibytes} MiB", self.files)
    }

    /// Takes the line away.
    pub(crate) fn clear(&mut self)
        ensures cleared { self.new.line.is_written ≡ false }
        ensures silent { self.old.line.terminal ≡ None → self.new.line.terminal ≡ None }
    {
        self.line.clear();
    }

    /// Ends it, once its line was taken away.
    pub(crate) fn end(self)
        requires { self.line.is_written ≡ false }
    {
        let PutProgress {
            rt: _rt,
            line: _line,
            last: _last,
            files: _files,
            bytes: _bytes,
        } = self;
    }
}

impl<R: AllocGlobal + Clock + Clone + Drop, T: Write + Drop> Counter for PutProgress<R, T> {
    ghost files = { λ put. put.files };

    ghost size = { λ put. put.bytes };

    /// Counts a file that was put. The line is written anew where the last one stands long enough.
    fn count(&mut self, bytes: u64)
        ensures files { self.new.files ≡ min (self.old.files + 1) 18446744073709551615 }
        ensures bytes { self.new.bytes ≡ min (self.old.bytes + bytes) 18446744073709551615 }
        ensures silent { self.old.line.terminal ≡ None → self.new.line ≡ self.old.line }
    {
        self.files = self.files.saturating_add(1);
        self.bytes = self.bytes.saturating_add(bytes);
        if self.line.has_terminal() {
            self.show();
        }
    }
}
