ghost use Rattle.std.specs.Prelude.{◌≡◌, ◌+◌, ◌++◌, ◌<◌, ◌≤◌, codes, min, IsSome, None, OnOk, Some};
ghost use Rattle.std.specs.Prelude.{is_some};
ghost use Rattle.std.specs.Fmt.{decimal};
ghost use Rattle.std.specs.Io.KnownBytes.{Appends};

use std::io;
use std::io::{IsTerminal, Stderr, Write};

/// How many milliseconds the line stands at least.
const STANDS: u64 = 1000;

/// A handle that may write to standard error.
pub trait ErrorTerminal {
    /// Standard error, if it is a terminal.
    fn error_terminal(&self) -> Option<Stderr>;
}

impl ErrorTerminal for HostRuntime {
    fn error_terminal(&self) -> Option<Stderr> {
        let stderr = self.stderr();
        stderr.is_terminal().then(|| stderr)
    }
}

/// How many connections are open, and how many look-ups were hits so far.
#[derive(Clone, Copy, PartialEq, Eq)]
pub(crate) struct Status {
    pub(crate) open: usize,
    pub(crate) hits: u64,
}

/// The status in a line on a terminal, which is written over at most once a second. Without a
/// terminal nothing is written. A terminal that can't be written is no fault.
#[derive(Drop)]
pub(crate) struct StatusLine {
    terminal: Option<Stderr>,
    // What stands in the line.
    shown: Option<Status>,
    // When another may be written, in milliseconds.
    next: u64,
    // When another is to be written; `u64::MAX` where the line says what is so.
    due: u64,
}

impl StatusLine {
    /// A line without a text.
    pub(crate) fn new(terminal: Option<Stderr>) -> StatusLine
        ensures terminal { result.terminal ≡ terminal }
        ensures unwritten { result.shown ≡ None }
        ensures times { (result.next ≡ 0) × (result.due ≡ u64.MAX) }
    {
        StatusLine {
            terminal,
            shown: None,
            next: 0,
            due: u64::MAX,
        }
    }

    /// Whether there is a terminal.
    pub(crate) fn has_terminal(&self) -> bool
        ensures { result ≡ is_some self.now.terminal }
    {
        self.terminal.is_some()
    }

    /// When the line has to be written again.
    pub(crate) fn due(&self) -> u64
        ensures { result ≡ self.now.due }
    {
        self.due
    }

    /// Writes the status in place of the line's, unless it says that, or was written within the
    /// second before.
    pub(crate) fn show(&mut self, status: Status, now: u64)
        ensures silent { self.old.terminal ≡ None → self.new ≡ self.old }
        ensures terminal { is_some self.new.terminal ≡ is_some self.old.terminal }
        ensures stands { self.old.shown ≡ Some status
            → (self.new.shown ≡ Some status) × (self.new.next ≡ self.old.next) }
        ensures rare { now < self.old.next
            → (self.new.shown ≡ self.old.shown) × (self.new.next ≡ self.old.next) }
        ensures written { IsSome self.old.terminal → (self.old.shown ≡ Some status → ⊥)
            → self.old.next ≤ now
            → (self.new.shown ≡ Some status) × (self.new.next ≡ min (now + 1000) u64.MAX) }
        // It is due again only where it doesn't say that yet.
        ensures told { IsSome self.old.terminal → self.new.shown ≡ Some status
            → self.new.due ≡ u64.MAX }
        ensures due { IsSome self.old.terminal → (self.new.shown ≡ Some status → ⊥)
            → self.new.due ≡ self.new.next }
    {
        let Some(terminal) = &mut self.terminal else {
            return;
        };
        if self.shown == Some(status) {
            self.due = u64::MAX;
            return;
        }
        if now < self.next {
            self.due = self.next;
            return;
        }
        let _ = write_status(terminal, &status);
        self.shown = Some(status);
        self.next = now.saturating_add(STANDS);
        self.due = u64::MAX;
    }

    /// Takes the line away, for what else is told there.
    pub(crate) fn clear(&mut self)
        ensures cleared { self.new.shown ≡ None }
        ensures paced { (self.new.next ≡ self.old.next) × (self.new.due ≡ self.old.due) }
        ensures terminal { is_some self.new.terminal ≡ is_some self.old.terminal }
    {
        if self.shown.is_none() {
            return;
        }
        if let Some(terminal) = &mut self.terminal {
            let _ = write_nothing(terminal);
        }
        self.shown = None;
    }
}

/// Writes the status over what stands in the line.
fn write_status<W: Write>(terminal: &mut W, status: &Status) -> io::Result<()>
    ensures { OnOk result (Appends (W.contents terminal.old) (W.contents terminal.new)
        (codes "\r" ++ decimal status.now.open ++ codes " open, " ++ decimal status.now.hits
        ++ codes " hits\u{1b}[K")) }
{
    let Status { open, hits } = *status;
    write!(terminal, "\r{open} open, {hits} hits\x1b[K")
}

/// Leaves the line without a text.
fn write_nothing<W: Write>(terminal: &mut W) -> io::Result<()>
    ensures { OnOk result (Appends (W.contents terminal.old) (W.contents terminal.new)
        (codes "\r\u{1b}[K")) }
{
    write!(terminal, "\r\x1b[K")
}
