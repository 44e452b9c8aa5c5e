ghost use Rattle.std.specs.Prelude.{◌≡◌, IsSome, None, false, is_some, true};
ghost use Rattle.commands.specs.Told.{AppendsBeginning, AppendsToSome, erasing, line_over};

use crate::error::CommandError;
use crate::telling::write_bytes;
use std::io::Write;

/// Writes the text in place of a terminal's line. What is longer than its width is cut off.
fn write_over<T: Write>(terminal: &mut T, text: &str) -> Result<(), CommandError>
    ensures { AppendsBeginning (T.contents terminal.old) (T.contents terminal.new)
        (line_over text.now) }
{
    write_bytes(terminal, b"\r\x1b[K\x1b[?7l")?;
    write_bytes(terminal, text.as_bytes())?;
    write_bytes(terminal, b"\x1b[?7h")
}

/// A line on a terminal that is written over. Without a terminal nothing is written. A terminal
/// that can't be written is no fault.
#[derive(Drop)]
pub struct TerminalLine<T: Write + Drop> {
    pub terminal: Option<T>,
    /// Whether there is a text in the line.
    pub is_written: bool,
}

impl<T: Write + Drop> TerminalLine<T> {
    /// A line without a text.
    pub fn new(terminal: Option<T>) -> TerminalLine<T>
        ensures terminal { result.terminal ≡ terminal }
        ensures unwritten { result.is_written ≡ false }
    {
        TerminalLine {
            terminal,
            is_written: false,
        }
    }

    /// Whether there is a terminal.
    pub fn has_terminal(&self) -> bool
        ensures { result ≡ is_some self.now.terminal }
    {
        self.terminal.is_some()
    }

    /// Writes the text in place of the line's. The terminal cuts off what is longer than its width.
    pub fn write(&mut self, text: &str)
        ensures written { IsSome self.old.terminal → self.new.is_written ≡ true }
        ensures silent { self.old.terminal ≡ None → self.new ≡ self.old }
        ensures kept { is_some self.new.terminal ≡ is_some self.old.terminal }
        ensures told { AppendsToSome T.contents self.old.terminal self.new.terminal
            (line_over text.now) }
    {
        let Some(terminal) = &mut self.terminal else {
            return;
        };
        let _ = write_over(terminal, text);
        let _ = terminal.flush();
        self.is_written = true;
    }

    /// Takes the line away, where there is a text in it.
    pub fn clear(&mut self)
        ensures idle { self.old.is_written ≡ false → self.new ≡ self.old }
        ensures cleared { self.new.is_written ≡ false }
        ensures silent { self.old.terminal ≡ None → self.new.terminal ≡ None }
        ensures kept { is_some self.new.terminal ≡ is_some self.old.terminal }
        ensures told { self.old.is_written ≡ true
            → AppendsToSome T.contents self.old.terminal self.new.terminal erasing }
    {
        if !self.is_written {
            return;
        }
        self.is_written = false;
        let Some(terminal) = &mut self.terminal else {
            return;
        };
        let _ = write_bytes(terminal, b"\r\x1b[K");
        let _ = terminal.flush();
    }
}
