ghost use Rattle.std.specs.Prelude.{◌≡◌, ◌↔◌, ◌++◌, IsTrue, Some, codes, drop, length};
ghost use Rattle.std.specs.Prelude.{option_map, slice_get};
ghost use Rattle.std.specs.List.{list_all};
ghost use Rattle.plan.specs.Escape.{is_plain};
ghost use Rattle.commands.specs.ErrorText.{hint_words};
ghost use Rattle.commands.specs.Hints.{AreFew, HasFirst, HaveStep, IsHint, MayBePaths};
ghost use Rattle.commands.specs.Hints.{TellsOfFault, TellsOfForm, TellsOfStep, is_digit};
ghost use Rattle.commands.specs.Hints.{is_escaped, lines_of, words_of};

use plan::{Fault, PlanError};

/// What may be wrong with a line that can't be read.
#[derive(Clone, Copy, Debug, PartialEq, Eq)]
pub enum Hint {
    CarriageReturn,
    BlankAtEnd,
    NoNewline,
    NoLine,
    NotEscaped,
    LaterStep,
    OwnStep,
    NoStep,
}

impl Hint {
    /// That of the line at fault in a text.
    pub(crate) fn of(text: &[u8], error: &PlanError) -> Option<Hint>
        ensures { IsHint (TellsOfFault text.now error.now) result }
    {
        let before = error.line.saturating_sub(1) as usize;
        let line = line_at(text, before)?;
        match error.fault {
            Fault::LaterStep => Some(hint_of_step(text, before, word_at(line, 3)?)),
            Fault::BadHeader | Fault::BadLine => {
                hint_of_form(line, line_at(text, before + 1).is_none())
            }
            _ => None,
        }
    }

    /// Its words, behind those of the fault.
    fn text(self) -> &'static str
        ensures { result.now ≡ hint_words (Some self) }
    {
        match self {
            Hint::CarriageReturn => "; the line ends with CR LF",
            Hint::BlankAtEnd => "; a blank ends the line",
            Hint::NoNewline => "; the text has no newline at its end",
            Hint::NoLine => "; the text ends before it",
            Hint::NotEscaped => {
                "; in a path every byte but letters, digits and -._~/ is escaped, a space as %20"
            }
            Hint::LaterStep => "; a later step has it",
            Hint::OwnStep => "; the step itself has it",
            Hint::NoStep => "; no step has it",
        }
    }
}

/// The words of a hint, where there is one.
pub(crate) fn hint_text(hint: &Option<Hint>) -> &'static str
    ensures { result.now ≡ hint_words hint.now }
{
    match hint {
        Some(hint) => hint.text(),
        None => "",
    }
}

/// That of a line without the form of a line of a plan or a record.
fn hint_of_form(line: &[u8], is_last: bool) -> Option<Hint>
    ensures { IsHint (TellsOfForm line.now is_last) result }
{
    match line.last() {
        Some(b'\r') => Some(Hint::CarriageReturn),
        Some(b' ' | b'\t') => Some(Hint::BlankAtEnd),
        Some(_) if is_last => Some(Hint::NoNewline),
        None if is_last => Some(Hint::NoLine),
        _ if line.starts_with(b"in ") && !may_be_paths(line) => Some(Hint::NotEscaped),
        _ => None,
    }
}

/// Whether the words of a line `in` may be escaped paths, by their number and their bytes.
fn may_be_paths(line: &[u8]) -> bool
    ensures { IsTrue result ↔ MayBePaths (words_of line.now) }
{
    are_few(line) && are_escaped(line)
}

/// Whether a line has no more words than a line `in`.
fn are_few(line: &[u8]) -> bool
    ensures { IsTrue result ↔ AreFew (words_of line.now) }
{
    let count = count_words(line);
    count <= 4 || (count == 5 && is_word_at(line, 2, b"out"))
}

fn count_words(line: &[u8]) -> usize
    ensures { result ≡ length (words_of line.now) }
{
    line.split(|byte| *byte == b' ').count()
}

/// Whether each word of a line may be an escaped path by its bytes.
fn are_escaped(line: &[u8]) -> bool
    ensures { result ≡ list_all (is_escaped 0) (words_of line.now) }
{
    line.split(|byte| *byte == b' ').all(is_escaped)
}

/// Whether this word stands behind so many of a line.
fn is_word_at(line: &[u8], before: usize, word: &[u8]) -> bool
    ensures { IsTrue result ↔ (slice_get (words_of line.now) before ≡ Some word.now) }
{
    match word_at(line, before) {
        Some(found) => found == word,
        None => false,
    }
}

/// The word behind so many of a line.
fn word_at(line: &[u8], before: usize) -> Option<&[u8]>
    ensures { option_map (λ w. w.now) result ≡ slice_get (words_of line.now) before }
{
    line.split(|byte| *byte == b' ').nth(before)
}

/// The line behind so many of a text.
fn line_at(text: &[u8], before: usize) -> Option<&[u8]>
    ensures { option_map (λ l. l.now) result ≡ slice_get (lines_of text.now) before }
{
    text.split(|byte| *byte == b'\n').nth(before)
}

/// Whether each byte of a word may stand in an escaped path.
fn is_escaped(word: &[u8]) -> bool
    ensures { result ≡ is_escaped 0 word.now }
{
    let mut digits: u8 = 0;
    for byte in word {
        if digits > 0 {
            if !is_digit(*byte) {
                return false;
            }
            digits -= 1;
        } else if *byte == b'%' {
            digits = 2;
        } else if !is_plain(*byte) {
            return false;
        }
    }
    digits == 0
}

fn is_digit(byte: u8) -> bool
    ensures { result ≡ is_digit byte }
{
    matches!(byte, b'0'..=b'9' | b'A'..=b'F')
}

fn is_plain(byte: u8) -> bool
    ensures { result ≡ is_plain byte }
{
    byte.is_ascii_alphanumeric() || matches!(byte, b'-' | b'.' | b'_' | b'~' | b'/')
}

/// That of a line which reads a step of this name, where so many lines stand before it.
fn hint_of_step(text: &[u8], before: usize, name: &[u8]) -> Hint
    ensures { TellsOfStep name.now (lines_of text.now) (drop before (lines_of text.now)) result }
{
    if has_step(text, before, name) {
        Hint::LaterStep
    } else if has_step(text, 0, name) {
        Hint::OwnStep
    } else {
        Hint::NoStep
    }
}

/// Whether a step of the name begins behind so many lines of the text.
fn has_step(text: &[u8], before: usize, name: &[u8]) -> bool
    ensures { IsTrue result ↔ HaveStep name.now (drop before (lines_of text.now)) }
{
    text.split(|byte| *byte == b'\n')
        .skip(before)
        .any(|line| is_of_step(line, name))
}

/// Whether a line is that of the step of this name.
fn is_of_step(line: &[u8], name: &[u8]) -> bool
    ensures { IsTrue result ↔ HasFirst (codes "step " ++ name.now) line.now }
{
    match line.strip_prefix(b"step ") {
        Some(behind) => has_first(behind, name),
        None => false,
    }
}

/// Whether a text begins with this and a space.
fn has_first(text: &[u8], words: &[u8]) -> bool
    ensures { IsTrue result ↔ HasFirst words.now text.now }
{
    match text.strip_prefix(words) {
        Some(behind) => behind.starts_with(b" "),
        None => false,
    }
}
