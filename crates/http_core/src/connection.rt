ghost use Rattle.std.specs.Prelude.{◌≡◌, ◌==◌, ℕ, List, length, reverse, map, All};
ghost use Rattle.std.specs.List.{list_any, slice_split};
ghost use Rattle.httparse.specs.Grammar.{is_ows, skip_ows, trim_ows};
ghost use Rattle.httparse.specs.Spans.{IsHeaderWithin, header_bytes};
ghost use Rattle.http_core.specs.Connection.{is_close, lists_close, closes_of};

use crate::rules::is_named;
use httparse::spans::HeaderSpan;

fn is_ows(byte: u8) -> bool
    ensures { result ≡ is_ows byte }
{
    byte == b' ' || byte == b'\t'
}

fn trim_start(text: &[u8]) -> &[u8]
    ensures { result.now ≡ skip_ows text.now }
{
    let mut rest = text;
    while let Some((first, more)) = rest.split_first() {
        if !is_ows(*first) {
            break;
        }
        rest = more;
    }
    rest
}

fn trim_end(text: &[u8]) -> &[u8]
    ensures { reverse result.now ≡ skip_ows (reverse text.now) }
{
    let mut rest = text;
    while let Some((last, more)) = rest.split_last() {
        if !is_ows(*last) {
            break;
        }
        rest = more;
    }
    rest
}

/// The text without the spaces and tabs around it.
fn trim(text: &[u8]) -> &[u8]
    ensures { result.now ≡ trim_ows text.now }
{
    trim_end(trim_start(text))
}

/// Whether the part of a list is the option `close`, in any case.
fn is_close(part: &[u8]) -> bool
    ensures { result ≡ is_close part.now }
{
    trim(part).eq_ignore_ascii_case(b"close")
}

/// Whether a part of the list is the option `close`.
fn lists_close(value: &[u8]) -> bool
    ensures { result ≡ lists_close value.now }
{
    value.split(|byte| *byte == b',').any(is_close)
}

/// Whether the session closes by a `Connection` field.
pub(crate) fn closes(block: &[u8], headers: &[HeaderSpan]) -> bool
    requires { All (IsHeaderWithin (length block.now)) headers.now }
    ensures { result ≡ closes_of (map (header_bytes block.now) headers.now) }
{
    for header in headers {
        if is_named(block, header, b"connection") && lists_close(header.value.of(block)) {
            return true;
        }
    }
    false
}
