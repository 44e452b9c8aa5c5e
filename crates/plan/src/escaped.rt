ghost use Rattle.std.specs.Prelude.{◌≡◌, List, ℕ, Some, IfOk, IfSome, string_bytes};
ghost use Rattle.std.specs.Cow.{cow_str_bytes};
ghost use Rattle.messages.specs.Path.{IsPath, path_text};
ghost use Rattle.plan.specs.Escape.{escaped, escaped_path};

use messages::{MessageError, Path};
use percent_encoding::{AsciiSet, NON_ALPHANUMERIC, ascii_set, percent_decode, percent_encode};
use std::alloc::{AllocError, Allocator};
use std::borrow::CowStr;

/// What is escaped in a path.
const ESCAPED: AsciiSet = ascii_set!(
    NON_ALPHANUMERIC
        .remove(b'-')
        .remove(b'.')
        .remove(b'_')
        .remove(b'~')
        .remove(b'/')
);

/// The bytes as escaped text: the bytes themselves, where none of them is escaped.
fn escape<A: Allocator>(alloc: A, bytes: &[u8]) -> Result<CowStr<'_, A>, AllocError>
    ensures { IfOk result (λ text. cow_str_bytes text ≡ escaped bytes.now) }
{
    percent_encode(bytes, ESCAPED).into_cow(alloc)
}

/// The path as escaped text: each byte but letters, digits, `-`, `.`, `_`, `~` and `/` is `%` and
/// two upper-case hexadecimal digits.
pub fn write_path<A: Allocator, B: Allocator>(
    alloc: A,
    path: &Path<B>,
) -> Result<String<A>, AllocError>
    ensures value { IfOk result (λ text. string_bytes text ≡ escaped_path path.now) }
    ensures valid { IsPath path.now }
{
    let mut text = String::new(alloc);
    percent_encode(path.as_bytes(), ESCAPED).append_to(&mut text)?;
    Ok(text)
}

fn plain_path<A: Allocator>(alloc: A, text: &[u8]) -> Result<Option<Path<A>>, AllocError>
    ensures found { IfOk result (λ read. IfSome read (λ path.
        IsPath path × (text.now ≡ path_text path))) }
    ensures only { (path : List (List ℕ)) → IsPath path → text.now ≡ path_text path
        → IfOk result (λ read. read ≡ Some path) }
{
    match Path::new(alloc, text) {
        Ok(path) => Ok(Some(path)),
        Err(error) => match error {
            MessageError::Memory => Err(AllocError),
            _ => Ok(None),
        },
    }
}

/// The path that is written so. `None` for any other text, also for another spelling of a path.
pub fn read_path<A: Allocator + Copy>(alloc: A, text: &[u8]) -> Result<Option<Path<A>>, AllocError>
    ensures found { IfOk result (λ read. IfSome read (λ path.
        IsPath path × (text.now ≡ escaped_path path))) }
    ensures only { (path : List (List ℕ)) → IsPath path → text.now ≡ escaped_path path
        → IfOk result (λ read. read ≡ Some path) }
{
    let decoded = percent_decode(text).into_cow(alloc)?;
    if escape(alloc, &decoded)?.as_bytes() != text {
        return Ok(None);
    }
    plain_path(alloc, &decoded)
}
