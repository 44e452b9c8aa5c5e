//! The texts of rows: names that stand for other text, and escaped bytes.
ghost use Rattle.std.specs.Prelude.{◌<◌};

use std::alloc::{AllocError, Global};

/// The text with what the line of a name has in place of each `$NAME`. The names are lines, each of
/// a name and what it stands for.
pub fn spelled(alloc: Global, names: &str, text: &str) -> Result<String, AllocError> {
    let mut told = String::from_str(alloc, text)?;
    for line in names.lines() {
        if let Some((name, value)) = line.split_once(' ') {
            told = told.as_str().replace(alloc, name, value)?;
        }
    }
    Ok(told)
}

/// The text with the `$NAME` in place of each value of a name.
pub fn named(alloc: Global, names: &str, text: &str) -> Result<String, AllocError> {
    let mut told = String::from_str(alloc, text)?;
    for line in names.lines() {
        if let Some((name, value)) = line.split_once(' ') {
            told = told.as_str().replace(alloc, value, name)?;
        }
    }
    Ok(told)
}

/// The text with TEXT N times in place of each `\{N TEXT}`.
fn repeated(alloc: Global, text: &str) -> Result<String, AllocError> {
    let mut told = String::new(alloc);
    for (number, part) in text.split("\\{").enumerate() {
        if number == 0 {
            told.push_str(part)?;
        } else {
            push_repeated(alloc, &mut told, part)?;
        }
    }
    Ok(told)
}

/// Adds what stands after `\{`: `N TEXT}` and more.
fn push_repeated(alloc: Global, told: &mut String, part: &str) -> Result<(), AllocError> {
    let (count, rest) = part.split_once(' ').unwrap_or(("", part));
    let (one, after) = rest.split_once('}').unwrap_or((rest, ""));
    let count = count.parse::<usize>().unwrap_or(0);
    told.push_str(one.repeat(alloc, count)?.as_str())?;
    told.push_str(after)
}

/// The bytes of a text in which `\{N TEXT}` stands for TEXT N times, and a backslash and `n`, `r`,
/// `t` or `x` and two hex digits for a byte.
pub fn unescaped(alloc: Global, text: &str) -> Result<Vec<u8>, AllocError> {
    let text = repeated(alloc, text)?;
    let mut bytes = Vec::new(alloc);
    for (number, part) in text.as_str().split('\\').enumerate() {
        if number == 0 {
            bytes.extend_from_slice(part.as_bytes())?;
        } else {
            push_escaped(&mut bytes, part.as_bytes())?;
        }
    }
    Ok(bytes)
}

/// Adds the bytes of what stands after a backslash. What is no escape stays as it is.
fn push_escaped(bytes: &mut Vec<u8>, part: &[u8]) -> Result<(), AllocError> {
    let (byte, rest) = match part {
        [b'n', rest @ ..] => (b'\n', rest),
        [b'r', rest @ ..] => (b'\r', rest),
        [b't', rest @ ..] => (b'\t', rest),
        [b'x', high, low, rest @ ..] => (16 * digit(*high) + digit(*low), rest),
        _ => (b'\\', part),
    };
    bytes.push(byte)?;
    bytes.extend_from_slice(rest)
}

fn digit(byte: u8) -> u8
    ensures { result < 16 }
{
    match byte {
        b'0'..=b'9' => byte - b'0',
        b'a'..=b'f' => byte - b'a' + 10,
        _ => 0,
    }
}
