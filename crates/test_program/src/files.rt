//! The files that the rows lay out.
use std::io::ErrorKind;
use std::{fs, io};
use test_support::{spelled, unescaped};

/// Does what each line of a file says.
pub fn lay_all(rt: &HostRuntime, names: &str, file: &str) -> io::Result<()> {
    let lines = fs::read_to_string(rt, file)?;
    for line in lines.as_str().lines() {
        lay(rt, names, line)?;
    }
    Ok(())
}

/// Does what a line says of a file or a folder: its verb, the path and what the verb needs. An
/// empty line and a comment say nothing.
pub fn lay(rt: &HostRuntime, names: &str, line: &str) -> io::Result<()> {
    if line.is_empty() || line.starts_with('#') {
        return Ok(());
    }
    let line = spelled(rt.alloc(), names, line)?;
    let mut words = line.as_str().splitn(3, ' ');
    let verb = words.next().unwrap_or("");
    let path = words.next().unwrap_or("");
    let more = words.next().unwrap_or("");
    match verb {
        "write" => fs::write(rt, path, unescaped(rt.alloc(), more)?.as_slice()),
        "zeros" => fill(rt, path, more),
        "change" => change(rt, path, more),
        "remove" => fs::remove_file(rt, path),
        "folder" => fs::create_dir_all(rt, path),
        _ => Err(ErrorKind::InvalidInput.into()),
    }
}

/// Writes a file of this many bytes.
fn fill(rt: &HostRuntime, path: &str, count: &str) -> io::Result<()> {
    let Ok(count) = count.parse::<usize>() else {
        return Err(ErrorKind::InvalidInput.into());
    };
    fs::write(rt, path, "\0".repeat(rt.alloc(), count)?.as_str())
}

/// Writes a file anew with a text in place of another, `OLD => NEW`.
fn change(rt: &HostRuntime, path: &str, texts: &str) -> io::Result<()> {
    let Some((old, new)) = texts.split_once(" => ") else {
        return Err(ErrorKind::InvalidInput.into());
    };
    let text = fs::read_to_string(rt, path)?;
    fs::write(
        rt,
        path,
        text.as_str().replace(rt.alloc(), old, new)?.as_str(),
    )
}
