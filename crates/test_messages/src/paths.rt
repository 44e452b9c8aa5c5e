//! Rows of names, targets and paths, of their order and of their spelling in a plan.
use crate::answers::{Answer, Broken, number_in, said, word};
use messages::*;
use plan::{StepName, is_step_name, read_path, write_path};
use std::alloc::{Allocator, Global};
use std::cmp::Ordering;
use test_support::Refusing;

pub fn answer<A: Allocator + Copy>(global: Global, alloc: A, fields: &[Vec<u8>]) -> Answer {
    match fields {
        [kind, given, _] => of_one(global, alloc, word(kind), given),
        [_, first, second, _] => pair(global, first, second),
        _ => Err(Broken::NoRow),
    }
}

fn of_one<A: Allocator + Copy>(global: Global, alloc: A, kind: &str, given: &[u8]) -> Answer {
    match kind {
        "text" => text(global, alloc, given),
        "deep" => deep(global, alloc, number_in(given)?),
        "spell" => spelled(global, alloc, given),
        "step" => step(global, alloc, given),
        _ => Err(Broken::NoRow),
    }
}

/// Whether something was made, or that no memory was left for it.
fn is_made<T: Drop>(made: Result<T, MessageError>) -> Result<bool, MessageError> {
    match made {
        Ok(_) => Ok(true),
        Err(MessageError::Memory) => Err(MessageError::Memory),
        Err(_) => Ok(false),
    }
}

/// Whether a name, a target and a path can be made.
fn made_of<A: Allocator + Copy>(alloc: A, text: &[u8]) -> Result<[bool; 3], MessageError> {
    let name = is_made(Name::new(alloc, text))?;
    let target = is_made(Target::new(alloc, text))?;
    let path = is_made(Path::new(alloc, text))?;
    Ok([name, target, path])
}

/// Whether the text is a name, a target and a path.
fn text<A: Allocator + Copy>(global: Global, alloc: A, bytes: &[u8]) -> Answer {
    let made = made_of(alloc, bytes)?;
    if made[2] != str::from_utf8(bytes).is_ok_and(|text| is_path(text)) {
        return said(global, "made otherwise");
    }
    said(
        global,
        match made {
            [true, true, true] => "name target path",
            [false, true, true] => "target path",
            [false, true, false] => "target",
            [false, false, false] => "none",
            _ => "a strange text",
        },
    )
}

/// The order of two paths by their texts, which takes no memory.
fn pair(global: Global, first: &[u8], second: &[u8]) -> Answer {
    let heap = Refusing::new(global, 0);
    let path = Path::new(&heap, first)?;
    let other = Path::new(&heap, second)?;
    heap.refuse(1);
    let is_text = path.as_bytes() == first && path.names().all(|name| is_path(name));
    let order = order_of(&path, &other);
    if heap.has_refused() {
        return said(global, "compared with memory");
    }
    if !is_text {
        return said(global, "other names");
    }
    said(global, order)
}

fn order_of<A: Allocator>(path: &Path<A>, other: &Path<A>) -> &'static str {
    match path.compare_text(other) {
        Ordering::Less => "before",
        Ordering::Equal => "same",
        Ordering::Greater => "after",
    }
}

/// The path of this many names `a`.
fn path_of<A: Allocator + Copy>(alloc: A, names: u64) -> Result<Path<A>, MessageError> {
    let name = Name::new(alloc, b"a")?;
    let mut path = Path::of_name(alloc, &name)?;
    for _ in 1..names {
        path = Path::below(alloc, &path, &name)?;
    }
    Path::copy_of(alloc, &path).map_err(MessageError::from)
}

/// How many bytes and names the path of this many names has.
fn deep<A: Allocator + Copy>(global: Global, alloc: A, names: u64) -> Answer {
    let path = path_of(alloc, names)?;
    let bytes = path.as_bytes().len();
    let count = path.names().count();
    Ok(format!(in global; "{bytes} bytes {count} names")?.into_bytes())
}

/// The path that the text spells, if it spells one and is written so.
fn spelled<A: Allocator + Copy>(global: Global, alloc: A, text: &[u8]) -> Answer {
    match read_path(alloc, text)? {
        Some(path) => {
            if write_path(alloc, &path)?.as_bytes() == text {
                said(global, path.as_str())
            } else {
                said(global, "written otherwise")
            }
        }
        None => said(global, "none"),
    }
}

/// Whether the text is a step's name.
fn step<A: Allocator + Copy>(global: Global, alloc: A, text: &[u8]) -> Answer {
    let is_made = match StepName::new(alloc, text)? {
        Some(name) => StepName::copy_of(alloc, &name)?.as_bytes() == text,
        None => false,
    };
    if is_made != is_step_name(text) {
        return said(global, "made otherwise");
    }
    said(global, if is_made { "yes" } else { "no" })
}
