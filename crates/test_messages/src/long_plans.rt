//! Rows of plans with as many lines and steps as they may have, and what is added to such a plan.
use crate::answers::{Answer, Broken, number_in, word};
use crate::plans::plan;
use std::alloc::{AllocError, Allocator, Global};

/// The digest of no bytes.
const FRAME: &str = "e3b0c44298fc1c149afbf4c8996fb92427ae41e4649b934ca495991b7852b855/0";

/// A plan without steps that begins with this many lines.
fn plan_of_lines(global: Global, count: u64) -> Result<String, AllocError> {
    let mut text = String::from_str(global, "buildplan 1\nroot\n")?;
    for number in 0..count {
        writeln!(text, "in {number} src y")?;
    }
    Ok(text)
}

/// A plan that begins with this many steps.
fn plan_of_steps(global: Global, count: u64) -> Result<String, AllocError> {
    let mut text = String::from_str(global, "buildplan 1\n")?;
    for number in 0..count {
        writeln!(text, "step s{number} {FRAME}")?;
    }
    Ok(text)
}

pub fn answer<A: Allocator + Copy>(global: Global, alloc: A, fields: &[Vec<u8>]) -> Answer {
    let [kind, count, more, _] = fields else {
        return Err(Broken::NoRow);
    };
    let count = number_in(count)?;
    let mut text = match word(kind) {
        "lines" => plan_of_lines(global, count)?,
        "steps" => plan_of_steps(global, count)?,
        _ => return Err(Broken::NoRow),
    }
    .into_bytes();
    text.extend_from_slice(more)?;
    plan(global, alloc, &text)
}
