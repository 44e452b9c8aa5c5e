//! Rows of tests as text: what is given and what it comes to, a row a line.
//!
//! A line `{NAME} := TEXT` has a text stand for a name in all lines; it may name what is defined
//! after it. A line that begins with `#` is for the reader. Each other line is a row of fields, set
//! apart by ` | `, of which the last is what the row comes to. In a field `\n` is a newline and
//! `\x` with two hex digits is a byte. Rows without an empty line between them are a group.
use crate::text::unescaped;
use std::alloc::{AllocError, Global};

/// A line of fields.
#[derive(Drop)]
pub struct Row {
    pub line: String,
    pub fields: Vec<Vec<u8>>,
}

/// The groups of rows of the text, in their order.
pub fn read_groups(alloc: Global, text: &str) -> Result<Vec<Vec<Row>>, AllocError> {
    let text = resolved(alloc, text)?;
    let mut groups = Vec::new(alloc);
    for paragraph in text.as_str().split("\n\n") {
        groups.push(group_of(alloc, paragraph)?)?;
    }
    Ok(groups)
}

/// The text with what its names stand for.
fn resolved(alloc: Global, text: &str) -> Result<String, AllocError> {
    let mut told = String::from_str(alloc, text)?;
    for line in text.lines() {
        if let Some((name, value)) = line.split_once(" := ") {
            told = told.replace(alloc, name, value)?;
        }
    }
    Ok(told)
}

fn group_of(alloc: Global, paragraph: &str) -> Result<Vec<Row>, AllocError> {
    let mut rows = Vec::new(alloc);
    for line in paragraph.lines() {
        if is_row(line) {
            rows.push(row_of(alloc, line)?)?;
        }
    }
    Ok(rows)
}

fn is_row(line: &str) -> bool {
    !line.is_empty() && !line.starts_with('#') && !line.contains(" := ")
}

fn row_of(alloc: Global, line: &str) -> Result<Row, AllocError> {
    let mut fields = Vec::new(alloc);
    for field in line.split(" | ") {
        fields.push(unescaped(alloc, field)?)?;
    }
    let line = String::from_str(alloc, line)?;
    Ok(Row { line, fields })
}
