//! What is sent, as the rows tell it.
use std::alloc::{AllocError, Global};

/// Adds the bytes, escaped. Each request and each reply has a line of its own.
pub fn show(alloc: Global, bytes: &[u8], text: &mut String) -> Result<(), AllocError> {
    let mut told = format!(in alloc; "{}", bytes.escape_ascii())?;
    for (begin, line) in BEGINNINGS {
        told = told.as_str().replace(alloc, begin, line)?;
    }
    for line in told.as_str().lines().filter(|line| !line.is_empty()) {
        text.push_str("< ")?;
        text.push_str(line)?;
        text.push_str("\n")?;
    }
    Ok(())
}

/// How requests and replies begin.
static BEGINNINGS: [(&str, &str); 3] = [
    ("GET /", "\nGET /"),
    ("PUT /", "\nPUT /"),
    ("HTTP/1.1 ", "\nHTTP/1.1 "),
];
