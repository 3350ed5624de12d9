//! Texts as lines of an answer.

use std::alloc::AllocError;

/// Adds a line between `>` and `<`, with a CR as `\r`.
fn push_line(out: &mut String, line: &str) -> Result<(), AllocError> {
    out.push('>')?;
    for c in line.chars() {
        if c == '\r' {
            out.push_str("\\r")?;
        } else {
            out.push(c)?;
        }
    }
    out.push_str("<\n")
}

/// Adds the lines of a text.
pub fn push_lines(out: &mut String, text: &str) -> Result<(), AllocError> {
    for line in text.split('\n') {
        push_line(out, line)?;
    }
    Ok(())
}
