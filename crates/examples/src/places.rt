//! Shows the lines and columns of bytes of a text.
//!
//! The clause of `place` is proved by that of `NewlineCache::byte_to_line_num_and_col_num`, and so is that `unwrap` has a
//! value to take. A column that counts bytes, or no answer at the text's end, would break it.
ghost use Rattle.std.specs.Prelude.{◌≡◌, ◌≤◌, length, IfOk};
ghost use Rattle.cfg_base.specs.Newlines.{column_of, line_of};

use cfg_base::newlinecache::NewlineCache;
use std::alloc::{AllocError, Global};

const TEXT: &str = "%start S\n%%\nS: 'é' T;\n";

/// Returns the line and the column of a byte, or of the end of the text.
fn place(alloc: Global, text: &str, byte: usize) -> Result<(usize, usize), AllocError>
    requires { byte ≤ length text.now }
    ensures line { IfOk result (λ p. p.0 ≡ line_of text.now byte) }
    ensures column { IfOk result (λ p. p.1 ≡ column_of text.now text.now byte) }
{
    let cache = NewlineCache::from_str(alloc, text)?;
    Ok(cache.byte_to_line_num_and_col_num(text, byte).unwrap())
}

/// Returns the text, and the places of some of its bytes.
pub fn output(alloc: Global) -> Result<String, AllocError> {
    let mut out = String::from_str(alloc, TEXT)?;
    for byte in [0, 7, 12, 20, TEXT.len()] {
        let (line, column) = place(alloc, TEXT, byte)?;
        out.push_str(format!(in alloc;
            "byte {byte} is at line {line} column {column}\n"
        )?.as_str())?;
    }
    Ok(out)
}
