//! A byte many times.

ghost use Rattle.std.specs.Prelude.{◌≡◌, ◌++◌, replicate, OnOk};

use std::alloc::AllocError;

/// How often the byte is added at once.
const MOST_AT_ONCE: usize = 65_536;

/// Adds a byte many times.
pub fn push_repeated(byte: u8, count: usize, text: &mut Vec<u8>) -> Result<(), AllocError>
    ensures { OnOk result (text.new.items ≡ text.old.items ++ replicate count byte) }
{
    let mut left = count;
    'bytes: while left > 0 {
        let some = left.min(MOST_AT_ONCE);
        text.resize(text.len() + some, byte)?;
        left -= some;
    }
    Ok(())
}
