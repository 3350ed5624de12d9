//! Lines as the bytes that they stand for.

use std::alloc::AllocError;

/// Adds the bytes of a piece that stood behind `\x`: first the one of its two hexadecimal digits.
fn push_piece(bytes: &mut Vec<u8>, piece: &str) -> Result<(), AllocError> {
    if let Some((digits, rest)) = piece.split_at_checked(2) {
        if let Ok(byte) = u8::from_str_radix(digits, 16) {
            bytes.push(byte)?;
        }
        bytes.extend_from_slice(rest.as_bytes())?;
    }
    Ok(())
}

/// Adds the bytes of a line, in which `\x` and two hexadecimal digits stand for one byte.
pub fn push_line(bytes: &mut Vec<u8>, line: &str) -> Result<(), AllocError> {
    let mut is_front = true;
    for piece in line.split("\\x") {
        if is_front {
            bytes.extend_from_slice(piece.as_bytes())?;
            is_front = false;
        } else {
            push_piece(bytes, piece)?;
        }
    }
    Ok(())
}
