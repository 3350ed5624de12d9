//! Bytes of words, and the characters that character tokens stand for.

ghost use Rattle.std.specs.Prelude.{◌≡◌, drop};
ghost use Rattle.bison_rules.specs.Characters.{is_digit, is_word_byte, digit_of, number_from, number_of, letter_of, escape_of, code_of};

/// Returns whether a byte is a decimal digit.
pub(crate) fn is_digit(b: u8) -> bool
    ensures { result ≡ is_digit b }
{
    48 <= b && b <= 57
}

/// Returns whether a byte may be in a name, a number or the word of a directive.
pub(crate) fn is_word_byte(b: u8) -> bool
    ensures { result ≡ is_word_byte b }
{
    is_digit(b)
        || (65 <= b && b <= 90)
        || (97 <= b && b <= 122)
        || b == b'_'
        || b == b'.'
        || b == b'-'
}

/// Returns the value of a digit up to base 16, or 99.
fn digit_of(b: u8) -> u8
    ensures value { result ≡ digit_of b }
{
    if is_digit(b) {
        b - 48
    } else if 97 <= b && b <= 102 {
        b - 87
    } else if 65 <= b && b <= 70 {
        b - 55
    } else {
        99
    }
}

/// Returns the number that digits to a base write; none where one is no digit, or it is past 255.
fn number_of(base: u8, digits: &[u8]) -> Option<u8>
    ensures { result ≡ number_of base digits.now }
{
    if digits.is_empty() {
        return None;
    }
    let mut number: usize = 0;
    'digits: for digit in digits {
        let value = digit_of(*digit);
        if base <= value || number >= 256 {
            return None;
        }
        number = number * usize::from(base) + usize::from(value);
    }
    if number <= 255 {
        Some(number as u8)
    } else {
        None
    }
}

/// Returns the code that an escape of one letter stands for, or a single octal digit.
fn letter_of(b: u8, digits: &[u8]) -> Option<u8>
    ensures { result ≡ letter_of b digits.now }
{
    if b == b'a' {
        Some(7)
    } else if b == b'b' {
        Some(8)
    } else if b == b't' {
        Some(9)
    } else if b == b'n' {
        Some(10)
    } else if b == b'v' {
        Some(11)
    } else if b == b'f' {
        Some(12)
    } else if b == b'r' {
        Some(13)
    } else if b == b'\\' || b == b'\'' || b == b'"' || b == b'?' {
        Some(b)
    } else {
        number_of(8, digits)
    }
}

/// Returns the code of what is behind a `\`.
fn escape_of(bytes: &[u8]) -> Option<u8>
    ensures { result ≡ escape_of bytes.now }
{
    match bytes {
        [] => None,
        [b] => letter_of(*b, bytes),
        [b, digits @ ..] => {
            if *b == b'x' || *b == b'u' || *b == b'U' {
                number_of(16, digits)
            } else {
                number_of(8, bytes)
            }
        }
    }
}

/// Returns the code of the character between two single quotes; none where there is no or more than one, or one past ASCII.
pub fn code_of(bytes: &[u8]) -> Option<u8>
    ensures { result ≡ code_of bytes.now }
{
    match bytes {
        [] => None,
        [b] => { if *b <= 127 { Some(*b) } else { None } }
        [b, escape @ ..] => { if *b == b'\\' { escape_of(escape) } else { None } }
    }
}
