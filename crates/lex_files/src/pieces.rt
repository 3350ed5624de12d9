//! Pieces of a line.

ghost use Rattle.std.specs.Prelude.{◌≡◌, ◌<◌, ◌≤◌, ◌+◌, option_map, length, not};
ghost use Rattle.std.specs.Char.{is_ascii_whitespace};
ghost use Rattle.std.specs.List.{suffix_len};
ghost use Rattle.lex_files.specs.Pieces.{trimmed, before_name, name_part, after_byte, cut_at, is_gap, begins_white};

/// Returns a line without the white at its end.
pub(crate) fn trim_end(line: &str) -> &str
    ensures { result.now ≡ trimmed line.now }
{
    line.trim_ascii_end()
}

/// Counts the bytes behind the last white one.
fn name_len(bytes: &[u8]) -> usize
    ensures value { result ≡ suffix_len (λ b. not (is_ascii_whitespace b)) bytes.now }
    ensures within { result ≤ length bytes.now }
{
    bytes
        .iter()
        .rev()
        .take_while(|b| !b.is_ascii_whitespace())
        .count()
}

/// Cuts a line behind its last white.
pub(crate) fn cut_name(line: &str) -> (&str, &str)
    ensures front { result.0.now ≡ before_name line.now }
    ensures back { result.1.now ≡ name_part line.now }
    ensures len { length result.0.now ≤ length line.now }
{
    line.split_at(line.len() - name_len(line.as_bytes()))
}

/// Returns what follows an ASCII character, if the text begins with it.
pub(crate) fn after_byte(text: &str, c: char) -> Option<&str>
    requires { c < 128 }
    ensures { option_map (λ s. s.now) result ≡ after_byte c text.now }
{
    text.strip_prefix(c)
}

/// Returns what is before and behind the first of an ASCII character, if there is one.
pub(crate) fn cut_at(text: &str, c: char) -> Option<(&str, &str)>
    requires { c < 128 }
    ensures { option_map (λ p. (p.0.now, p.1.now)) result ≡ cut_at c text.now }
{
    text.split_once(c)
}

/// Returns whether a line has nothing but white, or a comment behind it.
pub(crate) fn is_gap(line: &str) -> bool
    ensures { result ≡ is_gap line.now }
{
    let rest = line.trim_ascii_start();
    rest.is_empty() || rest.starts_with("//")
}

/// Returns whether a line begins with white.
pub(crate) fn begins_white(line: &str) -> bool
    ensures { result ≡ begins_white line.now }
{
    match line.as_bytes().first() {
        Some(b) => b.is_ascii_whitespace(),
        None => false,
    }
}
