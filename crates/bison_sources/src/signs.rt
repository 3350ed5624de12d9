//! What shows that a grammar is in the syntax of Bison or Yacc.

ghost use Rattle.std.specs.Prelude.{◌≡◌, ◌<◌, length, IfSome, IsSome, true};

/// A Bison file.
#[derive(Clone, Copy)]
pub struct BisonFile<'a> {
    /// Its text.
    pub text: &'a str,
    /// Its path, as it was given.
    pub path: &'a str,
    /// The offset of what shows that it is one, where that wasn't said.
    pub sign: Option<usize>,
}

/// Words that a Bison file may begin with, and no other.
const FIRST: &[&[u8]] = &[
    b"%code",
    b"%define",
    b"%require",
    b"%union",
    b"%language",
    b"%skeleton",
];

/// Words of declarations that may have a tag in a Bison file.
const TAGGED: &[&[u8]] = &[
    b"%token",
    b"%type",
    b"%nterm",
    b"%left",
    b"%right",
    b"%nonassoc",
    b"%precedence",
];

/// What was read before a byte.
#[derive(Clone, Copy)]
struct Before {
    /// Nothing but white space and comments.
    is_nothing: bool,
    /// A declaration that may have a tag.
    is_tagged: bool,
}

/// Returns the bytes from an offset on.
fn rest(bytes: &[u8], from: usize) -> &[u8] {
    bytes.get(from..).unwrap_or(&[])
}

/// Returns the offset behind the first of these bytes from an offset on; the end where it isn't there.
fn behind(bytes: &[u8], from: usize, wanted: &[u8]) -> usize {
    for at in from..bytes.len() {
        if rest(bytes, at).starts_with(wanted) {
            return at.saturating_add(wanted.len());
        }
    }
    bytes.len()
}

/// Returns where a quoted token ends: behind the same quote on its line, else behind the one it begins with.
fn quote_end(bytes: &[u8], at: usize, quote: u8) -> usize {
    let next = at.saturating_add(1);
    for (index, byte) in rest(bytes, next).iter().enumerate() {
        if *byte == b'\n' {
            return next;
        }
        if *byte == quote {
            return next.saturating_add(index).saturating_add(1);
        }
    }
    next
}

/// Returns where a word ends that begins with a `%`.
fn word_end(bytes: &[u8], at: usize) -> usize {
    let next = at.saturating_add(1);
    for (index, byte) in rest(bytes, next).iter().enumerate() {
        if !byte.is_ascii_alphanumeric() && *byte != b'-' && *byte != b'_' {
            return next.saturating_add(index);
        }
    }
    bytes.len()
}

/// Returns whether a word is one of a list.
fn is_among(word: &[u8], list: &[&[u8]]) -> bool {
    for known in list {
        if *known == word {
            return true;
        }
    }
    false
}

/// Returns where white space or a comment ends that begins at an offset; none where there is neither.
fn gap_end(bytes: &[u8], at: usize, byte: u8) -> Option<usize> {
    if byte.is_ascii_whitespace() {
        return Some(at.saturating_add(1));
    }
    if rest(bytes, at).starts_with(b"//") {
        return Some(behind(bytes, at, b"\n"));
    }
    if rest(bytes, at).starts_with(b"/*") {
        return Some(behind(bytes, at.saturating_add(2), b"*/"));
    }
    None
}

impl Before {
    /// Takes what begins at an offset and is no gap, and returns where it ends.
    fn take(&mut self, bytes: &[u8], at: usize, byte: u8) -> usize {
        self.is_nothing = false;
        match byte {
            b'%' => {
                let end = word_end(bytes, at);
                self.is_tagged = is_among(bytes.get(at..end).unwrap_or(&[]), TAGGED);
                end
            }
            b'\'' | b'"' => quote_end(bytes, at, byte),
            _ => at.saturating_add(1),
        }
    }

    /// Returns whether what begins at an offset is in no file but one of Bison.
    fn is_sign(&self, bytes: &[u8], at: usize, byte: u8) -> bool {
        if self.is_nothing {
            let word = bytes.get(at..word_end(bytes, at)).unwrap_or(&[]);
            return rest(bytes, at).starts_with(b"%{") || is_among(word, FIRST);
        }
        byte == b'<' && self.is_tagged
    }
}

/// Returns the offset of what shows that a text is in Bison's syntax: `%{`, or a word of Bison alone, that it begins with, or a
/// tag in a declaration before the rules.
pub fn bison_sign(text: &str) -> Option<usize>
    ensures { IfSome result (λ at. at < length text.now) }
{
    let bytes = text.as_bytes();
    let mut before = Before {
        is_nothing: true,
        is_tagged: false,
    };
    let mut past: usize = 0;
    for (at, byte) in bytes.iter().enumerate() {
        if at < past {
            continue;
        }
        if let Some(end) = gap_end(bytes, at, *byte) {
            past = end;
            continue;
        }
        if rest(bytes, at).starts_with(b"%%") {
            return None;
        }
        if before.is_sign(bytes, at, *byte) {
            return Some(at);
        }
        past = before.take(bytes, at, *byte);
    }
    None
}

/// Returns a grammar's file as one of Bison, where that is said or the file shows it.
pub fn bison_file<'a>(text: &'a str, path: &'a str, said: bool) -> Option<BisonFile<'a>>
    ensures said { said ≡ true → IsSome result }
    ensures text { IfSome result (λ file. file.text.now ≡ text.entry.now) }
    ensures path { IfSome result (λ file. file.path.now ≡ path.entry.now) }
{
    let sign = None;
    if said {
        return Some(BisonFile { text, path, sign });
    }
    let sign = bison_sign(text);
    if sign.is_none() {
        return None;
    }
    Some(BisonFile { text, path, sign })
}
