//! The pieces of a file.

ghost use Rattle.std.specs.Prelude.{◌≡◌, ◌∷◌, false, take, length, None, Some};
ghost use Rattle.bison_rules.specs.Pieces as spec;
ghost use Rattle.bison_rules.specs.Characters.{code_of};
ghost use Rattle.bison_rules.specs.Models.{piece_of, symbol_of};

use crate::characters::{code_of, is_digit, is_word_byte};
use crate::sizes::{
    behind, behind_slash, code_size, first_of, is_quote, quote_size, size_before, tag_size,
    word_size,
};

/// A symbol.
#[derive(Clone, Copy)]
pub enum Symbol<'a> {
    /// A name.
    Name(&'a [u8]),
    /// What is between the quotes of a string.
    Quoted(&'a [u8]),
    /// A character, by its code.
    Character(u8),
    /// The action in the middle of an alternative with this number.
    Action(usize),
}

/// A token.
#[derive(Clone, Copy)]
pub enum Token<'a> {
    /// A symbol.
    Word(Symbol<'a>),
    /// A symbol with its colon, which begins a rule.
    Head(Symbol<'a>),
    /// A punctuation mark, a directive with its `%`, or `%%`; empty where no piece begins.
    Mark(&'a [u8]),
    /// Code in braces.
    Code,
}

/// A piece of a text.
#[derive(Clone, Copy)]
pub struct Piece<'a> {
    /// How many bytes it has behind its first.
    pub size: usize,
    /// Its token, if it is one.
    pub token: Option<Token<'a>>,
}

/// Returns the first bytes of a text, or all.
fn front_of(bytes: &[u8], count: usize) -> &[u8]
    ensures { result.now ≡ take count bytes.now }
{
    match bytes.get(..count) {
        Some(front) => front,
        None => bytes,
    }
}

/// Returns a piece that is no token.
fn skips<'a>(size: usize) -> Piece<'a>
    ensures { piece_of result ≡ spec.skips size }
{
    Piece { size, token: None }
}

/// Returns a mark of these bytes.
fn mark(size: usize, bytes: &[u8]) -> Piece<'_>
    ensures { piece_of result ≡ spec.gives size (spec.Mark bytes.now) }
{
    Piece {
        size,
        token: Some(Token::Mark(bytes)),
    }
}

/// Returns a symbol.
fn word(size: usize, symbol: Symbol<'_>) -> Piece<'_>
    ensures { piece_of result ≡ spec.gives size (spec.Word (symbol_of symbol.entry)) }
{
    Piece {
        size,
        token: Some(Token::Word(symbol)),
    }
}

/// Returns what takes all up to the end of a text.
fn wrong(bytes: &[u8]) -> Piece<'_>
    ensures { piece_of result ≡ spec.wrong bytes.now }
{
    mark(bytes.len(), &[])
}

/// Returns a piece that has to end before its text.
fn closed_piece(size: usize, bytes: &[u8]) -> Piece<'_>
    ensures { piece_of result ≡ spec.closed size None bytes.now }
{
    if size < bytes.len() {
        skips(size)
    } else {
        wrong(bytes)
    }
}

/// Returns code in braces.
fn code_piece(bytes: &[u8]) -> Piece<'_>
    ensures { piece_of result ≡ spec.closed (spec.code_size false 0 0 bytes.now) (Some spec.Code) bytes.now }
{
    let size = code_size(false, bytes);
    if size < bytes.len() {
        Piece {
            size,
            token: Some(Token::Code),
        }
    } else {
        wrong(bytes)
    }
}

/// Returns a name, which is the first of `all`.
fn name_piece<'a>(all: &'a [u8], b: u8, bytes: &'a [u8]) -> Piece<'a>
    requires { all.now ≡ b ∷ bytes.now }
    ensures { piece_of result ≡ spec.name_piece b bytes.now }
{
    let size = word_size(bytes);
    if first_of(behind(bytes, size)) == b'(' {
        return skips(size + 1);
    }
    word(size, Symbol::Name(front_of(all, size + 1)))
}

/// Returns a character of these bytes.
fn character_piece<'a>(size: usize, inner: &[u8], bytes: &'a [u8]) -> Piece<'a>
    ensures { piece_of result ≡ spec.character_piece size (code_of inner.now) bytes.now }
{
    match code_of(inner) {
        Some(code) => word(size, Symbol::Character(code)),
        None => wrong(bytes),
    }
}

/// Returns a string or a character.
fn quote_piece(b: u8, bytes: &[u8]) -> Piece<'_>
    ensures { piece_of result ≡ spec.quote_piece b bytes.now }
{
    let size = quote_size(b, bytes);
    if first_of(behind(bytes, size)) != b {
        return wrong(bytes);
    }
    let inner = front_of(bytes, size);
    if b == b'"' {
        word(size + 1, Symbol::Quoted(inner))
    } else {
        character_piece(size + 1, inner, bytes)
    }
}

/// Returns whether a directive says nothing about the symbols of an alternative.
fn says_nothing(word: &[u8]) -> bool
    ensures { result ≡ spec.says_nothing word.now }
{
    word == b"empty".as_slice()
        || word == b"dprec".as_slice()
        || word == b"merge".as_slice()
        || word == b"expect".as_slice()
        || word == b"expect-rr".as_slice()
        || word == b"expect_rr".as_slice()
}

/// Returns a directive of this word, which begins `bytes`. Before it `all` has the `%`.
fn directive_piece<'a>(all: &'a [u8], word: &[u8], bytes: &'a [u8]) -> Piece<'a>
    requires all { all.now ≡ 37 ∷ bytes.now }
    requires word { word.now ≡ take (length word.now) bytes.now }
    ensures { piece_of result ≡ spec.directive_piece word.now bytes.now }
{
    if word.is_empty() {
        return wrong(bytes);
    }
    if says_nothing(word) {
        return skips(word.len());
    }
    mark(word.len(), front_of(all, word.len() + 1))
}

/// Returns what begins with a `%`, the first of `all`.
fn percent_piece<'a>(all: &'a [u8], bytes: &'a [u8]) -> Piece<'a>
    requires { all.now ≡ 37 ∷ bytes.now }
    ensures { piece_of result ≡ spec.percent_piece bytes.now }
{
    let next = first_of(bytes);
    if next == b'%' {
        return mark(1, b"%%");
    }
    if next == b'{' {
        let rest = behind(bytes, 1);
        let size = code_size(true, rest);
        return closed_piece(size + 1, bytes);
    }
    if next == b'?' {
        return skips(1);
    }
    directive_piece(all, front_of(bytes, word_size(bytes)), bytes)
}

/// Returns whether a byte is a punctuation mark.
fn is_mark(b: u8) -> bool
    ensures { result ≡ spec.is_mark b }
{
    b == b':' || b == b'|' || b == b';'
}

/// Returns what begins with a sign, the first of `all`.
fn sign_piece<'a>(all: &'a [u8], b: u8, bytes: &'a [u8]) -> Piece<'a>
    requires { all.now ≡ b ∷ bytes.now }
    ensures { piece_of result ≡ spec.sign_piece b bytes.now }
{
    if b == b'<' {
        return closed_piece(tag_size(bytes), bytes);
    }
    if b == b'[' {
        return closed_piece(size_before(b']', bytes) + 1, bytes);
    }
    if b == b'{' {
        return code_piece(bytes);
    }
    if b == b'#' {
        return skips(size_before(b'\n', bytes));
    }
    if is_mark(b) {
        return mark(0, front_of(all, 1));
    }
    wrong(bytes)
}

/// Returns whether a byte is skipped between two tokens.
fn is_skipped(b: u8) -> bool
    ensures { result ≡ spec.is_skipped b }
{
    (9 <= b && b <= 13)
        || b == b' '
        || b == b','
        || b == b'='
        || b == b')'
        || b == 0xef
        || b == 0xbb
        || b == 0xbf
}

/// Returns a comment.
fn comment_piece(bytes: &[u8]) -> Piece<'_>
    ensures { piece_of result ≡ spec.comment_piece bytes.now }
{
    let size = behind_slash(bytes);
    if size == 0 {
        return wrong(bytes);
    }
    closed_piece(size, bytes)
}

/// Returns the piece that begins with a byte, the first of `all`.
pub(crate) fn piece_of<'a>(all: &'a [u8], b: u8, bytes: &'a [u8]) -> Piece<'a>
    requires { all.now ≡ b ∷ bytes.now }
    ensures { piece_of result ≡ spec.piece_of b bytes.now }
{
    if is_skipped(b) {
        return skips(0);
    }
    if is_digit(b) {
        return skips(word_size(bytes));
    }
    if is_word_byte(b) {
        return name_piece(all, b, bytes);
    }
    if is_quote(b) {
        return quote_piece(b, bytes);
    }
    if b == b'%' {
        return percent_piece(all, bytes);
    }
    if b == b'/' {
        return comment_piece(bytes);
    }
    sign_piece(all, b, bytes)
}
