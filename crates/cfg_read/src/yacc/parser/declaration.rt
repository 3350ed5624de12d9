//! The declarations of a grammar text.

ghost use Rattle.std.specs.Prelude.{◌≡◌};
ghost use Rattle.std.specs.Str.{bytes_eq};
ghost use Rattle.cfg_read.specs.Declarations.{declaration_named, knows};

use crate::yacc::{AssocKind, YaccKind};

/// A declaration, without the text behind its word.
#[derive(Clone, Copy, PartialEq, Eq)]
pub enum Declaration {
    /// `%token`, with tokens up to the next declaration.
    Token,
    /// `%start`, with the name of a rule.
    Start,
    /// `%epp`, with a token and its printed text as a string.
    Epp,
    /// A declaration of names or tokens up to the line's end.
    Items(LineList),
    /// A declaration of a number of conflicts.
    Number(Count),
    /// A declaration whose text is the rest of its line.
    Rest(LineText),
}

/// A declaration of names or tokens up to the line's end.
#[derive(Clone, Copy, PartialEq, Eq)]
pub enum LineList {
    /// `%left`, `%right` or `%nonassoc`, which make one level of precedence a line.
    Level(AssocKind),
    /// `%avoid_insert`: tokens that repairs should not insert.
    AvoidInsert,
    /// `%implicit_tokens`, in Eco grammars alone: tokens that may appear anywhere.
    ImplicitTokens,
    /// `%expect-unused`: rules and tokens without a warning when they aren't used.
    ExpectUnused,
}

/// A declaration of a number of conflicts.
#[derive(Clone, Copy, PartialEq, Eq)]
pub enum Count {
    /// `%expect`: the number of shift/reduce conflicts.
    Expect,
    /// `%expect-rr`: the number of reduce/reduce conflicts.
    ExpectRR,
}

/// A declaration of the rest of the line.
#[derive(Clone, Copy, PartialEq, Eq)]
pub enum LineText {
    /// `%actiontype`, in original Yacc grammars alone: the type of all actions' values.
    ActionType,
    /// `%parse-param`: a name, a colon and a type, of what actions are given.
    ParseParam,
    /// `%parse-generics`: the type parameters of the parser.
    ParseGenerics,
}

/// Returns whether two words are one. Most that aren't differ in their lengths.
#[inline(always)]
fn is_word(word: &str, other: &str) -> bool
    ensures { result ≡ bytes_eq word.now other.now }
{
    word.len() == other.len() && word == other
}

/// Returns the declaration of a word.
#[tactic(auto, unfolding(crate::specs::Declarations::declaration_named))]
pub(crate) fn declaration_named(word: &str) -> Option<Declaration>
    ensures { result ≡ declaration_named word.now }
{
    if is_word(word, "token") {
        Some(Declaration::Token)
    } else if is_word(word, "left") {
        Some(Declaration::Items(LineList::Level(AssocKind::Left)))
    } else if is_word(word, "right") {
        Some(Declaration::Items(LineList::Level(AssocKind::Right)))
    } else if is_word(word, "nonassoc") {
        Some(Declaration::Items(LineList::Level(AssocKind::Nonassoc)))
    } else if is_word(word, "avoid_insert") {
        Some(Declaration::Items(LineList::AvoidInsert))
    } else if is_word(word, "implicit_tokens") {
        Some(Declaration::Items(LineList::ImplicitTokens))
    } else if is_word(word, "expect-unused") {
        Some(Declaration::Items(LineList::ExpectUnused))
    } else if is_word(word, "start") {
        Some(Declaration::Start)
    } else if is_word(word, "expect") {
        Some(Declaration::Number(Count::Expect))
    } else if is_word(word, "expect-rr") {
        Some(Declaration::Number(Count::ExpectRR))
    } else if is_word(word, "epp") {
        Some(Declaration::Epp)
    } else if is_word(word, "actiontype") {
        Some(Declaration::Rest(LineText::ActionType))
    } else if is_word(word, "parse-param") {
        Some(Declaration::Rest(LineText::ParseParam))
    } else if is_word(word, "parse-generics") {
        Some(Declaration::Rest(LineText::ParseGenerics))
    } else {
        None
    }
}

/// Returns whether a kind has a declaration.
pub(crate) fn knows(kind: YaccKind, declaration: Declaration) -> bool
    ensures { result ≡ knows kind declaration }
{
    match declaration {
        Declaration::Items(LineList::ImplicitTokens) => matches!(kind, YaccKind::Eco),
        Declaration::Rest(LineText::ActionType) => matches!(kind, YaccKind::Original(_)),
        _ => true,
    }
}
