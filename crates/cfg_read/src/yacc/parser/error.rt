//! What is wrong with a grammar text.

ghost use Rattle.std.specs.Prelude.{◌≡◌, false};
ghost use Rattle.cfg_read.specs.Payloads.{holds_value};
ghost use Rattle.cfg_read.specs.ErrorModels.{kind_of};
ghost use Rattle.cfg_read.specs.ErrorTexts.{failure_text};
ghost use Rattle.cfg_read.specs.declared.yacc.parser.error.ReadError.TheVariants.{Memory};

use cfg_base::span::SpansKind;
use cfg_sections::header::HeaderErrorKind;
use std::alloc::{AllocError, AllocFailed};
use std::error::Error;
use std::fmt;
use std::fmt::{Display, Formatter, Write};

/// What is wrong with a grammar text. `docs/FILE_GRAMMAR.md` has a table with the offset and an example of each.
#[derive(Debug, PartialEq, Eq, Drop)]
pub enum YaccGrammarErrorKind {
    /// `%expect` or `%expect-rr` is without a number, or with one past `usize::MAX`.
    IllegalInteger,
    /// The name of a rule or a token is wanted, and none begins here.
    IllegalName,
    /// The quote of a token isn't closed.
    IllegalString,
    /// The text ends within an alternative.
    IncompleteRule,
    /// A `/*` has no `*/`.
    IncompleteComment,
    /// An action's `{` has no matching `}`.
    IncompleteAction,
    /// No `:` follows a rule's name, a Grmtools type or the name of `%parse-param`.
    MissingColon,
    /// No `->` follows a rule's name, in a Grmtools grammar.
    MissingRightArrow,
    /// Never returned: braces within an action are counted, and one too few is an `IncompleteAction`.
    MismatchedBrace,
    /// An alternative has both `%empty` and a symbol.
    NonEmptyProduction,
    /// The text ends where a declaration or `%%` is wanted.
    PrematureEnd,
    /// Something in an alternative is no part of one, or comes too late in it.
    ProductionNotTerminated,
    /// Never returned: the text behind the second `%%` is read as the programs.
    ProgramsNotSupported,
    /// A declaration is wanted, and this is none, or none that the kind of grammar has.
    UnknownDeclaration,
    /// No token follows `%prec`.
    PrecNotFollowedByToken,
    /// A token appears twice in `%left`, `%right` and `%nonassoc` lines.
    DuplicatePrecedence,
    /// A token appears twice in `%avoid_insert` lines.
    DuplicateAvoidInsertDeclaration,
    /// A token appears twice in `%implicit_tokens` lines.
    DuplicateImplicitTokensDeclaration,
    /// There is a second `%expect`.
    DuplicateExpectDeclaration,
    /// There is a second `%expect-rr`.
    DuplicateExpectRRDeclaration,
    /// There is a second `%start`.
    DuplicateStartDeclaration,
    /// There is a second `%actiontype`.
    DuplicateActiontypeDeclaration,
    /// A token has a second `%epp`.
    DuplicateEPP,
    /// The rest of the line is empty, where a declaration needs a text.
    ReachedEOL,
    /// A string is wanted, and none begins here, or it has a line's end or a `\` before something other than a
    /// quote.
    InvalidString,
    /// There is neither a `%start` nor a rule.
    NoStartRule,
    /// A name of `%expect-unused` is neither a rule nor a token.
    UnknownSymbol,
    /// `%start` has this name, which is no rule's.
    InvalidStartRule(String),
    /// An alternative has this name, which is neither a rule's nor a token's.
    UnknownRuleRef(String),
    /// `%avoid_insert` has this name, which is no token's.
    UnknownToken(String),
    /// `%prec` has this token, which has no precedence.
    NoPrecForToken(String),
    /// `%epp` has this name, which is no token's.
    UnknownEPP(String),
    /// Never returned: each fault has one of the other kinds.
    ExpectedInput,
    /// The kind of grammar is asked of the section, and its `yacckind` is missing.
    InvalidYaccKind,
    /// An error of the section, or of a value in it, and what its spans show.
    Header(HeaderErrorKind, SpansKind),
}

impl YaccGrammarErrorKind {
    /// Returns a copy of one without a value.
    fn copy_plain(&self) -> YaccGrammarErrorKind
        requires { holds_value self.now ≡ false }
        ensures { result ≡ self.now }
    {
        match self {
            Self::IllegalInteger => Self::IllegalInteger,
            Self::IllegalName => Self::IllegalName,
            Self::IllegalString => Self::IllegalString,
            Self::IncompleteRule => Self::IncompleteRule,
            Self::IncompleteComment => Self::IncompleteComment,
            Self::IncompleteAction => Self::IncompleteAction,
            Self::MissingColon => Self::MissingColon,
            Self::MissingRightArrow => Self::MissingRightArrow,
            Self::MismatchedBrace => Self::MismatchedBrace,
            Self::NonEmptyProduction => Self::NonEmptyProduction,
            Self::PrematureEnd => Self::PrematureEnd,
            Self::ProductionNotTerminated => Self::ProductionNotTerminated,
            Self::ProgramsNotSupported => Self::ProgramsNotSupported,
            Self::UnknownDeclaration => Self::UnknownDeclaration,
            Self::PrecNotFollowedByToken => Self::PrecNotFollowedByToken,
            Self::DuplicatePrecedence => Self::DuplicatePrecedence,
            Self::DuplicateAvoidInsertDeclaration => Self::DuplicateAvoidInsertDeclaration,
            Self::DuplicateImplicitTokensDeclaration => Self::DuplicateImplicitTokensDeclaration,
            Self::DuplicateExpectDeclaration => Self::DuplicateExpectDeclaration,
            Self::DuplicateExpectRRDeclaration => Self::DuplicateExpectRRDeclaration,
            Self::DuplicateStartDeclaration => Self::DuplicateStartDeclaration,
            Self::DuplicateActiontypeDeclaration => Self::DuplicateActiontypeDeclaration,
            Self::DuplicateEPP => Self::DuplicateEPP,
            Self::ReachedEOL => Self::ReachedEOL,
            Self::InvalidString => Self::InvalidString,
            Self::NoStartRule => Self::NoStartRule,
            Self::UnknownSymbol => Self::UnknownSymbol,
            Self::ExpectedInput => Self::ExpectedInput,
            _ => Self::InvalidYaccKind,
        }
    }

    /// Returns the printed text of an error without a value.
    fn plain_text(&self) -> &'static str
        requires { holds_value self.now ≡ false }
        ensures { result.now ≡ failure_text (kind_of self.now) }
    {
        match self {
            Self::IllegalInteger => "Illegal integer",
            Self::IllegalName => "Illegal name",
            Self::IllegalString => "Illegal string",
            Self::IncompleteRule => "Incomplete rule",
            Self::IncompleteComment => "Incomplete comment",
            Self::IncompleteAction => "Incomplete action",
            Self::MissingColon => "Missing ':'",
            Self::MissingRightArrow => "Missing '->'",
            Self::MismatchedBrace => "MismatchedBrace",
            Self::NonEmptyProduction => "%empty used in non-empty production",
            Self::PrematureEnd => "File ends prematurely",
            Self::ProductionNotTerminated => "Production not terminated correctly",
            Self::ProgramsNotSupported => "ProgramsNotSupported",
            Self::UnknownDeclaration => "Unknown declaration",
            Self::PrecNotFollowedByToken => "%prec not followed by token name",
            Self::DuplicatePrecedence => "Token has multiple precedences specified",
            Self::DuplicateAvoidInsertDeclaration => "Duplicated %avoid_insert declaration",
            Self::DuplicateImplicitTokensDeclaration => "Duplicated %implicit_tokens declaration",
            Self::DuplicateExpectDeclaration => "Duplicated %expect declaration",
            Self::DuplicateExpectRRDeclaration => "Duplicated %expect-rr declaration",
            Self::DuplicateStartDeclaration => "Duplicated %start declaration",
            Self::DuplicateActiontypeDeclaration => "Duplicated %actiontype declaration",
            Self::DuplicateEPP => "Duplicated %epp declaration",
            Self::ReachedEOL => "Reached end of line without finding expected content",
            Self::InvalidString => "Invalid string",
            Self::NoStartRule => "No start rule specified",
            Self::UnknownSymbol => "Unknown symbol, expected a rule or token",
            Self::ExpectedInput => "ExpectedInput",
            _ => "Invalid yacc kind",
        }
    }
}

impl Display for YaccGrammarErrorKind {
    ghost use Rattle.std.specs.Prelude.{Some};
    ghost use Rattle.cfg_read.specs.ErrorModels.{kind_of};
    ghost use Rattle.cfg_read.specs.ErrorTexts.{failure_text};

    ghost output = { λ k. Some (failure_text (kind_of k)) };

    fn fmt<W: Write>(&self, f: &mut Formatter<W>) -> fmt::Result {
        match self {
            Self::InvalidStartRule(name) => {
                write!(f, "Start rule '{name}' does not appear in grammar")
            }
            Self::UnknownRuleRef(name) => write!(f, "Unknown reference to rule '{name}'"),
            Self::UnknownToken(name) => write!(f, "Unknown token '{name}'"),
            Self::NoPrecForToken(name) => {
                write!(f, "Token '{name}' used in %prec has no precedence attached")
            }
            Self::UnknownEPP(name) => write!(f, "Unknown token '{name}' in %epp declaration"),
            Self::Header(kind, _) => write!(f, "{kind}"),
            plain => f.write_str(plain.plain_text()),
        }
    }
}

impl Error for YaccGrammarErrorKind {}

impl Clone for YaccGrammarErrorKind {
    ghost use Rattle.std.specs.Prelude.{◌≡◌};
    ghost use Rattle.cfg_read.specs.ErrorModels.{kind_of};

    ghost is_clone = { λ kind copy. kind_of copy ≡ kind_of kind };

    fn clone(&self) -> Result<YaccGrammarErrorKind, AllocError> {
        match self {
            Self::InvalidStartRule(name) => Ok(Self::InvalidStartRule(name.clone()?)),
            Self::UnknownRuleRef(name) => Ok(Self::UnknownRuleRef(name.clone()?)),
            Self::UnknownToken(name) => Ok(Self::UnknownToken(name.clone()?)),
            Self::NoPrecForToken(name) => Ok(Self::NoPrecForToken(name.clone()?)),
            Self::UnknownEPP(name) => Ok(Self::UnknownEPP(name.clone()?)),
            Self::Header(kind, spanskind) => Ok(Self::Header(*kind, *spanskind)),
            plain => Ok(plain.copy_plain()),
        }
    }
}

/// Why a text wasn't read.
#[derive(Debug, Drop)]
pub enum ReadError {
    /// Out of memory: the request that was refused.
    Memory(AllocError),
    /// The text's fault, and its offset.
    Fault(YaccGrammarErrorKind, usize),
}

impl Display for ReadError {
    ghost use Rattle.std.specs.Prelude.{Some};
    ghost use Rattle.cfg_read.specs.ErrorTexts.{read_error_text};

    ghost output = { λ e. Some (read_error_text e) };

    fn fmt<W: Write>(&self, f: &mut Formatter<W>) -> fmt::Result {
        match self {
            ReadError::Memory(_) => write!(f, "Memory"),
            ReadError::Fault(kind, _) => write!(f, "{kind}"),
        }
    }
}

impl Error for ReadError {}

impl From<AllocError> for ReadError {
    ghost from_gives = { λ e r. r ≡ Memory e };

    fn from(e: AllocError) -> ReadError {
        ReadError::Memory(e)
    }
}

impl<T: Drop> From<AllocFailed<T>> for ReadError {
    ghost use Rattle.cfg_read.specs.Scanning.{IsMemory};

    ghost from_gives = { λ _ r. IsMemory r };

    fn from(e: AllocFailed<T>) -> ReadError {
        ReadError::Memory(e.into())
    }
}
