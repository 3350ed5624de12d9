//! Why a section can't be read.

ghost use Rattle.std.specs.Prelude.{◌≡◌};
ghost use Rattle.cfg_sections.specs.HeaderErrors.{kind_text, spanskind_of};

use cfg_base::span::{Span, Spanned, SpansKind};
use std::error::Error;
use std::fmt;
use std::fmt::{Debug, Display, Formatter, Write};

/// What is wrong with a section.
#[derive(Clone, Copy, Debug, PartialEq, Eq)]
pub enum HeaderErrorKind {
    /// A section is required, and the text doesn't begin with one.
    MissingGrmtoolsSection,
    /// A word is wanted, and none begins here.
    IllegalName,
    /// This character is wanted, and another one or the text's end is here.
    ExpectedToken(char),
    /// This character was found in place of what the text names. The reader of this crate never returns it.
    UnexpectedToken(char, &'static str),
    /// A key that is there more than once.
    DuplicateEntry,
    /// A number is past `u64::MAX` (`"number"`), or an array is within 64 others (`"array"`).
    InvalidEntry(&'static str),
    /// What the value should have been, and why it isn't.
    ConversionError(&'static str, &'static str),
}

impl Display for HeaderErrorKind {
    ghost use Rattle.std.specs.Prelude.{Some};
    ghost use Rattle.cfg_sections.specs.HeaderErrors.{kind_text, header_error_text};

    ghost output = { λ k. Some (header_error_text (kind_text k)) };

    fn fmt<W: Write>(&self, f: &mut Formatter<W>) -> fmt::Result {
        match self {
            HeaderErrorKind::MissingGrmtoolsSection => write!(f, "Missing %grmtools section"),
            HeaderErrorKind::IllegalName => write!(f, "Illegal name"),
            HeaderErrorKind::ExpectedToken(c) => write!(f, "Expected token '{c}'"),
            HeaderErrorKind::UnexpectedToken(c, _) => write!(f, "Unexpected token '{c}'"),
            HeaderErrorKind::DuplicateEntry => write!(f, "Duplicate entry"),
            HeaderErrorKind::InvalidEntry(what) => write!(f, "Invalid entry '{what}'"),
            HeaderErrorKind::ConversionError(to, why) => write!(f, "Cannot convert to {to}: {why}"),
        }
    }
}

impl Error for HeaderErrorKind {}

/// An error of a section. For a repeated key it has all of the key's spans, the first one first.
#[derive(Debug, PartialEq, Eq, Drop)]
pub struct HeaderError<T> {
    /// What is wrong at the locations.
    pub kind: HeaderErrorKind,
    /// For `DuplicateEntry` each appearance of the key, the first one first; else one location.
    pub locations: Vec<T>,
}

impl<T> HeaderError<T> {
    /// Returns whether the locations are those of a repeated key, or the one location of another fault.
    pub fn spanskind(&self) -> SpansKind
        ensures { result ≡ spanskind_of (kind_text self.now.kind) }
    {
        match self.kind {
            HeaderErrorKind::DuplicateEntry => SpansKind::DuplicationError,
            _ => SpansKind::Error,
        }
    }
}

impl<T> Display for HeaderError<T> {
    ghost use Rattle.std.specs.Prelude.{Some};
    ghost use Rattle.cfg_sections.specs.HeaderErrors.{kind_text, header_error_text};

    ghost output = { λ e. Some (header_error_text (kind_text e.kind)) };

    fn fmt<W: Write>(&self, f: &mut Formatter<W>) -> fmt::Result {
        Display::fmt(&self.kind, f)
    }
}

impl<T: Debug + Drop> Error for HeaderError<T> {}

impl Spanned for HeaderError<Span> {
    ghost spans_of = { λ e. e.locations.items };

    ghost spanskind_of = { λ e. spanskind_of (kind_text e.kind) };

    fn spans(&self) -> &[Span] {
        self.locations.as_slice()
    }

    fn spanskind(&self) -> SpansKind {
        HeaderError::spanskind(self)
    }
}
