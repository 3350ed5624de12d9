//! Reads the section of a grammar text, as a header.

ghost use Rattle.std.specs.Prelude.{◌≡◌, ◌≤◌, ◌∷◌, [], List, length, map, IfOk, IfErr, OnOk, Some, string_bytes};
ghost use Rattle.std.specs.String.{string_cmp};
ghost use Rattle.cfg_sections.specs.MarkMaps.{SetsValue};
ghost use Rattle.cfg_sections.specs.HeaderErrors.{kind_text};
ghost use Rattle.cfg_sections.specs.Sections.{span, Reads};
ghost use Rattle.cfg_sections.specs.SectionResults.{pair_text, error_text, ReadsHeader, IsSectionError, ReadsKeyValue, IsKeyValueError, TellsFault, TellsRepeats, TellsPairFault};
ghost use Rattle.cfg_sections.specs.SectionRepeats.{Holds, repeats_of};

use crate::header::error::{HeaderError, HeaderErrorKind};
use crate::header::repeats::repeats;
use crate::header::scan::Scanner;
use crate::header::settings::{Fault, Pair};
use crate::header::value::{HeaderValue, Value};
use crate::markmap::MarkMap;
use cfg_base::span::Span;
use std::alloc::{AllocError, Global};
use std::error::Error;
use std::fmt;
use std::fmt::{Display, Formatter, Write};
use std::marker::Model;

/// The keys of a section, in lower case, each with its value.
pub type Header<T> = MarkMap<String, HeaderValue<T>>;

/// Why a section gives no header.
#[derive(Debug, Drop)]
pub enum SectionError {
    /// The request for memory that was refused.
    Memory(AllocError),
    /// The one fault of the section, at its offset; or, where the section reads, each repeated key at all
    /// its spans, in order of the keys' first spans.
    Invalid(Vec<HeaderError<Span>>),
}

impl Display for SectionError {
    ghost use Rattle.std.specs.Prelude.{Some};
    ghost use Rattle.cfg_sections.specs.SectionResults.{section_error_text};

    ghost output = { λ e. Some (section_error_text e) };

    fn fmt<W: Write>(&self, f: &mut Formatter<W>) -> fmt::Result {
        match self {
            SectionError::Memory(_) => write!(f, "Memory"),
            SectionError::Invalid(_) => write!(f, "Invalid"),
        }
    }
}

impl Error for SectionError {}

/// Why no pair was read.
#[derive(Debug, Drop)]
pub enum KeyValueError {
    /// The request for memory that was refused.
    Memory(AllocError),
    /// The one fault of the pair, at its offset.
    Invalid(HeaderError<Span>),
}

impl Display for KeyValueError {
    ghost use Rattle.std.specs.Prelude.{Some};
    ghost use Rattle.cfg_sections.specs.SectionResults.{pair_error_text};

    ghost output = { λ e. Some (pair_error_text e) };

    fn fmt<W: Write>(&self, f: &mut Formatter<W>) -> fmt::Result {
        match self {
            KeyValueError::Memory(_) => write!(f, "Memory"),
            KeyValueError::Invalid(_) => write!(f, "Invalid"),
        }
    }
}

impl Error for KeyValueError {}

/// Reads the section `%grmtools{..}` at the front of a text.
#[derive(Drop)]
pub struct GrmtoolsSectionParser<'input> {
    src: &'input str,
    required: bool,
}

impl<'input> Model for GrmtoolsSectionParser<'input> {
    ghost use Rattle.cfg_sections.specs.SectionSource.{SectionSource};

    ghost Value = { SectionSource };

    ghost view = { λ p. record { text = p.src.now; required = p.required } };
}

/// Makes an error at one offset.
fn error_at(
    alloc: Global,
    kind: HeaderErrorKind,
    offset: usize,
) -> Result<HeaderError<Span>, AllocError>
    ensures { IfOk result (λ e. error_text e ≡ (kind_text kind, span offset offset ∷ [])) }
{
    let mut locations = Vec::new(alloc);
    locations.push(Span::new(offset, offset))?;
    Ok(HeaderError { kind, locations })
}

/// Gives a key its value.
fn put(header: &mut Header<Span>, key: String, value: HeaderValue<Span>) -> Result<(), AllocError>
    ensures { OnOk result (SetsValue string_cmp header.old header.new key (Some value)) }
{
    drop(header.insert(key, value)?);
    Ok(())
}

/// Makes the header of pairs; of a repeated key the last pair counts.
fn header_of(alloc: Global, pairs: Vec<Pair>) -> Result<Header<Span>, AllocError>
    ensures { IfOk result (λ h. Holds h (map pair_text pairs.items)) }
{
    let mut header = MarkMap::new(alloc);
    'pairs: for pair in pairs {
        let Pair { key, span, value } = pair;
        put(&mut header, key, HeaderValue(span, value))?;
    }
    Ok(header)
}

/// Makes the error of a fault. A refused request for memory is passed on.
fn section_error(alloc: Global, fault: Fault) -> SectionError
    ensures { TellsFault fault result }
{
    match fault {
        Fault::Memory(e) => SectionError::Memory(e),
        Fault::At(kind, offset) => match one_error(alloc, kind, offset) {
            Ok(errors) => SectionError::Invalid(errors),
            Err(e) => SectionError::Memory(e),
        },
    }
}

/// Makes a list of one error at one offset.
fn one_error(
    alloc: Global,
    kind: HeaderErrorKind,
    offset: usize,
) -> Result<Vec<HeaderError<Span>>, AllocError>
    ensures { IfOk result (λ v. map error_text v.items ≡ (kind_text kind, span offset offset ∷ []) ∷ []) }
{
    let mut errors = Vec::new(alloc);
    errors.push(error_at(alloc, kind, offset)?)?;
    Ok(errors)
}

/// Makes the header of pairs, or the errors of the keys that are repeated.
fn distinct_header(alloc: Global, pairs: Vec<Pair>) -> Result<Header<Span>, SectionError>
    ensures ok { IfOk result (λ h. (repeats_of (map pair_text pairs.items) ≡ []) × Holds h (map pair_text pairs.items)) }
    ensures err { IfErr result (λ e. TellsRepeats (map pair_text pairs.items) e) }
{
    let repeats = match repeats(alloc, pairs.as_slice()) {
        Ok(repeats) => repeats,
        Err(e) => return Err(SectionError::Memory(e)),
    };
    if !repeats.is_empty() {
        return Err(SectionError::Invalid(repeats));
    }
    match header_of(alloc, pairs) {
        Ok(header) => Ok(header),
        Err(e) => Err(SectionError::Memory(e)),
    }
}

impl<'input> GrmtoolsSectionParser<'input> {
    /// Makes a parser of a text, which must have a section at its front (`required`), or may do without.
    pub fn new(src: &'input str, required: bool) -> GrmtoolsSectionParser<'input>
        ensures text { result.text ≡ src.now }
        ensures required { result.required ≡ required }
    {
        GrmtoolsSectionParser { src, required }
    }

    /// Reads the pairs of the section, and the offset behind it.
    fn parse_section(&self, alloc: Global) -> Result<(Vec<Pair>, usize), SectionError>
        ensures ok { IfOk result (λ r. Reads self.now.required self.now.text (map pair_text r.0.items) r.1) }
        ensures within { IfOk result (λ r. r.1 ≤ length self.now.text) }
        ensures err { IfErr result (λ e. IsSectionError self.now e) }
    {
        let scanner = Scanner { text: self.src };
        match scanner.parse_section(alloc, self.required) {
            Ok(read) => Ok(read),
            Err(fault) => Err(section_error(alloc, fault)),
        }
    }

    /// Reads the section at the front of the text and returns its header, with keys in lower case, and the byte
    /// offset behind it. White and closed comments before the section are skipped. Where no section is found and
    /// none is required, the header is empty and the offset 0.
    ///
    /// # Errors
    ///
    /// - `Invalid` with one error, at one offset: the section doesn't read from there on.
    /// - `Invalid` with a `DuplicateEntry` for each key that appears more than once, at all its spans, in order
    ///   of the keys' first spans: the section reads otherwise.
    /// - `Memory` where memory is refused.
    pub fn parse(&self, alloc: Global) -> Result<(Header<Span>, usize), SectionError>
        ensures ok { IfOk result (λ r. ReadsHeader self.now r.0 r.1) }
        ensures within { IfOk result (λ r. r.1 ≤ length self.now.text) }
        ensures err { IfErr result (λ e. IsSectionError self.now e) }
    {
        let (pairs, end) = self.parse_section(alloc)?;
        let header = distinct_header(alloc, pairs)?;
        Ok((header, end))
    }

    /// Reads one pair of a section, whose key or `!` is at byte offset `i`. Returns the key in lower case, its
    /// span without the `!`, its value, and the offset behind the pair and the gap after it. Returns `Invalid`
    /// with one error at one offset where no pair reads from `i` on, and `Memory` where memory is refused.
    pub fn parse_key_value(
        &self,
        alloc: Global,
        i: usize,
    ) -> Result<(String, Span, Value<Span>, usize), KeyValueError>
        ensures ok { IfOk result (λ r. ReadsKeyValue self.now i r) }
        ensures within { IfOk result (λ r. r.3 ≤ length self.now.text) }
        ensures err { IfErr result (λ e. IsKeyValueError self.now i e) }
    {
        let scanner = Scanner { text: self.src };
        match scanner.parse_pair(alloc, i) {
            Ok((pair, end)) => {
                let Pair { key, span, value } = pair;
                Ok((key, span, value, end))
            }
            Err(fault) => Err(key_value_error(alloc, fault)),
        }
    }
}

/// Makes the error of a fault of a pair. A refused request for memory is passed on.
fn key_value_error(alloc: Global, fault: Fault) -> KeyValueError
    ensures { TellsPairFault fault result }
{
    match fault {
        Fault::Memory(e) => KeyValueError::Memory(e),
        Fault::At(kind, offset) => match error_at(alloc, kind, offset) {
            Ok(error) => KeyValueError::Invalid(error),
            Err(e) => KeyValueError::Memory(e),
        },
    }
}
