//! Reads a grammar text as a whole: its section, and the text behind it.

ghost use Rattle.std.specs.Prelude.{◌≡◌, ◌≤◌, ◌++◌, ◌∷◌, [], ℕ, List, Some, None, length, map, option_map, option_copied, IfOk, IfErr};
ghost use Rattle.cfg_sections.specs.declared.header.value.HeaderValue.{HeaderValue};
ghost use Rattle.cfg_base.specs.SpanModel.{SpanModel};
ghost use Rattle.cfg_sections.specs.HeaderTexts.{value_text};
ghost use Rattle.cfg_sections.specs.SectionResults.{error_text, ReadsHeader, IsSectionError};
ghost use Rattle.cfg_sections.specs.SectionRepeats.{Holds, said_of, entry_text};
ghost use Rattle.cfg_sections.specs.Sections.{PairText};
ghost use Rattle.cfg_read.specs.declared.yacc.YaccKind.{YaccKind};
ghost use Rattle.cfg_read.specs.SyntaxTexts.{SyntaxText};
ghost use Rattle.cfg_read.specs.Reading.{Reads};
ghost use Rattle.cfg_read.specs.SyntaxErrors.{IsErrorOf};
ghost use Rattle.cfg_read.specs.SyntaxModels.{syntax_of};
ghost use Rattle.cfg_read.specs.Validity.{FailureText, failure_at, header_failure};
ghost use Rattle.cfg_read.specs.ErrorModels.{kind_of, failures_in};
ghost use Rattle.cfg_read.specs.Kinds.{Meaning, means, meaning_of, IsKindError};
ghost use Rattle.cfg_read.specs.Files.{source, ReadsFile, FailsSection, FailsRest, FailsFile, FileOutcome, said_meaning, told_kind, TellsKind, FailsMeaning, FailsKind, FailsValue, LacksKind, KindOutcome, IsFailure, ShowsSection, ShowsFault};

use crate::yacc::YaccKind;
use crate::yacc::kind::KindError;
use crate::yacc::parser::error::{ReadError, YaccGrammarErrorKind};
use crate::yacc::parser::syntax::Syntax;
use crate::yacc::parser::{laws, read_syntax};
use crate::yacc::validity::YaccGrammarError;
use cfg_base::span::Span;
use cfg_sections::header::{
    GrmtoolsSectionParser, Header, HeaderError, HeaderValue, SectionError, laws as section_laws,
};
use std::alloc::{AllocError, Global};
use thiserror::Error;

/// Why a text gives no grammar.
#[derive(Debug, Drop, Error)]
pub enum YaccGrammarFailure {
    /// The request for memory that was refused.
    #[error("Memory")]
    Memory(AllocError),
    /// All that is wrong with the text.
    #[error("Invalid")]
    Invalid(Vec<YaccGrammarError>),
}

/// The result of reading a grammar text.
pub type YaccGrammarResult<T> = Result<T, YaccGrammarFailure>;

/// Makes the errors of a section those of its text.
fn header_errors(
    alloc: Global,
    errors: Vec<HeaderError<Span>>,
) -> Result<Vec<YaccGrammarError>, AllocError>
    ensures { IfOk result (λ es. failures_in es.items ≡ map header_failure (map error_text errors.items)) }
{
    let mut made = Vec::new(alloc);
    'errors: for error in errors {
        made.push(YaccGrammarError::from(error))?;
    }
    Ok(made)
}

/// Makes the failure of a section that was refused.
fn section_failure(alloc: Global, e: SectionError) -> YaccGrammarFailure
    ensures { ShowsSection e result }
{
    match e {
        SectionError::Memory(e) => YaccGrammarFailure::Memory(e),
        SectionError::Invalid(errors) => match header_errors(alloc, errors) {
            Ok(errors) => YaccGrammarFailure::Invalid(errors),
            Err(e) => YaccGrammarFailure::Memory(e),
        },
    }
}

/// Makes a list of one error with one span.
fn one_error(
    alloc: Global,
    kind: YaccGrammarErrorKind,
    span: Span,
) -> Result<Vec<YaccGrammarError>, AllocError>
    ensures { IfOk result (λ es. failures_in es.items ≡ failure_at (kind_of kind) span ∷ []) }
{
    match vec![in alloc; span] {
        Ok(spans) => {
            let errors = vec![in alloc; YaccGrammarError { kind, spans }]?;
            Ok(errors)
        }
        Err(e) => {
            drop(kind);
            Err(e.into())
        }
    }
}

/// Makes the failure of a text that doesn't read.
fn fault_failure(alloc: Global, e: ReadError) -> YaccGrammarFailure
    ensures { ShowsFault e result }
{
    match e {
        ReadError::Memory(e) => YaccGrammarFailure::Memory(e),
        ReadError::Fault(kind, offset) => match one_error(alloc, kind, Span::new(offset, offset)) {
            Ok(errors) => YaccGrammarFailure::Invalid(errors),
            Err(e) => YaccGrammarFailure::Memory(e),
        },
    }
}

/// Reads a text's section, and returns its header, empty where there is none, and the offset behind it, else 0.
pub(crate) fn read_section(alloc: Global, text: &str) -> YaccGrammarResult<(Header<Span>, usize)>
    ensures ok { IfOk result (λ r. ReadsHeader (source text.now) r.0 r.1) }
    ensures within { IfOk result (λ r. r.1 ≤ length text.now) }
    ensures err { IfErr result (λ e. IsFailure (FailsSection text.now) e) }
{
    match GrmtoolsSectionParser::new(text, false).parse(alloc) {
        Ok(read) => Ok(read),
        Err(e) => Err(section_failure(alloc, e)),
    }
}

/// Reads what a text of a kind says from an offset on, behind its section.
pub(crate) fn read_rest(
    alloc: Global,
    kind: YaccKind,
    text: &str,
    start: usize,
) -> YaccGrammarResult<Syntax>
    ensures ok { IfOk result (λ x. Reads kind text.now start (syntax_of x)) }
    ensures err { IfErr result (λ e. IsFailure (FailsRest kind text.now start) e) }
{
    match read_syntax(alloc, kind, text, start) {
        Ok(x) => Ok(x),
        Err(e) => Err(fault_failure(alloc, e)),
    }
}

/// Makes the failure of a value that means no kind.
fn kind_failure(alloc: Global, e: KindError<Span>) -> YaccGrammarFailure
    ensures { (m : Meaning SpanModel) → IsKindError ⟦<Span as Clone>⟧.is_clone m e → IsFailure (FailsMeaning m) result }
{
    match e {
        KindError::Memory(e) => YaccGrammarFailure::Memory(e),
        KindError::Invalid(e) => {
            let error = YaccGrammarError::from(e);
            match vec![in alloc; error] {
                Ok(errors) => YaccGrammarFailure::Invalid(errors),
                Err(e) => YaccGrammarFailure::Memory(e.into()),
            }
        }
    }
}

/// Returns the value of a key, if the key is there.
fn value_of<'a>(
    alloc: Global,
    header: &'a Header<Span>,
    key: &str,
) -> Result<Option<&'a HeaderValue<Span>>, AllocError>
    ensures { (pairs : List PairText) → Holds header.now pairs → IfOk result (λ v. option_map entry_text (option_copied v) ≡ said_of pairs key.now) }
{
    let key = String::from_str(alloc, key)?;
    Ok(header.get(&key))
}

/// Makes the failure of a text that names no kind.
pub(crate) fn no_kind(alloc: Global) -> YaccGrammarFailure
    ensures { IsFailure (FailsKind None) result }
{
    let kind = YaccGrammarErrorKind::InvalidYaccKind;
    match one_error(alloc, kind, Span::new(0, 0)) {
        Ok(errors) => YaccGrammarFailure::Invalid(errors),
        Err(e) => YaccGrammarFailure::Memory(e),
    }
}

/// Returns the kind of a key's value.
fn kind_of_value(alloc: Global, value: &HeaderValue<Span>) -> YaccGrammarResult<YaccKind>
    ensures ok { IfOk result (λ k. meaning_of (value_text value.now.1) ≡ means k) }
    ensures err { IfErr result (λ e. IsFailure (FailsMeaning (meaning_of (value_text value.now.1))) e) }
{
    match YaccKind::try_from_value(alloc, &value.1) {
        Ok(kind) => Ok(kind),
        Err(e) => Err(kind_failure(alloc, e)),
    }
}

/// Returns the kind of a key's value, if the key is there.
#[tactic(auto, using(crate::proofs::TextKinds::some_fails))]
fn named_kind(
    alloc: Global,
    value: Option<&HeaderValue<Span>>,
) -> YaccGrammarResult<Option<YaccKind>>
    ensures ok { IfOk result (λ k. said_meaning (option_map entry_text (option_copied value.entry)) ≡ option_map means k) }
    ensures err { IfErr result (λ e. IsFailure (FailsValue (said_meaning (option_map entry_text (option_copied value.entry)))) e) }
{
    match value {
        Some(value) => match kind_of_value(alloc, value) {
            Ok(kind) => Ok(Some(kind)),
            Err(e) => Err(e),
        },
        None => Ok(None),
    }
}

/// Returns the kind that a header names by `yacckind`, if the key is there.
pub(crate) fn kind_in(alloc: Global, header: &Header<Span>) -> YaccGrammarResult<Option<YaccKind>>
    ensures ok { (pairs : List PairText) → Holds header.now pairs → IfOk result (λ k. told_kind pairs ≡ option_map means k) }
    ensures err { (pairs : List PairText) → Holds header.now pairs → IfErr result (λ e. IsFailure (FailsValue (told_kind pairs)) e) }
{
    match value_of(alloc, header, "yacckind") {
        Ok(value) => match named_kind(alloc, value) {
            Ok(kind) => Ok(kind),
            Err(e) => Err(e),
        },
        Err(e) => Err(YaccGrammarFailure::Memory(e)),
    }
}

/// Proves that for each kind, a text has exactly one reading or exactly one list of errors: never two, never both,
/// and never neither.
pub fn one_file()
    ensures some { (kind : YaccKind) (text : List ℕ) → FileOutcome kind text }
    ensures readings { (kind : YaccKind) (text : List ℕ) (x y : SyntaxText) → ReadsFile kind text x → ReadsFile kind text y → x ≡ y }
    ensures apart { (kind : YaccKind) (text : List ℕ) (x : SyntaxText) (fs : List FailureText) → ReadsFile kind text x → FailsFile kind text fs → ⊥ }
    ensures faults { (kind : YaccKind) (text : List ℕ) (es fs : List FailureText) → FailsFile kind text es → FailsFile kind text fs → es ≡ fs }
{
    section_laws::each_is_answered();
    section_laws::one_reading();
    laws::one_reading();
}

/// Proves that a text names exactly one kind, or has exactly one list of errors that keep it from naming one.
pub fn one_kind()
    ensures some { (text : List ℕ) → KindOutcome text }
    ensures kinds { (text : List ℕ) (k l : YaccKind) → TellsKind text k → TellsKind text l → k ≡ l }
    ensures apart { (text : List ℕ) (k : YaccKind) (fs : List FailureText) → TellsKind text k → LacksKind text fs → ⊥ }
    ensures faults { (text : List ℕ) (es fs : List FailureText) → LacksKind text es → LacksKind text fs → es ≡ fs }
{
    section_laws::each_is_answered();
    section_laws::one_reading();
}
