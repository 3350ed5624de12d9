//! Imports that are checked.

ghost use Rattle.std.specs.Prelude.{◌≡◌, ◌≤◌, ◌+◌, ◌*◌, length, vec_len, string_bytes, IfOk, OnOk, Some, true};
ghost use Rattle.std.specs.List.{All};
ghost use Rattle.yacc_import.specs.Changes.{bytes_of, places_of, changed, IsFor, LiesIn, Rises, line_feeds, marks_of};
ghost use Rattle.cfg_read.specs.declared.yacc.YaccKind.TheVariants as kinds;
ghost use Rattle.cfg_read.specs.declared.yacc.YaccOriginalActionKind.TheVariants as actions;
ghost use Rattle.cfg_read.specs.Reading.{Reads};
ghost use Rattle.cfg_read.specs.SyntaxModels as models;
ghost use Rattle.bison_rules.specs.Models as bison;
ghost use Rattle.bison_rules.specs.Rules.{file_in};
ghost use Rattle.checked_import.specs.SameRules as spec;
ghost use Rattle.checked_import.specs.SameRules.{SaysRules, HasRulesOf};

use crate::matching::{same_levels, same_rules, same_starts};
use bison_rules::{BisonFile, read_rules};
use cfg_read::yacc::parser::error::ReadError;
use cfg_read::yacc::parser::read_syntax;
use cfg_read::yacc::parser::syntax::Syntax;
use cfg_read::yacc::{YaccKind, YaccOriginalActionKind};
use std::alloc::{AllocError, Global};
use thiserror::Error;
use yacc_import::{ImportError, Imported, import};

/// How many strings may stand for tokens, and how many tokens may have a precedence: each symbol is compared with them.
const MOST_NAMES: usize = 4096;

/// Why there is no checked import.
#[derive(Debug, Drop, Error)]
pub enum CheckedError {
    /// The file can't be imported.
    #[error("{0}")]
    Import(ImportError),
    /// Its rules can't be read: it ends within one of its tokens.
    #[error("no rules")]
    NoRules,
    /// The import doesn't read, at this byte offset of it.
    #[error("import that does not read, at byte {0}")]
    NotRead(usize),
    /// The rules of the import aren't those of the file.
    #[error("import with other rules")]
    OtherRules,
    /// The import doesn't name the start rules that the file does.
    #[error("import with another start rule")]
    OtherStart,
    /// The precedence levels of the import aren't those of the file.
    #[error("import with other precedence levels")]
    OtherLevels,
    /// More than 4,096 strings stand for tokens, or tokens have a precedence.
    #[error("too many names")]
    TooManyNames,
    /// Memory was refused.
    #[error("out of memory")]
    Memory(AllocError),
}

impl From<AllocError> for CheckedError {
    fn from(e: AllocError) -> CheckedError {
        CheckedError::Memory(e)
    }
}

/// Reads the rules of a Bison file.
fn read_file(alloc: Global, source: &str) -> Result<BisonFile, CheckedError>
    ensures { IfOk result (λ f. file_in source.now ≡ Some (bison.file_of f)) }
{
    match read_rules(alloc, source.as_bytes())? {
        Some(file) => Ok(file),
        None => Err(CheckedError::NoRules),
    }
}

/// Reads a text in the kit's syntax.
fn read_text(alloc: Global, text: &str) -> Result<Syntax, CheckedError>
    ensures { IfOk result (λ x. Reads (kinds.Original actions.GenericParseTree) text.now 0 (models.syntax_of x)) }
{
    let kind = YaccKind::Original(YaccOriginalActionKind::GenericParseTree);
    match read_syntax(alloc, kind, text, 0) {
        Ok(read) => Ok(read),
        Err(ReadError::Fault(_, at)) => Err(CheckedError::NotRead(at)),
        Err(ReadError::Memory(e)) => Err(CheckedError::Memory(e)),
    }
}

/// Returns how many tokens have a precedence.
fn count_levels(read: &Syntax) -> usize {
    let mut count: usize = 0;
    for level in read.levels.as_slice() {
        count = count.saturating_add(level.tokens.len());
    }
    count
}

/// Compares the start rules and the levels that were read with those of a file.
fn compare_declared(file: &BisonFile, read: &Syntax) -> Result<(), CheckedError>
    ensures start { OnOk result (spec.same_starts (bison.file_of file.now) (models.syntax_of read.now) ≡ true) }
    ensures levels { OnOk result (spec.same_levels (bison.file_of file.now).aliases (bison.file_of file.now).levels (models.syntax_of read.now).levels ≡ true) }
{
    if !same_starts(file, read) {
        return Err(CheckedError::OtherStart);
    }
    if same_levels(file, read) {
        Ok(())
    } else {
        Err(CheckedError::OtherLevels)
    }
}

/// Compares what was read with what a file says.
fn compare(file: &BisonFile, read: &Syntax) -> Result<(), CheckedError>
    ensures same { OnOk result (spec.same_rules (bison.file_of file.now) (models.syntax_of read.now) ≡ true) }
    ensures start { OnOk result (spec.same_starts (bison.file_of file.now) (models.syntax_of read.now) ≡ true) }
    ensures levels { OnOk result (spec.same_levels (bison.file_of file.now).aliases (bison.file_of file.now).levels (models.syntax_of read.now).levels ≡ true) }
{
    if file.aliases.len() > MOST_NAMES || count_levels(read) > MOST_NAMES {
        return Err(CheckedError::TooManyNames);
    }
    if same_rules(file, read) {
        compare_declared(file, read)
    } else {
        Err(CheckedError::OtherRules)
    }
}

/// Checks that a text in the kit's syntax has the rules, the start rule and the levels of a Bison file.
fn compare_with(alloc: Global, file: &BisonFile, text: &str) -> Result<(), CheckedError>
    ensures { OnOk result (SaysRules (bison.file_of file.now) text.now) }
{
    let read = read_text(alloc, text)?;
    let compared = compare(file, &read);
    drop(read);
    compared
}

/// Checks that a text in the kit's syntax has the rules, the start rule and the levels of a Bison file.
pub fn check_rules(alloc: Global, source: &str, text: &str) -> Result<(), CheckedError>
    ensures { OnOk result (HasRulesOf source.now text.now) }
{
    let file = read_file(alloc, source)?;
    let compared = compare_with(alloc, &file, text);
    drop(file);
    compared
}

/// Imports a file in the syntax of Bison or of POSIX yacc, as `import` does, and checks that the rules, the start rule and the
/// precedence levels are those of the file. A level of `%precedence` may be left out.
pub fn import_checked(alloc: Global, source: &str) -> Result<Imported, CheckedError>
    ensures rules { IfOk result (λ m. HasRulesOf source.now (string_bytes m.text)) }
    ensures text { IfOk result (λ m. string_bytes m.text ≡ bytes_of m.marks.items) }
    ensures made { IfOk result (λ m. m.marks.items ≡ changed source.now 0 m.notes.items) }
    ensures bytes { IfOk result (λ m. All (IsFor source.now m.notes.items) m.marks.items) }
    ensures line_feeds { IfOk result (λ m. line_feeds m.marks.items ≡ line_feeds (marks_of 0 source.now)) }
    ensures places { IfOk result (λ m. Rises 0 (places_of m.marks.items) (length source.now)) }
    ensures notes { IfOk result (λ m. All (LiesIn (length source.now)) m.notes.items) }
    ensures len { IfOk result (λ m. m.source_len ≡ length source.now) }
    ensures short { IfOk result (λ m. vec_len m.marks ≤ 16 * length source.now + 4096) }
{
    let imported = match import(alloc, source) {
        Ok(imported) => imported,
        Err(e) => return Err(CheckedError::Import(e)),
    };
    match check_rules(alloc, source, imported.text.as_str()) {
        Ok(()) => Ok(imported),
        Err(e) => {
            drop(imported);
            Err(e)
        }
    }
}
