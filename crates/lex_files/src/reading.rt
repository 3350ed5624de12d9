//! Whole lexer files.

ghost use Rattle.std.specs.Prelude.{◌≡◌, Result, ◌+◌, ◌<◌, ◌≤◌, ◌^◌, IfOk, IfErr, OnOk, length, drop};
ghost use Rattle.std.specs.Str.{IsCharBoundary};
ghost use Rattle.lex_files.specs.LexFiles.{file_value, first_file, read_before, read_behind, read_line, read_each, read_lines, Tells, SectionEnds, ReadsAs, TellsFile};

use crate::conditions::{Condition, declare, fault_at, read_declaration};
use crate::fault::{FaultKind, LexFileError};
use crate::pieces::{begins_white, is_gap, trim_end};
use crate::rules::{RuleText, read_rule};
use cfg_sections::header::{GrmtoolsSectionParser, SectionError};
use std::alloc::{AllocError, Global};

/// Where in a file a line is.
#[derive(Clone, Copy, Debug, PartialEq, Eq)]
pub enum FilePart {
    /// Before `%%`.
    Declarations,
    /// Behind it.
    Rules,
    /// Behind a second `%%`.
    End,
}

/// The start conditions and the rules of a lexer file, each in order. Condition 0 is `INITIAL`.
#[derive(Debug, Drop)]
pub struct LexFile<'t> {
    /// What the next line would be.
    pub part: FilePart,
    /// The start conditions.
    pub conditions: Vec<Condition<'t>>,
    /// The rules.
    pub rules: Vec<RuleText<'t>>,
}

/// Reads a line before `%%`.
fn read_before<'t>(file: &mut LexFile<'t>, line: &'t str, at: usize) -> Result<(), LexFileError>
    ensures ok { OnOk result (read_before (file_value file.old) at line.now ≡ Result.Ok (file_value file.new)) }
    ensures err { IfErr result (Tells (read_before (file_value file.old) at line.now)) }
{
    if line == "%%" {
        file.part = FilePart::Rules;
        return Ok(());
    }
    read_declaration(&mut file.conditions, line, at)
}

/// Reads a line behind `%%`.
fn read_behind<'t>(
    alloc: Global,
    file: &mut LexFile<'t>,
    line: &'t str,
    at: usize,
) -> Result<(), LexFileError>
    requires { at + length line.now < 2 ^ 64 }
    ensures ok { OnOk result (read_behind (file_value file.old) at line.now ≡ Result.Ok (file_value file.new)) }
    ensures err { IfErr result (Tells (read_behind (file_value file.old) at line.now)) }
{
    if line == "%%" {
        file.part = FilePart::End;
        return Ok(());
    }
    if begins_white(line) {
        return Err(LexFileError::Line(fault_at(FaultKind::LeadingWhite, at)));
    }
    read_rule(alloc, file.conditions.as_slice(), &mut file.rules, line, at)
}

/// Reads a line at an offset.
fn read_line<'t>(
    alloc: Global,
    file: &mut LexFile<'t>,
    line: &'t str,
    at: usize,
) -> Result<(), LexFileError>
    requires { at + length line.now < 2 ^ 64 }
    ensures ok { OnOk result (read_line (file_value file.old) at line.now ≡ Result.Ok (file_value file.new)) }
    ensures err { IfErr result (Tells (read_line (file_value file.old) at line.now)) }
{
    if is_gap(line) {
        return Ok(());
    }
    let line = trim_end(line);
    match file.part {
        FilePart::Declarations => read_before(file, line, at),
        FilePart::Rules => read_behind(alloc, file, line, at),
        FilePart::End => Err(LexFileError::Line(fault_at(FaultKind::Routines, at))),
    }
}

/// Reads the lines of a text that begins at an offset.
fn read_each<'t>(
    alloc: Global,
    file: &mut LexFile<'t>,
    text: &'t str,
    from: usize,
) -> Result<(), LexFileError>
    requires { from + length text.now + 1 < 2 ^ 64 }
    ensures ok { OnOk result (read_each (file_value file.old) from text.now ≡ Result.Ok (file_value file.new)) }
    ensures err { IfErr result (Tells (read_each (file_value file.old) from text.now)) }
{
    let mut start = from;
    'lines: for line in text.split('\n') {
        let end = start + line.len();
        match read_line(alloc, file, line, start) {
            Ok(()) => {}
            Err(e) => return Err(e),
        }
        start = end + 1;
    }
    Ok(())
}

/// Reads all lines of a file, which begin at an offset. One of them is `%%`.
fn read_lines<'t>(
    alloc: Global,
    file: &mut LexFile<'t>,
    text: &'t str,
    from: usize,
) -> Result<(), LexFileError>
    requires { from + length text.now + 1 < 2 ^ 64 }
    ensures ok { OnOk result (read_lines (file_value file.old) from text.now ≡ Result.Ok (file_value file.new)) }
    ensures err { IfErr result (Tells (read_lines (file_value file.old) from text.now)) }
{
    if let Err(e) = read_each(alloc, file, text, from) {
        return Err(e);
    }
    match file.part {
        FilePart::Declarations => Err(LexFileError::Line(fault_at(
            FaultKind::MissingMark,
            from + text.len(),
        ))),
        FilePart::Rules => Ok(()),
        FilePart::End => Ok(()),
    }
}

/// Returns the offset behind the section `%grmtools{..}`; 0 where there is none.
fn section_end(alloc: Global, text: &str) -> Result<usize, LexFileError>
    ensures section { IfOk result (SectionEnds text.now) }
    ensures err { IfErr result (TellsFile text.now) }
{
    match GrmtoolsSectionParser::new(text, false).parse(alloc) {
        Ok((header, end)) => {
            drop(header);
            Ok(end)
        }
        Err(SectionError::Memory(e)) => Err(LexFileError::Memory(e)),
        Err(SectionError::Invalid(errors)) => Err(LexFileError::Section(errors)),
    }
}

/// Makes a file of the condition `INITIAL` and no rule.
fn first_file<'t>(alloc: Global) -> Result<LexFile<'t>, AllocError>
    ensures { IfOk result (λ f. file_value f ≡ first_file) }
{
    let mut conditions = Vec::new(alloc);
    conditions.push(Condition {
        name: "INITIAL",
        exclusive: false,
    })?;
    Ok(LexFile {
        part: FilePart::Declarations,
        conditions,
        rules: Vec::new(alloc),
    })
}

/// Returns the last offset up to one at which a character begins.
fn boundary_of(text: &str, offset: usize) -> usize
    ensures boundary { IsCharBoundary text.now result }
    ensures same { IsCharBoundary text.now offset → result ≡ offset }
{
    text.floor_char_boundary(offset)
}

/// Reads the lines from an offset on.
fn read_from<'t>(alloc: Global, text: &'t str, from: usize) -> Result<LexFile<'t>, LexFileError>
    requires { IsCharBoundary text.now from }
    ensures ok { IfOk result (λ f. read_lines first_file from (drop from text.now) ≡ Result.Ok (file_value f)) }
    ensures err { IfErr result (Tells (read_lines first_file from (drop from text.now))) }
{
    // So the offset behind the text's end is a number too.
    let length = text.len();
    prove!(length < usize::MAX);
    let (_, lines) = text.split_at(from);
    let mut file = first_file(alloc)?;
    match read_lines(alloc, &mut file, lines, from) {
        Ok(()) => Ok(file),
        Err(e) => {
            drop(file);
            Err(e)
        }
    }
}

/// Reads a lexer file: the section `%grmtools{..}`, if there is one, whose keys are ignored, and then line after line. Names and
/// expressions are parts of the text.
///
/// # Errors
///
/// - `Section` with the errors of the section.
/// - `Line` with what is wrong with the first line that doesn't read.
/// - `Memory` where memory is refused.
pub fn read_file<'t>(alloc: Global, text: &'t str) -> Result<LexFile<'t>, LexFileError>
    ensures ok { IfOk result (λ f. ReadsAs text.now (Result.Ok (file_value f))) }
    ensures err { IfErr result (TellsFile text.now) }
{
    match section_end(alloc, text) {
        Ok(end) => read_from(alloc, text, boundary_of(text, end)),
        Err(e) => Err(e),
    }
}
