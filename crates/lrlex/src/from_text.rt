//! Rules from lexer files.

ghost use Rattle.std.specs.Prelude.{◌≡◌, ◌++◌, ◌∷◌, [], map, option_map, string_bytes, IfOk, OnOk};
ghost use Rattle.lex_files.specs.LexFiles.{rule_value, file_value};
ghost use Rattle.lrlex.specs.Lexing.{rules_of, names_of};
ghost use Rattle.lrlex.specs.LexTexts.{AddsLine, AddsLines, AreRulesOf, ReadsRules};
ghost use Rattle.lrlex.specs.LexTextErrors.{is_memory};

use crate::rules::LexRules;
use cfg_base::span::Span;
use lex_files::{Condition, LexFile, LexFileError, RuleText, read_file};
use regex::Error;
use std::alloc::{AllocError, Global};

/// The bytes that an expression is compiled behind: `\A(?:`.
const AHEAD: usize = 5;

/// Why a text gives no rules.
#[derive(Debug, Drop)]
pub enum LexTextError {
    /// The text isn't a lexer file, or memory is refused.
    File(LexFileError),
    /// The expression at this place doesn't compile, which may be for want of memory.
    Expression(Span, Error),
}

impl LexTextError {
    /// Returns whether memory was refused.
    pub fn is_memory(&self) -> bool
        ensures { result ≡ is_memory self.now }
    {
        match self {
            LexTextError::File(LexFileError::Memory(_)) => true,
            LexTextError::File(LexFileError::Section(_)) => false,
            LexTextError::File(LexFileError::Line(_)) => false,
            LexTextError::Expression(_, Error::OutOfMemory) => true,
            LexTextError::Expression(_, Error::Syntax(_)) => false,
            LexTextError::Expression(_, Error::CompiledTooBig) => false,
            LexTextError::Expression(_, Error::Internal) => false,
        }
    }
}

/// Returns the part of the text that an error is about, for the expression that begins at an offset.
fn place_of(start: usize, expression: &str, error: &Error) -> Span {
    let (first, last) = match error {
        Error::Syntax(e) => (e.span.start, e.span.end),
        _ => (AHEAD, AHEAD.saturating_add(expression.len())),
    };
    let length = expression.len();
    let first = start.saturating_add(first.saturating_sub(AHEAD).min(length));
    let last = start.saturating_add(last.saturating_sub(AHEAD).min(length));
    Span::new(first, last.max(first))
}

/// Adds the rule of a line.
fn push_rule(alloc: Global, rules: &mut LexRules, line: RuleText<'_>) -> Result<(), LexTextError>
    ensures rules { OnOk result (AddsLine (rule_value line.entry) (rules_of rules.old) (rules_of rules.new)) }
    ensures names { OnOk result (names_of rules.new ≡ names_of rules.old ++ (rule_value line.entry).name ∷ []) }
{
    let RuleText {
        start,
        expression,
        name,
        conditions,
        target,
    } = line;
    match rules.push(alloc, expression, name, conditions, target) {
        Ok(()) => Ok(()),
        Err(error) => Err(LexTextError::Expression(place_of(start, expression, &error), error)),
    }
}

/// Adds the rules of all lines.
fn push_rules(
    alloc: Global,
    rules: &mut LexRules,
    lines: Vec<RuleText<'_>>,
) -> Result<(), LexTextError>
    ensures rules { OnOk result (AddsLines (map rule_value lines.entry.items) (rules_of rules.old) (rules_of rules.new)) }
    ensures names { OnOk result (names_of rules.new ≡ names_of rules.old ++ map (λ r. r.name) (map rule_value lines.entry.items)) }
{
    'each: for line in lines {
        match push_rule(alloc, rules, line) {
            Ok(()) => {}
            Err(e) => return Err(e),
        }
    }
    Ok(())
}

/// Adds start conditions.
fn push_conditions(rules: &mut LexRules, conditions: &[Condition<'_>]) -> Result<(), AllocError>
    ensures rules { OnOk result (rules_of rules.new ≡ record (rules_of rules.old) { exclusive = (rules_of rules.old).exclusive ++ map (λ c. c.exclusive) conditions.now }) }
    ensures names { OnOk result (names_of rules.new ≡ names_of rules.old) }
{
    'each: for condition in conditions {
        rules.push_condition(condition.exclusive)?;
    }
    Ok(())
}

/// Adds what a file has to no rule and no condition.
fn push_file(alloc: Global, rules: &mut LexRules, file: LexFile<'_>) -> Result<(), LexTextError>
    requires rules { rules_of rules.old ≡ record { exclusive = []; rules = [] } }
    requires names { names_of rules.old ≡ [] }
    ensures { OnOk result (AreRulesOf (file_value file.entry) rules.new) }
{
    let LexFile {
        part: _,
        conditions,
        rules: lines,
    } = file;
    if let Err(e) = push_conditions(rules, conditions.as_slice()) {
        return Err(LexTextError::File(LexFileError::Memory(e)));
    }
    match push_rules(alloc, rules, lines) {
        Ok(()) => Ok(()),
        Err(e) => Err(e),
    }
}

/// Makes the rules of a file.
fn rules_of_file(alloc: Global, file: LexFile<'_>) -> Result<LexRules, LexTextError>
    ensures { IfOk result (AreRulesOf (file_value file.entry)) }
{
    let mut rules = LexRules::new(alloc);
    match push_file(alloc, &mut rules, file) {
        Ok(()) => Ok(rules),
        Err(e) => {
            drop(rules);
            Err(e)
        }
    }
}

impl LexRules {
    /// Makes the rules of a lexer file (crate `lex_files`), in the order of their lines.
    ///
    /// # Errors
    ///
    /// - `File` where the text isn't a lexer file.
    /// - `Expression` with the first expression that doesn't compile.
    /// - Either where memory is refused (`is_memory`).
    pub fn from_text(alloc: Global, text: &str) -> Result<LexRules, LexTextError>
        ensures { IfOk result (ReadsRules text.now) }
    {
        match read_file(alloc, text) {
            Ok(file) => rules_of_file(alloc, file),
            Err(e) => Err(LexTextError::File(e)),
        }
    }

    /// Returns the names of the rules; one without a name is skipped.
    pub fn names(&self) -> &[Option<String>]
        ensures { map (option_map string_bytes) result.now ≡ names_of self.now }
    {
        self.names.as_slice()
    }
}
