//! Rules, as a line has them.

ghost use Rattle.std.specs.Prelude.{◌≡◌, ℕ, [], ◌∷◌, ◌++◌, Result, ◌+◌, ◌<◌, ◌≤◌, ◌^◌, map, option_map, IfOk, IfErr, OnOk, OnErr, length};
ghost use Rattle.std.specs.List.{list_any};
ghost use Rattle.lex_files.specs.LexFiles.{condition_value, rule_value, add_number, numbers_of, read_prefix, read_target, target_of, read_name, quoted_by, is_named, has_name, read_word, read_rule, Tells};

use crate::conditions::{Condition, fault_at, number_of};
use crate::fault::{Fault, FaultKind, LexFileError};
use crate::pieces::{after_byte, cut_at, cut_name, trim_end};
use maximal_munch::Target;
use std::alloc::{AllocError, Global};

/// A rule of a lexer file.
#[derive(Debug, Drop)]
pub struct RuleText<'t> {
    /// The byte offset of the expression in the text.
    pub start: usize,
    /// The expression.
    pub expression: &'t str,
    /// The name; what a rule without one matches is skipped.
    pub name: Option<&'t str>,
    /// The numbers of the start conditions that the rule is limited to.
    pub conditions: Vec<usize>,
    /// What the rule does to the stack of start conditions.
    pub target: Target,
}

/// Adds the number of the condition with a name.
fn push_number(
    conditions: &[Condition<'_>],
    name: &str,
    at: usize,
    numbers: &mut Vec<usize>,
) -> Result<(), LexFileError>
    ensures ok { OnOk result (add_number (map condition_value conditions.now) at numbers.old.items name.now ≡ Result.Ok numbers.new.items) }
    ensures err { IfErr result (Tells (add_number (map condition_value conditions.now) at numbers.old.items name.now)) }
{
    match number_of(conditions, name, at) {
        Ok(number) => match numbers.push(number) {
            Ok(()) => Ok(()),
            Err(e) => Err(LexFileError::Memory(AllocError::from(e))),
        },
        Err(fault) => Err(LexFileError::Line(fault)),
    }
}

/// Returns the numbers of the conditions that names between commas have.
fn numbers_of(
    alloc: Global,
    conditions: &[Condition<'_>],
    names: &str,
    at: usize,
) -> Result<Vec<usize>, LexFileError>
    ensures ok { IfOk result (λ v. numbers_of (map condition_value conditions.now) at names.now ≡ Result.Ok v.items) }
    ensures err { IfErr result (Tells (numbers_of (map condition_value conditions.now) at names.now)) }
{
    let mut numbers = Vec::new(alloc);
    'names: for name in names.split(',') {
        match push_number(conditions, name, at, &mut numbers) {
            Ok(()) => {}
            Err(e) => return Err(e),
        }
    }
    Ok(numbers)
}

/// Returns the conditions that are in front of an expression, and what is behind them.
fn read_prefix<'t>(
    alloc: Global,
    conditions: &[Condition<'_>],
    expression: &'t str,
    at: usize,
) -> Result<(Vec<usize>, &'t str), LexFileError>
    ensures ok { IfOk result (λ r. read_prefix (map condition_value conditions.now) at expression.now ≡ Result.Ok (r.0.items, r.1.now)) }
    ensures err { IfErr result (Tells (read_prefix (map condition_value conditions.now) at expression.now)) }
{
    let Some(rest) = after_byte(expression, '<') else {
        return Ok((Vec::new(alloc), expression));
    };
    match cut_at(rest, '>') {
        Some((names, rest)) => {
            let numbers = numbers_of(alloc, conditions, names, at)?;
            Ok((numbers, rest))
        }
        None => Err(LexFileError::Line(fault_at(FaultKind::InvalidCondition, at))),
    }
}

/// Returns the target that is between `<` and `>`.
fn target_of(conditions: &[Condition<'_>], words: &str, at: usize) -> Result<Target, Fault>
    ensures { result ≡ target_of (map condition_value conditions.now) at words.now }
{
    if let Some(name) = after_byte(words, '+') {
        return match number_of(conditions, name, at) {
            Ok(number) => Ok(Target::Push(number)),
            Err(fault) => Err(fault),
        };
    }
    if let Some(name) = after_byte(words, '-') {
        return match number_of(conditions, name, at) {
            Ok(_) => Ok(Target::Pop),
            Err(fault) => Err(fault),
        };
    }
    match number_of(conditions, words, at) {
        Ok(number) => Ok(Target::Replace(number)),
        Err(fault) => Err(fault),
    }
}

/// Returns the target that is in front of a name, and what is behind it.
fn read_target<'t>(
    conditions: &[Condition<'_>],
    word: &'t str,
    at: usize,
) -> Result<(Target, &'t str), Fault>
    ensures ok { IfOk result (λ r. read_target (map condition_value conditions.now) at word.now ≡ Result.Ok (r.0, r.1.now)) }
    ensures err { IfErr result (λ e. read_target (map condition_value conditions.now) at word.now ≡ Result.Err e) }
{
    let Some(rest) = after_byte(word, '<') else {
        return Ok((Target::Stay, word));
    };
    match cut_at(rest, '>') {
        Some((words, name)) => match target_of(conditions, words, at) {
            Ok(target) => Ok((target, name)),
            Err(fault) => Err(fault),
        },
        None => Err(fault_at(FaultKind::InvalidCondition, at)),
    }
}

/// Returns what is between a character at the front and the next one, which ends the text, if it isn't empty.
fn quoted_by(text: &str, quote: char) -> Option<&str>
    requires { quote < 128 }
    ensures { option_map (λ s. s.now) result ≡ quoted_by quote text.now }
{
    match cut_at(after_byte(text, quote)?, quote) {
        Some((name, rest)) => {
            if rest.is_empty() && !name.is_empty() {
                Some(name)
            } else {
                None
            }
        }
        None => None,
    }
}

/// Returns the name of a rule; None where it is to be skipped.
fn read_name<'t>(word: &'t str, at: usize) -> Result<Option<&'t str>, Fault>
    ensures ok { IfOk result (λ o. read_name at word.now ≡ Result.Ok (option_map (λ s. s.now) o)) }
    ensures err { IfErr result (λ e. read_name at word.now ≡ Result.Err e) }
{
    if word == ";" {
        return Ok(None);
    }
    if let Some(name) = quoted_by(word, '"') {
        return Ok(Some(name));
    }
    match quoted_by(word, '\'') {
        Some(name) => Ok(Some(name)),
        None => Err(fault_at(FaultKind::InvalidName, at)),
    }
}

/// Returns whether a rule has this name.
fn is_named(rule: &RuleText<'_>, name: &str) -> bool
    ensures { result ≡ is_named name.now (rule_value rule.now) }
{
    match rule.name {
        Some(other) => other == name,
        None => false,
    }
}

/// Returns whether some rule has this name.
fn some_named(rules: &[RuleText<'_>], name: &str) -> bool
    ensures { result ≡ list_any (is_named name.now) (map rule_value rules.now) }
{
    'rules: for rule in rules {
        if is_named(rule, name) {
            return true;
        }
    }
    false
}

/// Returns whether some rule has the name of another one.
fn has_name(rules: &[RuleText<'_>], name: Option<&str>) -> bool
    ensures { result ≡ has_name (map rule_value rules.now) (option_map (λ s. s.now) name.entry) }
{
    match name {
        Some(name) => some_named(rules, name),
        None => false,
    }
}

/// Returns the target and the name of a rule whose name begins at an offset.
fn read_word<'t>(
    conditions: &[Condition<'_>],
    rules: &[RuleText<'_>],
    word: &'t str,
    at: usize,
) -> Result<(Target, Option<&'t str>), Fault>
    ensures ok { IfOk result (λ r. read_word (map condition_value conditions.now) (map rule_value rules.now) at word.now ≡ Result.Ok (r.0, option_map (λ s. s.now) r.1)) }
    ensures err { IfErr result (λ e. read_word (map condition_value conditions.now) (map rule_value rules.now) at word.now ≡ Result.Err e) }
{
    let (target, word) = read_target(conditions, word, at)?;
    let name = read_name(word, at)?;
    if has_name(rules, name) {
        return Err(fault_at(FaultKind::RepeatedName, at));
    }
    Ok((target, name))
}

/// Adds the rule of a line at an offset, which has no white at its end.
pub(crate) fn read_rule<'t>(
    alloc: Global,
    conditions: &[Condition<'t>],
    rules: &mut Vec<RuleText<'t>>,
    line: &'t str,
    at: usize,
) -> Result<(), LexFileError>
    requires { at + length line.now < 2 ^ 64 }
    ensures ok { OnOk result (read_rule (map condition_value conditions.now) (map rule_value rules.old.items) at line.now ≡ Result.Ok (map rule_value rules.new.items)) }
    ensures err { IfErr result (Tells (read_rule (map condition_value conditions.now) (map rule_value rules.old.items) at line.now)) }
{
    let (front, word) = cut_name(line);
    if front.is_empty() {
        return Err(LexFileError::Line(fault_at(FaultKind::MissingSpace, at)));
    }
    let whole = trim_end(front);
    let (target, name) = read_word(conditions, rules.as_slice(), word, at + front.len())?;
    let (numbers, expression) = read_prefix(alloc, conditions, whole, at)?;
    let rule = RuleText {
        start: at + (whole.len() - expression.len()),
        expression,
        name,
        conditions: numbers,
        target,
    };
    match rules.push(rule) {
        Ok(()) => Ok(()),
        Err(e) => Err(LexFileError::Memory(AllocError::from(e))),
    }
}
