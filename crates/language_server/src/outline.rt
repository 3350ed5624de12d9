//! The outline of a document: its rules and declared tokens, and what can be folded.

ghost use Rattle.std.specs.Prelude.{◌≡◌, ◌≤◌, ◌+◌, IfOk, None, OnOk, length, min};
ghost use Rattle.language_server.specs.Protocol.{error_in};

use crate::answers::{Answer, Fold, Range, Symbol};
use crate::asked::Asked;
use grammar_index::{Heading, Occurrence, Role};
use std::alloc::{AllocError, Global};

/// The protocol's numbers of kinds of symbols.
const RULE: u8 = 12;

const TOKEN: u8 = 14;

/// Of the declared tokens, and of the rules, not more than these are shown.
const MOST_SYMBOLS: usize = 10000;

/// Adds a symbol.
fn push_symbol(
    alloc: Global,
    asked: &Asked<'_>,
    list: &mut Vec<Symbol>,
    one: Occurrence,
    kind: u8,
    range: Range,
) -> Result<(), AllocError>
    ensures { OnOk result (length list.new.items ≡ length list.old.items + 1) }
{
    let name = String::from_str(alloc, asked.part(one.start, one.end))?;
    let selection_range = asked.range_of(one);
    list.push(Symbol {
        name,
        kind,
        range,
        selection_range,
    })?;
    Ok(())
}

/// Adds the first declared tokens.
fn push_tokens(
    alloc: Global,
    asked: &Asked<'_>,
    list: &mut Vec<Symbol>,
    names: &[Occurrence],
) -> Result<(), AllocError>
    requires { length list.old.items ≡ 0 }
    ensures { OnOk result (length list.new.items ≤ 10000) }
{
    'names: for index in 0..names.len() {
        if list.len() == MOST_SYMBOLS {
            return Ok(());
        }
        let one = names[index];
        if one.role == Role::Declared {
            push_symbol(alloc, asked, list, one, TOKEN, asked.range_of(one))?;
        }
    }
    Ok(())
}

/// Adds the first rules.
fn push_rules(
    alloc: Global,
    asked: &Asked<'_>,
    list: &mut Vec<Symbol>,
    headings: &[Heading],
) -> Result<(), AllocError>
    ensures { OnOk result (length list.new.items ≡ length list.old.items + min (length headings.now) 10000) }
{
    'headings: for index in 0..headings.len().min(MOST_SYMBOLS) {
        let one = headings[index];
        let range = asked.range(one.name.start, one.end);
        push_symbol(alloc, asked, list, one.name, RULE, range)?;
    }
    Ok(())
}

/// Adds the first declared tokens and the first rules.
fn push_symbols(alloc: Global, asked: &Asked<'_>, list: &mut Vec<Symbol>) -> Result<(), AllocError>
    requires { length list.old.items ≡ 0 }
    ensures { OnOk result (length list.new.items ≤ 20000) }
{
    push_tokens(alloc, asked, list, asked.index.names())?;
    push_rules(alloc, asked, list, asked.index.headings())
}

/// Answers the declared tokens and the rules, the first 10000 of each.
pub fn symbols_answer(alloc: Global, asked: &Asked<'_>) -> Result<Answer, AllocError>
    ensures { IfOk result (λ a. error_in a ≡ None) }
{
    let mut list = Vec::new(alloc);
    match push_symbols(alloc, asked, &mut list) {
        Ok(()) => Ok(Answer::Symbols(list)),
        Err(e) => {
            drop(list);
            Err(e)
        }
    }
}

/// Answers which lines can be folded: those of each heading with more than one.
pub fn folds_answer(alloc: Global, asked: &Asked<'_>) -> Result<Answer, AllocError>
    ensures { IfOk result (λ a. error_in a ≡ None) }
{
    let headings = asked.index.headings();
    let mut list = Vec::new(alloc);
    'headings: for index in 0..headings.len() {
        let one = headings[index];
        let range = asked.range(one.name.start, one.end);
        if range.start.line < range.end.line {
            list.push(Fold {
                start_line: range.start.line,
                end_line: range.end.line,
            })?;
        }
    }
    Ok(Answer::Folds(list))
}
