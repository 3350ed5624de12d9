//! What is found of a text without a table: errors, or warnings of a grammar that is too large for its table to be made at each change.

ghost use Rattle.std.specs.Prelude.{◌≡◌, IfOk, map, nat_le, not};
ghost use Rattle.cfg_read.specs.AstModels.{production_of};
ghost use Rattle.grammar_report.specs.Messages.{AddsOfChecked, AddsOfUntabled, size_of};

use crate::accept_reduce::told_kind;
use crate::faults::{push_first_errors, push_first_warnings};
use cfg_read::yacc::ast::Production;
use cfg_read::yacc::{ASTWithValidityInfo, YaccKind};
use std::alloc::{AllocError, Global};
use text_messages::Messages;

/// What is found of a text without a table.
#[derive(Clone, Copy, Debug, PartialEq, Eq)]
pub enum Untabled {
    /// Neither errors nor warnings: its section names no kind; or nothing is wrong with it, and it is small.
    Neither,
    /// Something is wrong with it. The number is of the places of the errors that got no message.
    Errors(usize),
    /// It is large. The number is of the unused names that got no message.
    Warnings(usize),
}

/// Returns whether productions are more than `most`, together with the symbols in them.
fn are_many(prods: &[Production], most: usize) -> bool
    ensures { result ≡ not (nat_le (size_of (map production_of prods.now)) most) }
{
    let mut left = most;
    'productions: for prod in prods {
        let size = prod.symbols().len();
        if size >= left {
            return true;
        }
        left = left - size - 1;
    }
    false
}

/// Adds the first errors or warnings of what is kept of a text.
fn push_checked(
    alloc: Global,
    messages: &mut Messages<'_>,
    kept: &ASTWithValidityInfo,
    size: usize,
    most: usize,
) -> Result<Untabled, AllocError>
    ensures { IfOk result (λ u. AddsOfChecked size most kept.now u messages.old messages.new) }
{
    if !kept.is_valid() {
        let left = push_first_errors(alloc, messages, kept.ast(), kept.errors(), most)?;
        return Ok(Untabled::Errors(left));
    }
    if !are_many(kept.ast().prods(), size) && kept.ast().tokens().len() <= size {
        return Ok(Untabled::Neither);
    }
    let left = push_first_warnings(alloc, messages, kept.ast(), most)?;
    Ok(Untabled::Warnings(left))
}

/// Adds what is found of a text of a kind without a table.
fn push_told(
    alloc: Global,
    messages: &mut Messages<'_>,
    kind: YaccKind,
    size: usize,
    most: usize,
) -> Result<Untabled, AllocError>
    ensures { IfOk result (λ u. AddsOfUntabled size most u messages.old messages.new) }
{
    let kept = ASTWithValidityInfo::new(alloc, kind, messages.text())?;
    let pushed = push_checked(alloc, messages, &kept, size, most);
    drop(kept);
    pushed
}

/// Adds what is found of a text without a table: where something is wrong with it, the messages of the first `most` errors; else, where
/// it has more than `size` productions and symbols in them, or as many tokens, its warnings, with those of the first `most` unused names.
pub fn push_untabled(
    alloc: Global,
    messages: &mut Messages<'_>,
    size: usize,
    most: usize,
) -> Result<Untabled, AllocError>
    ensures { IfOk result (λ u. AddsOfUntabled size most u messages.old messages.new) }
{
    let told = told_kind(alloc, messages.text())?;
    match told {
        Some(kind) => push_told(alloc, messages, kind, size, most),
        None => Ok(Untabled::Neither),
    }
}
