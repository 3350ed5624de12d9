//! Warnings of what has no effect: precedences that settle nothing, and productions that are never reduced.

ghost use Rattle.std.specs.Prelude.{◌≡◌, ◌++◌, OnOk, Some, codes};
ghost use Rattle.cfg_read.specs.AstModels.{production_of};
ghost use Rattle.grammar_names.specs.Names.{prod_text};
ghost use Rattle.text_messages.specs.Added.{AddsOne, AddsWarnings, said_in};
ghost use Rattle.text_messages.specs.declared.source.Severity.TheVariants.{Warning};
ghost use Rattle.grammar_report.specs.Places.{production_place};

use crate::faults::push_named;
use crate::production_places::production_span;
use crate::settled::{Pair, is_ended};
use cfg_base::index::IndexStorage;
use cfg_base::symbol::PIdx;
use cfg_read::yacc::ast::{self, GrammarAST, Production};
use grammar_names::{push_prod, token_name};
use lrtable::{Action, StateTable};
use parser_kit::ParserKit;
use std::alloc::{AllocError, Global};
use text_messages::{Message, Messages, Severity};

/// Returns the name of the last token of a production; no name where it has none.
fn last_token(production: &Production) -> &str {
    let mut last = "";
    'symbols: for symbol in production.symbols() {
        if let ast::Symbol::Token(name, _) = symbol {
            last = name.as_str();
        }
    }
    last
}

/// Returns the name of the token that a production has its precedence of; no name where it has none.
fn giver(ast: &GrammarAST, pidx: PIdx<u32>) -> &str {
    let Some(production) = ast.prods().get(pidx.0.to_usize()) else {
        return "";
    };
    match production.precedence() {
        Some(name) => name.as_str(),
        None => last_token(production),
    }
}

/// Sets the flag at an index.
fn set(flags: &mut Vec<bool>, index: usize) {
    if let Some(flag) = flags.get_mut(index) {
        *flag = true;
    }
}

/// Returns whether the flag at an index is set.
fn is_set(flags: &[bool], index: usize) -> bool {
    flags.get(index).copied().unwrap_or(false)
}

/// Sets the flag of a precedence.
fn set_named(flags: &mut Vec<bool>, ast: &GrammarAST, name: &str) {
    if let Some(index) = ast.precs().get_index_of(name) {
        set(flags, index);
    }
}

/// Adds a warning for each precedence that settles no conflict, as that of the token or of the production.
fn push_idle_precedences(
    alloc: Global,
    messages: &mut Messages<'_>,
    kit: &ParserKit<u32>,
    pairs: &[Pair],
) -> Result<(), AllocError>
    ensures { OnOk result (AddsWarnings messages.old messages.new) }
{
    let mut used = vec![in alloc; false; kit.ast().precs().len()]?;
    'pairs: for pair in pairs {
        set_named(&mut used, kit.ast(), token_name(kit.grm(), pair.tidx));
        set_named(&mut used, kit.ast(), giver(kit.ast(), pair.pidx));
    }
    let what = "Nothing is settled by the precedence of";
    let mut index: usize = 0;
    'precedences: for (_name, kept) in kit.ast().precs() {
        if !is_set(used.as_slice(), index) {
            push_named(alloc, messages, Severity::Warning, kept.1, what)?;
        }
        index = index.saturating_add(1);
    }
    Ok(())
}

/// Returns whether a production has a `%prec` that changes nothing: it names the last token, or no conflict is settled by it.
fn has_idle_prec(production: &Production, settles: bool) -> bool {
    match production.precedence() {
        Some(name) => !settles || last_token(production) == name.as_str(),
        None => false,
    }
}

/// Adds the warning that a production's `%prec` changes nothing.
fn push_idle_prec(
    alloc: Global,
    messages: &mut Messages<'_>,
    production: &Production,
) -> Result<(), AllocError>
    ensures { OnOk result (AddsOne (λ m. m ≡ said_in messages.old.text Warning (Some (production_of production.now).span) (codes "%prec changes nothing")) messages.old messages.new) }
{
    let span = Some(production.prod_span());
    let words = String::from_str(alloc, "%prec changes nothing")?;
    messages.push(Message::new(Severity::Warning, span, words))
}

/// Adds a warning for each `%prec` that changes nothing.
fn push_idle_precs(
    alloc: Global,
    messages: &mut Messages<'_>,
    ast: &GrammarAST,
    pairs: &[Pair],
) -> Result<(), AllocError>
    ensures { OnOk result (AddsWarnings messages.old messages.new) }
{
    let mut settles = vec![in alloc; false; ast.prods().len()]?;
    'pairs: for pair in pairs {
        set(&mut settles, pair.pidx.0.to_usize());
    }
    'productions: for index in 0..ast.prods().len() {
        let production = &ast.prods()[index];
        let idle = has_idle_prec(production, is_set(settles.as_slice(), index));
        if idle {
            push_idle_prec(alloc, messages, production)?;
        }
    }
    Ok(())
}

/// Sets the flags of the productions that are reduced in some state.
fn set_reduced(flags: &mut Vec<bool>, table: &StateTable<u32>) {
    'states: for state in 0..table.states_len().0.to_usize() {
        let cells = table.state_cells(table.state_at(state));
        'cells: for index in 0..cells.len() {
            if let (_, Action::Reduce(pidx)) = cells[index] {
                set(flags, pidx.0.to_usize());
            }
        }
    }
}

/// Returns the productions that stand complete in some state, in order.
fn all_ended(alloc: Global, kit: &ParserKit<u32>) -> Result<Vec<PIdx<u32>>, AllocError> {
    let mut ended = Vec::new(alloc);
    'states: for state in 0..kit.sgraph().all_states_len().0.to_usize() {
        let items = kit.sgraph().closed_state(kit.sgraph().state_at(state));
        'items: for index in 0..items.len() {
            let item = items.item_at(index);
            if is_ended(kit.grm(), item) {
                ended.push(item.0)?;
            }
        }
    }
    ended.sort()?;
    ended.dedup();
    Ok(ended)
}

/// Adds a warning for each production of the text that stands complete in some state, and is reduced in none.
fn push_unreduced(
    alloc: Global,
    messages: &mut Messages<'_>,
    kit: &ParserKit<u32>,
) -> Result<(), AllocError>
    ensures { OnOk result (AddsWarnings messages.old messages.new) }
{
    let count = kit.ast().prods().len();
    let mut reduced = vec![in alloc; false; count]?;
    set_reduced(&mut reduced, kit.stable());
    let ended = all_ended(alloc, kit)?;
    'productions: for index in 0..ended.len() {
        let number = ended[index].0.to_usize();
        let idle = number < count && !is_set(reduced.as_slice(), number);
        if idle {
            push_never(alloc, messages, kit, ended[index])?;
        }
    }
    Ok(())
}

/// Adds the warning that a production is never reduced.
fn push_never(
    alloc: Global,
    messages: &mut Messages<'_>,
    kit: &ParserKit<u32>,
    pidx: PIdx<u32>,
) -> Result<(), AllocError>
    ensures { OnOk result (AddsOne (λ m. m ≡ said_in messages.old.text Warning (production_place kit.now.kept.ast pidx.0) (codes "Never reduced: " ++ prod_text kit.now.parser.grammar pidx.0)) messages.old messages.new) }
{
    let mut words = String::from_str(alloc, "Never reduced: ")?;
    push_prod(&mut words, kit.grm(), pidx)?;
    let span = production_span(kit.ast(), pidx);
    messages.push(Message::new(Severity::Warning, span, words))
}

/// Adds warnings of what has no effect, with these pairs settled by precedence.
pub(crate) fn push_idle(
    alloc: Global,
    messages: &mut Messages<'_>,
    kit: &ParserKit<u32>,
    pairs: &[Pair],
) -> Result<(), AllocError>
    ensures { OnOk result (AddsWarnings messages.old messages.new) }
{
    push_idle_precedences(alloc, messages, kit, pairs)?;
    push_idle_precs(alloc, messages, kit.ast(), pairs)?;
    push_unreduced(alloc, messages, kit)
}
