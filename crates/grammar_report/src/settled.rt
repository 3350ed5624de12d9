//! Where precedences choose between a shift and a reduction.

use cfg_base::index::IndexStorage;
use cfg_base::symbol::{PIdx, SIdx, Symbol, TIdx};
use grammar_names::{Grammar, body_len, push_prod, push_token};
use lrtable::{Action, Itemset, StIdx, StateTable};
use parser_kit::ParserKit;
use std::alloc::{AllocError, Global};

/// What is chosen, in the order in which it is told.
#[derive(Clone, Copy, PartialEq, Eq, PartialOrd, Ord)]
enum Choice {
    Reduce,
    Shift,
    Error,
}

/// What is chosen where a production may be reduced before a token that may be shifted.
#[derive(Clone, Copy, PartialEq, Eq, PartialOrd, Ord)]
pub(crate) struct Pair {
    pub pidx: PIdx<u32>,
    choice: Choice,
    pub tidx: TIdx<u32>,
}

/// Whether the dot stands behind all symbols of a production.
pub(crate) fn is_ended(grm: &Grammar, item: (PIdx<u32>, SIdx<u32>)) -> bool {
    let (pidx, dot) = item;
    dot.0.to_usize() == body_len(grm, pidx)
}

/// The indexes of the items of a state whose dot stands at the end.
fn ended_items(
    alloc: Global,
    grm: &Grammar,
    items: &Itemset<u32>,
) -> Result<Vec<usize>, AllocError> {
    let mut ended = Vec::new(alloc);
    'items: for index in 0..items.len() {
        if is_ended(grm, items.item_at(index)) {
            ended.push(index)?;
        }
    }
    Ok(ended)
}

/// The first production of these items that has a token among its lookaheads. Items ascend by production.
fn first_looking(items: &Itemset<u32>, indexes: &[usize], token: usize) -> Option<PIdx<u32>> {
    'indexes: for i in 0..indexes.len() {
        let index = indexes[i];
        if index < items.len() && items.looks_at(index).get(token) == Some(true) {
            let (pidx, _) = items.item_at(index);
            return Some(pidx);
        }
    }
    None
}

/// The tokens that have a precedence. Where a token or the production has none, a conflict of the two is listed.
fn ranked_tokens(alloc: Global, grm: &Grammar) -> Result<Vec<TIdx<u32>>, AllocError> {
    let mut ranked = Vec::new(alloc);
    'tokens: for token in 0..grm.tokens_len().0.to_usize() {
        let tidx = grm.token_at(token);
        if grm.token_precedence(tidx).is_some() {
            ranked.push(tidx)?;
        }
    }
    Ok(ranked)
}

/// Whether a production has a precedence.
fn is_ranked(grm: &Grammar, pidx: PIdx<u32>) -> bool {
    grm.has_prod(pidx) && grm.prod_precedence(pidx).is_some()
}

/// What a state does on a token.
fn choice_on(table: &StateTable<u32>, stidx: StIdx<u32>, tidx: TIdx<u32>) -> Choice {
    if !table.has_state(stidx) || tidx.0.to_usize() >= table.tokens_len().0.to_usize() {
        return Choice::Error;
    }
    match table.action(stidx, tidx) {
        Action::Reduce(_) => Choice::Reduce,
        Action::Shift(_) => Choice::Shift,
        Action::Accept | Action::Error => Choice::Error,
    }
}

/// What is chosen in a state on a token with a precedence, if precedences choose there: a shift against the first reduction.
fn pair_on(
    kit: &ParserKit<u32>,
    stidx: StIdx<u32>,
    items: &Itemset<u32>,
    ended: &[usize],
    tidx: TIdx<u32>,
) -> Option<Pair> {
    let pidx = first_looking(items, ended, tidx.0.to_usize())?;
    kit.sgraph().edge(stidx, Symbol::Token(tidx))?;
    if !is_ranked(kit.grm(), pidx) {
        return None;
    }
    let choice = choice_on(kit.stable(), stidx, tidx);
    Some(Pair { pidx, choice, tidx })
}

/// Adds what is chosen in a state on tokens with a precedence.
fn add_pairs(
    alloc: Global,
    pairs: &mut Vec<Pair>,
    kit: &ParserKit<u32>,
    stidx: StIdx<u32>,
    items: &Itemset<u32>,
    ranked: &[TIdx<u32>],
) -> Result<(), AllocError> {
    let ended = ended_items(alloc, kit.grm(), items)?;
    if ended.is_empty() {
        return Ok(());
    }
    'tokens: for token in ranked {
        let tidx = *token;
        if let Some(pair) = pair_on(kit, stidx, items, ended.as_slice(), tidx) {
            pairs.push(pair)?;
        }
    }
    Ok(())
}

/// What is chosen in all states, ordered by production, choice and token.
pub(crate) fn all_pairs(alloc: Global, kit: &ParserKit<u32>) -> Result<Vec<Pair>, AllocError> {
    let mut pairs = Vec::new(alloc);
    let ranked = ranked_tokens(alloc, kit.grm())?;
    'states: for state in 0..kit.sgraph().all_states_len().0.to_usize() {
        let stidx = kit.sgraph().state_at(state);
        let items = kit.sgraph().closed_state(stidx);
        add_pairs(alloc, &mut pairs, kit, stidx, items, ranked.as_slice())?;
    }
    pairs.sort()?;
    Ok(pairs)
}

fn word_of(choice: Choice) -> &'static str {
    match choice {
        Choice::Reduce => "reduce",
        Choice::Shift => "shift",
        Choice::Error => "error",
    }
}

/// Adds a pair behind the one before it: what both share isn't told again.
fn push_pair(
    text: &mut String,
    grm: &Grammar,
    before: Option<Pair>,
    pair: Pair,
) -> Result<(), AllocError> {
    if before == Some(pair) {
        return Ok(());
    }
    let (same_prod, same_choice) = match before {
        Some(other) => (other.pidx == pair.pidx, other.choice == pair.choice),
        None => (false, false),
    };
    if !same_prod {
        text.push_str("\n  ")?;
        push_prod(text, grm, pair.pidx)?;
    }
    if !same_prod || !same_choice {
        text.push_str("\n    ")?;
        text.push_str(word_of(pair.choice))?;
        text.push_str(" before")?;
    }
    push_token(text, grm, pair.tidx)
}

/// Adds what precedences settle: for each production that may be reduced before a token that may be shifted, which of the
/// two is done on which tokens, or neither. It is the same in each state, since the two precedences alone decide.
pub(crate) fn push_settled(
    text: &mut String,
    grm: &Grammar,
    pairs: &[Pair],
) -> Result<(), AllocError> {
    if pairs.is_empty() {
        return Ok(());
    }
    text.push_str("Settled by precedence:")?;
    let mut before = None;
    'pairs: for index in 0..pairs.len() {
        push_pair(text, grm, before, pairs[index])?;
        before = Some(pairs[index]);
    }
    text.push_str("\n\n")
}
