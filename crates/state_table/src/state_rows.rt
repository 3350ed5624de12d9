//! The row of cells of a state, and the conflicts that are listed of it.

ghost use Rattle.std.specs.Prelude.{◌≡◌, ◌<◌, ◌+◌, ◌++◌, ◌∷◌, ◌&&◌, false, [], ℕ, ◌≤◌, length, nat_eq, get_or, None, Some, IfOk, IfSome, OnOk, MatchOption};
ghost use Rattle.std.specs.Option.{option_or};
ghost use Rattle.table_theory.specs.Cells.{pairs_at};
ghost use Rattle.cfg_theory.specs.Grammar.{end_token};
ghost use Rattle.vob.specs.Sets.{is_set};
ghost use Rattle.lr_theory.specs.Automaton.{Action as CellAction};
ghost use Rattle.state_table.specs.CellRows.{AreApart, FitsParts, HasOnlyShifts, IsBlank, IsContested, IsPlain, StandsAt, cells_by, filled, filled_row, first_of, lone_cells, pair_with, pairs_in, pairs_on, reductions_on, shift_to, shifts_in, shifts_on};
ghost use Rattle.state_table.specs.CellViews.{action_of, cells_of, pairs_of, parts_of, precedences_of, production_of, reduction_of, reductions_of, shifts_of, state_of, targets_of};
ghost use Rattle.state_table.specs.Marks.{LeavesOut};
ghost use Rattle.state_table.specs.Meeting.{rows_in};
ghost use Rattle.state_table.specs.Cursors.{IsCursor};
ghost use Rattle.state_table.specs.Rows.{Rises, at_of};

use crate::capacities::bits_set;
use crate::cells::{Action, cell_on, list_shift, put_cell};
use crate::stidx::StIdx;
use cfg_base::index::IndexStorage;
use cfg_base::symbol::{PIdx, TIdx};
use cfg_numbered::yacc::NumberedGrammar;
use std::alloc::{AllocError, Global};
use vob::Vob;

/// A listed pair of reductions: the token, the two productions, and the state.
pub type ReduceReduce<S> = (TIdx<S>, PIdx<S>, PIdx<S>, StIdx<S>);

/// A listed shift against a reduction: the token, the production, and the state.
pub type ShiftReduce<S> = (TIdx<S>, PIdx<S>, StIdx<S>);

/// A complete item: its production, and the index of its lookaheads in a list of sets.
#[derive(Clone, Copy)]
pub(crate) struct Reduction<S> {
    pub pidx: PIdx<S>,
    pub set: usize,
}

/// The parts of a state from which its row is made.
#[derive(Drop)]
pub(crate) struct StateParts<S> {
    /// The complete items of other productions than the start's, by production.
    pub reductions: Vec<Reduction<S>>,
    /// The edges on tokens, by token.
    pub shifts: Vec<(u32, StIdx<S>)>,
    /// Whether the state has the complete start production.
    pub accepts: bool,
}

impl<S: IndexStorage> StateParts<S> {
    /// Makes the parts of no state.
    pub(crate) fn new(alloc: Global) -> StateParts<S> {
        StateParts {
            reductions: Vec::new(alloc),
            shifts: Vec::new(alloc),
            accepts: false,
        }
    }
}

/// What the row of a state is made of.
#[derive(Drop)]
pub(crate) struct RowSource<'a, S: IndexStorage> {
    pub grm: &'a NumberedGrammar<S>,
    pub stidx: StIdx<S>,
    pub parts: &'a StateParts<S>,
    /// The lookaheads that reductions name by index.
    pub sets: &'a [Vob],
}

/// Returns whether a token is in a set.
#[tactic(auto, using(crate::proofs::TokenReductions::flag_at))]
fn is_in(tokens: &Vob, number: usize) -> bool
    ensures { result ≡ is_set tokens.now.bits number }
{
    tokens.get(number).unwrap_or(false)
}

/// Returns whether a token is in the set of an index; past the last set none is.
fn has_token(sets: &[Vob], set: usize, number: usize) -> bool
    ensures { result ≡ is_set (get_or (rows_in sets.now) set []) number }
{
    if set >= sets.len() {
        return false;
    }
    is_in(&sets[set], number)
}

/// Returns the first production that reduces on a token.
fn first_reduction<S: IndexStorage>(
    reductions: &[Reduction<S>],
    sets: &[Vob],
    number: usize,
) -> Option<PIdx<S>>
    ensures { production_of S.number result ≡ first_of (reductions_on (reductions_of S.number (rows_in sets.now) reductions.now) number) }
{
    'each: for i in 0..reductions.len() {
        let reduction = reductions[i];
        if has_token(sets, reduction.set, number) {
            return Some(reduction.pidx);
        }
    }
    None
}

/// Notes a production that reduces: the first one is stored, and each other one listed with it.
fn note_reduction<S: IndexStorage>(
    tidx: TIdx<S>,
    stidx: StIdx<S>,
    pidx: PIdx<S>,
    first: &mut Option<PIdx<S>>,
    listed: &mut Vec<ReduceReduce<S>>,
) -> Result<(), AllocError>
    ensures first { OnOk result (production_of S.number first.new ≡ option_or (production_of S.number first.old) (Some (S.number pidx.0))) }
    ensures listed { OnOk result (pairs_of S.number listed.new.items ≡ pairs_of S.number listed.old.items ++ pair_with (production_of S.number first.old) (S.number stidx.0) (S.number tidx.0) (S.number pidx.0)) }
{
    match *first {
        None => {
            *first = Some(pidx);
            Ok(())
        }
        Some(least) => {
            listed.push((tidx, least, pidx, stidx))?;
            Ok(())
        }
    }
}

/// Returns the first production that reduces on a token; each other one is listed with it.
fn list_reductions<S: IndexStorage>(
    reductions: &[Reduction<S>],
    sets: &[Vob],
    tidx: TIdx<S>,
    stidx: StIdx<S>,
    listed: &mut Vec<ReduceReduce<S>>,
) -> Result<Option<PIdx<S>>, AllocError>
    ensures first { IfOk result (λ r. production_of S.number r ≡ first_of (reductions_on (reductions_of S.number (rows_in sets.now) reductions.now) (S.number tidx.0))) }
    ensures listed { OnOk result (pairs_of S.number listed.new.items ≡ pairs_of S.number listed.old.items ++ pairs_at (S.number stidx.0) (S.number tidx.0) (reductions_on (reductions_of S.number (rows_in sets.now) reductions.now) (S.number tidx.0))) }
{
    let number = tidx.0.to_usize();
    let mut first = None;
    'each: for i in 0..reductions.len() {
        let reduction = reductions[i];
        if has_token(sets, reduction.set, number) {
            note_reduction(tidx, stidx, reduction.pidx, &mut first, listed)?;
        }
    }
    Ok(first)
}

/// Returns whether a state accepts on a token: on the end token, if it has the complete start production.
fn accepts_on<S: IndexStorage>(grm: &NumberedGrammar<S>, has_complete: bool, tidx: TIdx<S>) -> bool
    ensures { result ≡ (nat_eq (S.number tidx.0) (end_token grm.now.grammar) && has_complete) }
{
    if tidx.0.to_usize() == grm.eof_token_idx().0.to_usize() {
        return has_complete;
    }
    false
}

/// Puts the cell of a token and its listed conflicts behind those of the tokens before, whatever the cell is.
fn settle_token<S: IndexStorage>(
    source: &RowSource<'_, S>,
    tidx: TIdx<S>,
    edge: Option<StIdx<S>>,
    row: &mut Vec<(u32, Action<S>)>,
    pairs: &mut Vec<ReduceReduce<S>>,
    shifts: &mut Vec<ShiftReduce<S>>,
) -> Result<(), AllocError>
    requires token { S.number tidx.0 < source.now.grm.now.grammar.tokens }
    requires fits { FitsParts source.now.grm.now.grammar (parts_of S.number (rows_in source.now.sets.now) source.now.parts.now) }
    requires edge { state_of S.number edge ≡ at_of (targets_of S.number source.now.parts.now.shifts.items) (S.number tidx.0) }
    ensures row { OnOk result (cells_of S.number row.new.items ≡ cells_of S.number row.old.items ++ filled (S.number tidx.0) (cells_by source.now.grm.now.grammar (precedences_of source.now.grm.now) (parts_of S.number (rows_in source.now.sets.now) source.now.parts.now) (S.number tidx.0))) }
    ensures pairs { OnOk result (pairs_of S.number pairs.new.items ≡ pairs_of S.number pairs.old.items ++ pairs_on (S.number source.now.stidx.0) (parts_of S.number (rows_in source.now.sets.now) source.now.parts.now) (S.number tidx.0)) }
    ensures shifts { OnOk result (shifts_of S.number shifts.new.items ≡ shifts_of S.number shifts.old.items ++ shifts_on (precedences_of source.now.grm.now) (S.number source.now.stidx.0) (parts_of S.number (rows_in source.now.sets.now) source.now.parts.now) (S.number tidx.0)) }
{
    let reductions = source.parts.reductions.as_slice();
    let first = list_reductions(reductions, source.sets, tidx, source.stidx, pairs)?;
    list_shift(source.grm, tidx, first, edge, source.stidx, shifts)?;
    let accepts = accepts_on(source.grm, source.parts.accepts, tidx);
    let cell = cell_on(source.grm, tidx, accepts, first, edge);
    put_cell(row, tidx, cell)?;
    Ok(())
}

/// Returns the cell of a token on which no production reduces, if it has an edge.
fn shift_cell<S: IndexStorage>(edge: Option<StIdx<S>>) -> Option<Action<S>>
    ensures { IfSome result (λ a. IsPlain [] (state_of S.number edge) (action_of S.number a)) }
{
    match edge {
        Some(target) => Some(Action::Shift(target)),
        None => None,
    }
}

/// Returns the cell of a token by the one reduction of a state, unless there is an edge as well, or neither.
fn lone_cell<S: IndexStorage>(
    reduction: Reduction<S>,
    sets: &[Vob],
    number: usize,
    edge: Option<StIdx<S>>,
) -> Option<Action<S>>
    ensures { IfSome result (λ a. IsPlain (reductions_on (reduction_of S.number (rows_in sets.now) reduction ∷ []) number) (state_of S.number edge) (action_of S.number a)) }
{
    if !has_token(sets, reduction.set, number) {
        return shift_cell(edge);
    }
    match edge {
        Some(_) => None,
        None => Some(Action::Reduce(reduction.pidx)),
    }
}

/// Returns the cell of a token for which nothing contends, of a state with one reduction at most that doesn't accept.
fn plain_cell<S: IndexStorage>(
    parts: &StateParts<S>,
    sets: &[Vob],
    number: usize,
    edge: Option<StIdx<S>>,
) -> Option<Action<S>>
    ensures plain { IfSome result (λ a. IsPlain (reductions_on (reductions_of S.number (rows_in sets.now) parts.now.reductions.items) number) (state_of S.number edge) (action_of S.number a)) }
    ensures quiet { IfSome result (λ a. parts.now.accepts ≡ false) }
{
    if parts.accepts {
        return None;
    }
    let count = parts.reductions.len();
    if count == 0 {
        return shift_cell(edge);
    }
    if count == 1 {
        return lone_cell(parts.reductions[0], sets, number, edge);
    }
    None
}

/// Puts the cell of a token and its listed conflicts behind those of the tokens before.
fn put_token<S: IndexStorage>(
    source: &RowSource<'_, S>,
    tidx: TIdx<S>,
    edge: Option<StIdx<S>>,
    row: &mut Vec<(u32, Action<S>)>,
    pairs: &mut Vec<ReduceReduce<S>>,
    shifts: &mut Vec<ShiftReduce<S>>,
) -> Result<(), AllocError>
    requires token { S.number tidx.0 < source.now.grm.now.grammar.tokens }
    requires fits { FitsParts source.now.grm.now.grammar (parts_of S.number (rows_in source.now.sets.now) source.now.parts.now) }
    requires edge { state_of S.number edge ≡ at_of (targets_of S.number source.now.parts.now.shifts.items) (S.number tidx.0) }
    ensures row { OnOk result (cells_of S.number row.new.items ≡ cells_of S.number row.old.items ++ filled (S.number tidx.0) (cells_by source.now.grm.now.grammar (precedences_of source.now.grm.now) (parts_of S.number (rows_in source.now.sets.now) source.now.parts.now) (S.number tidx.0))) }
    ensures pairs { OnOk result (pairs_of S.number pairs.new.items ≡ pairs_of S.number pairs.old.items ++ pairs_on (S.number source.now.stidx.0) (parts_of S.number (rows_in source.now.sets.now) source.now.parts.now) (S.number tidx.0)) }
    ensures shifts { OnOk result (shifts_of S.number shifts.new.items ≡ shifts_of S.number shifts.old.items ++ shifts_on (precedences_of source.now.grm.now) (S.number source.now.stidx.0) (parts_of S.number (rows_in source.now.sets.now) source.now.parts.now) (S.number tidx.0)) }
{
    let number = tidx.0.to_usize();
    match plain_cell(source.parts, source.sets, number, edge) {
        Some(cell) => {
            put_cell(row, tidx, cell)?;
            Ok(())
        }
        None => settle_token(source, tidx, edge, row, pairs, shifts),
    }
}

/// Returns the target of the edge on a token, of a row of which all edges on tokens before were taken.
fn take_edge<S: IndexStorage>(
    shifts: &[(u32, StIdx<S>)],
    next: &mut usize,
    number: usize,
) -> Option<StIdx<S>>
    requires rises { Rises (targets_of S.number shifts.now) }
    requires next { IsCursor (targets_of S.number shifts.now) next.old number }
    ensures edge { state_of S.number result ≡ at_of (targets_of S.number shifts.now) number }
    ensures next { IsCursor (targets_of S.number shifts.now) next.new (number + 1) }
{
    let index = *next;
    if index >= shifts.len() {
        return None;
    }
    let (at, target) = shifts[index];
    if at as usize != number {
        return None;
    }
    *next = index + 1;
    Some(target)
}

/// Marks the tokens of a set, or all tokens where the set is of another size.
fn mark_set(marks: &mut Vob, tokens: &Vob)
    ensures { LeavesOut (λ t. is_set tokens.now.bits t ≡ false) marks.old.bits marks.new.bits }
{
    if tokens.len() != marks.len() {
        marks.set_all(true);
        return;
    }
    marks.or(tokens);
}

/// Marks the tokens of a reduction.
fn mark_reduction<S: IndexStorage>(marks: &mut Vob, sets: &[Vob], reduction: Reduction<S>)
    ensures { LeavesOut (λ t. is_set (get_or (rows_in sets.now) reduction.set []) t ≡ false) marks.old.bits marks.new.bits }
{
    if reduction.set < sets.len() {
        mark_set(marks, &sets[reduction.set]);
    }
}

/// Marks the tokens of reductions.
fn mark_reductions<S: IndexStorage>(marks: &mut Vob, sets: &[Vob], reductions: &[Reduction<S>])
    ensures { LeavesOut (λ t. reductions_on (reductions_of S.number (rows_in sets.now) reductions.now) t ≡ []) marks.old.bits marks.new.bits }
{
    'each: for i in 0..reductions.len() {
        mark_reduction(marks, sets, reductions[i]);
    }
}

/// Marks a token, if the set has its number.
fn mark_token(marks: &mut Vob, number: usize)
    ensures { LeavesOut (λ t. t ≡ number → ⊥) marks.old.bits marks.new.bits }
{
    if number < marks.len() {
        marks.set(number, true);
    }
}

/// Marks the tokens of edges.
fn mark_shifts<S: IndexStorage>(marks: &mut Vob, shifts: &[(u32, StIdx<S>)])
    ensures { LeavesOut (λ t. at_of (targets_of S.number shifts.now) t ≡ None) marks.old.bits marks.new.bits }
{
    'each: for i in 0..shifts.len() {
        mark_token(marks, shifts[i].0 as usize);
    }
}

/// Returns the tokens whose cells may be filled, and perhaps others.
fn filled_tokens<S: IndexStorage>(
    alloc: Global,
    grm: &NumberedGrammar<S>,
    parts: &StateParts<S>,
    sets: &[Vob],
) -> Result<Vob, AllocError>
    ensures width { IfOk result (λ v. length v.bits ≡ grm.now.grammar.tokens) }
    ensures blank { IfOk result (λ v. (t : ℕ) → t < grm.now.grammar.tokens → is_set v.bits t ≡ false → IsBlank grm.now.grammar (parts_of S.number (rows_in sets.now) parts.now) t) }
{
    let mut marks = Vob::from_elem(alloc, false, grm.tokens_len().0.to_usize())?;
    mark_reductions(&mut marks, sets, parts.reductions.as_slice());
    mark_shifts(&mut marks, parts.shifts.as_slice());
    mark_token(&mut marks, grm.eof_token_idx().0.to_usize());
    Ok(marks)
}

/// Puts the cells of the marked tokens and their listed conflicts behind those of the states before. The cells of the
/// others are errors.
fn put_tokens<S: IndexStorage>(
    source: &RowSource<'_, S>,
    marks: &Vob,
    row: &mut Vec<(u32, Action<S>)>,
    pairs: &mut Vec<ReduceReduce<S>>,
    shifts: &mut Vec<ShiftReduce<S>>,
) -> Result<(), AllocError>
    requires fits { FitsParts source.now.grm.now.grammar (parts_of S.number (rows_in source.now.sets.now) source.now.parts.now) }
    requires width { length marks.now.bits ≡ source.now.grm.now.grammar.tokens }
    requires blank { (t : ℕ) → t < source.now.grm.now.grammar.tokens → is_set marks.now.bits t ≡ false → IsBlank source.now.grm.now.grammar (parts_of S.number (rows_in source.now.sets.now) source.now.parts.now) t }
    requires none { row.old.items ≡ [] }
    ensures row { OnOk result (cells_of S.number row.new.items ≡ filled_row (cells_by source.now.grm.now.grammar (precedences_of source.now.grm.now) (parts_of S.number (rows_in source.now.sets.now) source.now.parts.now)) source.now.grm.now.grammar.tokens) }
    ensures pairs { OnOk result (pairs_of S.number pairs.new.items ≡ pairs_of S.number pairs.old.items ++ pairs_in (S.number source.now.stidx.0) (parts_of S.number (rows_in source.now.sets.now) source.now.parts.now) source.now.grm.now.grammar.tokens) }
    ensures shifts { OnOk result (shifts_of S.number shifts.new.items ≡ shifts_of S.number shifts.old.items ++ shifts_in (precedences_of source.now.grm.now) (S.number source.now.stidx.0) (parts_of S.number (rows_in source.now.sets.now) source.now.parts.now) source.now.grm.now.grammar.tokens) }
{
    let mut next = 0;
    'tokens: for number in marks.iter_set_bits(..) {
        let edge = take_edge(source.parts.shifts.as_slice(), &mut next, number);
        let tidx = source.grm.token_at(number);
        put_token(source, tidx, edge, row, pairs, shifts)?;
    }
    Ok(())
}

/// Returns the row of a state whose cells may have several actions; its conflicts are listed behind those of the
/// states before.
fn settled_row<S: IndexStorage>(
    alloc: Global,
    source: &RowSource<'_, S>,
    pairs: &mut Vec<ReduceReduce<S>>,
    shifts: &mut Vec<ShiftReduce<S>>,
) -> Result<Vec<(u32, Action<S>)>, AllocError>
    requires { FitsParts source.now.grm.now.grammar (parts_of S.number (rows_in source.now.sets.now) source.now.parts.now) }
    ensures row { IfOk result (λ r. cells_of S.number r.items ≡ filled_row (cells_by source.now.grm.now.grammar (precedences_of source.now.grm.now) (parts_of S.number (rows_in source.now.sets.now) source.now.parts.now)) source.now.grm.now.grammar.tokens) }
    ensures pairs { OnOk result (pairs_of S.number pairs.new.items ≡ pairs_of S.number pairs.old.items ++ pairs_in (S.number source.now.stidx.0) (parts_of S.number (rows_in source.now.sets.now) source.now.parts.now) source.now.grm.now.grammar.tokens) }
    ensures shifts { OnOk result (shifts_of S.number shifts.new.items ≡ shifts_of S.number shifts.old.items ++ shifts_in (precedences_of source.now.grm.now) (S.number source.now.stidx.0) (parts_of S.number (rows_in source.now.sets.now) source.now.parts.now) source.now.grm.now.grammar.tokens) }
{
    let marks = filled_tokens(alloc, source.grm, source.parts, source.sets)?;
    let mut row = Vec::with_capacity(alloc, bits_set(&marks))?;
    put_tokens(source, &marks, &mut row, pairs, shifts)?;
    Ok(row)
}

/// Puts the shifts of edges behind the cells so far, from the next edge on: of those on tokens before a number.
fn put_shifts<S: IndexStorage>(
    shifts: &[(u32, StIdx<S>)],
    next: &mut usize,
    end: usize,
    row: &mut Vec<(u32, Action<S>)>,
) -> Result<(), AllocError>
    requires { Rises (targets_of S.number shifts.now) }
    ensures { OnOk result ((cells : ℕ → CellAction) (n : ℕ) → n ≤ end → HasOnlyShifts cells (targets_of S.number shifts.now) n end → StandsAt cells (targets_of S.number shifts.now) n next.old (cells_of S.number row.old.items) →
        StandsAt cells (targets_of S.number shifts.now) end next.new (cells_of S.number row.new.items)) }
{
    'edges: for i in *next..shifts.len() {
        let (at, target) = shifts[i];
        if at as usize >= end {
            return Ok(());
        }
        row.push((at, Action::Shift(target)))?;
        *next = i + 1;
    }
    Ok(())
}

/// Returns the row of a state that shifts alone.
fn shift_row<S: IndexStorage>(
    alloc: Global,
    shifts: &[(u32, StIdx<S>)],
    width: usize,
) -> Result<Vec<(u32, Action<S>)>, AllocError>
    requires { Rises (targets_of S.number shifts.now) }
    ensures { IfOk result (λ r. cells_of S.number r.items ≡ filled_row (λ t. shift_to (at_of (targets_of S.number shifts.now) t)) width) }
{
    let mut row = Vec::with_capacity(alloc, shifts.len())?;
    let mut next = 0;
    put_shifts(shifts, &mut next, width, &mut row)?;
    Ok(row)
}

/// Returns whether a token of a set has an edge.
fn crosses<S: IndexStorage>(shifts: &[(u32, StIdx<S>)], tokens: &Vob) -> bool
    ensures { result ≡ false → AreApart tokens.now.bits (targets_of S.number shifts.now) }
{
    'each: for i in 0..shifts.len() {
        if is_in(tokens, shifts[i].0 as usize) {
            return true;
        }
    }
    false
}

/// Puts shifts, and the reductions by one production on the tokens of a set, none of which has an edge.
fn put_lone<S: IndexStorage>(
    shifts: &[(u32, StIdx<S>)],
    tokens: &Vob,
    pidx: PIdx<S>,
    row: &mut Vec<(u32, Action<S>)>,
) -> Result<(), AllocError>
    requires rises { Rises (targets_of S.number shifts.now) }
    requires apart { AreApart tokens.now.bits (targets_of S.number shifts.now) }
    requires width { length tokens.now.bits ≤ S.MAX }
    requires none { row.old.items ≡ [] }
    ensures { OnOk result (cells_of S.number row.new.items ≡ filled_row (lone_cells (S.number pidx.0) tokens.now.bits (targets_of S.number shifts.now)) (length tokens.now.bits)) }
{
    let mut next = 0;
    'tokens: for number in tokens.iter_set_bits(..) {
        put_shifts(shifts, &mut next, number, row)?;
        let at = number as u32;
        row.push((at, Action::Reduce(pidx)))?;
    }
    put_shifts(shifts, &mut next, tokens.len(), row)?;
    Ok(())
}

/// Returns a row of shifts, and of the reductions by one production on the tokens of a set, none of which has an
/// edge.
fn lone_row<S: IndexStorage>(
    alloc: Global,
    shifts: &[(u32, StIdx<S>)],
    tokens: &Vob,
    pidx: PIdx<S>,
) -> Result<Vec<(u32, Action<S>)>, AllocError>
    requires rises { Rises (targets_of S.number shifts.now) }
    requires apart { AreApart tokens.now.bits (targets_of S.number shifts.now) }
    requires width { length tokens.now.bits ≤ S.MAX }
    ensures { IfOk result (λ r. cells_of S.number r.items ≡ filled_row (lone_cells (S.number pidx.0) tokens.now.bits (targets_of S.number shifts.now)) (length tokens.now.bits)) }
{
    let count = bits_set(tokens);
    let mut row = Vec::with_capacity(alloc, count.saturating_add(shifts.len()))?;
    put_lone(shifts, tokens, pidx, &mut row)?;
    Ok(row)
}

/// Returns the row of a state that has one reduction and doesn't accept; its conflicts are listed behind those of the
/// states before.
fn reducing_row<S: IndexStorage>(
    alloc: Global,
    source: &RowSource<'_, S>,
    pairs: &mut Vec<ReduceReduce<S>>,
    shifts: &mut Vec<ShiftReduce<S>>,
) -> Result<Vec<(u32, Action<S>)>, AllocError>
    requires one { length source.now.parts.now.reductions.items ≡ 1 }
    requires quiet { source.now.parts.now.accepts ≡ false }
    requires fits { FitsParts source.now.grm.now.grammar (parts_of S.number (rows_in source.now.sets.now) source.now.parts.now) }
    ensures row { IfOk result (λ r. cells_of S.number r.items ≡ filled_row (cells_by source.now.grm.now.grammar (precedences_of source.now.grm.now) (parts_of S.number (rows_in source.now.sets.now) source.now.parts.now)) source.now.grm.now.grammar.tokens) }
    ensures pairs { OnOk result (pairs_of S.number pairs.new.items ≡ pairs_of S.number pairs.old.items ++ pairs_in (S.number source.now.stidx.0) (parts_of S.number (rows_in source.now.sets.now) source.now.parts.now) source.now.grm.now.grammar.tokens) }
    ensures shifts { OnOk result (shifts_of S.number shifts.new.items ≡ shifts_of S.number shifts.old.items ++ shifts_in (precedences_of source.now.grm.now) (S.number source.now.stidx.0) (parts_of S.number (rows_in source.now.sets.now) source.now.parts.now) source.now.grm.now.grammar.tokens) }
{
    let sets = source.sets;
    let reduction = source.parts.reductions[0];
    let edges = source.parts.shifts.as_slice();
    if reduction.set >= sets.len() {
        return settled_row(alloc, source, pairs, shifts);
    }
    let tokens = &sets[reduction.set];
    if tokens.len() != source.grm.tokens_len().0.to_usize() {
        return settled_row(alloc, source, pairs, shifts);
    }
    if crosses(edges, tokens) {
        return settled_row(alloc, source, pairs, shifts);
    }
    let row = lone_row(alloc, edges, tokens, reduction.pidx)?;
    Ok(row)
}

/// Returns the row of a state; its conflicts are listed behind those of the states before.
pub(crate) fn state_row<S: IndexStorage>(
    alloc: Global,
    source: &RowSource<'_, S>,
    pairs: &mut Vec<ReduceReduce<S>>,
    shifts: &mut Vec<ShiftReduce<S>>,
) -> Result<Vec<(u32, Action<S>)>, AllocError>
    requires { FitsParts source.now.grm.now.grammar (parts_of S.number (rows_in source.now.sets.now) source.now.parts.now) }
    ensures row { IfOk result (λ r. cells_of S.number r.items ≡ filled_row (cells_by source.now.grm.now.grammar (precedences_of source.now.grm.now) (parts_of S.number (rows_in source.now.sets.now) source.now.parts.now)) source.now.grm.now.grammar.tokens) }
    ensures pairs { OnOk result (pairs_of S.number pairs.new.items ≡ pairs_of S.number pairs.old.items ++ pairs_in (S.number source.now.stidx.0) (parts_of S.number (rows_in source.now.sets.now) source.now.parts.now) source.now.grm.now.grammar.tokens) }
    ensures shifts { OnOk result (shifts_of S.number shifts.new.items ≡ shifts_of S.number shifts.old.items ++ shifts_in (precedences_of source.now.grm.now) (S.number source.now.stidx.0) (parts_of S.number (rows_in source.now.sets.now) source.now.parts.now) source.now.grm.now.grammar.tokens) }
{
    let accepts = source.parts.accepts;
    if accepts {
        return settled_row(alloc, source, pairs, shifts);
    }
    let reductions = source.parts.reductions.len();
    if reductions == 0 {
        let row = shift_row(
            alloc,
            source.parts.shifts.as_slice(),
            source.grm.tokens_len().0.to_usize(),
        )?;
        return Ok(row);
    }
    if reductions == 1 {
        return reducing_row(alloc, source, pairs, shifts);
    }
    settled_row(alloc, source, pairs, shifts)
}

/// Returns the production that contests accept, if the state accepts and reduces on the end token.
pub(crate) fn contesting<S: IndexStorage>(
    grm: &NumberedGrammar<S>,
    parts: &StateParts<S>,
    sets: &[Vob],
) -> Option<PIdx<S>>
    ensures { MatchOption result ((p : ℕ) → IsContested grm.now.grammar (parts_of S.number (rows_in sets.now) parts.now) p → ⊥) (λ p. IsContested grm.now.grammar (parts_of S.number (rows_in sets.now) parts.now) (S.number p.0)) }
{
    if !parts.accepts {
        return None;
    }
    let end = grm.eof_token_idx().0.to_usize();
    first_reduction(parts.reductions.as_slice(), sets, end)
}
