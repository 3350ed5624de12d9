//! The action of a table at a state and a token. Precedences settle a shift against a reduction as POSIX specifies
//! for yacc.

ghost use Rattle.std.specs.Prelude.{Bool, IsTrue, ◌↔◌, List, ◌∷◌, [], cond, Option, ◌≡◌, ◌<◌, ◌++◌, ℕ, length, Some, None, IfSome, MatchOption, OnOk, option_map};
ghost use Rattle.lr_theory.specs.Automaton.{reduce};
ghost use Rattle.table_theory.specs.Cells.{shifts_at, unsettled_entry, shift_or_reduce, cell_by, ShiftReduce};
ghost use Rattle.state_table.specs.ActionParts.{action_eq};
ghost use Rattle.state_table.specs.CellRows.{OfToken, OfProduction, first_of, cell_from, shifts_from, filled};
ghost use Rattle.state_table.specs.SparseRows.{or_error};
ghost use Rattle.state_table.specs.CellViews.{action_of, cells_of, precedence_of, precedences_of, production_of, state_of, shifts_of};

use crate::rows::row_number;
use crate::stidx::StIdx;
use cfg_base::index::{IndexOrder, IndexStorage};
use cfg_base::precedence::{AssocKind, Precedence};
use cfg_base::symbol::{PIdx, TIdx};
use cfg_numbered::yacc::NumberedGrammar;
use std::alloc::AllocError;

/// What a table does at a state and a token.
#[derive(Clone, Copy, Debug, PartialEq, Eq)]
pub enum Action<S> {
    /// Reads the token and goes to this state.
    Shift(StIdx<S>),
    /// Replaces the symbols of this production by its rule, without reading the token.
    Reduce(PIdx<S>),
    /// Ends the run with a sentence. It comes on the end token alone.
    Accept,
    /// The token is an error here.
    Error,
}

/// Proves that actions are equal where their kinds and their numbers are, and that a clone is the action that was cloned,
/// where that holds for clones of a number.
pub fn action_is_its_kind_and_number<S: IndexOrder>()
    ensures equal { (a b : Action S) → ⟦<Action<S> as PartialEq>⟧.eq a b ≡ action_eq S.number a b }
    ensures clone { ((x y : S) → S.is_clone x y → y ≡ x) → (a b : Action S) → ⟦<Action<S> as Clone>⟧.is_clone a b → b ≡ a }
{}

/// Returns a shift against a reduction, by the token's precedence and the production's.
fn settle<S: IndexStorage>(
    target: StIdx<S>,
    pidx: PIdx<S>,
    token: Option<Precedence>,
    by: Option<Precedence>,
) -> Action<S>
    ensures { action_of S.number result ≡ shift_or_reduce (S.number target.0) (S.number pidx.0) (option_map precedence_of token) (option_map precedence_of by) }
{
    match token {
        None => Action::Shift(target),
        Some(a) => match by {
            None => Action::Shift(target),
            Some(b) => {
                if a.level < b.level {
                    Action::Reduce(pidx)
                } else if b.level < a.level {
                    Action::Shift(target)
                } else {
                    match a.kind {
                        AssocKind::Left => Action::Reduce(pidx),
                        AssocKind::Right => Action::Shift(target),
                        AssocKind::Nonassoc => Action::Error,
                    }
                }
            }
        },
    }
}

/// Returns whether a shift against a reduction is listed.
fn is_unsettled(token: Option<Precedence>, by: Option<Precedence>) -> bool
    ensures { (entry : ShiftReduce) → unsettled_entry entry (option_map precedence_of token) (option_map precedence_of by) ≡ cond result (entry ∷ []) [] }
{
    match token {
        None => true,
        Some(_) => match by {
            None => true,
            Some(_) => false,
        },
    }
}

/// Returns the precedence of a token.
#[tactic(auto, using(crate::proofs::Precedences::token_level))]
fn of_token<S: IndexStorage>(grm: &NumberedGrammar<S>, tidx: TIdx<S>) -> Option<Precedence>
    requires { S.number tidx.0 < grm.now.grammar.tokens }
    ensures { (precedences_of grm.now).of_token (S.number tidx.0) ≡ option_map precedence_of result }
{
    grm.token_precedence(tidx)
}

/// Returns the precedence of a production.
#[tactic(auto, using(crate::proofs::Precedences::production_level))]
fn of_production<S: IndexStorage>(grm: &NumberedGrammar<S>, pidx: PIdx<S>) -> Option<Precedence>
    requires { S.number pidx.0 < length grm.now.grammar.productions }
    ensures { (precedences_of grm.now).of_production (S.number pidx.0) ≡ option_map precedence_of result }
{
    grm.prod_precedence(pidx)
}

/// Returns the cell of a token, by its first reduction and the target of its edge.
pub(crate) fn cell_on<S: IndexStorage>(
    grm: &NumberedGrammar<S>,
    tidx: TIdx<S>,
    accepts: bool,
    reduction: Option<PIdx<S>>,
    edge: Option<StIdx<S>>,
) -> Action<S>
    requires token { S.number tidx.0 < grm.now.grammar.tokens }
    requires production { IfSome reduction (λ p. S.number p.0 < length grm.now.grammar.productions) }
    ensures { action_of S.number result ≡ cell_from accepts (production_of S.number reduction) (state_of S.number edge) ((precedences_of grm.now).of_token (S.number tidx.0)) (precedences_of grm.now).of_production }
{
    if accepts {
        return Action::Accept;
    }
    match reduction {
        None => match edge {
            None => Action::Error,
            Some(target) => Action::Shift(target),
        },
        Some(pidx) => match edge {
            None => Action::Reduce(pidx),
            Some(target) => settle(target, pidx, of_token(grm, tidx), of_production(grm, pidx)),
        },
    }
}

/// Lists a shift against a reduction, if precedence doesn't settle it.
fn list_unsettled<S: IndexStorage>(
    grm: &NumberedGrammar<S>,
    tidx: TIdx<S>,
    pidx: PIdx<S>,
    stidx: StIdx<S>,
    listed: &mut Vec<(TIdx<S>, PIdx<S>, StIdx<S>)>,
) -> Result<(), AllocError>
    requires token { S.number tidx.0 < grm.now.grammar.tokens }
    requires production { S.number pidx.0 < length grm.now.grammar.productions }
    ensures { OnOk result (shifts_of S.number listed.new.items ≡ shifts_of S.number listed.old.items ++ unsettled_entry (S.number tidx.0, S.number pidx.0, S.number stidx.0) ((precedences_of grm.now).of_token (S.number tidx.0)) ((precedences_of grm.now).of_production (S.number pidx.0))) }
{
    if is_unsettled(of_token(grm, tidx), of_production(grm, pidx)) {
        listed.push((tidx, pidx, stidx))?;
    }
    Ok(())
}

/// Lists the shift of a token against its first reduction, if it has both and precedence doesn't settle it.
pub(crate) fn list_shift<S: IndexStorage>(
    grm: &NumberedGrammar<S>,
    tidx: TIdx<S>,
    reduction: Option<PIdx<S>>,
    edge: Option<StIdx<S>>,
    stidx: StIdx<S>,
    listed: &mut Vec<(TIdx<S>, PIdx<S>, StIdx<S>)>,
) -> Result<(), AllocError>
    requires token { S.number tidx.0 < grm.now.grammar.tokens }
    requires production { IfSome reduction (λ p. S.number p.0 < length grm.now.grammar.productions) }
    ensures { OnOk result (shifts_of S.number listed.new.items ≡ shifts_of S.number listed.old.items ++ shifts_from (S.number stidx.0) (S.number tidx.0) (production_of S.number reduction) (state_of S.number edge) ((precedences_of grm.now).of_token (S.number tidx.0)) (precedences_of grm.now).of_production) }
{
    match reduction {
        None => Ok(()),
        Some(pidx) => match edge {
            None => Ok(()),
            Some(_) => list_unsettled(grm, tidx, pidx, stidx, listed),
        },
    }
}

/// Returns the cell that a full row holds, an error where it holds none.
pub(crate) fn cell_or_error<S: IndexStorage>(cell: Option<Action<S>>) -> Action<S>
    ensures { action_of S.number result ≡ or_error (option_map (action_of S.number) cell) }
{
    match cell {
        Some(action) => action,
        None => Action::Error,
    }
}

/// Puts a cell behind those of the tokens before, unless it is an error.
pub(crate) fn put_cell<S: IndexStorage>(
    row: &mut Vec<(u32, Action<S>)>,
    tidx: TIdx<S>,
    cell: Action<S>,
) -> Result<(), AllocError>
    ensures { OnOk result (cells_of S.number row.new.items ≡ cells_of S.number row.old.items ++ filled (S.number tidx.0) (action_of S.number cell)) }
{
    if matches!(cell, Action::Error) {
        return Ok(());
    }
    row.push((row_number(tidx.0), cell))?;
    Ok(())
}

/// Returns the production by which a cell reduces, if it does.
pub(crate) fn reduced_by<S: IndexStorage>(cell: Action<S>) -> Option<PIdx<S>>
    ensures { MatchOption result ((p : ℕ) → action_of S.number cell ≡ reduce p → ⊥) (λ q. action_of S.number cell ≡ reduce (S.number q.0)) }
{
    match cell {
        Action::Reduce(pidx) => Some(pidx),
        _ => None,
    }
}

/// Returns whether a cell reduces by a production.
pub(crate) fn reduces_by<S: IndexStorage>(cell: Action<S>, pidx: PIdx<S>) -> bool
    ensures { IsTrue result ↔ (action_of S.number cell ≡ reduce (S.number pidx.0)) }
{
    match cell {
        Action::Reduce(other) => other.0.to_usize() == pidx.0.to_usize(),
        _ => false,
    }
}

/// Proves that a cell depends on the first reduction alone, and so does a listed shift/reduce.
pub fn cells_go_by_firsts()
    ensures cell { (accepts : Bool) (reductions : List ℕ) (edge : Option ℕ) (a : OfToken) (b : OfProduction) → cell_by accepts reductions edge a b ≡ cell_from accepts (first_of reductions) edge a b }
    ensures listed { (s t : ℕ) (reductions : List ℕ) (edge : Option ℕ) (a : OfToken) (b : OfProduction) → shifts_at s t reductions edge a b ≡ shifts_from s t (first_of reductions) edge a b }
{}
