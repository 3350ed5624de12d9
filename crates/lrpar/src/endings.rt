//! How the reductions on a token end: how many leave a state on the stack, and which one takes it off. What is found of
//! a state serves all chains that come to it.

ghost use Rattle.std.specs.Prelude.{◌≡◌, ◌<◌, ◌≤◌, ◌^◌, ◌⊎◌, ℕ, List, [], ◌∷◌, true, Some, None, drop, length, slice_get, IfOk, IfSome, OnOk};
ghost use Rattle.state_table.specs.CellViews.{state_of};
ghost use Rattle.state_table.specs.Graphs.{GraphValue};
ghost use Rattle.state_table.specs.Tables.{automaton_of};
ghost use Rattle.lrpar.specs.Endings.{GoesBelow, IsCell, IsEnding, IsLink, IsFound, AreLinks, AreEndings};
ghost use Rattle.lrpar.specs.Reducing.{IsLong};
ghost use Rattle.lrpar.specs.declared.endings.Found.TheVariants as found;

use crate::machine::Chains;
use crate::rows::index_of;
use cfg_base::index::IndexStorage;
use cfg_base::symbol::{PIdx, TIdx};
use state_table::{Action, StIdx};
use std::alloc::{AllocError, Global};

/// A reduction that takes a state off the stack.
#[derive(Clone, Copy)]
pub(crate) struct Last<S> {
    /// Its production.
    pub pidx: PIdx<S>,
    /// The number of states below that it takes off too.
    pub below: usize,
}

/// The end of a state's reductions on a token.
#[derive(Clone, Copy)]
pub(crate) struct Ending<S> {
    /// The token on which all of them are made.
    pub tidx: TIdx<S>,
    /// The greatest number of reductions before the state is taken off the stack.
    pub count: usize,
    /// The reduction that takes it off, where one may.
    pub last: Option<Last<S>>,
}

/// Reductions on a token that lead to one state on another.
#[derive(Clone, Copy)]
pub(crate) struct Link<S> {
    /// The lower state.
    pub state: StIdx<S>,
    /// The state on top.
    pub above: StIdx<S>,
    /// The number of reductions that lead here.
    pub count: usize,
}

/// The result of following reductions.
#[derive(Clone, Copy)]
pub(crate) enum Found<S> {
    Goes(Link<S>),
    Ends(Ending<S>),
}

/// Returns the lower state of a link.
fn lower_of<S: IndexStorage>(link: Link<S>) -> StIdx<S>
    ensures { result ≡ link.state }
{
    link.state
}

/// Returns the upper state of a link.
fn upper_of<S: IndexStorage>(link: Link<S>) -> StIdx<S>
    ensures { result ≡ link.above }
{
    link.above
}

/// Returns the token of an ending.
fn token_of<S: IndexStorage>(ending: Ending<S>) -> TIdx<S>
    ensures { result ≡ ending.tidx }
{
    ending.tidx
}

/// Returns whether an ending is on the token.
fn is_on<S: IndexStorage>(ending: Ending<S>, tidx: TIdx<S>) -> bool
    ensures { result ≡ true → S.number ending.tidx.0 ≡ S.number tidx.0 }
{
    ending.tidx.0.to_usize() == tidx.0.to_usize()
}

/// Returns whether the reductions before an ending are within the limit.
fn is_within<S: IndexStorage>(chains: &Chains<'_, S>, ending: Ending<S>) -> bool
    ensures { result ≡ true → ending.count ≤ chains.now.limit }
{
    ending.count <= chains.limit as usize
}

/// Returns an ending with no further reduction.
fn last_of<S: IndexStorage>(tidx: TIdx<S>, count: usize) -> Found<S>
    ensures { result ≡ found.Ends (record { tidx = tidx; count = count; last = None }) }
{
    Found::Ends(Ending {
        tidx,
        count,
        last: None,
    })
}

/// Returns what follows after a number of reductions, where the next one leaves the state on top.
fn onto<S: IndexStorage>(
    chains: &Chains<'_, S>,
    lower: StIdx<S>,
    pidx: PIdx<S>,
    tidx: TIdx<S>,
    count: usize,
) -> Found<S>
    requires lower { S.number lower.0 < chains.now.stable.now.states }
    requires production { S.number pidx.0 < length chains.now.grm.now.grammar.productions }
    requires count { count < 2 ^ 63 }
    ensures { (from : List ℕ) → ((g : GraphValue) → GoesBelow chains.now.grm.now.grammar (automaton_of g chains.now.stable.now) (S.number tidx.0) from count (S.number pidx.0) (λ below. S.number lower.0 ∷ below)) → IsFound S.number chains.now.grm.now.grammar chains.now.stable.now (S.number tidx.0) (S.number lower.0) from result }
{
    match chains.stable.goto(lower, chains.grm.prod_to_rule(pidx)) {
        Some(above) => Found::Goes(Link {
            state: lower,
            above,
            count: count + 1,
        }),
        None => last_of(tidx, count),
    }
}

/// Follows the first reduction of a state.
fn begin<S: IndexStorage>(chains: &Chains<'_, S>, state: StIdx<S>, tidx: TIdx<S>) -> Found<S>
    requires cell { IsCell chains.now.stable.now (S.number state.0) (S.number tidx.0) }
    ensures { IsFound S.number chains.now.grm.now.grammar chains.now.stable.now (S.number tidx.0) (S.number state.0) (S.number state.0 ∷ []) result }
{
    let Action::Reduce(pidx) = chains.stable.action(state, tidx) else {
        return last_of(tidx, 0);
    };
    let count = chains.grm.prod_len(pidx).0.to_usize();
    if count == 0 {
        return onto(chains, state, pidx, tidx, 0);
    }
    Found::Ends(Ending {
        tidx,
        count: 0,
        last: Some(Last {
            pidx,
            below: count - 1,
        }),
    })
}

/// Returns what follows after a number of reductions, where the next one takes states below a front off, of which this
/// one is the first.
fn turn<S: IndexStorage>(
    chains: &Chains<'_, S>,
    lower: StIdx<S>,
    last: Last<S>,
    tidx: TIdx<S>,
    count: usize,
) -> Found<S>
    requires lower { S.number lower.0 < chains.now.stable.now.states }
    requires production { S.number last.pidx.0 < length chains.now.grm.now.grammar.productions }
    requires count { count < 2 ^ 63 }
    ensures { (from : List ℕ) → ((g : GraphValue) → GoesBelow chains.now.grm.now.grammar (automaton_of g chains.now.stable.now) (S.number tidx.0) from count (S.number last.pidx.0) (λ rest. drop last.below (S.number lower.0 ∷ rest))) → IsFound S.number chains.now.grm.now.grammar chains.now.stable.now (S.number tidx.0) (S.number lower.0) from result }
{
    if last.below == 0 {
        return onto(chains, lower, last.pidx, tidx, count);
    }
    Found::Ends(Ending {
        tidx,
        count,
        last: Some(Last {
            pidx: last.pidx,
            below: last.below - 1,
        }),
    })
}

/// Follows a link by the ending of its upper state; `None` where the counts pass the limit.
fn advance<S: IndexStorage>(
    chains: &Chains<'_, S>,
    link: Link<S>,
    ending: Ending<S>,
) -> Option<Found<S>>
    requires state { S.number link.state.0 < chains.now.stable.now.states }
    requires ending { IsEnding S.number chains.now.grm.now.grammar chains.now.stable.now (S.number ending.tidx.0) (S.number link.above.0 ∷ []) ending }
    ensures { (from : List ℕ) → IsLink S.number chains.now.grm.now.grammar chains.now.stable.now (S.number ending.tidx.0) from link → IfSome result (IsFound S.number chains.now.grm.now.grammar chains.now.stable.now (S.number ending.tidx.0) (S.number link.state.0) from) }
{
    let most = chains.limit as usize;
    if link.count > most || ending.count > most {
        return None;
    }
    let tidx = ending.tidx;
    let count = link.count + ending.count;
    let next = ending.last;
    match next {
        None => Some(last_of(tidx, count)),
        Some(last) => Some(turn(chains, link.state, last, tidx, count)),
    }
}

/// Returns the ending at an index of a state's row, where there is one on the token.
fn kept_at<S: IndexStorage>(
    row: &[Option<Ending<S>>],
    index: usize,
    tidx: TIdx<S>,
) -> Option<Ending<S>>
    ensures { IfSome result (λ e. (slice_get row.now index ≡ Some (Some e)) × (S.number e.tidx.0 ≡ S.number tidx.0)) }
{
    if index >= row.len() {
        return None;
    }
    match row[index] {
        None => None,
        Some(ending) => {
            if is_on(ending, tidx) {
                Some(ending)
            } else {
                None
            }
        }
    }
}

/// Returns the ending of a state, where it was found before.
fn ending_of<S: IndexStorage>(
    chains: &Chains<'_, S>,
    rows: &[Vec<Option<Ending<S>>>],
    state: StIdx<S>,
    tidx: TIdx<S>,
) -> Option<Ending<S>>
    requires rows { AreEndings S.number chains.now.grm.now.grammar chains.now.stable.now rows.now }
    ensures { IfSome result (IsEnding S.number chains.now.grm.now.grammar chains.now.stable.now (S.number tidx.0) (S.number state.0 ∷ [])) }
{
    let number = state.0.to_usize();
    if number >= rows.len() {
        return None;
    }
    let Some(index) = index_of(chains.stable.state_cells(state), tidx.0.to_usize()) else {
        return None;
    };
    kept_at(rows[number].as_slice(), index, tidx)
}

/// Follows the reductions of a state: to their ending, where it was found before.
fn look<S: IndexStorage>(
    chains: &Chains<'_, S>,
    rows: &[Vec<Option<Ending<S>>>],
    state: StIdx<S>,
    tidx: TIdx<S>,
) -> Found<S>
    requires cell { IsCell chains.now.stable.now (S.number state.0) (S.number tidx.0) }
    requires rows { AreEndings S.number chains.now.grm.now.grammar chains.now.stable.now rows.now }
    ensures { IsFound S.number chains.now.grm.now.grammar chains.now.stable.now (S.number tidx.0) (S.number state.0) (S.number state.0 ∷ []) result }
{
    match ending_of(chains, rows, state, tidx) {
        Some(ending) => Found::Ends(ending),
        None => begin(chains, state, tidx),
    }
}

/// Sets the ending at an index of a state's row, which gets its length with the first one.
fn put_ending<S: IndexStorage>(
    row: &mut Vec<Option<Ending<S>>>,
    length: usize,
    index: usize,
    ending: Ending<S>,
) -> Result<(), AllocError>
    ensures { OnOk result ((k : ℕ) (e : Ending S) → slice_get row.new.items k ≡ Some (Some e) → (slice_get row.old.items k ≡ Some (Some e)) ⊎ (e ≡ ending)) }
{
    if row.is_empty() {
        row.resize(length, None)?;
    }
    if index < row.len() {
        row[index] = Some(ending);
    }
    Ok(())
}

/// Puts the ending of a state among those that were found.
fn keep<S: IndexStorage>(
    chains: &Chains<'_, S>,
    rows: &mut Vec<Vec<Option<Ending<S>>>>,
    state: StIdx<S>,
    ending: Ending<S>,
) -> Result<(), AllocError>
    requires ending { IsEnding S.number chains.now.grm.now.grammar chains.now.stable.now (S.number ending.tidx.0) (S.number state.0 ∷ []) ending }
    requires rows { AreEndings S.number chains.now.grm.now.grammar chains.now.stable.now rows.old.items }
    ensures { OnOk result (AreEndings S.number chains.now.grm.now.grammar chains.now.stable.now rows.new.items) }
{
    let number = state.0.to_usize();
    if number >= rows.len() {
        return Ok(());
    }
    let token = token_of(ending).0.to_usize();
    let cells = chains.stable.state_cells(state);
    let length = cells.len();
    let Some(index) = index_of(cells, token) else {
        return Ok(());
    };
    put_ending(&mut rows[number], length, index, ending)
}

/// Goes on from a link: waits for the ending of its upper state, or follows it. Returns whether that is within the
/// limit.
fn follow_link<S: IndexStorage>(
    chains: &Chains<'_, S>,
    rows: &mut Vec<Vec<Option<Ending<S>>>>,
    waiting: &mut Vec<Link<S>>,
    link: Link<S>,
    tidx: TIdx<S>,
) -> Result<bool, AllocError>
    requires token { S.number tidx.0 < chains.now.stable.now.tokens }
    requires link { IsLink S.number chains.now.grm.now.grammar chains.now.stable.now (S.number tidx.0) (S.number link.state.0 ∷ []) link }
    requires rows { AreEndings S.number chains.now.grm.now.grammar chains.now.stable.now rows.old.items }
    requires waiting { AreLinks S.number chains.now.grm.now.grammar chains.now.stable.now (S.number tidx.0) waiting.old.items }
    ensures rows { OnOk result (AreEndings S.number chains.now.grm.now.grammar chains.now.stable.now rows.new.items) }
    ensures waiting { OnOk result (AreLinks S.number chains.now.grm.now.grammar chains.now.stable.now (S.number tidx.0) waiting.new.items) }
{
    match look(chains, rows.as_slice(), upper_of(link), tidx) {
        Found::Goes(next) => {
            waiting.push(link)?;
            waiting.push(next)?;
            Ok(true)
        }
        Found::Ends(ending) => match advance(chains, link, ending) {
            None => Ok(false),
            Some(Found::Goes(next)) => {
                waiting.push(next)?;
                Ok(true)
            }
            Some(Found::Ends(ending)) => {
                keep(chains, rows, lower_of(link), ending)?;
                Ok(true)
            }
        },
    }
}

/// Returns the ending of a state, where it is found within the limit.
fn settle<S: IndexStorage>(
    chains: &Chains<'_, S>,
    rows: &mut Vec<Vec<Option<Ending<S>>>>,
    waiting: &mut Vec<Link<S>>,
    state: StIdx<S>,
    tidx: TIdx<S>,
) -> Result<Option<Ending<S>>, AllocError>
    requires cell { IsCell chains.now.stable.now (S.number state.0) (S.number tidx.0) }
    requires rows { AreEndings S.number chains.now.grm.now.grammar chains.now.stable.now rows.old.items }
    ensures rows { OnOk result (AreEndings S.number chains.now.grm.now.grammar chains.now.stable.now rows.new.items) }
    ensures ending { IfOk result (λ found. IfSome found (IsEnding S.number chains.now.grm.now.grammar chains.now.stable.now (S.number tidx.0) (S.number state.0 ∷ []))) }
{
    let first = match look(chains, rows.as_slice(), state, tidx) {
        Found::Goes(link) => link,
        Found::Ends(ending) => return Ok(Some(ending)),
    };
    waiting.clear();
    waiting.push(first)?;
    // Each turn makes a reduction, or ends one that was made.
    let most = 4 * (chains.limit as usize + 2);
    'turns: for _ in 0..most {
        let Some(link) = waiting.pop() else {
            return Ok(ending_of(chains, rows.as_slice(), state, tidx));
        };
        if !follow_link(chains, rows, waiting, link, tidx)? {
            return Ok(None);
        }
    }
    Ok(None)
}

/// Returns whether it is found that no more reductions than the limit come from one state on another.
fn ends_on<S: IndexStorage>(
    chains: &Chains<'_, S>,
    rows: &mut Vec<Vec<Option<Ending<S>>>>,
    waiting: &mut Vec<Link<S>>,
    state: StIdx<S>,
    above: StIdx<S>,
    tidx: TIdx<S>,
) -> Result<bool, AllocError>
    requires cell { IsCell chains.now.stable.now (S.number state.0) (S.number tidx.0) }
    requires above { S.number above.0 < chains.now.stable.now.states }
    requires rows { AreEndings S.number chains.now.grm.now.grammar chains.now.stable.now rows.old.items }
    ensures rows { OnOk result (AreEndings S.number chains.now.grm.now.grammar chains.now.stable.now rows.new.items) }
    ensures ends { IfOk result (λ ends. ends ≡ true → (g : GraphValue) → IsLong chains.now.grm.now.grammar (automaton_of g chains.now.stable.now) chains.now.limit (S.number state.0) (Some (S.number above.0)) (S.number tidx.0) → ⊥) }
{
    let mut link = Link {
        state,
        above,
        count: 0,
    };
    let most = chains.limit as usize + 1;
    'links: for _ in 0..most {
        let Some(ending) = settle(chains, rows, waiting, upper_of(link), tidx)? else {
            return Ok(false);
        };
        match advance(chains, link, ending) {
            None => return Ok(false),
            Some(Found::Ends(ending)) => return Ok(is_within(chains, ending)),
            Some(Found::Goes(next)) => link = next,
        }
    }
    Ok(false)
}

/// Returns whether it is found that a chain on the token does not pass the limit: from the state alone, or with
/// `above` on it.
pub(crate) fn ends_within<S: IndexStorage>(
    chains: &Chains<'_, S>,
    rows: &mut Vec<Vec<Option<Ending<S>>>>,
    waiting: &mut Vec<Link<S>>,
    state: StIdx<S>,
    above: Option<StIdx<S>>,
    tidx: TIdx<S>,
) -> Result<bool, AllocError>
    requires cell { IsCell chains.now.stable.now (S.number state.0) (S.number tidx.0) }
    requires above { (q : ℕ) → state_of S.number above ≡ Some q → q < chains.now.stable.now.states }
    requires rows { AreEndings S.number chains.now.grm.now.grammar chains.now.stable.now rows.old.items }
    ensures rows { OnOk result (AreEndings S.number chains.now.grm.now.grammar chains.now.stable.now rows.new.items) }
    ensures ends { IfOk result (λ ends. ends ≡ true → (g : GraphValue) → IsLong chains.now.grm.now.grammar (automaton_of g chains.now.stable.now) chains.now.limit (S.number state.0) (state_of S.number above) (S.number tidx.0) → ⊥) }
{
    match above {
        Some(above) => ends_on(chains, rows, waiting, state, above, tidx),
        None => match settle(chains, rows, waiting, state, tidx)? {
            Some(ending) => Ok(is_within(chains, ending)),
            None => Ok(false),
        },
    }
}

/// Makes an empty row for each state.
pub(crate) fn no_endings<S: IndexStorage>(
    alloc: Global,
    chains: &Chains<'_, S>,
) -> Result<Vec<Vec<Option<Ending<S>>>>, AllocError>
    ensures { IfOk result (λ rows. AreEndings S.number chains.now.grm.now.grammar chains.now.stable.now rows.items) }
{
    let states = chains.stable.states_len().0.to_usize();
    let mut rows = Vec::with_capacity(alloc, states)?;
    'states: for _ in 0..states {
        rows.push(Vec::new(alloc))?;
    }
    Ok(rows)
}
