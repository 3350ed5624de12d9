//! Builds the states by Pager's merging (1977).

ghost use Rattle.std.specs.Prelude.{◌↔◌, IsTrue, ◌≡◌, ◌<◌, ◌≤◌, ◌+◌, ℕ, false, [], ◌∷◌, ◌++◌, length, map, take, replicate, slice_set, IfOk, OnOk, IsErrOf, MatchOption};
ghost use Rattle.cfg_theory.specs.Grammar.{IsEnd};
ghost use Rattle.vob.specs.Sets.{is_set};
ghost use Rattle.lr_theory.specs.Building.{Building, IsGraph};
ghost use Rattle.lr_theory.specs.Sizes.{StaysWithin};
ghost use Rattle.lr_theory.specs.Itemset.{HasItem, HasLook, Closure, ClosureLook};
ghost use Rattle.lrtable.specs.Builders.{states_in, IsBuilder, GoesOn, IsUnderWay, IsStep, IsFirstDue, AreClear};
ghost use Rattle.lrtable.specs.Closers.{IsReady};
ghost use Rattle.state_table.specs.ItemRows.{no_core, map_of, FitsCore};
ghost use Rattle.lrtable.specs.Gaining.{core_in, AreMarked};
ghost use Rattle.lrtable.specs.Handling.{AreReached, AreHandled, AreBuilt, TooManyStand};
ghost use Rattle.state_table.specs.Meeting.{rows_in};
ghost use Rattle.lrtable.specs.MovedItems.{AreEmpty, IsKernel, set_of_moved};
ghost use Rattle.lrtable.specs.Pruning.{AreLinked, graph_of_states};
ghost use Rattle.lrtable.specs.States.{AreStates, AreQuiet, state_at};
ghost use Rattle.lrtable.specs.StateViews.{value_of};
ghost use Rattle.state_table.specs.CoreViews.{core_of_set};
ghost use Rattle.lrtable.specs.Stepping.{AreGotos, AreGotosOf, HaveNoNext, IsGotoAt, IsNextTaken, set_off};
ghost use Rattle.lrtable.specs.declared.states.BuildError.TheVariants as faults;

use crate::flags::Flags;
use crate::moved_items::{MovedItem, Rows};
use crate::moves::{empty_sets, goto_sets, symbol_at};
use crate::opening::Closer;
use crate::pruning::prune;
use crate::revisiting::{Retaken, retake_all};
use crate::state_lists::put_number;
use crate::states::{BuildError, Builder, EdgeTo, State, place};
use crate::tails::any_incomplete;
use cfg_base::index::IndexStorage;
use cfg_base::symbol::SIdx;
use cfg_numbered::yacc::NumberedGrammar;
use state_table::cores::{CoreItem, CoreSet};
use std::alloc::{AllocError, Global};
use vob::Vob;

// How many symbols there are for each mark that is to be noted. Where there are few symbols, it is faster to note none.
const SYMBOLS_A_NUMBER: usize = 2048;

/// What the steps of a building are made with.
#[derive(Drop)]
pub(crate) struct Buffers<'a, S: IndexStorage> {
    pub closer: Closer<'a, S>,
    /// A state that is taken again, as it was.
    pub was: Retaken<S>,
    /// The goto sets of the state that is taken, one for each symbol.
    pub sets: Vec<Vec<MovedItem<S>>>,
    /// A flag for each goto set: whether it has items.
    pub marks: Flags,
    /// The lookaheads of the state that is taken.
    pub own: Vec<Vob>,
}

impl<'a, S: IndexStorage> Buffers<'a, S> {
    /// Makes the buffers, with empty goto sets.
    pub(crate) fn new(
        alloc: Global,
        grm: &NumberedGrammar<S>,
        closer: Closer<'a, S>,
    ) -> Result<Buffers<'a, S>, AllocError>
        requires { IsReady grm.now.grammar closer }
        ensures { IfOk result (λ b. AreClear grm.now.grammar b) }
    {
        let sets = symbol_sets(alloc, grm)?;
        let marks = Flags::empty(alloc, sets.len(), sets.len() / SYMBOLS_A_NUMBER)?;
        let was = Retaken::empty(alloc, grm)?;
        Ok(Buffers {
            closer,
            was,
            sets,
            marks,
            own: Vec::new(alloc),
        })
    }
}

/// Places the goto set of the symbol of a rank, if the set has items, and leaves an empty one.
fn place_rank<S: IndexStorage>(
    alloc: Global,
    grm: &NumberedGrammar<S>,
    builder: &mut Builder<S>,
    sets: &mut Vec<Vec<MovedItem<S>>>,
    rows: &Rows<'_>,
    number: usize,
) -> Result<(), BuildError>
    requires number { number < grm.now.grammar.rules + grm.now.grammar.tokens }
    requires count { length sets.old.items ≡ grm.now.grammar.rules + grm.now.grammar.tokens }
    requires tokens { 0 < grm.now.grammar.tokens }
    requires builder { IsBuilder S.number S.MAX builder.old }
    requires states { AreStates grm.now.grammar.tokens (states_in S.number builder.old) }
    requires set { FitsCore grm.now.grammar (core_in (map (set_of_moved S.number rows.now) sets.old.items) number) }
    ensures builder { OnOk result (IsBuilder S.number S.MAX builder.new) }
    ensures goes { OnOk result (GoesOn S.number builder.old builder.new) }
    ensures states { OnOk result (AreStates grm.now.grammar.tokens (states_in S.number builder.new)) }
    ensures sets { OnOk result (map (set_of_moved S.number rows.now) sets.new.items ≡ slice_set (map (set_of_moved S.number rows.now) sets.old.items) number no_core) }
    ensures handled { OnOk result ((before : Building) → IsGotoAt grm.now.grammar before builder.old.from number (core_in (map (set_of_moved S.number rows.now) sets.old.items) number) → AreHandled grm.now.grammar before builder.old.from number (states_in S.number builder.old) → AreHandled grm.now.grammar before builder.old.from (number + 1) (states_in S.number builder.new)) }
    ensures many { IsErrOf result faults.TooManyStates → (before : Building) → IsNextTaken grm.now.grammar before builder.old.from → IsGotoAt grm.now.grammar before builder.old.from number (core_in (map (set_of_moved S.number rows.now) sets.old.items) number) → AreHandled grm.now.grammar before builder.old.from number (states_in S.number builder.old) → TooManyStand grm.now.grammar S.MAX }
{
    let set = &mut sets[number];
    if set.is_empty() {
        return Ok(());
    }
    let symbol = symbol_at(grm, number);
    let items = set.as_slice();
    place(alloc, builder, symbol, items, rows)?;
    set.clear();
    Ok(())
}

/// Places the goto sets of a state, symbol by symbol, and leaves empty ones behind.
fn place_all<S: IndexStorage>(
    alloc: Global,
    grm: &NumberedGrammar<S>,
    builder: &mut Builder<S>,
    sets: &mut Vec<Vec<MovedItem<S>>>,
    marks: &Flags,
    rows: &Rows<'_>,
) -> Result<(), BuildError>
    requires count { length sets.old.items ≡ grm.now.grammar.rules + grm.now.grammar.tokens }
    requires wide { length marks.now.bits ≡ grm.now.grammar.rules + grm.now.grammar.tokens }
    requires marked { AreMarked marks.now.bits (map (set_of_moved S.number rows.now) sets.old.items) }
    requires tokens { 0 < grm.now.grammar.tokens }
    requires builder { IsBuilder S.number S.MAX builder.old }
    requires states { AreStates grm.now.grammar.tokens (states_in S.number builder.old) }
    requires sets { (n : ℕ) → n < grm.now.grammar.rules + grm.now.grammar.tokens → FitsCore grm.now.grammar (core_in (map (set_of_moved S.number rows.now) sets.old.items) n) }
    ensures emptied { OnOk result (AreEmpty (grm.now.grammar.rules + grm.now.grammar.tokens) sets.new.items) }
    ensures builder { OnOk result (IsBuilder S.number S.MAX builder.new) }
    ensures goes { OnOk result (GoesOn S.number builder.old builder.new) }
    ensures handled { OnOk result ((before : Building) → AreGotosOf grm.now.grammar before builder.old.from (map (set_of_moved S.number rows.now) sets.old.items) → AreHandled grm.now.grammar before builder.old.from 0 (states_in S.number builder.old) → AreHandled grm.now.grammar before builder.old.from (grm.now.grammar.rules + grm.now.grammar.tokens) (states_in S.number builder.new)) }
    ensures many { IsErrOf result faults.TooManyStates → (before : Building) → IsNextTaken grm.now.grammar before builder.old.from → AreGotosOf grm.now.grammar before builder.old.from (map (set_of_moved S.number rows.now) sets.old.items) → AreHandled grm.now.grammar before builder.old.from 0 (states_in S.number builder.old) → TooManyStand grm.now.grammar S.MAX }
{
    'ranks: for number in marks.iter() {
        place_rank(alloc, grm, builder, sets, rows, number)?;
    }
    Ok(())
}

/// Makes empty sets, one for each symbol, the goto sets of a core.
fn gotos<S: IndexStorage>(
    grm: &NumberedGrammar<S>,
    closer: &mut Closer<'_, S>,
    core: &CoreSet<S>,
    sets: &mut Vec<Vec<MovedItem<S>>>,
    marks: &mut Flags,
) -> Result<(), AllocError>
    requires ready { IsReady grm.now.grammar closer.old }
    requires fits { FitsCore grm.now.grammar (core_of_set S.number core.now) }
    requires kernel { IsKernel grm.now.grammar (HasItem (map_of (core_of_set S.number core.now))) }
    requires wide { length marks.old.bits ≡ grm.now.grammar.rules + grm.now.grammar.tokens }
    requires empty { AreEmpty (grm.now.grammar.rules + grm.now.grammar.tokens) sets.old.items }
    ensures ready { OnOk result (IsReady grm.now.grammar closer.new) }
    ensures wide { OnOk result (length marks.new.bits ≡ grm.now.grammar.rules + grm.now.grammar.tokens) }
    ensures marked { OnOk result (AreMarked marks.new.bits (map (set_of_moved S.number (record { own = rows_in core.now.looks.items; opening = closer.new.opening })) sets.new.items)) }
    ensures gotos { OnOk result (AreGotos grm.now.grammar (Closure grm.now.grammar (HasItem (map_of (core_of_set S.number core.now)))) (ClosureLook grm.now.grammar (HasItem (map_of (core_of_set S.number core.now))) (HasLook (map_of (core_of_set S.number core.now)))) (map (set_of_moved S.number (record { own = rows_in core.now.looks.items; opening = closer.new.opening })) sets.new.items)) }
{
    closer.close(grm, core)?;
    marks.clear();
    let rows = Rows::new(core.looks.as_slice(), &closer.opening);
    goto_sets(grm, core, sets, marks, &rows)?;
    Ok(())
}

/// Returns how many edges a state is to have room for: one for each mark, if it has none yet.
fn edges_wanted<S: IndexStorage>(edges: &[EdgeTo<S>], marks: &Flags) -> usize {
    if edges.is_empty() {
        return marks.count();
    }
    0
}

/// Notes that a state is taken, and makes room for its edges, of which each is on a marked symbol.
fn take<S: IndexStorage>(
    states: &mut Vec<State<S>>,
    number: usize,
    marks: &Flags,
) -> Result<(), AllocError>
    requires { number < length states.old.items }
    ensures { OnOk result (map (value_of S.number) states.new.items ≡ set_off (map (value_of S.number) states.old.items) number) }
{
    let state = &mut states[number];
    let room = edges_wanted(state.edges.as_slice(), marks);
    state.edges.reserve_exact(room)?;
    state.todo = false;
    Ok(())
}

/// Writes a set of tokens over another, in its room where both have one size.
fn overwrite(row: &mut Vob, looks: &Vob) -> Result<(), AllocError>
    ensures { OnOk result (row.new.bits ≡ looks.now.bits) }
{
    if row.len() != looks.len() {
        *row = looks.clone()?;
        return Ok(());
    }
    row.set_all(false);
    row.or(looks);
    Ok(())
}

/// Writes a set of tokens over that at an index, or behind the last.
fn put_copy(own: &mut Vec<Vob>, index: usize, looks: &Vob) -> Result<(), AllocError>
    requires { index ≤ length own.old.items }
    ensures within { OnOk result (index < length own.new.items) }
    ensures copied { OnOk result (rows_in (take (index + 1) own.new.items) ≡ rows_in (take index own.old.items) ++ looks.now.bits ∷ []) }
{
    if index < own.len() {
        let row = &mut own[index];
        overwrite(row, looks)?;
        return Ok(());
    }
    own.push(looks.clone()?)?;
    Ok(())
}

/// Copies sets of tokens over the first of a list: the lookaheads of the state that is taken, which may grow while its goto
/// sets are placed.
fn copy_looks(own: &mut Vec<Vob>, looks: &[Vob]) -> Result<(), AllocError>
    ensures within { OnOk result (length looks.now ≤ length own.new.items) }
    ensures copied { OnOk result (rows_in (take (length looks.now) own.new.items) ≡ rows_in looks.now) }
{
    'each: for k in 0..looks.len() {
        put_copy(own, k, &looks[k])?;
    }
    Ok(())
}

/// Takes a state without edges: makes its goto sets and places them.
fn step_anew<S: IndexStorage>(
    alloc: Global,
    grm: &NumberedGrammar<S>,
    buffers: &mut Buffers<'_, S>,
    builder: &mut Builder<S>,
    number: usize,
) -> Result<(), BuildError>
    requires buffers { AreClear grm.now.grammar buffers.old }
    requires builder { IsUnderWay S.number S.MAX grm.now.grammar builder.old }
    requires due { IsFirstDue S.number builder.old number }
    ensures buffers { OnOk result (AreClear grm.now.grammar buffers.new) }
    ensures step { OnOk result (IsStep S.number S.MAX grm.now.grammar builder.old builder.new) }
    ensures many { IsErrOf result faults.TooManyStates → TooManyStand grm.now.grammar S.MAX }
{
    grm.start_prod();
    let core = &builder.states[number].core;
    gotos(
        grm,
        &mut buffers.closer,
        core,
        &mut buffers.sets,
        &mut buffers.marks,
    )?;
    let count = core.looks.len();
    copy_looks(&mut buffers.own, core.looks.as_slice())?;
    take(&mut builder.states, number, &buffers.marks)?;
    builder.cursor = number;
    builder.from = number;
    builder.near = 0;
    let rows = Rows::new(&buffers.own[..count], &buffers.closer.opening);
    place_all(
        alloc,
        grm,
        builder,
        &mut buffers.sets,
        &buffers.marks,
        &rows,
    )?;
    Ok(())
}

/// Takes a state again that has edges since it was taken before: these lead to the states of its goto sets, or to
/// states that have the sets' items.
fn step_again<S: IndexStorage>(
    alloc: Global,
    grm: &NumberedGrammar<S>,
    buffers: &mut Buffers<'_, S>,
    builder: &mut Builder<S>,
    number: usize,
) -> Result<(), BuildError>
    requires buffers { AreClear grm.now.grammar buffers.old }
    requires builder { IsUnderWay S.number S.MAX grm.now.grammar builder.old }
    requires due { IsFirstDue S.number builder.old number }
    requires edges { 0 < length (state_at (states_in S.number builder.old) number).edges }
    ensures buffers { OnOk result (AreClear grm.now.grammar buffers.new) }
    ensures step { OnOk result (IsStep S.number S.MAX grm.now.grammar builder.old builder.new) }
    ensures many { IsErrOf result faults.TooManyStates → TooManyStand grm.now.grammar S.MAX }
{
    grm.start_prod();
    let state = &builder.states[number];
    buffers.closer.close(grm, &state.core)?;
    buffers.was.note(state)?;
    let count = state.core.looks.len();
    copy_looks(&mut buffers.own, state.core.looks.as_slice())?;
    take(&mut builder.states, number, &buffers.marks)?;
    builder.cursor = number;
    builder.from = number;
    let rows = Rows::new(&buffers.own[..count], &buffers.closer.opening);
    retake_all(alloc, grm, builder, &buffers.was, &rows)?;
    Ok(())
}

/// Notes that a state is taken.
fn mark_taken<S: IndexStorage>(states: &mut Vec<State<S>>, number: usize)
    requires { number < length states.old.items }
    ensures { map (value_of S.number) states.new.items ≡ set_off (map (value_of S.number) states.old.items) number }
{
    let taken = &mut states[number];
    taken.todo = false;
}

/// Takes a state of complete items, which has no goto sets.
fn step_complete<S: IndexStorage>(grm: &NumberedGrammar<S>, builder: &mut Builder<S>, number: usize)
    requires builder { IsUnderWay S.number S.MAX grm.now.grammar builder.old }
    requires due { IsFirstDue S.number builder.old number }
    requires none { HaveNoNext grm.now.grammar (state_at (states_in S.number builder.old) number).core.items (length (state_at (states_in S.number builder.old) number).core.items) }
    ensures { IsStep S.number S.MAX grm.now.grammar builder.old builder.new }
{
    grm.start_prod();
    mark_taken(&mut builder.states, number);
    builder.cursor = number;
    builder.from = number;
}

/// Takes the first state that is to be taken.
fn step<S: IndexStorage>(
    alloc: Global,
    grm: &NumberedGrammar<S>,
    buffers: &mut Buffers<'_, S>,
    builder: &mut Builder<S>,
    number: usize,
) -> Result<(), BuildError>
    requires buffers { AreClear grm.now.grammar buffers.old }
    requires builder { IsUnderWay S.number S.MAX grm.now.grammar builder.old }
    requires due { IsFirstDue S.number builder.old number }
    ensures buffers { OnOk result (AreClear grm.now.grammar buffers.new) }
    ensures step { OnOk result (IsStep S.number S.MAX grm.now.grammar builder.old builder.new) }
    ensures many { IsErrOf result faults.TooManyStates → TooManyStand grm.now.grammar S.MAX }
{
    grm.start_prod();
    let state = &builder.states[number];
    if !state.edges.is_empty() {
        return step_again(alloc, grm, buffers, builder, number);
    }
    if any_incomplete(grm, state.core.items.as_slice()) {
        return step_anew(alloc, grm, buffers, builder, number);
    }
    step_complete(grm, builder, number);
    Ok(())
}

/// Returns the first state that is to be taken, if there is one.
fn lowest<S: IndexStorage>(builder: &Builder<S>) -> Option<usize>
    requires { AreQuiet (states_in S.number builder.now) builder.now.cursor }
    ensures { MatchOption result ((s : ℕ) → s < length builder.now.states.items → (state_at (states_in S.number builder.now) s).todo ≡ false) (λ n. IsFirstDue S.number builder.now n) }
{
    'each: for number in builder.cursor..builder.states.len() {
        let state = &builder.states[number];
        if state.todo {
            return Some(number);
        }
    }
    None
}

/// Returns the lookaheads of the start item: the end token.
fn end_looks<S: IndexStorage>(alloc: Global, grm: &NumberedGrammar<S>) -> Result<Vob, AllocError>
    ensures width { IfOk result (λ v. length v.bits ≡ grm.now.grammar.tokens) }
    ensures bits { IfOk result (λ v. (t : ℕ) → IsTrue (is_set v.bits t) ↔ IsEnd grm.now.grammar t) }
{
    let mut end = Vob::from_elem(alloc, false, grm.tokens_len().0.to_usize())?;
    end.set(grm.eof_token_idx().0.to_usize(), true);
    Ok(end)
}

/// Returns the start state: the start production at dot zero with the end token.
pub(crate) fn start_states<S: IndexStorage>(
    alloc: Global,
    grm: &NumberedGrammar<S>,
) -> Result<Vec<State<S>>, AllocError>
    ensures reached { IfOk result (λ v. AreReached grm.now.grammar (map (value_of S.number) v.items)) }
    ensures one { IfOk result (λ v. length v.items ≡ 1) }
    ensures some { IfOk result (λ v. 0 < length (state_at (map (value_of S.number) v.items) 0).core.items) }
{
    let mut items = Vec::new(alloc);
    items.push(CoreItem {
        pidx: grm.start_prod(),
        dot: SIdx(S::from_usize(0).unwrap()),
    })?;
    let mut looks = Vec::new(alloc);
    looks.push(end_looks(alloc, grm)?)?;
    // Grammars mostly have more states than productions.
    let mut states = Vec::with_capacity(alloc, grm.prods_len().0.to_usize())?;
    states.push(State {
        core: CoreSet { items, looks },
        edges: Vec::new(alloc),
        todo: true,
    })?;
    Ok(states)
}

/// Returns the start state with the lists that name it: no step is made yet.
fn start_builder<S: IndexStorage>(
    alloc: Global,
    grm: &NumberedGrammar<S>,
) -> Result<Builder<S>, AllocError>
    ensures { IfOk result (λ b. IsUnderWay S.number S.MAX grm.now.grammar b) }
{
    grm.start_prod();
    let states = start_states(alloc, grm)?;
    let mut begins = Vec::with_capacity(alloc, grm.prods_len().0.to_usize())?;
    put_number(alloc, &mut begins, &states[0].core.items[0], 0)?;
    Ok(Builder {
        states,
        begins,
        cursor: 0,
        from: 0,
        near: 0,
    })
}

/// Makes steps until no state is to be taken.
fn finish<S: IndexStorage>(
    alloc: Global,
    grm: &NumberedGrammar<S>,
    buffers: &mut Buffers<'_, S>,
    builder: &mut Builder<S>,
) -> Result<(), BuildError>
    requires buffers { AreClear grm.now.grammar buffers.old }
    requires builder { IsUnderWay S.number S.MAX grm.now.grammar builder.old }
    ensures buffers { OnOk result (AreClear grm.now.grammar buffers.new) }
    ensures built { OnOk result (AreBuilt grm.now.grammar (states_in S.number builder.new)) }
    ensures few { OnOk result (length builder.new.states.items ≤ S.MAX) }
    ensures many { IsErrOf result faults.TooManyStates → TooManyStand grm.now.grammar S.MAX }
{
    'steps: loop {
        match lowest(builder) {
            Some(number) => step(alloc, grm, buffers, builder, number)?,
            None => return Ok(()),
        }
    }
}

/// Returns an empty set for each symbol.
fn symbol_sets<S: IndexStorage>(
    alloc: Global,
    grm: &NumberedGrammar<S>,
) -> Result<Vec<Vec<MovedItem<S>>>, AllocError>
    ensures { IfOk result (λ v. AreEmpty (grm.now.grammar.rules + grm.now.grammar.tokens) v.items) }
{
    grm.start_prod();
    let rules = grm.rules_len().0.to_usize();
    let tokens = grm.tokens_len().0.to_usize();
    let sets = empty_sets(alloc, rules + tokens)?;
    Ok(sets)
}

/// Returns the states of the building at its end.
fn build<S: IndexStorage>(
    alloc: Global,
    grm: &NumberedGrammar<S>,
    buffers: &mut Buffers<'_, S>,
) -> Result<Vec<State<S>>, BuildError>
    requires buffers { AreClear grm.now.grammar buffers.old }
    ensures buffers { OnOk result (AreClear grm.now.grammar buffers.new) }
    ensures built { IfOk result (λ v. AreBuilt grm.now.grammar (map (value_of S.number) v.items)) }
    ensures few { IfOk result (λ v. length v.items ≤ S.MAX) }
    ensures within { OnOk result (StaysWithin grm.now.grammar S.MAX) }
    ensures many { IsErrOf result faults.TooManyStates → TooManyStand grm.now.grammar S.MAX }
{
    grm.start_prod();
    let mut builder = start_builder(alloc, grm)?;
    finish(alloc, grm, buffers, &mut builder)?;
    Ok(builder.states)
}

/// Returns the states of a grammar's graph, in order: those of the building at its end that edges lead to.
pub(crate) fn states<S: IndexStorage>(
    alloc: Global,
    grm: &NumberedGrammar<S>,
    buffers: &mut Buffers<'_, S>,
) -> Result<Vec<State<S>>, BuildError>
    requires buffers { AreClear grm.now.grammar buffers.old }
    ensures buffers { OnOk result (AreClear grm.now.grammar buffers.new) }
    ensures graph { IfOk result (λ v. IsGraph grm.now.grammar (graph_of_states (map (value_of S.number) v.items))) }
    ensures linked { IfOk result (λ v. AreLinked (map (value_of S.number) v.items)) }
    ensures cores { IfOk result (λ v. (s : ℕ) → s < length v.items → FitsCore grm.now.grammar (state_at (map (value_of S.number) v.items) s).core) }
    ensures some { IfOk result (λ v. 0 < length v.items) }
    ensures few { IfOk result (λ v. length v.items ≤ S.MAX) }
    ensures within { OnOk result (StaysWithin grm.now.grammar S.MAX) }
    ensures many { IsErrOf result faults.TooManyStates → TooManyStand grm.now.grammar S.MAX }
{
    grm.start_prod();
    let mut states = build(alloc, grm, buffers)?;
    let kept = prune(alloc, &mut states)?;
    Ok(kept)
}
