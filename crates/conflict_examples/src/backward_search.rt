//! Searches backwards for a path after which items have the token as lookahead, by the fewest edges.
//!
//! An item past dot 0 goes back over an edge. An item at dot 0 is replaced by one before its rule, which needs the token only if
//! what follows the rule is nullable. Where nothing is needed any more, a shortest path from the start state comes before.

use crate::productions::has_production;
use crate::source::Source;
use cfg_base::index::IndexStorage;
use cfg_base::symbol::{PIdx, SIdx, Symbol};
use state_table::stidx::StIdx;
use std::alloc::{AllocError, Global};
use std::collections::BTreeSet;

/// How many steps a search may have.
const MOST_STEPS: usize = 1_048_576;

/// An item that needs the token as lookahead, or none.
pub(crate) type Need<S> = Option<(PIdx<S>, SIdx<S>)>;

/// A replacement: the state, the rule of the item at dot 0, the other needed item, and whether the item is the first of both.
type Key = (usize, usize, usize, usize, bool);

/// A state with the items that need the token there.
#[derive(Clone, Copy)]
struct Visit<S> {
    /// The state.
    stidx: StIdx<S>,
    /// The first needed item, if there is one.
    first: Need<S>,
    /// The second needed item, if there is one.
    second: Need<S>,
    /// The index of the visit that comes behind this one.
    next: usize,
    /// Whether an edge leads to that visit.
    by_edge: bool,
}

/// A visit on the way back to dot 0.
#[derive(Clone, Copy)]
struct Step {
    /// The index of the visit.
    index: usize,
    /// The number of edges left.
    left: usize,
    /// The index of the next predecessor to go to.
    next: usize,
}

/// The state of the search.
#[derive(Drop)]
struct Search<S> {
    /// The visits so far.
    visits: Vec<Visit<S>>,
    /// The steps back from the nearest visit.
    way: Vec<Step>,
    /// The distance of that visit.
    distance: usize,
    /// The visits that wait, each behind its distance.
    queue: BTreeSet<(usize, usize)>,
    /// The replacements that were made.
    seen: BTreeSet<Key>,
    /// The visit that needs nothing.
    done: Option<usize>,
}

/// Returns the numbers of a needed item, the number of edges back to its dot 0 last; `usize::MAX` where nothing is needed.
fn numbers_of<S: IndexStorage>(need: Need<S>) -> (usize, usize) {
    match need {
        Some((pidx, dot)) => (pidx.0.to_usize(), dot.0.to_usize()),
        None => (usize::MAX, usize::MAX),
    }
}

/// Moves the dot of the item back.
fn moved_back<S: IndexStorage>(need: Need<S>) -> Need<S> {
    let (pidx, dot) = need?;
    let number = S::from_usize(dot.0.to_usize().saturating_sub(1))?;
    Some((pidx, SIdx(number)))
}

/// Returns whether the state has the item with the token, if one is needed.
fn has_need<'a, S: IndexStorage>(source: &Source<'a, S>, stidx: StIdx<S>, need: Need<S>) -> bool {
    match need {
        Some((pidx, dot)) => source.has_look(stidx, pidx, dot),
        None => true,
    }
}

/// Returns whether the state has both items with the token.
fn has_needs<'a, S: IndexStorage>(source: &Source<'a, S>, visit: &Visit<S>) -> bool {
    has_need(source, visit.stidx, visit.first) && has_need(source, visit.stidx, visit.second)
}

impl<S: IndexStorage> Visit<S> {
    /// Returns the number of edges back until one of both items is at dot 0.
    fn edges_back(&self) -> usize {
        numbers_of(self.first).1.min(numbers_of(self.second).1)
    }

    /// Returns whether the first of both items is at dot 0.
    fn is_first_at_zero(&self) -> bool {
        numbers_of(self.first).1 == 0
    }

    /// Returns the item at dot 0, and the other one.
    fn needs(&self) -> (Need<S>, Need<S>) {
        if self.is_first_at_zero() {
            return (self.first, self.second);
        }
        (self.second, self.first)
    }

    /// Replaces the item at dot 0.
    fn with_need(&self, index: usize, need: Need<S>) -> Visit<S> {
        let mut visit = *self;
        if self.is_first_at_zero() {
            visit.first = need;
        } else {
            visit.second = need;
        }
        visit.next = index;
        visit.by_edge = false;
        visit
    }
}

impl<S: IndexStorage> Search<S> {
    /// Has a visit wait: on the way where an item is at dot 0, and else in the queue.
    fn put(&mut self, visit: Visit<S>) -> Result<(), AllocError> {
        let index = self.visits.len();
        self.visits.push(visit)?;
        if visit.first.is_none() && visit.second.is_none() {
            self.done = Some(index);
            return Ok(());
        }
        let left = visit.edges_back();
        if left == 0 {
            return self.step(index, left, 0);
        }
        let distance = self.distance.saturating_add(left);
        self.queue.insert((distance, index))?;
        Ok(())
    }

    /// Puts a visit on the way, with so many edges left, to go to its predecessors from one on.
    fn step(&mut self, index: usize, left: usize, next: usize) -> Result<(), AllocError> {
        self.way.push(Step { index, left, next })?;
        Ok(())
    }

    /// Takes the nearest visit from the queue, and returns whether there was one.
    fn take_nearest(&mut self) -> Result<bool, AllocError> {
        let Some((distance, index)) = self.queue.pop_first() else {
            return Ok(false);
        };
        if index < self.visits.len() {
            let left = self.visits[index].edges_back();
            self.distance = distance;
            self.step(index, left, 0)?;
        }
        Ok(true)
    }

    /// Goes back to the next predecessor of a visit, if that has the needed items.
    fn step_back<'a>(
        &mut self,
        source: &Source<'a, S>,
        visit: &Visit<S>,
        step: Step,
    ) -> Result<(), AllocError> {
        let Step { index, left, next } = step;
        let states = source.tables.predecessors.of(visit.stidx);
        if next >= states.len() {
            return Ok(());
        }
        self.step(index, left, next + 1)?;
        let before = Visit {
            stidx: states[next],
            first: moved_back(visit.first),
            second: moved_back(visit.second),
            next: index,
            by_edge: true,
        };
        if has_needs(source, &before) {
            let found = self.visits.len();
            self.step(found, left.saturating_sub(1), 0)?;
            self.visits.push(before)?;
        }
        Ok(())
    }

    /// Replaces the item at dot 0 of a visit, unless one of its rule was replaced there.
    fn go_out<'a>(
        &mut self,
        source: &Source<'a, S>,
        visit: &Visit<S>,
        index: usize,
        outer: &mut Vec<(PIdx<S>, SIdx<S>)>,
    ) -> Result<(), AllocError> {
        let (need, other) = visit.needs();
        let Some((pidx, _)) = need else {
            return Ok(());
        };
        if !has_production(source.grm, pidx) {
            return Ok(());
        }
        let ridx = source.grm.prod_to_rule(pidx);
        let (production, dot) = numbers_of(other);
        let (state, is_first) = (visit.stidx.0.to_usize(), visit.is_first_at_zero());
        if !self
            .seen
            .insert((state, ridx.0.to_usize(), production, dot, is_first))?
        {
            return Ok(());
        }
        if source.is_start(pidx) {
            if source.is_end() {
                self.put(visit.with_need(index, None))?;
            }
            return Ok(());
        }
        source.items_before(visit.stidx, Symbol::Rule(ridx), false, outer)?;
        self.put_each(source, visit, index, outer.as_slice())
    }

    /// Puts each of the items in the place of the one at dot 0, and nothing where the token may follow at once.
    fn put_each<'a>(
        &mut self,
        source: &Source<'a, S>,
        visit: &Visit<S>,
        index: usize,
        outer: &[(PIdx<S>, SIdx<S>)],
    ) -> Result<(), AllocError> {
        let mut follows = false;
        'outer: for back in 0..outer.len() {
            let (pidx, dot) = outer[outer.len() - 1 - back];
            let start = source.start_behind(pidx, dot);
            if start.has {
                if !follows {
                    self.put(visit.with_need(index, None))?;
                }
                follows = true;
            } else if start.vanishes && source.has_look(visit.stidx, pidx, dot) {
                self.put(visit.with_need(index, Some((pidx, dot))))?;
            }
            if self.done.is_some() {
                return Ok(());
            }
        }
        Ok(())
    }

    /// Goes on from the last visit on the way, or the nearest in the queue, and returns whether there was one.
    fn go_on<'a>(
        &mut self,
        source: &Source<'a, S>,
        outer: &mut Vec<(PIdx<S>, SIdx<S>)>,
    ) -> Result<bool, AllocError> {
        let Some(step) = self.way.pop() else {
            return self.take_nearest();
        };
        if step.index >= self.visits.len() {
            return Ok(true);
        }
        let visit = self.visits[step.index];
        if step.left == 0 {
            self.go_out(source, &visit, step.index, outer)?;
        } else {
            self.step_back(source, &visit, step)?;
        }
        Ok(true)
    }
}

/// Returns the states of a shortest path to the state of a visit, and those from there on.
fn path_from<'a, S: IndexStorage>(
    alloc: Global,
    source: &Source<'a, S>,
    visits: &[Visit<S>],
    index: usize,
) -> Result<Vec<StIdx<S>>, AllocError> {
    if index >= visits.len() {
        return Ok(Vec::new(alloc));
    }
    let predecessors = &source.tables.predecessors;
    let mut path = predecessors.shortest_path(alloc, source.graph, visits[index].stidx)?;
    let mut at = index;
    'visits: for _ in 0..visits.len() {
        if at >= visits.len() {
            return Ok(path);
        }
        let visit = visits[at];
        if visit.by_edge && visit.next < visits.len() {
            path.push(visits[visit.next].stidx)?;
        }
        at = visit.next;
    }
    Ok(path)
}

/// Searches from a visit on, until the needs of one are met or none waits, and returns the path.
fn path_of_search<'a, S: IndexStorage>(
    alloc: Global,
    source: &Source<'a, S>,
    search: &mut Search<S>,
    start: Visit<S>,
) -> Result<Option<Vec<StIdx<S>>>, AllocError> {
    search.put(start)?;
    let mut outer = Vec::with_capacity(alloc, 16)?;
    'steps: for _ in 0..MOST_STEPS {
        if let Some(index) = search.done {
            let path = path_from(alloc, source, search.visits.as_slice(), index)?;
            return Ok(Some(path));
        }
        if !search.go_on(source, &mut outer)? {
            return Ok(None);
        }
    }
    Ok(None)
}

/// Returns the states of a path to the state, the start state first, after which the needed items have the token as lookahead.
pub(crate) fn path_to<'a, S: IndexStorage>(
    alloc: Global,
    source: &Source<'a, S>,
    stidx: StIdx<S>,
    first: Need<S>,
    second: Need<S>,
) -> Result<Option<Vec<StIdx<S>>>, AllocError> {
    let start = Visit {
        stidx,
        first,
        second,
        next: usize::MAX,
        by_edge: false,
    };
    if !has_needs(source, &start) {
        return Ok(None);
    }
    let mut search = Search {
        visits: Vec::with_capacity(alloc, 16)?,
        way: Vec::with_capacity(alloc, 16)?,
        distance: 0,
        queue: BTreeSet::new(alloc),
        seen: BTreeSet::new(alloc),
        done: None,
    };
    let path = path_of_search(alloc, source, &mut search, start);
    drop(search);
    path
}
