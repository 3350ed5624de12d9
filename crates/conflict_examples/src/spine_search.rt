//! Searches for the productions that are open along a path of states, breadth first from the innermost one out.

use crate::productions::has_production;
use crate::source::Source;
use cfg_base::index::IndexStorage;
use cfg_base::symbol::{PIdx, SIdx, Symbol};
use state_table::stidx::StIdx;
use std::alloc::{AllocError, Global};
use std::collections::BTreeSet;

/// An open production with its dot.
#[derive(Clone, Copy)]
struct Link<S> {
    pidx: PIdx<S>,
    dot: SIdx<S>,
    /// The index in the path of the state where it begins.
    place: usize,
    /// Whether it needs the token behind it.
    needs: bool,
    /// The index of the link of the production within it.
    within: usize,
}

/// What identifies a link: the place in the path, the rule, and whether the token is needed.
type Key = (usize, usize, bool);

/// The state of the search.
#[derive(Drop)]
struct Links<S> {
    /// The links so far, in the order of the search.
    list: Vec<Link<S>>,
    /// The keys of these links.
    seen: BTreeSet<Key>,
    /// The last of these keys.
    last: Option<Key>,
    /// The index of the link that the search is for.
    done: Option<usize>,
}

/// Returns whether a link is that of the start, and needs nothing that doesn't follow.
fn is_done<'a, S: IndexStorage>(source: &Source<'a, S>, link: &Link<S>) -> bool {
    if link.place != 0 || !source.is_start(link.pidx) {
        return false;
    }
    !link.needs || source.is_end()
}

/// Returns the link around another one, by an item of the state that is before its rule; None where the token can't follow.
fn link_around<'a, S: IndexStorage>(
    source: &Source<'a, S>,
    link: &Link<S>,
    within: usize,
    stidx: StIdx<S>,
    item: (PIdx<S>, SIdx<S>),
) -> Option<Link<S>> {
    let (pidx, dot) = item;
    let place = link.place.checked_sub(dot.0.to_usize())?;
    let mut needs = false;
    if link.needs {
        let start = source.start_behind(pidx, dot);
        needs = !start.has;
        if needs && !(start.vanishes && source.has_look(stidx, pidx, dot)) {
            return None;
        }
    }
    Some(Link {
        pidx,
        dot,
        place,
        needs,
        within,
    })
}

impl<S: IndexStorage> Links<S> {
    /// Appends a link, unless its key was seen. Items of one rule mostly come one after the other.
    fn put<'a>(&mut self, source: &Source<'a, S>, link: Link<S>) -> Result<(), AllocError> {
        if !has_production(source.grm, link.pidx) {
            return Ok(());
        }
        let rule = source.grm.prod_to_rule(link.pidx).0.to_usize();
        let key = (link.place, rule, link.needs);
        if self.last == Some(key) {
            return Ok(());
        }
        self.last = Some(key);
        if !self.seen.insert(key)? {
            return Ok(());
        }
        if self.done.is_none() && is_done(source, &link) {
            self.done = Some(self.list.len());
        }
        self.list.push(link)?;
        Ok(())
    }

    /// Appends the links around one, by the items of the state where it begins.
    fn go_out<'a>(
        &mut self,
        source: &Source<'a, S>,
        path: &[StIdx<S>],
        within: usize,
        outer: &mut Vec<(PIdx<S>, SIdx<S>)>,
    ) -> Result<(), AllocError> {
        if within >= self.list.len() {
            return Ok(());
        }
        let link = self.list[within];
        if link.place >= path.len() || !has_production(source.grm, link.pidx) {
            return Ok(());
        }
        let stidx = path[link.place];
        let rule = source.grm.prod_to_rule(link.pidx);
        source.items_before(stidx, Symbol::Rule(rule), !link.needs, outer)?;
        'outer: for k in 0..outer.len() {
            if let Some(next) = link_around(source, &link, within, stidx, outer[k]) {
                self.put(source, next)?;
            }
        }
        Ok(())
    }

    /// Returns the items from a link in.
    fn items(&self, alloc: Global, index: usize) -> Result<Vec<(PIdx<S>, SIdx<S>)>, AllocError> {
        let mut items = Vec::with_capacity(alloc, 16)?;
        let mut at = index;
        'links: for _ in 0..self.list.len() {
            if at >= self.list.len() {
                return Ok(items);
            }
            let link = self.list[at];
            items.push((link.pidx, link.dot))?;
            at = link.within;
        }
        Ok(items)
    }
}

/// Returns the productions that are open after the path, from that of the start to this one with its dot. With `needs` the token
/// may follow them.
pub(crate) fn spine_along<'a, S: IndexStorage>(
    alloc: Global,
    source: &Source<'a, S>,
    path: &[StIdx<S>],
    item: (PIdx<S>, SIdx<S>),
    needs: bool,
) -> Result<Option<Vec<(PIdx<S>, SIdx<S>)>>, AllocError> {
    let (pidx, dot) = item;
    let Some(place) = path.len().checked_sub(dot.0.to_usize().saturating_add(1)) else {
        return Ok(None);
    };
    let mut links = Links {
        list: Vec::with_capacity(alloc, 16)?,
        seen: BTreeSet::new(alloc),
        last: None,
        done: None,
    };
    let mut outer = Vec::with_capacity(alloc, 16)?;
    links.put(
        source,
        Link {
            pidx,
            dot,
            place,
            needs,
            within: usize::MAX,
        },
    )?;
    'links: for index in 0..usize::MAX {
        if let Some(found) = links.done {
            let items = links.items(alloc, found)?;
            return Ok(Some(items));
        }
        if index >= links.list.len() {
            return Ok(None);
        }
        links.go_out(source, path, index, &mut outer)?;
    }
    Ok(None)
}
