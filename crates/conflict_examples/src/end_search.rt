//! Searches for an example of a production that may be reduced at the end of a text. No table is made of a grammar
//! with such a production. So the search goes over the productions alone: from that of the start in, and over the
//! symbol of this one.

ghost use Rattle.std.specs.Prelude.{◌≡◌, IfOk, IfSome};
ghost use Rattle.cfg_theory.specs.Grammar.{end_token};
ghost use Rattle.lr_theory.specs.Canonical.{accept, reduce};
ghost use Rattle.conflict_examples.specs.ExampleViews.{example_of};
ghost use Rattle.conflict_examples.specs.Spines.{IsExample};

use crate::example_check::accept_example;
use crate::examples::ConflictExample;
use crate::left_corner::steps_to_empty;
use crate::nullable::Nullable;
use crate::productions::{symbol_after, symbols_behind, symbols_of};
use crate::symbols::same_symbol;
use crate::witness::Candidate;
use cfg_base::index::IndexStorage;
use cfg_base::symbol::{PIdx, SIdx, Symbol};
use cfg_numbered::yacc::NumberedGrammar;
use std::alloc::{AllocError, Global};
use std::collections::BTreeSet;

/// An open production with its dot, behind which nothing has to follow.
#[derive(Clone, Copy)]
struct Frame<S> {
    pidx: PIdx<S>,
    dot: SIdx<S>,
    /// Whether the start's symbol is before the dots.
    past: bool,
    /// The index of the frame around it.
    around: usize,
}

/// The state of the search.
#[derive(Drop)]
struct Frames<'a, S: IndexStorage> {
    grm: &'a NumberedGrammar<S>,
    nullable: &'a Nullable,
    /// The dots 0 and 1.
    dots: (SIdx<S>, SIdx<S>),
    /// The frames so far, in the order of the search.
    list: Vec<Frame<S>>,
    /// The numbers of these frames.
    seen: BTreeSet<(usize, usize, bool)>,
}

impl<'a, S: IndexStorage> Frames<'a, S> {
    /// Returns whether the symbol after the dot is that of the start.
    fn is_before_start(&self, frame: &Frame<S>) -> bool {
        let wanted = symbol_after(self.grm, self.grm.start_prod(), self.dots.0);
        let found = symbol_after(self.grm, frame.pidx, frame.dot);
        match (wanted, found) {
            (Some(wanted), Some(found)) => same_symbol(wanted, found),
            _ => false,
        }
    }

    /// Returns whether the frame is the production, complete behind the start's symbol.
    fn is_done(&self, frame: &Frame<S>, wanted: PIdx<S>) -> bool {
        if !frame.past || frame.pidx.0.to_usize() != wanted.0.to_usize() {
            return false;
        }
        symbol_after(self.grm, frame.pidx, frame.dot).is_none()
    }

    /// Appends a frame, unless there is one with the same numbers.
    fn put(&mut self, frame: Frame<S>) -> Result<(), AllocError> {
        let Frame {
            pidx,
            dot,
            past,
            ..
        } = frame;
        let key = (pidx.0.to_usize(), dot.0.to_usize(), past);
        if self.seen.insert(key)? {
            self.list.push(frame)?;
        }
        Ok(())
    }

    /// Appends the productions of the rule after the dot of a frame, if nothing has to follow.
    fn go_in(&mut self, index: usize, frame: &Frame<S>) -> Result<(), AllocError> {
        let Some(Symbol::Rule(ridx)) = symbol_after(self.grm, frame.pidx, frame.dot) else {
            return Ok(());
        };
        let symbols = symbols_of(self.grm, frame.pidx);
        let rest = symbols_behind(symbols, frame.dot.0.to_usize());
        if !self.nullable.has_all(rest) || !self.grm.has_rule(ridx) {
            return Ok(());
        }
        let prods = self.grm.rule_to_prods(ridx);
        'prods: for k in 0..prods.len() {
            self.put(Frame {
                pidx: prods[k],
                dot: self.dots.0,
                past: frame.past,
                around: index,
            })?;
        }
        Ok(())
    }

    /// Appends a frame with its dot behind the start's symbol, if it is before it and none is behind it yet.
    fn go_over(&mut self, frame: &Frame<S>) -> Result<(), AllocError> {
        if frame.past || !self.is_before_start(frame) {
            return Ok(());
        }
        self.put(Frame {
            pidx: frame.pidx,
            dot: self.dots.1,
            past: true,
            around: frame.around,
        })
    }

    /// Returns the items from the start's production to a frame.
    fn items(&self, alloc: Global, index: usize) -> Result<Vec<(PIdx<S>, SIdx<S>)>, AllocError> {
        let mut items = Vec::new(alloc);
        let mut at = index;
        'frames: for _ in 0..self.list.len() {
            if at < self.list.len() {
                let frame = self.list[at];
                items.push((frame.pidx, frame.dot))?;
                at = frame.around;
            }
        }
        items.as_mut_slice().reverse();
        Ok(items)
    }
}

/// Returns the productions that are open where this one is complete behind the start's symbol, and nothing has to follow.
fn items_to<'a, S: IndexStorage>(
    alloc: Global,
    grm: &'a NumberedGrammar<S>,
    nullable: &'a Nullable,
    dots: (SIdx<S>, SIdx<S>),
    pidx: PIdx<S>,
) -> Result<Option<Vec<(PIdx<S>, SIdx<S>)>>, AllocError> {
    let mut frames = Frames {
        grm,
        nullable,
        dots,
        list: Vec::new(alloc),
        seen: BTreeSet::new(alloc),
    };
    frames.put(Frame {
        pidx: grm.start_prod(),
        dot: dots.0,
        past: false,
        around: usize::MAX,
    })?;
    'frames: for index in 0..usize::MAX {
        if index >= frames.list.len() {
            return Ok(None);
        }
        let frame = frames.list[index];
        if frames.is_done(&frame, pidx) {
            let items = frames.items(alloc, index)?;
            return Ok(Some(items));
        }
        frames.go_in(index, &frame)?;
        frames.go_over(&frame)?;
    }
    Ok(None)
}

/// Returns the candidates for the end of the text, and for the reduction before it.
fn accept_candidates<S: IndexStorage>(
    alloc: Global,
    grm: &NumberedGrammar<S>,
    pidx: PIdx<S>,
) -> Result<Option<(Candidate<S>, Candidate<S>)>, AllocError> {
    let (Some(zero), Some(one)) = (S::from_usize(0), S::from_usize(1)) else {
        return Ok(None);
    };
    let dots = (SIdx(zero), SIdx(one));
    let nullable = Nullable::new(alloc, grm)?;
    let Some(items) = items_to(alloc, grm, &nullable, dots, pidx)? else {
        return Ok(None);
    };
    let Some(steps) = steps_to_empty(alloc, grm, &nullable, items.as_slice())? else {
        return Ok(None);
    };
    let second = Candidate { items, steps };
    let mut items = Vec::new(alloc);
    items.push((grm.start_prod(), dots.1))?;
    let steps = Vec::new(alloc);
    Ok(Some((Candidate { items, steps }, second)))
}

/// Returns an example of a production that may be reduced at the end of a text, as a `StateTableError` names one:
/// before the end token the text may be accepted, which is the first action, or the production reduced. `None` where
/// the search finds none. It is not proved that it finds one for each production that such an error names.
pub fn accept_reduce<S: IndexStorage>(
    alloc: Global,
    grm: &NumberedGrammar<S>,
    pidx: PIdx<S>,
) -> Result<Option<ConflictExample<S>>, AllocError>
    ensures example { IfOk result (λ o. IfSome o (λ x. IsExample grm.now.grammar (example_of S.number x) accept (reduce (S.number pidx.0)))) }
    ensures token { IfOk result (λ o. IfSome o (λ x. S.number x.token.0 ≡ end_token grm.now.grammar)) }
{
    let Some(candidates) = accept_candidates(alloc, grm, pidx)? else {
        return Ok(None);
    };
    accept_example(alloc, grm, &candidates, pidx)
}
