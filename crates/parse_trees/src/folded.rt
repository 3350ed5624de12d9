//! Value stacks beside a run: one of values that functions return for lexemes and nodes, and one that has none.

ghost use Rattle.std.specs.Prelude.{◌≡◌, ◌<◌, ◌≤◌, ◌∷◌, ℕ, List, reverse, length, [], Some, OnOk, IfOk};
ghost use Rattle.cfg_theory.specs.Fold.{no_span, Folds};
ghost use Rattle.cfg_theory.specs.Grammar.{Grammar, head_of};
ghost use Rattle.cfg_theory.specs.Tree.{Tree, Forest, node, none};
ghost use Rattle.lr_theory.specs.Machine.{pop};
ghost use Rattle.lr_theory.specs.StackValues.{reduction_span};
ghost use Rattle.parse_trees.specs.Lex.{span_by};
ghost use Rattle.parse_trees.specs.Stacks.{span_of_places, spans_of, NodeGives, IsFolded, StartsAscend, StartBy, FoldedStand, values_by};
ghost use Rattle.std.proofs.Common.{refl, ◌∙◌};
ghost use Rattle.std.proofs.Math.Nat.{le_trans};

use crate::lex_api::Lexeme;
use crate::values::ValueStack;
use crate::vec_stack::put_above;
use cfg_base::index::IndexStorage;
use cfg_base::span::Span;
use cfg_base::symbol::{PIdx, RIdx};
use std::alloc::{AllocError, Global};

/// Returns the span of a reduction of `count` entries: from the start of the deepest to the end of the top one. Where
/// `count` is 0 it is that of the top entry, or (0, 0) on an empty stack.
pub(crate) fn reduced_span(spans: &[Span], count: usize) -> Span
    requires enough { count ≤ length spans.now }
    requires ascend { StartsAscend spans.now }
    ensures { span_of_places result ≡ reduction_span count (reverse (spans_of spans.now)) }
{
    if spans.is_empty() {
        return Span::new(0, 0);
    }
    let top = spans[spans.len() - 1];
    if count == 0 {
        return top;
    }
    let deepest = spans[spans.len() - count];
    Span::new(deepest.start(), top.end())
}

/// A reduction: its production, that one's rule and the number of its symbols.
#[derive(Clone, Copy)]
pub(crate) struct Reduction<S> {
    pub pidx: PIdx<S>,
    pub ridx: RIdx<S>,
    pub count: usize,
}

/// Takes the arguments of a reduction off the stacks, and puts the value that `fnonterm` returns and its span in their
/// place.
pub(crate) fn fold_top<S: IndexStorage, V: Drop, R>(
    alloc: Global,
    values: &mut Vec<V>,
    spans: &mut Vec<Span>,
    fnonterm: &R,
    reduction: Reduction<S>,
) -> Result<(), AllocError>
where
    R: Fn(Global, PIdx<S>, RIdx<S>, Span, Vec<V>) -> Result<V, AllocError>,
    requires callable { R.IsAlwaysCallable fnonterm.now }
    requires enough { reduction.count ≤ length values.old.items }
    requires same { length spans.old.items ≡ length values.old.items }
    requires ascend { StartsAscend spans.old.items }
    ensures folded { OnOk result (IsFolded (NodeGives S.number (R.post fnonterm.now) alloc) (S.number reduction.pidx.0) (S.number reduction.ridx.0) reduction.count values.old.items spans.old.items values.new.items spans.new.items) }
    ensures same { OnOk result (length spans.new.items ≡ length values.new.items) }
    ensures ascend { OnOk result (StartsAscend spans.new.items) }
    ensures start { OnOk result ((offset : ℕ) → StartBy spans.old.items offset → StartBy spans.new.items offset) }
{
    let span = reduced_span(spans.as_slice(), reduction.count);
    let left = values.len() - reduction.count;
    let args = values.split_off(left)?;
    let value = fnonterm(alloc, reduction.pidx, reduction.ridx, span, args)?;
    values.push(value)?;
    put_above(spans, left, span)?;
    Ok(())
}

/// The values and spans of the symbols of a run, the last ones on top, and the functions that give the values.
#[derive(Drop)]
pub struct FoldedValues<'a, V, F, R> {
    /// The values, one for each symbol on the stack.
    pub values: Vec<V>,
    /// The byte spans of the same symbols.
    pub spans: Vec<Span>,
    /// Returns the value of a lexeme.
    pub fterm: &'a F,
    /// Returns the value of a node, by its production, rule, span and the values of its symbols.
    pub fnonterm: &'a R,
}

/// Returns the stack of a run's start, with no entry.
pub fn no_folds<'a, S: IndexStorage, L: Lexeme<S>, V: Drop, F, R>(
    alloc: Global,
    fterm: &'a F,
    fnonterm: &'a R,
) -> FoldedValues<'a, V, F, R>
where
    F: Fn(Global, L) -> Result<V, AllocError>,
    R: Fn(Global, PIdx<S>, RIdx<S>, Span, Vec<V>) -> Result<V, AllocError>,
    requires term { F.IsAlwaysCallable fterm.now }
    requires nonterm { R.IsAlwaysCallable fnonterm.now }
    ensures term { result.fterm.now ≡ fterm.now }
    ensures nonterm { result.fnonterm.now ≡ fnonterm.now }
    ensures stands { (G : Grammar) → FoldedStand (F.IsAlwaysCallable result.fterm.now) (R.IsAlwaysCallable result.fnonterm.now) G (values_by S.number (F.post result.fterm.now) (R.post result.fnonterm.now)) (span_by L.lex) result.values.items result.spans.items [] }
    ensures start { (offset : ℕ) → StartBy result.spans.items offset }
{
    FoldedValues {
        values: Vec::new(alloc),
        spans: Vec::new(alloc),
        fterm,
        fnonterm,
    }
}

/// Returns the value of the one tree on the stack.
pub fn folded_value<'a, S: IndexStorage, L: Lexeme<S>, V: Drop, F, R>(
    folded: FoldedValues<'a, V, F, R>,
) -> Option<V>
where
    F: Fn(Global, L) -> Result<V, AllocError>,
    R: Fn(Global, PIdx<S>, RIdx<S>, Span, Vec<V>) -> Result<V, AllocError>,
    ensures { (G : Grammar) (t : Tree L) → FoldedStand (F.IsAlwaysCallable folded.entry.fterm.now) (R.IsAlwaysCallable folded.entry.fnonterm.now) G (values_by S.number (F.post folded.entry.fterm.now) (R.post folded.entry.fnonterm.now)) (span_by L.lex) folded.entry.values.items folded.entry.spans.items (t ∷ []) →
        (v : V) × (result ≡ Some v) × Folds G (values_by S.number (F.post folded.entry.fterm.now) (R.post folded.entry.fnonterm.now)) (span_by L.lex) no_span t v }
{
    let mut values = folded.values;
    values.pop()
}

impl<'a, S: IndexStorage, L: Lexeme<S>, V: Drop, F, R> ValueStack<S, L>
    for FoldedValues<'a, V, F, R>
where
    F: Fn(Global, L) -> Result<V, AllocError>,
    R: Fn(Global, PIdx<S>, RIdx<S>, Span, Vec<V>) -> Result<V, AllocError>,
{
    ghost stands = { λ G s ts. FoldedStand (F.IsAlwaysCallable s.fterm.now) (R.IsAlwaysCallable s.fnonterm.now) G (values_by S.number (F.post s.fterm.now) (R.post s.fnonterm.now)) (span_by L.lex) s.values.items s.spans.items ts };

    ghost starts_by = { λ s offset. StartBy s.spans.items offset };

    ghost starts_later = { λ s m n up le. record { by = λ k x e. le_trans (up.by k x e) le } };

    ghost keeps = { λ s t. (t.fterm.now ≡ s.fterm.now) × (t.fnonterm.now ≡ s.fnonterm.now) };

    ghost keeps_all = { λ s. (refl, refl) };

    ghost keeps_on = { λ s t u h k. (k.0 ∙ h.0, k.1 ∙ h.1) };

    fn shift(&mut self, alloc: Global, lexeme: L) -> Result<(), AllocError> {
        let fterm = self.fterm;
        let value = fterm(alloc, lexeme)?;
        self.values.push(value)?;
        self.spans.push(lexeme.span())?;
        Ok(())
    }

    fn reduce(
        &mut self,
        alloc: Global,
        pidx: PIdx<S>,
        ridx: RIdx<S>,
        count: usize,
    ) -> Result<(), AllocError>
        requires stands { (G : Grammar) × (ts : List (Tree L)) × FoldedStand (F.IsAlwaysCallable self.old.fterm.now) (R.IsAlwaysCallable self.old.fnonterm.now) G (values_by S.number (F.post self.old.fterm.now) (R.post self.old.fnonterm.now)) (span_by L.lex) self.old.values.items self.old.spans.items ts × (count ≤ length ts) }
        ensures stands { OnOk result ((G : Grammar) (ts below : List (Tree L)) (f : Forest L) → S.number ridx.0 ≡ head_of G (S.number pidx.0) → FoldedStand (F.IsAlwaysCallable self.old.fterm.now) (R.IsAlwaysCallable self.old.fnonterm.now) G (values_by S.number (F.post self.old.fterm.now) (R.post self.old.fnonterm.now)) (span_by L.lex) self.old.values.items self.old.spans.items ts → pop count ts none ≡ Some (f, below) → FoldedStand (F.IsAlwaysCallable self.new.fterm.now) (R.IsAlwaysCallable self.new.fnonterm.now) G (values_by S.number (F.post self.new.fterm.now) (R.post self.new.fnonterm.now)) (span_by L.lex) self.new.values.items self.new.spans.items (node (S.number pidx.0) f ∷ below)) }
        ensures start { OnOk result ((offset : ℕ) → StartBy self.old.spans.items offset → StartBy self.new.spans.items offset) }
        ensures keeps { OnOk result ((self.new.fterm.now ≡ self.old.fterm.now) × (self.new.fnonterm.now ≡ self.old.fnonterm.now)) }
    {
        let reduction = Reduction { pidx, ridx, count };
        let fnonterm = self.fnonterm;
        fold_top(
            alloc,
            &mut self.values,
            &mut self.spans,
            fnonterm,
            reduction,
        )?;
        Ok(())
    }
}

/// A value stack that stores nothing.
#[derive(Drop)]
pub struct NoValues;

impl<S: IndexStorage, L: Lexeme<S>> ValueStack<S, L> for NoValues {
    ghost stands = { λ G s ts. Unit {0} };

    ghost starts_by = { λ s offset. Unit {0} };

    ghost starts_later = { λ s m n up le. tt };

    ghost keeps = { λ s t. Unit {0} };

    ghost keeps_all = { λ s. tt };

    ghost keeps_on = { λ s t u h k. tt };

    fn shift(&mut self, alloc: Global, lexeme: L) -> Result<(), AllocError> {
        Ok(())
    }

    fn reduce(
        &mut self,
        alloc: Global,
        pidx: PIdx<S>,
        ridx: RIdx<S>,
        count: usize,
    ) -> Result<(), AllocError>
        requires stands { (G : Grammar) × (ts : List (Tree L)) × Unit {0} × (count ≤ length ts) }
        ensures stands { OnOk result ((G : Grammar) (ts below : List (Tree L)) (f : Forest L) → S.number ridx.0 ≡ head_of G (S.number pidx.0) → Unit {0} → pop count ts none ≡ Some (f, below) → Unit {0}) }
        ensures start { OnOk result ((offset : ℕ) → Unit {0} → Unit {0}) }
        ensures keeps { OnOk result (Unit {0}) }
    {
        Ok(())
    }
}
