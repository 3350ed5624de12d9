//! Tails: what follows a symbol in a production.

ghost use Rattle.std.specs.Prelude.{◌≡◌, ◌<◌, ◌+◌, ℕ, false, length, get_or, IfOk, IfSome, IsTrue, OnOk, MatchOption, ◌↔◌};
ghost use Rattle.cfg_theory.specs.Grammar.{Sym, rule, body_of, IsNext};
ghost use Rattle.cfg_sets.specs.Firsts.{AreFirsts, HasEpsilon};
ghost use Rattle.cfg_numbered.specs.Symbols.{sym_of};
ghost use Rattle.vob.specs.Sets.{is_set};
ghost use Rattle.state_table.specs.CoreViews.{items_of};
ghost use Rattle.state_table.specs.ItemRows.{Item};
ghost use Rattle.lrtable.specs.Closes.{IsRest};
ghost use Rattle.lrtable.specs.Stepping.{HaveNoNext};
ghost use Rattle.lrtable.specs.MadeTails.{AreTails};
ghost use Rattle.lrtable.specs.declared.tails.Tail.{Tail};

use cfg_base::index::IndexStorage;
use cfg_base::symbol::{PIdx, RIdx, Symbol};
use cfg_numbered::yacc::NumberedGrammar;
use cfg_sets::YaccFirsts;
use state_table::cores::CoreItem;
use std::alloc::{AllocError, Global};
use vob::Vob;

/// What follows a symbol in a production: the tokens that it begins with, and whether it is nullable.
#[derive(Drop)]
pub(crate) struct Rest {
    pub first: Vob,
    pub nullable: bool,
}

impl Rest {
    /// Makes the tail of a last symbol: it has no token, and is nullable.
    pub(crate) fn empty(alloc: Global, tokens: usize) -> Result<Rest, AllocError>
        ensures { IfOk result (λ r. length r.first.bits ≡ tokens) }
    {
        let first = Vob::from_elem(alloc, false, tokens)?;
        Ok(Rest {
            first,
            nullable: true,
        })
    }
}

/// Returns the symbol behind a dot, if there is one.
pub(crate) fn symbol_after<S: IndexStorage>(
    grm: &NumberedGrammar<S>,
    pidx: PIdx<S>,
    dot: usize,
) -> Option<Symbol<S>>
    requires { S.number pidx.0 < length grm.now.grammar.productions }
    ensures { MatchOption result ((X : Sym) → IsNext grm.now.grammar (S.number pidx.0) dot X → ⊥) (λ x. IsNext grm.now.grammar (S.number pidx.0) dot (sym_of S.number x)) }
{
    let symbols = grm.prod(pidx);
    if dot >= symbols.len() {
        return None;
    }
    Some(symbols[dot])
}

/// Returns the rule behind a dot, if there is one.
pub(crate) fn rule_after<S: IndexStorage>(
    grm: &NumberedGrammar<S>,
    pidx: PIdx<S>,
    dot: usize,
) -> Option<RIdx<S>>
    requires { S.number pidx.0 < length grm.now.grammar.productions }
    ensures { MatchOption result ((A : ℕ) → IsNext grm.now.grammar (S.number pidx.0) dot (rule A) → ⊥) (λ x. IsNext grm.now.grammar (S.number pidx.0) dot (rule (S.number x.0))) }
{
    match symbol_after(grm, pidx, dot) {
        Some(symbol) => match symbol {
            Symbol::Rule(ridx) => Some(ridx),
            Symbol::Token(_) => None,
        },
        None => None,
    }
}

/// Returns whether an item isn't complete: it has a symbol behind its dot.
fn is_incomplete<S: IndexStorage>(grm: &NumberedGrammar<S>, item: &CoreItem<S>) -> bool
    requires { S.number item.now.pidx.0 < length grm.now.grammar.productions }
    ensures { result ≡ false → (X : Sym) → IsNext grm.now.grammar (S.number item.now.pidx.0) (S.number item.now.dot.0) X → ⊥ }
{
    match symbol_after(grm, item.pidx, item.dot.0.to_usize()) {
        Some(_) => true,
        None => false,
    }
}

/// Returns whether one of these items isn't complete.
pub(crate) fn any_incomplete<S: IndexStorage>(
    grm: &NumberedGrammar<S>,
    items: &[CoreItem<S>],
) -> bool
    requires { (k : ℕ) (d : Item) → k < length items.now → (get_or (items_of S.number items.now) k d).production < length grm.now.grammar.productions }
    ensures { result ≡ false → HaveNoNext grm.now.grammar (items_of S.number items.now) (length items.now) }
{
    'items: for k in 0..items.len() {
        if is_incomplete(grm, &items[k]) {
            return true;
        }
    }
    false
}

/// What follows the symbol behind a dot of a production, as it was made beforehand.
#[derive(Drop)]
pub(crate) struct Tail {
    pub production: usize,
    pub dot: usize,
    pub rest: Rest,
}

/// What follows the rules in productions. Where a nullable rule comes next it is made beforehand, from the production's end on: it has
/// the tokens of each symbol up to the first that isn't nullable, so to join these for each dot would take the square of a body's
/// length.
#[derive(Drop)]
pub(crate) struct Tails<'a, S: IndexStorage> {
    pub firsts: &'a YaccFirsts<S>,
    /// In the order of the productions, those of one from its end on.
    pub made: Vec<Tail>,
}

/// Returns where what follows the symbol behind a dot was made, if it was.
fn place_of(made: &[Tail], production: usize, dot: usize) -> Option<usize>
    ensures within { IfSome result (λ k. k < length made.now) }
    ensures production { IfSome result (λ k. (t : Tail) → (get_or made.now k t).production ≡ production) }
    ensures dot { IfSome result (λ k. (t : Tail) → (get_or made.now k t).dot ≡ dot) }
{
    let k = made.partition_point(|it| {
        it.production < production || it.production == production && it.dot > dot
    });
    if k >= made.len() {
        return None;
    }
    let it = &made[k];
    if it.production != production || it.dot != dot {
        return None;
    }
    Some(k)
}

/// Returns the rule at a place of a production, if one is there and it is nullable.
fn nullable_at<S: IndexStorage>(
    grm: &NumberedGrammar<S>,
    firsts: &YaccFirsts<S>,
    pidx: PIdx<S>,
    at: usize,
) -> Option<RIdx<S>>
    requires production { S.number pidx.0 < length grm.now.grammar.productions }
    requires firsts { AreFirsts grm.now.grammar firsts.now }
    ensures next { IfSome result (λ r. IsNext grm.now.grammar (S.number pidx.0) at (rule (S.number r.0))) }
    ensures nullable { IfSome result (λ r. HasEpsilon firsts.now (S.number r.0)) }
{
    grm.start_prod();
    match rule_after(grm, pidx, at) {
        Some(ridx) => {
            if firsts.is_epsilon_set(ridx) {
                Some(ridx)
            } else {
                None
            }
        }
        None => None,
    }
}

/// Writes what follows the symbol behind a dot over what followed another.
pub(crate) fn fill_rest<S: IndexStorage>(
    grm: &NumberedGrammar<S>,
    firsts: &YaccFirsts<S>,
    pidx: PIdx<S>,
    dot: usize,
    rest: &mut Rest,
)
    requires production { S.number pidx.0 < length grm.now.grammar.productions }
    requires dot { dot < length (body_of grm.now.grammar (S.number pidx.0)) }
    requires firsts { AreFirsts grm.now.grammar firsts.now }
    requires width { length rest.old.first.bits ≡ grm.now.grammar.tokens }
    ensures { IsRest grm.now.grammar (S.number pidx.0) dot rest.new.first.bits rest.new.nullable }
{
    grm.start_prod();
    let symbols = grm.prod(pidx);
    let nullable = firsts.first_of(&symbols[dot + 1..], &mut rest.first);
    rest.nullable = nullable;
}

impl Rest {
    /// Becomes another tail.
    fn copy_of(&mut self, other: &Rest)
        requires { length self.old.first.bits ≡ length other.now.first.bits }
        ensures width { length self.new.first.bits ≡ length other.now.first.bits }
        ensures bits { (t : ℕ) → IsTrue (is_set self.new.first.bits t) ↔ IsTrue (is_set other.now.first.bits t) }
        ensures nullable { self.new.nullable ≡ other.now.nullable }
    {
        self.first.set_all(false);
        self.first.or(&other.first);
        self.nullable = other.nullable;
    }
}

impl<'a, S: IndexStorage> Tails<'a, S> {
    /// Makes what follows a rule where a nullable rule comes next.
    pub(crate) fn new(
        alloc: Global,
        grm: &NumberedGrammar<S>,
        firsts: &'a YaccFirsts<S>,
    ) -> Result<Tails<'a, S>, AllocError>
        requires { AreFirsts grm.now.grammar firsts.now }
        ensures { IfOk result (AreTails grm.now.grammar) }
    {
        let mut rest = Rest::empty(alloc, grm.tokens_len().0.to_usize())?;
        let mut tails = Tails {
            firsts,
            made: Vec::new(alloc),
        };
        match tails.put_all(grm, &mut rest) {
            Ok(()) => Ok(tails),
            Err(e) => {
                drop(tails);
                Err(e)
            }
        }
    }

    /// Makes those of all productions, of each from its end on.
    fn put_all(&mut self, grm: &NumberedGrammar<S>, rest: &mut Rest) -> Result<(), AllocError>
        requires tails { AreTails grm.now.grammar self.old }
        requires width { length rest.old.first.bits ≡ grm.now.grammar.tokens }
        ensures { OnOk result (AreTails grm.now.grammar self.new) }
    {
        'prods: for number in 0..grm.prods_len().0.to_usize() {
            let pidx = grm.prod_at(number);
            let len = grm.prod(pidx).len();
            'places: for back in 0..len {
                self.put_before(grm, pidx, len - 1 - back, rest)?;
            }
        }
        Ok(())
    }

    /// Makes what follows the symbol before a place, if a nullable rule is at that.
    fn put_before(
        &mut self,
        grm: &NumberedGrammar<S>,
        pidx: PIdx<S>,
        at: usize,
        rest: &mut Rest,
    ) -> Result<(), AllocError>
        requires production { S.number pidx.0 < length grm.now.grammar.productions }
        requires tails { AreTails grm.now.grammar self.old }
        requires width { length rest.old.first.bits ≡ grm.now.grammar.tokens }
        ensures tails { OnOk result (AreTails grm.now.grammar self.new) }
        ensures width { OnOk result (length rest.new.first.bits ≡ grm.now.grammar.tokens) }
    {
        let Some(ridx) = nullable_at(grm, self.firsts, pidx, at) else {
            return Ok(());
        };
        if at == 0 {
            return Ok(());
        }
        self.fill(grm, pidx, at, rest);
        self.firsts.put_before(Symbol::Rule(ridx), &mut rest.first);
        let first = rest.first.clone()?;
        let nullable = rest.nullable;
        let rest = Rest { first, nullable };
        let production = pidx.0.to_usize();
        let dot = at - 1;
        self.made.push(Tail {
            production,
            dot,
            rest,
        })?;
        Ok(())
    }

    /// Writes what follows the symbol behind a dot over what followed another.
    pub(crate) fn fill(&self, grm: &NumberedGrammar<S>, pidx: PIdx<S>, dot: usize, rest: &mut Rest)
        requires production { S.number pidx.0 < length grm.now.grammar.productions }
        requires dot { dot < length (body_of grm.now.grammar (S.number pidx.0)) }
        requires tails { AreTails grm.now.grammar self.now }
        requires width { length rest.old.first.bits ≡ grm.now.grammar.tokens }
        ensures { IsRest grm.now.grammar (S.number pidx.0) dot rest.new.first.bits rest.new.nullable }
    {
        if nullable_at(grm, self.firsts, pidx, dot.saturating_add(1)).is_some() {
            if let Some(k) = place_of(self.made.as_slice(), pidx.0.to_usize(), dot) {
                rest.copy_of(&self.made[k].rest);
                return;
            }
        }
        fill_rest(grm, self.firsts, pidx, dot, rest);
    }
}
