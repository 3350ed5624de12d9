//! For each rule the productions in whose bodies it occurs.

ghost use Rattle.std.specs.Prelude.{◌≡◌, ℕ, ◌<◌, List, [], length, get_or, slice_get, Some, replicate, IsTrue, IfOk, OnOk};
ghost use Rattle.std.specs.List.{Contains};
ghost use Rattle.cfg_theory.specs.Grammar.{Sym, Grammar};
ghost use Rattle.cfg_numbered.specs.Symbols.{sym_of, syms_of};
ghost use Rattle.cfg_sets.specs.WorkLists.{ListsNaming, AddsNamed, IsRule, IsSomeOf, HasList};
ghost use Rattle.vob.specs.Sets.{is_set};

use cfg_base::index::IndexStorage;
use cfg_base::symbol::Symbol;
use cfg_numbered::yacc::grammar::NumberedGrammar;
use std::alloc::{AllocError, Global};
use std::marker::Model;
use vob::Vob;

/// The productions that name each rule, in order. One that names a rule twice is listed once.
#[derive(Drop)]
pub struct Naming {
    lists: Vec<Vec<usize>>,
}

impl Model for Naming {
    ghost use Rattle.std.specs.Prelude.{ℕ, List, map};

    ghost Value = { List (List ℕ) };

    ghost view = { λ n. map (λ l. l.items) n.lists.items };
}

impl Naming {
    /// Lists, for each rule of a grammar, the productions that name it.
    pub fn new<S: IndexStorage>(
        alloc: Global,
        grm: &NumberedGrammar<S>,
    ) -> Result<Naming, AllocError>
        ensures { IfOk result (λ n. ListsNaming grm.now.grammar (length grm.now.grammar.productions) n) }
    {
        let mut naming = Naming::empty(alloc, grm.rules_len().0.to_usize())?;
        grm.stays_well_formed();
        'prods: for number in 0..grm.prods_len().0.to_usize() {
            naming.add_all(number, grm.prod(grm.prod_at(number)))?;
        }
        Ok(naming)
    }

    fn empty(alloc: Global, rules: usize) -> Result<Naming, AllocError>
        ensures { IfOk result (λ n. n ≡ replicate rules []) }
    {
        let mut lists = Vec::new(alloc);
        'rules: for _ in 0..rules {
            lists.push(Vec::new(alloc))?;
        }
        Ok(Naming { lists })
    }

    /// Returns how many rules there are.
    pub fn len(&self) -> usize
        ensures { result ≡ length self.now }
    {
        self.lists.len()
    }

    /// Returns the productions that name a rule.
    pub fn of(&self, rule: usize) -> &[usize]
        requires { rule < length self.now }
        ensures { result.now ≡ get_or self.now rule [] }
    {
        self.lists[rule].as_slice()
    }

    /// Takes the productions that name a rule out of a set.
    pub fn take_out(&self, rule: usize, prods: &mut Vob)
        requires rule { rule < length self.now }
        requires within { (p : ℕ) → Contains (get_or self.now rule []) p → p < length prods.old.bits }
        ensures width { length prods.new.bits ≡ length prods.old.bits }
        ensures fewer { (p : ℕ) → IsTrue (is_set prods.new.bits p) → IsTrue (is_set prods.old.bits p) }
        ensures gone { (p : ℕ) → Contains (get_or self.now rule []) p → IsTrue (is_set prods.new.bits p) → ⊥ }
    {
        let named = self.of(rule);
        'prods: for index in 0..named.len() {
            prods.set(named[index], false);
        }
    }

    /// Lists a production beside each rule among the symbols.
    fn add_all<S: IndexStorage>(
        &mut self,
        number: usize,
        symbols: &[Symbol<S>],
    ) -> Result<(), AllocError>
        requires { (d : ℕ) (X : Sym) → slice_get (syms_of S.number symbols.now) d ≡ Some X → HasList (length self.old) X }
        ensures { OnOk result (AddsNamed number (IsSomeOf (syms_of S.number symbols.now)) self.old self.new) }
    {
        'symbols: for index in 0..symbols.len() {
            self.add_symbol(number, symbols[index])?;
        }
        Ok(())
    }

    /// Lists a production beside a symbol, where that is a rule.
    fn add_symbol<S: IndexStorage>(
        &mut self,
        number: usize,
        symbol: Symbol<S>,
    ) -> Result<(), AllocError>
        requires { HasList (length self.old) (sym_of S.number symbol) }
        ensures { OnOk result (AddsNamed number (IsRule (sym_of S.number symbol)) self.old self.new) }
    {
        match symbol {
            Symbol::Rule(rule) => self.add(number, rule.0.to_usize()),
            Symbol::Token(_) => Ok(()),
        }
    }

    /// Lists a production beside a rule, unless it is the last one there.
    fn add(&mut self, number: usize, rule: usize) -> Result<(), AllocError>
        requires { rule < length self.old }
        ensures { OnOk result (AddsNamed number (λ A. A ≡ rule) self.old self.new) }
    {
        let list = &mut self.lists[rule];
        if ends_with(list.as_slice(), number) {
            return Ok(());
        }
        list.push(number)?;
        Ok(())
    }
}

/// Returns whether the number is the last one of the list.
fn ends_with(list: &[usize], number: usize) -> bool
    ensures { IsTrue result → Contains list.now number }
{
    let count = list.len();
    count > 0 && list[count - 1] == number
}
