//! Item sets with closure and goto.

ghost use Rattle.std.specs.Prelude.{IfOk};
ghost use Rattle.cfg_sets.specs.Firsts.{AreFirsts};
ghost use Rattle.cfg_numbered.specs.Symbols.{sym_of};
ghost use Rattle.lr_theory.specs.Itemset.{ItemSet, HasItem, HasLook, Closure, ClosureLook, Goto, GotoLook, Is, FitsGrammar};

use crate::closures::{closed_by, moved_set};
use crate::openers::Openers;
use crate::opening::Closer;
use cfg_base::index::IndexStorage;
use cfg_base::symbol::Symbol;
use cfg_numbered::yacc::NumberedGrammar;
use cfg_sets::YaccFirsts;
use state_table::itemset::of_shared;
pub use state_table::itemset::{Items, Itemset};
use std::alloc::{AllocError, Global};

/// Closure and goto of item sets.
pub trait Closing<S: IndexStorage> {
    /// The set.
    ghost items: { Self → ItemSet };

    /// Makes the closure: the least set that holds this one and is closed by the FIRST rule.
    fn close(
        &self,
        alloc: Global,
        grm: &NumberedGrammar<S>,
        firsts: &YaccFirsts<S>,
    ) -> Result<Itemset<S>, AllocError>
        requires fits { FitsGrammar grm.now.grammar (items self.now) }
        requires firsts { AreFirsts grm.now.grammar firsts.now }
        ensures value { IfOk result (λ c. Is c (Closure grm.now.grammar (HasItem (items self.now))) (ClosureLook grm.now.grammar (HasItem (items self.now)) (HasLook (items self.now)))) }
        ensures fits { IfOk result (FitsGrammar grm.now.grammar) };

    /// Makes the goto set: the items with the symbol behind their dot, the dot moved over it.
    fn goto(
        &self,
        alloc: Global,
        grm: &NumberedGrammar<S>,
        sym: &Symbol<S>,
    ) -> Result<Itemset<S>, AllocError>
        requires { FitsGrammar grm.now.grammar (items self.now) }
        ensures value { IfOk result (λ n. Is n (Goto grm.now.grammar (HasItem (items self.now)) (sym_of S.number sym.now)) (GotoLook grm.now.grammar (HasLook (items self.now)) (sym_of S.number sym.now))) }
        ensures fits { IfOk result (FitsGrammar grm.now.grammar) };
}

impl<S: IndexStorage> Closing<S> for Itemset<S> {
    ghost items = { λ s. s };

    fn close(
        &self,
        alloc: Global,
        grm: &NumberedGrammar<S>,
        firsts: &YaccFirsts<S>,
    ) -> Result<Itemset<S>, AllocError> {
        let core = self.shared_sets().to_core(alloc)?;
        let openers = Openers::new(alloc, grm, firsts)?;
        let mut closer = Closer::new(alloc, grm, firsts, &openers)?;
        let set = closed_by(alloc, grm, &mut closer, &core)?;
        Ok(of_shared(set))
    }

    fn goto(
        &self,
        alloc: Global,
        grm: &NumberedGrammar<S>,
        sym: &Symbol<S>,
    ) -> Result<Itemset<S>, AllocError> {
        let set = moved_set(alloc, grm, self.shared_sets(), sym)?;
        Ok(of_shared(set))
    }
}
