//! Grammars that are made of texts.

ghost use Rattle.std.specs.Prelude.{◌≡◌, ◌<◌, ◌↔◌, IsTrue, IfOk};
ghost use Rattle.cfg_theory.specs.Derivation.{HasPath};
ghost use Rattle.cfg_sentences.specs.Sentences.{AreAnswers};
ghost use Rattle.cfg_sets.specs.Firsts.{AreFirsts};
ghost use Rattle.cfg_sets.specs.Follows.{AreFollows};

mod construct;

use cfg_base::index::IndexStorage;
use cfg_base::symbol::{RIdx, TIdx};
use cfg_numbered::yacc::NumberedGrammar;
pub use cfg_numbered::yacc::grammar::{PIdxs, RIdxs, TIdxs, laws};
use cfg_sentences::SentenceGenerator;
use cfg_sets::{YaccFirsts, YaccFollows};
use std::alloc::{AllocError, Global};
use std::marker::Model;
use std::ops::Deref;

/// The grammar of a text, whose rules, tokens and productions have numbers of `S`. It has the calls of
/// `NumberedGrammar` by `Deref`.
#[derive(Drop)]
pub struct YaccGrammar<S: IndexStorage> {
    numbered: NumberedGrammar<S>,
}

impl<S: IndexStorage> Model for YaccGrammar<S> {
    ghost use Rattle.cfg_numbered.specs.Value.{GrammarValue};

    ghost Value = { GrammarValue };

    ghost view = { λ g. g.numbered };
}

impl<S: IndexStorage> Deref for YaccGrammar<S> {
    type Target = NumberedGrammar<S>;

    ghost deref_gives = { λ g n. n ≡ g };

    fn deref(&self) -> &NumberedGrammar<S>
        ensures { result.now ≡ self.now }
    {
        &self.numbered
    }
}

impl<S: IndexStorage> YaccGrammar<S> {
    /// Of a numbered grammar that was made of a text.
    pub(crate) fn of_numbered(numbered: NumberedGrammar<S>) -> YaccGrammar<S>
        ensures { result ≡ numbered }
    {
        YaccGrammar { numbered }
    }

    /// Returns the numbered grammar alone, for calls that take it by value.
    pub fn into_numbered(self) -> NumberedGrammar<S>
        ensures { result ≡ self }
    {
        self.numbered
    }

    /// Computes the FIRST sets of the rules.
    pub fn firsts(&self, alloc: Global) -> Result<YaccFirsts<S>, AllocError>
        ensures { IfOk result (λ f. AreFirsts self.now.grammar f) }
    {
        YaccFirsts::new(alloc, &self.numbered)
    }

    /// Computes the FOLLOW sets of the rules.
    pub fn follows(&self, alloc: Global) -> Result<YaccFollows<S>, AllocError>
        ensures { IfOk result (λ f. AreFollows self.now.grammar f) }
    {
        YaccFollows::new(alloc, &self.numbered)
    }

    /// Returns whether a rule reaches another, or itself, by one or more references in productions.
    pub fn has_path(&self, alloc: Global, from: RIdx<S>, to: RIdx<S>) -> Result<bool, AllocError>
        requires from { S.number from.0 < self.now.grammar.rules }
        requires to { S.number to.0 < self.now.grammar.rules }
        ensures { IfOk result (λ b. IsTrue b ↔ HasPath self.now.grammar (S.number from.0) (S.number to.0)) }
    {
        cfg_sets::has_path(alloc, &self.numbered, from, to)
    }

    /// Makes a generator of the rules' sentences, with costs of tokens: `f` is called once for each token in
    /// order, the end token too.
    pub fn sentence_generator<F: Fn(TIdx<S>) -> u8 + Drop>(
        &self,
        alloc: Global,
        f: F,
    ) -> Result<SentenceGenerator<'_, S>, AllocError>
        requires { F.IsAlwaysCallable f }
        ensures grammar { IfOk result (λ s. s.grammar ≡ self.now.grammar) }
        ensures costs { IfOk result (λ s. AreAnswers S.number (F.post f) self.now.grammar.tokens s.costs) }
    {
        SentenceGenerator::new(alloc, &self.numbered, f)
    }
}
