//! Parts that are taken out of syntax trees, for what is made of a tree that is dropped.

ghost use Rattle.std.specs.Prelude.{◌≡◌, map, option_map};
ghost use Rattle.std.specs.String.{string_bytes};
ghost use Rattle.cfg_read.specs.Asts as asts;
ghost use Rattle.cfg_read.specs.AstChanges.{without_rules, without_productions, without_tokens, without_epp};
ghost use Rattle.cfg_read.specs.AstModels.{production_of, named_spans, named_rules, named_epps};
ghost use Rattle.cfg_read.specs.SyntaxModels.{word_of};

use super::{GrammarAST, Production, Rule};
use crate::yacc::parser::syntax::{Alternative, Word};
use cfg_base::name_hasher::NameHasher;
use cfg_base::span::Span;
use indexmap::IndexMap;
use std::alloc::Global;
use std::mem;

/// Returns the text of a word, if there is one, taken over.
fn into_text(word: Option<Word>) -> Option<String>
    ensures { option_map string_bytes result ≡ asts.text_of (option_map word_of word) }
{
    match word {
        Some(word) => Some(word.text),
        None => None,
    }
}

impl Production {
    /// Returns the action, taken over.
    pub fn into_action(self) -> Option<String>
        ensures { option_map string_bytes result ≡ (production_of self).action }
    {
        match self.kept {
            Alternative::Body(body) => into_text(Box::into_inner(body).action),
            _ => None,
        }
    }
}

impl GrammarAST {
    /// Takes the rules out of the tree.
    pub fn take_rules(&mut self, alloc: Global) -> IndexMap<String, Rule, NameHasher>
        ensures rules { named_rules result ≡ self.old.rules }
        ensures rest { self.new ≡ without_rules self.old }
    {
        let hasher = *self.rules.hasher();
        mem::replace(&mut self.rules, IndexMap::with_hasher(alloc, hasher))
    }

    /// Takes the productions out of the tree.
    pub fn take_prods(&mut self, alloc: Global) -> Vec<Production>
        ensures productions { map production_of result.items ≡ self.old.productions }
        ensures rest { self.new ≡ without_productions self.old }
    {
        mem::replace(&mut self.prods, Vec::new(alloc))
    }

    /// Takes the tokens out of the tree.
    pub fn take_tokens(&mut self, alloc: Global) -> IndexMap<String, Span, NameHasher>
        ensures tokens { named_spans result ≡ self.old.tokens }
        ensures rest { self.new ≡ without_tokens self.old }
    {
        let hasher = *self.tokens.hasher();
        mem::replace(&mut self.tokens, IndexMap::with_hasher(alloc, hasher))
    }

    /// Takes the printed texts of tokens out of the tree.
    pub fn take_epp(
        &mut self,
        alloc: Global,
    ) -> IndexMap<String, (Span, (String, Span)), NameHasher>
        ensures texts { named_epps result ≡ self.old.epp }
        ensures rest { self.new ≡ without_epp self.old }
    {
        let hasher = *self.epp.hasher();
        mem::replace(&mut self.epp, IndexMap::with_hasher(alloc, hasher))
    }
}
