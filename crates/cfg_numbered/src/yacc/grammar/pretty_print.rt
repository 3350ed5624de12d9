//! Productions as texts.

ghost use Rattle.std.specs.Prelude.{◌≡◌, ◌<◌, ◌++◌, ℕ, Some, length, slice_get, IfOk, OnOk};
ghost use Rattle.std.specs.List.{flat_map};
ghost use Rattle.std.specs.String.{string_bytes};
ghost use Rattle.cfg_theory.specs.Grammar.{InRange, Sym};
ghost use Rattle.cfg_numbered.specs.Symbols.{sym_of, syms_of};
ghost use Rattle.cfg_numbered.specs.PrettyPrint.{name_of, quoted, production_text};

use super::NumberedGrammar;
use cfg_base::index::IndexStorage;
use cfg_base::symbol::{PIdx, Symbol};
use std::alloc::{AllocError, Global};

impl<S: IndexStorage> NumberedGrammar<S> {
    fn symbol_name(&self, symbol: Symbol<S>) -> &str
        requires { InRange self.now.grammar (sym_of S.number symbol) }
        ensures { result.now ≡ name_of self.now (sym_of S.number symbol) }
    {
        match symbol {
            Symbol::Rule(ridx) => self.rule_name_str(ridx),
            Symbol::Token(tidx) => self.token_name(tidx).unwrap_or(""),
        }
    }

    /// Puts symbols behind a text, each with its name between quotation marks.
    fn push_symbols(&self, text: &mut String, symbols: &[Symbol<S>]) -> Result<(), AllocError>
        requires { (d : ℕ) (X : Sym) → slice_get (syms_of S.number symbols.now) d ≡ Some X → InRange self.now.grammar X }
        ensures { OnOk result (string_bytes text.new ≡ string_bytes text.old ++ flat_map (λ X. quoted (name_of self.now X)) (syms_of S.number symbols.now)) }
    {
        'symbols: for symbol in symbols {
            push_quoted(text, self.symbol_name(*symbol))?;
        }
        Ok(())
    }

    /// Returns a production as text: `E: "E" "+" "E"`.
    pub fn pp_prod(&self, alloc: Global, pidx: PIdx<S>) -> Result<String, AllocError>
        requires { S.number pidx.0 < length self.now.grammar.productions }
        ensures { IfOk result (λ text. string_bytes text ≡ production_text self.now (S.number pidx.0)) }
    {
        // For the proof alone: this read gives it the invariant of each grammar.
        let _rules = &self.rules;
        let mut text = String::new(alloc);
        text.push_str(self.rule_name_str(self.prod_to_rule(pidx)))?;
        text.push_str(":")?;
        self.push_symbols(&mut text, self.prod(pidx))?;
        Ok(text)
    }
}

fn push_quoted(text: &mut String, name: &str) -> Result<(), AllocError>
    ensures { OnOk result (string_bytes text.new ≡ string_bytes text.old ++ quoted name.now) }
{
    text.push_str(" \"")?;
    text.push_str(name)?;
    text.push_str("\"")
}
