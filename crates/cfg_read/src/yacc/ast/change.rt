//! Changes a syntax tree, and looks a rule up by its name.

ghost use Rattle.std.specs.Prelude.{◌≡◌, true, [], is_some, option_map, OnOk, OnErr};
ghost use Rattle.std.specs.Option.{option_copied};
ghost use Rattle.std.specs.String.{string_bytes};
ghost use Rattle.cfg_read.specs.Names.{is_among};
ghost use Rattle.cfg_read.specs.AstBuild.{has_rule};
ghost use Rattle.cfg_read.specs.AstChanges.{with_rule, with_production, with_programs, rule_named};
ghost use Rattle.cfg_read.specs.AstModels.{rule_entry_of, production_of};

use super::{GrammarAST, Production, Rule, build};
use cfg_base::span::Span;
use std::alloc::{AllocError, Global};

impl GrammarAST {
    /// Adds a rule without productions behind the others. It replaces the rule of this name where there is one, and the
    /// productions of that one are no rule's.
    pub fn add_rule(
        &mut self,
        alloc: Global,
        name: (String, Span),
        actiont: Option<String>,
    ) -> Result<(), AllocError>
        ensures added { OnOk result (self.new ≡ with_rule self.old (record {
          name = record { text = string_bytes name.0; span = name.1 };
          productions = [];
          action_type = option_map string_bytes actiont;
        })) }
        ensures kept { OnErr result (self.new ≡ self.old) }
    {
        let key = name.0.clone()?;
        let rule = Rule {
            name,
            pidxs: Vec::new(alloc),
            actiont,
        };
        self.rules.insert(key, rule)?;
        Ok(())
    }

    /// Adds a production of this rule behind the others.
    pub fn add_prod(&mut self, rule_name: &str, production: Production) -> Result<(), AllocError>
        requires { has_rule self.old.rules rule_name.now ≡ true }
        ensures added { OnOk result (self.new ≡ with_production self.old rule_name.now (production_of production)) }
        ensures kept { OnErr result (self.new ≡ self.old) }
    {
        match self.prods.reserve(1) {
            Ok(()) => {}
            Err(e) => {
                drop(production);
                return Err(e);
            }
        }
        match build::push_number(&mut self.rules, rule_name, self.prods.len()) {
            Ok(()) => {}
            Err(e) => {
                drop(production);
                return Err(e);
            }
        }
        self.prods.push(production).unwrap();
        Ok(())
    }

    /// Makes this the text behind the second `%%`.
    pub fn add_programs(&mut self, text: String)
        ensures { self.new ≡ with_programs self.old (string_bytes text) }
    {
        self.set_programs(text);
    }

    /// Makes this the text behind the second `%%`, instead of any that was there.
    pub fn set_programs(&mut self, text: String)
        ensures { self.new ≡ with_programs self.old (string_bytes text) }
    {
        self.programs = Some(text);
    }

    /// Returns the rule of this name.
    pub fn get_rule(&self, name: &str) -> Option<&Rule>
        ensures rule { option_map rule_entry_of (option_copied result) ≡ rule_named self.now.rules name.now }
        ensures there { is_some result ≡ has_rule self.now.rules name.now }
    {
        self.rules.get(name)
    }

    /// Returns whether this is the name of a token.
    pub fn has_token(&self, name: &str) -> bool
        ensures { result ≡ is_among self.now.tokens name.now }
    {
        self.tokens.contains_key(name)
    }
}
