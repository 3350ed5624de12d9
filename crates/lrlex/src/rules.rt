//! Rules with names.

ghost use Rattle.std.specs.Prelude.{◌≡◌, ◌++◌, ◌∷◌, [], OnOk, OnErr, IfOk, string_bytes, option_map};
ghost use Rattle.maximal_munch.specs.RuleValues.{rule_value};
ghost use Rattle.lrlex.specs.Expressions.{lex_config};
ghost use Rattle.lrlex.specs.Lexing.{rules_of, names_of, AddsRule};
ghost use Rattle.regex.specs.Strings.{regex_config, IsReadFromSource};

use crate::expression::{compile, options};
use maximal_munch::{Rule, RuleSet, Target};
use regex::Error;
use std::alloc::{AllocError, Global};

/// The rules of a lexer in order, each with its name, and start conditions by number. A rule without a name is skipped.
#[derive(Drop)]
pub struct LexRules {
    pub(crate) set: RuleSet,
    pub(crate) names: Vec<Option<String>>,
}

impl LexRules {
    /// Makes a list of no rule and no start condition.
    pub fn new(alloc: Global) -> LexRules
        ensures rules { rules_of result ≡ record { exclusive = []; rules = [] } }
        ensures names { names_of result ≡ [] }
    {
        LexRules {
            set: RuleSet::new(alloc),
            names: Vec::new(alloc),
        }
    }

    /// Adds the next start condition, and whether it is exclusive. Lexing begins in condition 0.
    pub fn push_condition(&mut self, exclusive: bool) -> Result<(), AllocError>
        ensures ok { OnOk result (rules_of self.new ≡ record (rules_of self.old) { exclusive = (rules_of self.old).exclusive ++ exclusive ∷ [] }) }
        ensures names { names_of self.new ≡ names_of self.old }
        ensures err { OnErr result (rules_of self.new ≡ rules_of self.old) }
    {
        self.set.push_condition(exclusive)
    }

    /// Adds a rule behind the others: its expression, its name, the numbers of the start conditions that it is limited to, and
    /// what it does to the stack of these. Without a name its parts are skipped.
    ///
    /// # Errors
    ///
    /// That of the expression, which `regex` doesn't compile, with offsets in `\A(?:`, the expression, `)`; or `OutOfMemory`.
    pub fn push(
        &mut self,
        alloc: Global,
        expression: &str,
        name: Option<&str>,
        conditions: Vec<usize>,
        target: Target,
    ) -> Result<(), Error>
        ensures rules { OnOk result (AddsRule expression.now conditions.items target (rules_of self.old) (rules_of self.new)) }
        ensures names { OnOk result (names_of self.new ≡ names_of self.old ++ option_map (λ s. s.now) name.entry ∷ []) }
        ensures refused { OnErr result (rules_of self.new ≡ rules_of self.old) }
        ensures unnamed { OnErr result (names_of self.new ≡ names_of self.old) }
    {
        let regex = compile(alloc, expression)?;
        self.push_compiled(
            alloc,
            Rule {
                regex,
                conditions,
                target,
            },
            name,
        )?;
        Ok(())
    }

    /// Adds a rule and its name, or neither.
    fn push_compiled(
        &mut self,
        alloc: Global,
        rule: Rule,
        name: Option<&str>,
    ) -> Result<(), AllocError>
        requires config { regex_config rule.regex ≡ lex_config }
        requires read { IsReadFromSource rule.regex }
        ensures rules { OnOk result (rules_of self.new ≡ record (rules_of self.old) { rules = (rules_of self.old).rules ++ rule_value rule ∷ [] }) }
        ensures names { OnOk result (names_of self.new ≡ names_of self.old ++ option_map (λ s. s.now) name.entry ∷ []) }
        ensures refused { OnErr result (rules_of self.new ≡ rules_of self.old) }
        ensures unnamed { OnErr result (names_of self.new ≡ names_of self.old) }
    {
        let name = owned_name(alloc, name)?;
        self.names.push(name)?;
        if let Err(e) = self.set.push_read(alloc, rule, &options()) {
            drop(self.names.pop());
            return Err(e);
        }
        Ok(())
    }
}

/// Copies a name.
fn owned_name(alloc: Global, name: Option<&str>) -> Result<Option<String>, AllocError>
    ensures { IfOk result (λ o. option_map string_bytes o ≡ option_map (λ s. s.now) name.entry) }
{
    match name {
        Some(name) => {
            let name = String::from_str(alloc, name)?;
            Ok(Some(name))
        }
        None => Ok(None),
    }
}
