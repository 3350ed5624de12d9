//! What a valid grammar text declares and doesn't use.

ghost use Rattle.std.specs.Prelude.{◌≡◌, ◌↔◌, ◌-◌, ◌++◌, ◌∷◌, ◌||◌, [], ℕ, IsTrue, List, length, map, option_map, slice_get, if◌then◌else◌, IfOk, OnOk};
ghost use Rattle.cfg_base.specs.Text.{is_at};
ghost use Rattle.std.specs.List.{flat_map, list_any, IsDistinct};
ghost use Rattle.std.specs.Option.{option_map_or, option_copied};
ghost use Rattle.std.specs.Str.{bytes_eq};
ghost use Rattle.cfg_read.specs.AstChanges.{rule_named};
ghost use Rattle.cfg_read.specs.AstModels.{ast_symbol_of, named_spans};
ghost use Rattle.cfg_read.specs.Names.{is_among};
ghost use Rattle.cfg_read.specs.FreshRules.{is_fresh_name};
ghost use Rattle.cfg_read.specs.NameModels.{names_in, has_name};
ghost use Rattle.cfg_read.specs.Warnings.{UnusedRule, UnusedToken, AreUnused, AreWarnings, IsReached, IsUsed, expects_rule, expects_token, warnings_at, unused_rules, unused_tokens};
ghost use Rattle.cfg_read.specs.WarningModels.{warning_kind, warning_of, warnings_in, warning_text, with_symbol_names, is_rule_symbol, is_token_symbol, is_any_symbol, symbols_of_all, symbols_under, rule_names, start_names};

use super::{GrammarAST, Symbol};
use cfg_base::name_hasher::NameHasher;
use cfg_base::span::{Span, Spanned, SpansKind};
use indexmap::{IndexMap, IndexSet};
use std::alloc::{AllocError, Global};
use std::fmt;

/// What a grammar text declares and doesn't use.
#[derive(Clone, Copy, Debug, PartialEq, Eq)]
pub enum YaccGrammarWarningKind {
    /// A rule that the start rule doesn't lead to.
    UnusedRule,
    /// A token in no rule that is reached from the start rule.
    UnusedToken,
}

impl fmt::Display for YaccGrammarWarningKind {
    ghost use Rattle.std.specs.Prelude.{Some};
    ghost use Rattle.cfg_read.specs.WarningModels.{warning_kind, warning_text};

    ghost output = { λ k. Some (warning_text (warning_kind k)) };

    fn fmt<W: fmt::Write>(&self, f: &mut fmt::Formatter<W>) -> fmt::Result {
        match self {
            YaccGrammarWarningKind::UnusedRule => write!(f, "Unused rule"),
            YaccGrammarWarningKind::UnusedToken => write!(f, "Unused token"),
        }
    }
}

/// A warning, and the span that shows it.
#[derive(Debug, Drop)]
pub struct YaccGrammarWarning {
    /// What isn't used.
    pub kind: YaccGrammarWarningKind,
    /// The byte span of the rule's first heading, or of the token's first appearance.
    pub spans: Vec<Span>,
}

impl fmt::Display for YaccGrammarWarning {
    ghost use Rattle.std.specs.Prelude.{Some};
    ghost use Rattle.cfg_read.specs.WarningModels.{warning_of, warning_text};

    ghost output = { λ w. Some (warning_text (warning_of w).kind) };

    fn fmt<W: fmt::Write>(&self, f: &mut fmt::Formatter<W>) -> fmt::Result {
        let kind = self.kind;
        write!(f, "{kind}")
    }
}

impl Spanned for YaccGrammarWarning {
    ghost use Rattle.cfg_base.specs.declared.span.SpansKind.TheVariants.{Error};

    ghost spans_of = { λ w. w.spans.items };

    ghost spanskind_of = { λ w. Error };

    fn spans(&self) -> &[Span] {
        self.spans.as_slice()
    }

    fn spanskind(&self) -> SpansKind {
        SpansKind::Error
    }
}

/// Adds the names of the rules among these symbols.
fn insert_rules<'a>(
    names: &mut IndexSet<&'a str, NameHasher>,
    symbols: &'a [Symbol],
) -> Result<(), AllocError>
    ensures { OnOk result (names_in names.new
        ≡ with_symbol_names is_rule_symbol (names_in names.old) (map ast_symbol_of symbols.now)) }
{
    'symbols: for symbol in symbols {
        if let Symbol::Rule(name, _span) = symbol {
            names.insert(name.as_str())?;
        }
    }
    Ok(())
}

/// Adds the names of the tokens among these symbols.
fn insert_tokens<'a>(
    names: &mut IndexSet<&'a str, NameHasher>,
    symbols: &'a [Symbol],
) -> Result<(), AllocError>
    ensures { OnOk result (names_in names.new
        ≡ with_symbol_names is_token_symbol (names_in names.old) (map ast_symbol_of symbols.now)) }
{
    'symbols: for symbol in symbols {
        if let Symbol::Token(name, _span) = symbol {
            names.insert(name.as_str())?;
        }
    }
    Ok(())
}

/// Returns the names of `%expect-unused` without quotes.
fn expected_rules<'a>(
    alloc: Global,
    symbols: &'a [Symbol],
    hasher: NameHasher,
) -> Result<IndexSet<&'a str, NameHasher>, AllocError>
    ensures { IfOk result (λ s. (name : List ℕ) → has_name s name ≡ expects_rule (map ast_symbol_of symbols.now) name) }
{
    let mut names = IndexSet::with_hasher(alloc, hasher);
    insert_rules(&mut names, symbols)?;
    Ok(names)
}

/// Returns all names of `%expect-unused`.
fn expected_tokens<'a>(
    alloc: Global,
    symbols: &'a [Symbol],
    hasher: NameHasher,
) -> Result<IndexSet<&'a str, NameHasher>, AllocError>
    ensures { IfOk result (λ s. (name : List ℕ) → has_name s name ≡ expects_token (map ast_symbol_of symbols.now) name) }
{
    let mut names = IndexSet::with_hasher(alloc, hasher);
    'symbols: for symbol in symbols {
        names.insert(symbol.name().as_str())?;
    }
    Ok(names)
}

/// Puts a warning behind the others, where it is wanted.
fn push_if(
    alloc: Global,
    warnings: &mut Vec<YaccGrammarWarning>,
    kind: YaccGrammarWarningKind,
    span: Span,
    wanted: bool,
) -> Result<(), AllocError>
    ensures { OnOk result (warnings_in warnings.new.items
        ≡ warnings_in warnings.old.items ++ (if wanted then record { kind = warning_kind kind; spans = span ∷ [] } ∷ [] else [])) }
{
    if wanted {
        let spans = vec![in alloc; span]?;
        warnings.push(YaccGrammarWarning { kind, spans })?;
    }
    Ok(())
}

/// Returns the last byte of a name.
fn last_byte(name: &str) -> Option<u8>
    ensures { result ≡ slice_get name.now (length name.now - 1) }
{
    name.as_bytes().last().copied()
}

/// Returns whether the last byte of a name is `?`.
fn ends_in_mark(name: &str) -> bool
    ensures { result ≡ is_at name.now (length name.now - 1) 63 }
{
    last_byte(name) == Some(b'?')
}

/// Returns whether a name ends in `?`, as that of a fresh rule does.
fn is_fresh_name(name: &str) -> bool
    ensures { result ≡ is_fresh_name name.now }
{
    ends_in_mark(name)
}

/// Returns whether a rule is fresh, reached or expected to be unused.
fn is_silent_rule(
    name: &str,
    reached: &IndexSet<&str, NameHasher>,
    expected: &IndexSet<&str, NameHasher>,
) -> bool
    ensures { result ≡ (is_fresh_name name.now || (has_name reached.now name.now || has_name expected.now name.now)) }
{
    is_fresh_name(name) || reached.contains(name) || expected.contains(name)
}

/// Returns whether this is a name of the map.
fn is_key(name: &str, spans: &IndexMap<String, Span, NameHasher>) -> bool
    ensures { result ≡ is_among (named_spans spans.now) name.now }
{
    spans.contains_key(name)
}

/// Returns whether a token is used, implicit or expected to be unused.
fn is_silent(
    name: &str,
    used: &IndexSet<&str, NameHasher>,
    implicit: &IndexMap<String, Span, NameHasher>,
    expected: &IndexSet<&str, NameHasher>,
) -> bool
    ensures { result ≡ (has_name used.now name.now || (is_among (named_spans implicit.now) name.now || has_name expected.now name.now)) }
{
    used.contains(name) || is_key(name, implicit) || expected.contains(name)
}

impl GrammarAST {
    /// Returns the numbers of the productions of the rule of this name.
    fn numbers(&self, name: &str) -> Option<&Vec<usize>>
        ensures numbers { option_map (λ ns. ns.items) (option_copied result)
            ≡ option_map (λ r. r.productions) (rule_named self.now.rules name.now) }
        ensures unique { IsDistinct bytes_eq (rule_names self.now) }
    {
        match self.rules.get_index_of(name) {
            Some(index) => Some(&self.rules[index].pidxs),
            None => None,
        }
    }

    /// Adds the rules in these productions.
    fn insert_all_rules<'a>(
        &'a self,
        names: &mut IndexSet<&'a str, NameHasher>,
        numbers: &[usize],
    ) -> Result<(), AllocError>
        ensures { OnOk result (names_in names.new
            ≡ with_symbol_names is_rule_symbol (names_in names.old) (symbols_of_all self.now.productions numbers.now)) }
    {
        'pidxs: for number in numbers {
            if let Some(production) = self.prods.get(*number) {
                insert_rules(names, production.symbols())?;
            }
        }
        Ok(())
    }

    /// Adds the tokens in these productions.
    fn insert_all_tokens<'a>(
        &'a self,
        names: &mut IndexSet<&'a str, NameHasher>,
        numbers: &[usize],
    ) -> Result<(), AllocError>
        ensures { OnOk result (names_in names.new
            ≡ with_symbol_names is_token_symbol (names_in names.old) (symbols_of_all self.now.productions numbers.now)) }
    {
        'pidxs: for number in numbers {
            if let Some(production) = self.prods.get(*number) {
                insert_tokens(names, production.symbols())?;
            }
        }
        Ok(())
    }

    /// Adds the rules in the alternatives of the rule of this name.
    fn insert_rules_under<'a>(
        &'a self,
        names: &mut IndexSet<&'a str, NameHasher>,
        name: &str,
    ) -> Result<(), AllocError>
        ensures added { OnOk result (names_in names.new
            ≡ with_symbol_names is_rule_symbol (names_in names.old) (symbols_under self.now name.now)) }
        ensures unique { IsDistinct bytes_eq (rule_names self.now) }
    {
        if let Some(numbers) = self.numbers(name) {
            self.insert_all_rules(names, numbers)?;
        }
        Ok(())
    }

    /// Adds the tokens in the alternatives of the rule of this name.
    fn insert_tokens_under<'a>(
        &'a self,
        names: &mut IndexSet<&'a str, NameHasher>,
        name: &str,
    ) -> Result<(), AllocError>
        ensures added { OnOk result (names_in names.new
            ≡ with_symbol_names is_token_symbol (names_in names.old) (symbols_under self.now name.now)) }
        ensures unique { IsDistinct bytes_eq (rule_names self.now) }
    {
        if let Some(numbers) = self.numbers(name) {
            self.insert_all_tokens(names, numbers)?;
        }
        Ok(())
    }

    /// Returns the name of the start rule.
    fn start_names(&self, alloc: Global) -> Result<IndexSet<&str, NameHasher>, AllocError>
        ensures { IfOk result (λ s. names_in s ≡ start_names self.now) }
    {
        let mut names = IndexSet::with_capacity_and_hasher(
            alloc,
            self.rules.len(),
            *self.rules.hasher(),
        )?;
        if let Some((start, _span)) = &self.start {
            names.insert(start.as_str())?;
        }
        Ok(names)
    }

    /// Returns the names that the start rule leads to, each once: its own, and those in alternatives of the rules
    /// among them.
    fn reached_rules(&self, alloc: Global) -> Result<IndexSet<&str, NameHasher>, AllocError>
        ensures { IfOk result (λ s. (name : List ℕ) → IsTrue (has_name s name) ↔ IsReached self.now name) }
    {
        let mut names = self.start_names(alloc)?;
        let mut number = 0usize;
        'rules: while number < names.len() {
            let name: &str = names[number];
            self.insert_rules_under(&mut names, name)?;
            number += 1;
        }
        Ok(names)
    }

    /// Returns the tokens in alternatives of these rules.
    fn used_tokens<'a>(
        &'a self,
        alloc: Global,
        reached: &IndexSet<&'a str, NameHasher>,
    ) -> Result<IndexSet<&'a str, NameHasher>, AllocError>
        requires { (name : List ℕ) → IsTrue (has_name reached.now name) ↔ IsReached self.now name }
        ensures { IfOk result (λ s. (token : List ℕ) → IsTrue (has_name s token) ↔ IsUsed self.now token) }
    {
        let mut names = IndexSet::with_capacity_and_hasher(
            alloc,
            self.tokens.len(),
            *reached.hasher(),
        )?;
        'rules: for name in reached.as_slice() {
            self.insert_tokens_under(&mut names, name)?;
        }
        Ok(names)
    }

    /// Puts a warning for each unused rule that is neither fresh nor expected behind the others.
    fn push_unused_rules(
        &self,
        alloc: Global,
        warnings: &mut Vec<YaccGrammarWarning>,
        reached: &IndexSet<&str, NameHasher>,
    ) -> Result<(), AllocError>
        ensures { OnOk result (warnings_in warnings.new.items
            ≡ warnings_in warnings.old.items ++ warnings_at UnusedRule (unused_rules (has_name reached.now) self.now)) }
    {
        let expected = expected_rules(alloc, &self.expect_unused, *reached.hasher())?;
        'rules: for (name, rule) in &self.rules {
            let is_silent = is_silent_rule(name.as_str(), reached, &expected);
            match push_if(
                alloc,
                warnings,
                YaccGrammarWarningKind::UnusedRule,
                rule.name.1,
                !is_silent,
            ) {
                Ok(()) => {}
                Err(e) => {
                    drop(expected);
                    return Err(e);
                }
            }
        }
        drop(expected);
        Ok(())
    }

    /// Puts a warning for each unused token that is neither implicit nor expected behind the others.
    fn push_unused_tokens(
        &self,
        alloc: Global,
        warnings: &mut Vec<YaccGrammarWarning>,
        used: &IndexSet<&str, NameHasher>,
    ) -> Result<(), AllocError>
        ensures { OnOk result (warnings_in warnings.new.items
            ≡ warnings_in warnings.old.items ++ warnings_at UnusedToken (unused_tokens (has_name used.now) self.now)) }
    {
        let expected = expected_tokens(alloc, &self.expect_unused, *used.hasher())?;
        'tokens: for (name, span) in &self.tokens {
            let is_silent = is_silent(name.as_str(), used, &self.implicit_tokens, &expected);
            match push_if(
                alloc,
                warnings,
                YaccGrammarWarningKind::UnusedToken,
                *span,
                !is_silent,
            ) {
                Ok(()) => {}
                Err(e) => {
                    drop(expected);
                    return Err(e);
                }
            }
        }
        drop(expected);
        Ok(())
    }

    /// Puts a warning for each unused rule, then one for each unused token, behind the others.
    fn push_unused(
        &self,
        alloc: Global,
        warnings: &mut Vec<YaccGrammarWarning>,
        reached: &IndexSet<&str, NameHasher>,
        used: &IndexSet<&str, NameHasher>,
    ) -> Result<(), AllocError>
        ensures { OnOk result (warnings_in warnings.new.items
            ≡ (warnings_in warnings.old.items ++ warnings_at UnusedRule (unused_rules (has_name reached.now) self.now)) ++ warnings_at UnusedToken (unused_tokens (has_name used.now) self.now)) }
    {
        self.push_unused_rules(alloc, warnings, reached)?;
        self.push_unused_tokens(alloc, warnings, used)
    }

    /// Lists all unused rules, then all unused tokens, by number: none that `%expect-unused` names, no fresh rules and no
    /// implicit tokens.
    fn unused(&self, alloc: Global) -> Result<Vec<YaccGrammarWarning>, AllocError>
        ensures { IfOk result (λ ws. AreUnused self.now (warnings_in ws.items)) }
    {
        let mut warnings = Vec::new(alloc);
        let reached = self.reached_rules(alloc)?;
        let used = match self.used_tokens(alloc, &reached) {
            Ok(used) => used,
            Err(e) => {
                drop(reached);
                return Err(e);
            }
        };
        match self.push_unused(alloc, &mut warnings, &reached, &used) {
            Ok(()) => {
                drop(used);
                drop(reached);
                Ok(warnings)
            }
            Err(e) => {
                drop(used);
                drop(reached);
                Err(e)
            }
        }
    }

    /// Lists the rules, then the tokens, that aren't reached from the start rule, by number. Those that
    /// `%expect-unused` names, fresh rules and implicit tokens are left out. A text that isn't valid has none.
    pub fn warnings(&self, alloc: Global) -> Result<Vec<YaccGrammarWarning>, AllocError>
        ensures { IfOk result (λ ws. AreWarnings self.now (map warning_of ws.items)) }
    {
        if self.is_valid {
            let warnings = self.unused(alloc)?;
            Ok(warnings)
        } else {
            Ok(Vec::new(alloc))
        }
    }
}
