//! Makes a syntax tree from what a text says.

ghost use Rattle.std.specs.Prelude.{◌≡◌, ◌+◌, ◌-◌, ◌≤◌, ◌^◌, true, ◌++◌, [], length, replicate, map, fold, option_map, IfOk, OnOk, OnErr};
ghost use Rattle.std.specs.List.{flat_map};
ghost use Rattle.std.specs.Option.{option_or};
ghost use Rattle.std.specs.String.{string_bytes};
ghost use Rattle.cfg_read.specs.Asts.{first_item, last_text, text_of, param_texts, expected_ast, heads_in, start_of, ast_of};
ghost use Rattle.cfg_read.specs.AstModels.{ast_symbol_of, production_of, named_span, named_spans, named_rules, rule_entry_of, rule_keys, own_names, number_with_span, param_pair};
ghost use Rattle.cfg_read.specs.Validity.{expected_symbols};
ghost use Rattle.cfg_read.specs.SyntaxModels.{word_of, boxed_word, words_of, symbol_of, param_of, rule_of, number_text, syntax_of};
ghost use Rattle.cfg_read.specs.NameModels.{symbols_at};
ghost use Rattle.cfg_read.specs.Settling.{named_fresh};
ghost use Rattle.cfg_read.specs.Judging.{heads_of, with_numbers_at, count_up, both_heads, with_headings_of, with_productions_of, with_tokens, with_lines_of};
ghost use Rattle.cfg_read.specs.LinesByName.{AreLinesOf};
ghost use Rattle.cfg_read.specs.AstBuild.{headed, with_first, with_parts_of, with_expected_of};
ghost use Rattle.cfg_read.specs.AstChanges.{with_number};

use super::parts::Lines;
use super::settle::Fresh;
use super::{GrammarAST, Production, Rule, Symbol, fresh, parts};
use crate::yacc::name::Name;
use crate::yacc::names;
use crate::yacc::parser::syntax::{self, Epp, Number, Param, Syntax, Word};
use cfg_base::name_hasher::NameHasher;
use cfg_base::span::Span;
use indexmap::IndexMap;
use std::alloc::{AllocError, Global};
use std::mem;

/// Returns the first heading.
fn first_heading(
    alloc: Global,
    rules: &[syntax::Rule],
) -> Result<Option<(String, Span)>, AllocError>
    ensures { IfOk result (λ named. option_map named_span named ≡ first_item (map (λ r. r.name) (map rule_of rules.now))) }
{
    match rules.first() {
        Some(rule) => {
            let name = String::from_str(alloc, rule.name.as_str())?;
            Ok(Some((name, rule.span)))
        }
        None => Ok(None),
    }
}

/// Returns the first `%start`, else the first heading.
fn start_word(alloc: Global, x: &Syntax) -> Result<Option<(String, Span)>, AllocError>
    ensures { IfOk result (λ named. option_map named_span named ≡ start_of (syntax_of x.now)) }
{
    match x.starts.first() {
        Some(word) => Ok(Some((word.text.clone()?, word.span))),
        None => first_heading(alloc, &x.rules),
    }
}

/// Returns the first of these numbers, with its span.
fn to_number(numbers: &[Number]) -> Option<(usize, Span)>
    ensures { option_map number_with_span result ≡ first_item (map number_text numbers.now) }
{
    match numbers.first() {
        Some(number) => Some((number.value, number.span)),
        None => None,
    }
}

/// Returns the name and the type of a parameter.
fn to_param(param: &Option<Param>) -> Result<Option<(String, String)>, AllocError>
    ensures { IfOk result (λ pair. option_map param_pair pair ≡ option_map param_texts (option_map param_of param.now)) }
{
    match param {
        Some(param) => {
            let name = param.name.text.clone()?;
            let kind = param.param_type.text.clone()?;
            Ok(Some((name, kind)))
        }
        None => Ok(None),
    }
}

/// Returns a symbol of `%expect-unused`: a token where it is quoted, else a rule.
fn to_expected(symbol: &Symbol) -> Result<Symbol, AllocError>
    ensures { IfOk result (λ s. ast_symbol_of s ≡ expected_ast (symbol_of symbol.now)) }
{
    let name = symbol.name().plain()?;
    let span = symbol.span();
    if symbol.is_quoted() {
        Ok(Symbol::Token(name, span))
    } else {
        Ok(Symbol::Rule(name, span))
    }
}

/// Copies symbols of `%expect-unused` for a tree.
fn to_all_expected(alloc: Global, symbols: &[&Symbol]) -> Result<Vec<Symbol>, AllocError>
    ensures { IfOk result (λ made. map ast_symbol_of made.items ≡ map expected_ast (symbols_at symbols.now)) }
{
    let mut made = Vec::new(alloc);
    'symbols: for symbol in symbols {
        let new = to_expected(symbol)?;
        made.push(new)?;
    }
    Ok(made)
}

/// Returns the names of `%expect-unused`.
fn expected(alloc: Global, x: &Syntax) -> Result<Vec<Symbol>, AllocError>
    ensures { IfOk result (λ made. map ast_symbol_of made.items ≡ map expected_ast (expected_symbols (syntax_of x.now))) }
{
    let symbols = names::line_symbols(alloc, &x.expect_unused)?;
    let made = to_all_expected(alloc, &symbols)?;
    Ok(made)
}

/// Returns the type of a rule's actions: its own, else the one for all rules.
fn to_type(own: &Option<Box<Word>>, shared: Option<&Word>) -> Result<Option<String>, AllocError>
    ensures { IfOk result (λ made. option_map string_bytes made
        ≡ option_or (text_of (option_map boxed_word own.now)) (text_of (option_map (λ w. word_of w.now) shared.entry))) }
{
    match own {
        Some(word) => Ok(Some(word.text.clone()?)),
        None => match shared {
            Some(word) => Ok(Some(word.text.clone()?)),
            None => Ok(None),
        },
    }
}

/// Returns the last `%actiontype`.
fn shared_type(words: &[Word]) -> Option<&Word>
    ensures { text_of (option_map (λ w. word_of w.now) result) ≡ last_text (words_of words.now) }
{
    words.last()
}

/// Returns the rule of a heading, without productions.
fn to_rule(alloc: Global, rule: &syntax::Rule, shared: Option<&Word>) -> Result<Rule, AllocError>
    ensures { IfOk result (λ made. rule_entry_of made
        ≡ headed (text_of (option_map (λ w. word_of w.now) shared.entry)) (rule_of rule.now)) }
{
    let name = String::from_str(alloc, rule.name.as_str())?;
    let actiont = to_type(&rule.action_type, shared)?;
    Ok(Rule {
        name: (name, rule.span),
        pidxs: Vec::new(alloc),
        actiont,
    })
}

/// Puts a heading's rule behind the others, without productions, where it isn't there yet.
fn insert_heading(
    alloc: Global,
    rules: &mut IndexMap<String, Rule, NameHasher>,
    rule: &syntax::Rule,
    shared: Option<&Word>,
) -> Result<(), AllocError>
    requires { own_names rules.old ≡ rule_keys rules.old }
    ensures rules { OnOk result (named_rules rules.new
        ≡ with_first (named_rules rules.old) (headed (text_of (option_map (λ w. word_of w.now) shared.entry)) (rule_of rule.now))) }
    ensures names { own_names rules.new ≡ rule_keys rules.new }
{
    let key = String::from_str(alloc, rule.name.as_str())?;
    let new = to_rule(alloc, rule, shared)?;
    let (index, old) = rules.insert_full(key, new)?;
    if let Some(first) = old {
        rules[index] = first;
    }
    Ok(())
}

/// Returns the rules of these headings, without productions, in a map with room for `room` rules.
fn headed_rules(
    alloc: Global,
    headings: &[syntax::Rule],
    shared: Option<&Word>,
    room: usize,
    hasher: NameHasher,
) -> Result<IndexMap<String, Rule, NameHasher>, AllocError>
    ensures rules { IfOk result (λ rules. named_rules rules
        ≡ fold with_first [] (map (headed (text_of (option_map (λ w. word_of w.now) shared.entry))) (map rule_of headings.now))) }
    ensures names { IfOk result (λ rules. own_names rules ≡ rule_keys rules) }
{
    let mut rules = IndexMap::with_capacity_and_hasher(alloc, room, hasher)?;
    'headings: for rule in headings {
        insert_heading(alloc, &mut rules, rule, shared)?;
    }
    Ok(rules)
}

/// Gives the rule of this name one more production.
pub(super) fn push_number(
    rules: &mut IndexMap<String, Rule, NameHasher>,
    name: &str,
    number: usize,
) -> Result<(), AllocError>
    requires { own_names rules.old ≡ rule_keys rules.old }
    ensures rules { OnOk result (named_rules rules.new ≡ map (with_number name.now number) (named_rules rules.old)) }
    ensures kept { OnErr result (named_rules rules.new ≡ named_rules rules.old) }
    ensures names { own_names rules.new ≡ rule_keys rules.new }
{
    match rules.get_index_of(name) {
        Some(index) => {
            rules[index].pidxs.push(number)?;
            Ok(())
        }
        None => Ok(()),
    }
}

/// Gives the rule of this name `count` productions, with the numbers from `start` on.
pub(super) fn push_numbers(
    rules: &mut IndexMap<String, Rule, NameHasher>,
    name: &str,
    start: usize,
    count: usize,
) -> Result<(), AllocError>
    requires names { own_names rules.old ≡ rule_keys rules.old }
    requires fits { start + count ≤ 2 ^ 64 - 1 }
    ensures rules { OnOk result (named_rules rules.new ≡ map (with_numbers_at start (replicate count name.now)) (named_rules rules.old)) }
    ensures names { own_names rules.new ≡ rule_keys rules.new }
{
    match rules.get_index_of(name) {
        Some(index) => {
            push_range(&mut rules[index].pidxs, start, count)?;
            Ok(())
        }
        None => Ok(()),
    }
}

/// Puts `count` numbers behind the others, from `start` on.
fn push_range(numbers: &mut Vec<usize>, start: usize, count: usize) -> Result<(), AllocError>
    requires { start + count ≤ 2 ^ 64 - 1 }
    ensures { OnOk result (numbers.new.items ≡ numbers.old.items ++ count_up start count) }
{
    numbers.reserve_exact(count)?;
    'numbers: for number in start..start + count {
        numbers.push(number)?;
    }
    Ok(())
}

/// A heading, and the number of alternatives behind it.
#[derive(Drop)]
pub(crate) struct Head {
    name: Name,
    count: usize,
}

/// Returns the headings of rules.
pub(crate) fn heads(alloc: Global, rules: &[syntax::Rule]) -> Result<Vec<Head>, AllocError>
    ensures heads { IfOk result (λ heads. heads_of heads.items ≡ flat_map heads_in (map rule_of rules.now)) }
    ensures count { IfOk result (λ heads. length heads.items ≡ length rules.now) }
{
    let mut heads = Vec::with_capacity(alloc, rules.len())?;
    'rules: for rule in rules {
        let name = rule.name.plain()?;
        heads.push(Head {
            name,
            count: rule.alternatives.len(),
        })?;
    }
    Ok(heads)
}

/// Gives the rules of these headings the numbers of their productions, and returns how many there are.
fn number_headings(
    rules: &mut IndexMap<String, Rule, NameHasher>,
    heads: &[Head],
) -> Result<usize, AllocError>
    requires names { own_names rules.old ≡ rule_keys rules.old }
    requires fits { length (heads_of heads.now) ≤ 2 ^ 64 - 1 }
    ensures count { IfOk result (λ n. n ≡ length (heads_of heads.now)) }
    ensures rules { OnOk result (named_rules rules.new ≡ map (with_numbers_at 0 (heads_of heads.now)) (named_rules rules.old)) }
    ensures names { own_names rules.new ≡ rule_keys rules.new }
{
    let mut number = 0usize;
    'headings: for head in heads {
        push_numbers(rules, head.name.as_str(), number, head.count)?;
        number += head.count;
    }
    Ok(number)
}

/// Gives the fresh rules the numbers of their productions, from one on.
fn number_fresh(
    rules: &mut IndexMap<String, Rule, NameHasher>,
    fresh: &IndexMap<String, Fresh, NameHasher>,
    start: usize,
) -> Result<(), AllocError>
    requires names { own_names rules.old ≡ rule_keys rules.old }
    requires fits { start + length (flat_map both_heads (named_fresh fresh.now)) ≤ 2 ^ 64 - 1 }
    ensures rules { OnOk result (named_rules rules.new ≡ map (with_numbers_at start (flat_map both_heads (named_fresh fresh.now))) (named_rules rules.old)) }
    ensures names { own_names rules.new ≡ rule_keys rules.new }
{
    let mut number = start;
    'fresh: for (name, _entry) in fresh {
        push_numbers(rules, name.as_str(), number, 2)?;
        number += 2;
    }
    Ok(())
}

/// Returns the printed texts, taken over.
fn epp_in(alloc: Global, mut x: Syntax) -> Vec<Epp>
    ensures { result ≡ x.epp }
{
    let epp = mem::replace(&mut x.epp, Vec::new(alloc));
    drop(x);
    epp
}

impl GrammarAST {
    /// Puts in the start rule and the rules of a text, without their productions.
    fn fill_rules(&mut self, alloc: Global, x: &Syntax, room: usize) -> Result<(), AllocError>
        ensures { OnOk result (self.new ≡ with_headings_of (syntax_of x.now) self.old) }
    {
        self.start = start_word(alloc, x)?;
        let hasher = x.names.hasher();
        self.rules = headed_rules(alloc, &x.rules, shared_type(&x.action_types), room, hasher)?;
        Ok(())
    }

    /// Puts in the productions and the fresh rules, and gives the rules the numbers of their productions.
    pub(crate) fn fill_prods(
        &mut self,
        alloc: Global,
        prods: Vec<Production>,
        heads: &[Head],
        fresh: &IndexMap<String, Fresh, NameHasher>,
    ) -> Result<(), AllocError>
        requires { length (heads_of heads.now) ≡ length prods.items }
        ensures { OnOk result (self.new ≡ with_productions_of (map production_of prods.items) (heads_of heads.now) (named_fresh fresh.now) self.old) }
    {
        let more = fresh::fresh_productions(alloc, fresh)?;
        self.prods = prods;
        parts::push_all(&mut self.prods, more)?;
        fresh::insert_fresh_rules(alloc, &mut self.rules, fresh)?;
        let number = number_headings(&mut self.rules, heads)?;
        number_fresh(&mut self.rules, fresh, number)?;
        Ok(())
    }

    /// Puts in the tokens.
    pub(crate) fn set_tokens(&mut self, tokens: IndexMap<String, Span, NameHasher>, is_valid: bool)
        ensures { self.new ≡ with_tokens (named_spans tokens) is_valid self.old }
    {
        self.tokens = tokens;
        self.is_valid = is_valid;
    }

    /// Takes over what a text says of precedences, of the tokens of `%avoid_insert` and of `%implicit_tokens`, and of printed
    /// texts.
    pub(crate) fn take_words(
        &mut self,
        alloc: Global,
        x: Syntax,
        lines: Lines,
    ) -> Result<(), AllocError>
        requires { AreLinesOf (syntax_of x) lines }
        ensures { OnOk result (self.new ≡ with_lines_of (ast_of true (syntax_of x)) self.old) }
    {
        let hasher = x.names.hasher();
        let epp = match parts::first_epps(alloc, epp_in(alloc, x), hasher) {
            Ok(epp) => epp,
            Err(e) => {
                drop(lines);
                return Err(e);
            }
        };
        let Lines {
            precs,
            avoid_insert,
            implicit_tokens,
        } = lines;
        self.precs = precs;
        self.avoid_insert = avoid_insert;
        self.implicit_tokens = implicit_tokens;
        self.epp = epp;
        Ok(())
    }

    /// Puts in what a text passes on: the parameter, the generics and the programs.
    fn fill_texts(&mut self, alloc: Global, x: &Syntax) -> Result<(), AllocError>
        ensures { OnOk result (self.new ≡ with_parts_of (ast_of true (syntax_of x.now)) self.old) }
    {
        self.parse_param = to_param(&x.parse_param)?;
        self.parse_generics = parts::to_text(&x.parse_generics)?;
        self.programs = parts::to_text(&x.programs)?;
        Ok(())
    }

    /// Puts in what a text expects: numbers of conflicts, and names without use.
    fn fill_expected(&mut self, alloc: Global, x: &Syntax) -> Result<(), AllocError>
        ensures { OnOk result (self.new ≡ with_expected_of (ast_of true (syntax_of x.now)) self.old) }
    {
        let expect_unused = expected(alloc, x)?;
        self.expect = to_number(&x.expect);
        self.expectrr = to_number(&x.expect_rr);
        self.expect_unused = expect_unused;
        Ok(())
    }

    /// Puts in what a text says, but for its productions, its tokens and the lines that name tokens.
    pub(crate) fn fill(&mut self, alloc: Global, x: &Syntax, room: usize) -> Result<(), AllocError>
        ensures { OnOk result (self.new ≡ with_expected_of (ast_of true (syntax_of x.now)) (with_parts_of (ast_of true (syntax_of x.now)) (with_headings_of (syntax_of x.now) self.old))) }
    {
        self.fill_rules(alloc, x, room)?;
        self.fill_texts(alloc, x)?;
        self.fill_expected(alloc, x)
    }
}
