//! Copies of syntax trees.

ghost use Rattle.std.specs.Prelude.{◌≡◌, map, option_map, IfOk, OnOk};
ghost use Rattle.std.specs.String.{string_bytes};
ghost use Rattle.cfg_read.specs.AstModels.{ast_symbol_of, production_of, named_span, param_pair, named_spans, named_rules, named_epps, named_precedences, rule_keys, own_names};
ghost use Rattle.cfg_read.specs.SyntaxModels.{word_of, boxed_word};
ghost use Rattle.cfg_read.specs.AstBuild.{with_rules_of, with_tokens_of, with_texts_of, with_expected_of};

use super::{GrammarAST, Production, Rule, Symbol};
use crate::yacc::Precedence;
use crate::yacc::parser::syntax::{Alternative, Body, Plain, Single, Word};
use cfg_base::name_hasher::NameHasher;
use cfg_base::span::Span;
use indexmap::IndexMap;
use std::alloc::{AllocError, Global};

impl Clone for Symbol {
    ghost use Rattle.std.specs.Prelude.{◌≡◌};
    ghost use Rattle.cfg_read.specs.AstModels.{ast_symbol_of};

    ghost is_clone = { λ s t. ast_symbol_of t ≡ ast_symbol_of s };

    fn clone(&self) -> Result<Symbol, AllocError> {
        match self {
            Symbol::Rule(text, span) => Ok(Symbol::Rule(text.clone()?, *span)),
            Symbol::Token(text, span) => Ok(Symbol::Token(text.clone()?, *span)),
        }
    }
}

/// Copies a text, if there is one.
fn copy_text(text: &Option<String>) -> Result<Option<String>, AllocError>
    ensures { IfOk result (λ copy. option_map string_bytes copy ≡ option_map string_bytes text.now) }
{
    match text {
        Some(text) => Ok(Some(text.clone()?)),
        None => Ok(None),
    }
}

/// Copies a word, if there is one.
fn copy_word(word: &Option<Word>) -> Result<Option<Word>, AllocError>
    ensures { IfOk result (λ copy. option_map word_of copy ≡ option_map word_of word.now) }
{
    match word {
        Some(word) => {
            let text = word.text.clone()?;
            Ok(Some(Word {
                text,
                span: word.span,
            }))
        }
        None => Ok(None),
    }
}

/// Copies a word in a box, if there is one.
fn copy_boxed(alloc: Global, word: &Option<Box<Word>>) -> Result<Option<Box<Word>>, AllocError>
    ensures { IfOk result (λ copy. option_map boxed_word copy ≡ option_map boxed_word word.now) }
{
    match word {
        Some(word) => {
            let text = word.text.clone()?;
            let copy = Word {
                text,
                span: word.span,
            };
            Ok(Some(Box::new(alloc, copy)?))
        }
        None => Ok(None),
    }
}

impl Clone for Single {
    ghost use Rattle.std.specs.Prelude.{◌≡◌};
    ghost use Rattle.cfg_read.specs.AstModels.{single_of};

    ghost is_clone = { λ s t. single_of t ≡ single_of s };

    fn clone(&self) -> Result<Single, AllocError> {
        let symbols = [self.symbols[0].clone()?];
        Ok(Single {
            symbols,
            span: self.span,
        })
    }
}

impl Clone for Plain {
    ghost use Rattle.std.specs.Prelude.{◌≡◌};
    ghost use Rattle.cfg_read.specs.AstModels.{plain_of};

    ghost is_clone = { λ s t. plain_of t ≡ plain_of s };

    fn clone(&self) -> Result<Plain, AllocError> {
        let symbols = self.symbols.clone()?;
        Ok(Plain {
            symbols,
            span: self.span,
        })
    }
}

impl Clone for Body {
    ghost use Rattle.std.specs.Prelude.{◌≡◌};
    ghost use Rattle.cfg_read.specs.AstModels.{body_of};

    ghost is_clone = { λ s t. body_of t ≡ body_of s };

    fn clone(&self) -> Result<Body, AllocError> {
        let symbols = self.symbols.clone()?;
        let precedence = copy_boxed(*self.symbols.allocator(), &self.precedence)?;
        let action = copy_word(&self.action)?;
        Ok(Body {
            symbols,
            is_empty: self.is_empty,
            precedence,
            action,
            span: self.span,
        })
    }
}

impl Clone for Production {
    ghost use Rattle.std.specs.Prelude.{◌≡◌};
    ghost use Rattle.cfg_read.specs.AstModels.{production_of};

    ghost is_clone = { λ p q. production_of q ≡ production_of p };

    fn clone(&self) -> Result<Production, AllocError> {
        match &self.kept {
            Alternative::Blank(offset) => Ok(Production {
                kept: Alternative::Blank(*offset),
            }),
            Alternative::Single(single) => Ok(Production {
                kept: Alternative::Single(single.clone()?),
            }),
            Alternative::Plain(plain) => Ok(Production {
                kept: Alternative::Plain(plain.clone()?),
            }),
            Alternative::Body(body) => Ok(Production {
                kept: Alternative::Body(body.clone()?),
            }),
        }
    }
}

impl Clone for Rule {
    ghost use Rattle.std.specs.Prelude.{◌≡◌};
    ghost use Rattle.cfg_read.specs.AstModels.{rule_entry_of};

    ghost is_clone = { λ r s. rule_entry_of s ≡ rule_entry_of r };

    fn clone(&self) -> Result<Rule, AllocError> {
        let name = self.name.0.clone()?;
        let pidxs = Vec::from_slice(*self.pidxs.allocator(), &self.pidxs)?;
        let actiont = copy_text(&self.actiont)?;
        Ok(Rule {
            name: (name, self.name.1),
            pidxs,
            actiont,
        })
    }
}

/// Copies the start rule's name and its span.
fn copy_start(start: &Option<(String, Span)>) -> Result<Option<(String, Span)>, AllocError>
    ensures { IfOk result (λ copy. option_map named_span copy ≡ option_map named_span start.now) }
{
    match start {
        Some((name, span)) => Ok(Some((name.clone()?, *span))),
        None => Ok(None),
    }
}

/// Copies the name and the type of `%parse-param`.
fn copy_param(param: &Option<(String, String)>) -> Result<Option<(String, String)>, AllocError>
    ensures { IfOk result (λ copy. option_map param_pair copy ≡ option_map param_pair param.now) }
{
    match param {
        Some((name, kind)) => {
            let name = name.clone()?;
            let kind = kind.clone()?;
            Ok(Some((name, kind)))
        }
        None => Ok(None),
    }
}

/// Copies names with their spans.
fn copy_spans(
    spans: &IndexMap<String, Span, NameHasher>,
) -> Result<IndexMap<String, Span, NameHasher>, AllocError>
    ensures { IfOk result (λ copy. named_spans copy ≡ named_spans spans.now) }
{
    let copy = spans.clone()?;
    Ok(copy)
}

/// Copies the precedences.
fn copy_precs(
    precs: &IndexMap<String, (Precedence, Span), NameHasher>,
) -> Result<IndexMap<String, (Precedence, Span), NameHasher>, AllocError>
    ensures { IfOk result (λ copy. named_precedences copy ≡ named_precedences precs.now) }
{
    let copy = precs.clone()?;
    Ok(copy)
}

/// Copies the printed texts.
fn copy_epp(
    epp: &IndexMap<String, (Span, (String, Span)), NameHasher>,
) -> Result<IndexMap<String, (Span, (String, Span)), NameHasher>, AllocError>
    ensures { IfOk result (λ copy. named_epps copy ≡ named_epps epp.now) }
{
    let copy = epp.clone()?;
    Ok(copy)
}

/// Copies the rules.
fn copy_rules(
    rules: &IndexMap<String, Rule, NameHasher>,
) -> Result<IndexMap<String, Rule, NameHasher>, AllocError>
    requires { own_names rules.now ≡ rule_keys rules.now }
    ensures rules { IfOk result (λ copy. named_rules copy ≡ named_rules rules.now) }
    ensures names { IfOk result (λ copy. own_names copy ≡ rule_keys copy) }
{
    let copy = rules.clone()?;
    Ok(copy)
}

/// Copies the productions.
fn copy_prods(prods: &Vec<Production>) -> Result<Vec<Production>, AllocError>
    ensures { IfOk result (λ copy. map production_of copy.items ≡ map production_of prods.now.items) }
{
    let copy = prods.clone()?;
    Ok(copy)
}

/// Copies symbols.
fn copy_symbols(symbols: &Vec<Symbol>) -> Result<Vec<Symbol>, AllocError>
    ensures { IfOk result (λ copy. map ast_symbol_of copy.items ≡ map ast_symbol_of symbols.now.items) }
{
    let copy = symbols.clone()?;
    Ok(copy)
}

impl GrammarAST {
    /// Puts in the start rule, the rules and the productions of another tree.
    fn copy_rules_of(&mut self, from: &GrammarAST) -> Result<(), AllocError>
        ensures { OnOk result (self.new ≡ with_rules_of from.now self.old) }
    {
        self.start = copy_start(&from.start)?;
        self.rules = copy_rules(&from.rules)?;
        self.prods = copy_prods(&from.prods)?;
        Ok(())
    }

    /// Puts in the tokens of another tree and what its declarations say of them.
    fn copy_tokens_of(&mut self, from: &GrammarAST) -> Result<(), AllocError>
        ensures { OnOk result (self.new ≡ with_tokens_of from.now self.old) }
    {
        self.tokens = copy_spans(&from.tokens)?;
        self.precs = copy_precs(&from.precs)?;
        self.avoid_insert = copy_spans(&from.avoid_insert)?;
        self.implicit_tokens = copy_spans(&from.implicit_tokens)?;
        Ok(())
    }

    /// Puts in what another tree passes on: printed texts, the parameter, the generics and the programs.
    fn copy_texts_of(&mut self, from: &GrammarAST) -> Result<(), AllocError>
        ensures { OnOk result (self.new ≡ with_texts_of from.now self.old) }
    {
        self.epp = copy_epp(&from.epp)?;
        self.parse_param = copy_param(&from.parse_param)?;
        self.parse_generics = copy_text(&from.parse_generics)?;
        self.programs = copy_text(&from.programs)?;
        Ok(())
    }

    /// Puts in what another tree expects: numbers of conflicts, and names without use.
    fn copy_expected_of(&mut self, from: &GrammarAST) -> Result<(), AllocError>
        ensures { OnOk result (self.new ≡ with_expected_of from.now self.old) }
    {
        let expect_unused = copy_symbols(&from.expect_unused)?;
        self.expect = from.expect;
        self.expectrr = from.expectrr;
        self.expect_unused = expect_unused;
        Ok(())
    }

    /// Puts in all that another tree says.
    fn copy_all_of(&mut self, from: &GrammarAST) -> Result<(), AllocError>
        requires { self.old.is_valid ≡ from.now.is_valid }
        ensures { OnOk result (self.new ≡ from.now) }
    {
        self.copy_rules_of(from)?;
        self.copy_tokens_of(from)?;
        self.copy_texts_of(from)?;
        self.copy_expected_of(from)?;
        Ok(())
    }
}

impl Clone for GrammarAST {
    ghost use Rattle.std.specs.Prelude.{◌≡◌};

    ghost is_clone = { λ a b. b ≡ a };

    fn clone(&self) -> Result<GrammarAST, AllocError> {
        let mut copy = GrammarAST::empty(*self.prods.allocator(), self.is_valid);
        match copy.copy_all_of(self) {
            Ok(()) => Ok(copy),
            Err(e) => {
                drop(copy);
                Err(e)
            }
        }
    }
}
