//! The syntax tree of a grammar text.

ghost use Rattle.std.specs.Prelude.{◌≡◌, map, option_map, position, IfOk};
ghost use Rattle.std.specs.Str.{bytes_eq};
ghost use Rattle.cfg_read.specs.Names.{texts};
ghost use Rattle.cfg_read.specs.NameTexts.{name_text};
ghost use Rattle.std.specs.Option.{option_copied};
ghost use Rattle.std.specs.String.{string_bytes};
ghost use Rattle.cfg_read.specs.Asts as asts;
ghost use Rattle.cfg_read.specs.SyntaxModels.{word_of, boxed_word};
ghost use Rattle.cfg_read.specs.AstChanges.{with_start};
ghost use Rattle.cfg_read.specs.AstBuild.{empty_ast};
ghost use Rattle.cfg_read.specs.AstModels.{ast_symbol_of, production_with, production_of, named_span, named_spans, named_rules, named_epps, named_precedences, rule_keys, own_names, key_text, number_with_span, param_pair};

use crate::yacc::Precedence;
use crate::yacc::name::Name;
pub use crate::yacc::parser::syntax::Symbol;
use crate::yacc::parser::syntax::{Alternative, Body, Word};
pub use crate::yacc::validity_info::{ASTModificationError, ASTWithValidityInfo};
use cfg_base::name_hasher::NameHasher;
use cfg_base::span::Span;
use indexmap::IndexMap;
use std::alloc::{AllocError, Global};
use std::fmt;
use std::marker::Model;

pub(crate) mod build;
mod change;
mod copy;
mod fresh;
pub(crate) mod parts;
pub(crate) mod settle;
mod take;
pub mod warnings;

impl fmt::Display for Symbol {
    ghost use Rattle.std.specs.Prelude.{Some};
    ghost use Rattle.cfg_read.specs.AstModels.{ast_symbol_of};

    ghost output = { λ s. Some (ast_symbol_of s).word.text };

    fn fmt<W: fmt::Write>(&self, f: &mut fmt::Formatter<W>) -> fmt::Result {
        match self {
            Symbol::Rule(text, _span) => write!(f, "{text}"),
            Symbol::Token(text, _span) => write!(f, "{text}"),
        }
    }
}

/// One alternative of a rule, or one of the two productions of a fresh rule.
/// It keeps the alternative that it was made of, with the symbols of the tree.
#[derive(Debug, Drop)]
pub struct Production {
    pub(crate) kept: Alternative,
}

impl Production {
    /// Makes a production with these symbols, the token of `%prec`, the action and the span.
    pub fn new(
        alloc: Global,
        symbols: Vec<Symbol>,
        precedence: Option<Word>,
        action: Option<Word>,
        prod_span: Span,
    ) -> Result<Production, AllocError>
        ensures { IfOk result (λ p. production_of p ≡ production_with symbols.items (option_map word_of precedence) action prod_span) }
    {
        let body = Body {
            symbols,
            is_empty: false,
            precedence: box_word(alloc, precedence)?,
            action,
            span: prod_span,
        };
        let boxed = Box::new(alloc, body)?;
        Ok(Production {
            kept: Alternative::Body(boxed),
        })
    }

    /// Returns the symbols.
    pub fn symbols(&self) -> &[Symbol]
        ensures { map ast_symbol_of result.now ≡ (production_of self.now).symbols }
    {
        self.kept.symbols()
    }

    /// Returns the token of `%prec`.
    pub fn precedence(&self) -> Option<&String>
        ensures { option_map string_bytes (option_copied result) ≡ (production_of self.now).precedence }
    {
        match &self.kept {
            Alternative::Body(body) => boxed_text_of(&body.precedence),
            _ => None,
        }
    }

    /// Returns the trimmed text of the action, without its braces.
    pub fn action(&self) -> Option<&String>
        ensures { option_map string_bytes (option_copied result) ≡ (production_of self.now).action }
    {
        match &self.kept {
            Alternative::Body(body) => text_of(&body.action),
            _ => None,
        }
    }

    /// Returns the byte span of the action's text.
    pub fn action_span(&self) -> Option<Span>
        ensures { result ≡ (production_of self.now).action_span }
    {
        match &self.kept {
            Alternative::Body(body) => span_of(&body.action),
            _ => None,
        }
    }

    /// Returns the span of symbols, `%empty` and `%prec` with its token; without these an empty one at the `|` or
    /// `;`. In a fresh rule that of the rule's name.
    pub fn prod_span(&self) -> Span
        ensures { result ≡ (production_of self.now).span }
    {
        match &self.kept {
            Alternative::Blank(offset) => Span::new(*offset, *offset),
            Alternative::Single(single) => single.span,
            Alternative::Plain(plain) => plain.span,
            Alternative::Body(body) => body.span,
        }
    }
}

/// Puts a word in a box, if there is one.
pub(super) fn box_word(alloc: Global, word: Option<Word>) -> Result<Option<Box<Word>>, AllocError>
    ensures { IfOk result (λ boxed. option_map boxed_word boxed ≡ option_map word_of word) }
{
    match word {
        Some(word) => Ok(Some(Box::new(alloc, word)?)),
        None => Ok(None),
    }
}

/// Returns the text of a word in a box, if there is one.
fn boxed_text_of(word: &Option<Box<Word>>) -> Option<&String>
    ensures { option_map string_bytes (option_copied result) ≡ asts.text_of (option_map boxed_word word.now) }
{
    match word {
        Some(word) => Some(&word.text),
        None => None,
    }
}

/// Returns the text of a word, if there is one.
fn text_of(word: &Option<Word>) -> Option<&String>
    ensures { option_map string_bytes (option_copied result) ≡ asts.text_of (option_map word_of word.now) }
{
    match word {
        Some(word) => Some(&word.text),
        None => None,
    }
}

/// Returns the span of a word, if there is one.
fn span_of(word: &Option<Word>) -> Option<Span>
    ensures { result ≡ asts.span_of (option_map word_of word.now) }
{
    match word {
        Some(word) => Some(word.span),
        None => None,
    }
}

/// A rule, and the numbers of its productions.
#[derive(Debug, Drop)]
pub struct Rule {
    /// The name, and its byte span in the rule's first heading; for a fresh rule the span of the first symbol
    /// with the `?`.
    pub name: (String, Span),
    /// The numbers of its productions, in order.
    pub pidxs: Vec<usize>,
    /// The type of its actions.
    pub actiont: Option<String>,
}

/// What a grammar text says: its rules, productions and tokens by number, and its declarations.
#[derive(Debug, Drop)]
pub struct GrammarAST {
    /// Whether nothing is wrong with the text.
    is_valid: bool,
    /// The name of the start rule, with the span where the text names it first.
    start: Option<(String, Span)>,
    /// The rules by name, those of optional symbols last.
    rules: IndexMap<String, Rule, NameHasher>,
    prods: Vec<Production>,
    /// The tokens by name, with the span of the first appearance.
    tokens: IndexMap<String, Span, NameHasher>,
    /// The precedences of tokens by name, with the token's first span in a precedence line.
    precs: IndexMap<String, (Precedence, Span), NameHasher>,
    avoid_insert: IndexMap<String, Span, NameHasher>,
    implicit_tokens: IndexMap<String, Span, NameHasher>,
    /// For each token of `%epp` its span, and the printed text with its span.
    epp: IndexMap<String, (Span, (String, Span)), NameHasher>,
    expect: Option<(usize, Span)>,
    expectrr: Option<(usize, Span)>,
    parse_param: Option<(String, String)>,
    parse_generics: Option<String>,
    programs: Option<String>,
    expect_unused: Vec<Symbol>,
}

impl Model for GrammarAST {
    ghost use Rattle.std.specs.Prelude.{◌≡◌, map, option_map};
    ghost use Rattle.std.specs.String.{string_bytes};
    ghost use Rattle.cfg_read.specs.Asts.{Ast};
    ghost use Rattle.cfg_read.specs.AstModels.{ast_symbol_of, production_of, named_span, named_spans, named_rules, named_epps, named_precedences, rule_keys, own_names, number_with_span, param_pair};

    ghost Value = { Ast };

    ghost view = { λ a. record {
      is_valid = a.is_valid;
      start = option_map named_span a.start;
      rules = named_rules a.rules;
      productions = map production_of a.prods.items;
      tokens = named_spans a.tokens;
      precedences = named_precedences a.precs;
      avoid_insert = named_spans a.avoid_insert;
      implicit_tokens = named_spans a.implicit_tokens;
      epp = named_epps a.epp;
      expect = option_map number_with_span a.expect;
      expect_rr = option_map number_with_span a.expectrr;
      parse_param = option_map param_pair a.parse_param;
      parse_generics = option_map string_bytes a.parse_generics;
      programs = option_map string_bytes a.programs;
      expect_unused = map ast_symbol_of a.expect_unused.items;
    } };

    // Each rule has the name of its key.
    ghost invariant = { λ a. own_names a.rules ≡ rule_keys a.rules };
}

/// Returns the index of a name in a map, trying the index stored in the name first.
fn number_in<V>(names: &IndexMap<String, V, NameHasher>, name: &Name) -> Option<usize>
    ensures { result ≡ position (bytes_eq (name_text name.now)) (map key_text names.now.entries) }
{
    let place = name.place();
    let text = name.as_str();
    // `len` is called for its clause that the keys are unique, which the proof cites.
    let _count = names.len();
    match names.get_index(place) {
        Some((key, _value)) if key.as_str() == text => Some(place),
        _ => names.get_index_of(text),
    }
}

impl GrammarAST {
    /// Creates a tree that says nothing but whether its text is valid.
    pub(crate) fn empty(alloc: Global, is_valid: bool) -> GrammarAST
        ensures { result ≡ empty_ast is_valid }
    {
        let hasher = NameHasher::of_no_text();
        GrammarAST {
            is_valid,
            start: None,
            rules: IndexMap::with_hasher(alloc, hasher),
            prods: Vec::new(alloc),
            tokens: IndexMap::with_hasher(alloc, hasher),
            precs: IndexMap::with_hasher(alloc, hasher),
            avoid_insert: IndexMap::with_hasher(alloc, hasher),
            implicit_tokens: IndexMap::with_hasher(alloc, hasher),
            epp: IndexMap::with_hasher(alloc, hasher),
            expect: None,
            expectrr: None,
            parse_param: None,
            parse_generics: None,
            programs: None,
            expect_unused: Vec::new(alloc),
        }
    }

    /// Makes this the start rule.
    pub(crate) fn set_start(&mut self, name: String, span: Span)
        ensures { self.new ≡ with_start self.old (record { text = string_bytes name; span = span }) }
    {
        self.start = Some((name, span));
    }

    /// Returns the start rule, and where the text names it first: in `%start`, else as the first heading.
    pub fn start(&self) -> Option<&(String, Span)>
        ensures { option_map named_span (option_copied result) ≡ self.now.start }
    {
        self.start.as_ref()
    }

    /// Returns the rules, in the order of their first headings, and then those that optional symbols mean.
    pub fn rules(&self) -> &IndexMap<String, Rule, NameHasher>
        ensures rules { named_rules result.now ≡ self.now.rules }
        ensures names { own_names result.now ≡ rule_keys result.now }
    {
        &self.rules
    }

    /// Returns the number of the rule of this name, trying the index stored in the name first.
    pub fn rule_number(&self, name: &Name) -> Option<usize>
        ensures { result ≡ position (bytes_eq (name_text name.now)) (map (λ r. r.name.text) self.now.rules) }
    {
        number_in(&self.rules, name)
    }

    /// Returns the number of the token of this name, trying the index stored in the name first.
    pub fn token_number(&self, name: &Name) -> Option<usize>
        ensures { result ≡ position (bytes_eq (name_text name.now)) (texts self.now.tokens) }
    {
        number_in(&self.tokens, name)
    }

    /// Returns the productions, in the order of the text, and then two for each rule that optional symbols mean.
    pub fn prods(&self) -> &[Production]
        ensures { map production_of result.now ≡ self.now.productions }
    {
        &self.prods
    }

    /// Returns the tokens, each with the span of its first appearance, in the order of these.
    pub fn tokens(&self) -> &IndexMap<String, Span, NameHasher>
        ensures { named_spans result.now ≡ self.now.tokens }
    {
        &self.tokens
    }

    /// Returns the spans of the tokens' first appearances, in order.
    pub fn spans(&self) -> &[Span]
        ensures { result.now ≡ map (λ w. w.span) self.now.tokens }
    {
        self.tokens.values().as_slice()
    }

    /// Returns the precedences of tokens, each with the token's first span in a precedence line.
    pub fn precs(&self) -> &IndexMap<String, (Precedence, Span), NameHasher>
        ensures { named_precedences result.now ≡ self.now.precedences }
    {
        &self.precs
    }

    /// Returns the tokens of `%avoid_insert`, each with its first span there.
    pub fn avoid_insert(&self) -> &IndexMap<String, Span, NameHasher>
        ensures { named_spans result.now ≡ self.now.avoid_insert }
    {
        &self.avoid_insert
    }

    /// Returns the tokens of `%implicit_tokens`, each with its first span there.
    pub fn implicit_tokens(&self) -> &IndexMap<String, Span, NameHasher>
        ensures { named_spans result.now ≡ self.now.implicit_tokens }
    {
        &self.implicit_tokens
    }

    /// Returns the printed texts of tokens: the span of the token, and the text with its span.
    pub fn epp(&self) -> &IndexMap<String, (Span, (String, Span)), NameHasher>
        ensures { named_epps result.now ≡ self.now.epp }
    {
        &self.epp
    }

    /// Returns how many shift/reduce conflicts are expected.
    pub fn expect(&self) -> Option<(usize, Span)>
        ensures { option_map number_with_span result ≡ self.now.expect }
    {
        self.expect
    }

    /// Returns how many reduce/reduce conflicts are expected.
    pub fn expectrr(&self) -> Option<(usize, Span)>
        ensures { option_map number_with_span result ≡ self.now.expect_rr }
    {
        self.expectrr
    }

    /// Returns the name and the type of `%parse-param`.
    pub fn parse_param(&self) -> Option<&(String, String)>
        ensures { option_map param_pair (option_copied result) ≡ self.now.parse_param }
    {
        self.parse_param.as_ref()
    }

    /// Returns the text of `%parse-generics`.
    pub fn parse_generics(&self) -> Option<&String>
        ensures { option_map string_bytes (option_copied result) ≡ self.now.parse_generics }
    {
        self.parse_generics.as_ref()
    }

    /// Returns the text behind the second `%%`.
    pub fn programs(&self) -> Option<&String>
        ensures { option_map string_bytes (option_copied result) ≡ self.now.programs }
    {
        self.programs.as_ref()
    }

    /// Returns the names of `%expect-unused`: those without quotes as rules, whatever they name, and the quoted
    /// ones as tokens.
    pub fn expect_unused(&self) -> &[Symbol]
        ensures { map ast_symbol_of result.now ≡ self.now.expect_unused }
    {
        &self.expect_unused
    }
}
