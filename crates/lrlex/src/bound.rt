//! Rules by the tokens of a grammar.

ghost use Rattle.std.specs.Prelude.{◌≡◌, ◌+◌, ◌<◌, ◌^◌, ◌++◌, ◌∷◌, [], List, Result, not, if◌then◌else◌, map, option_map, string_bytes, length, All, IfOk, OnOk};
ghost use Rattle.std.specs.List.{list_any};
ghost use Rattle.cfg_theory.specs.Grammar.{end_token};
ghost use Rattle.maximal_munch.specs.RuleValues.{rule_set_of};
ghost use Rattle.lrlex.specs.Lexing.{rules_of, names_of, bound_rules, bound_meanings, Means, AreMeanings, Lexes, items_of, put_part, error_at, meaning_at, numbers_below, is_unknown, is_token};
ghost use Rattle.lrpar.specs.declared.default_lexeme.DefaultLexeme.{DefaultLexeme};
ghost use Rattle.lrlex.specs.declared.lex_error.LRLexError.{LRLexError};

use crate::lex_error::{LRLexError, LRNonStreamingLexer, LexErrorKind};
use crate::rules::LexRules;
use cfg_base::index::{IndexOrder, IndexStorage};
use cfg_base::span::Span;
use cfg_base::symbol::TIdx;
use cfg_numbered::yacc::grammar::NumberedGrammar;
use lrpar::{DefaultLexeme, TextLexer};
use maximal_munch::{Ending, Part, RuleSet, laws, munch};
use std::alloc::{AllocError, Global};

/// What a rule is for a grammar.
#[derive(Clone, Copy, Debug)]
pub enum Meaning<S> {
    /// Its parts are skipped.
    Skipped,
    /// Its parts are lexemes of this token.
    Token(TIdx<S>),
    /// Its name is no token's. Lexing ends at its first part.
    Unknown,
}

/// Rules, and what each is for a grammar.
#[derive(Drop)]
pub struct BoundRules<'r, S: IndexStorage> {
    rules: &'r LexRules,
    meanings: Vec<Meaning<S>>,
}

/// Returns what a rule of this name is.
fn meaning_of<S: IndexStorage>(grm: &NumberedGrammar<S>, name: &Option<String>) -> Meaning<S>
    ensures { Means S.number grm.now (option_map string_bytes name.now) result }
{
    match name {
        Some(name) => match grm.token_idx(name.as_str()) {
            Some(token) => Meaning::Token(token),
            None => Meaning::Unknown,
        },
        None => Meaning::Skipped,
    }
}

/// Returns what rules of these names are.
fn all_meanings<S: IndexStorage>(
    alloc: Global,
    grm: &NumberedGrammar<S>,
    names: &[Option<String>],
) -> Result<Vec<Meaning<S>>, AllocError>
    ensures { IfOk result (λ v. AreMeanings S.number grm.now (map (option_map string_bytes) names.now) v.items) }
{
    let mut meanings = Vec::new(alloc);
    'names: for index in 0..names.len() {
        meanings.push(meaning_of(grm, &names[index]))?;
    }
    Ok(meanings)
}

impl LexRules {
    /// Looks the names of the rules up among the tokens of a grammar.
    pub fn bind<S: IndexStorage>(
        &self,
        alloc: Global,
        grm: &NumberedGrammar<S>,
    ) -> Result<BoundRules<'_, S>, AllocError>
        ensures rules { IfOk result (λ b. bound_rules b ≡ rules_of self.now) }
        ensures meanings { IfOk result (λ b. AreMeanings S.number grm.now (names_of self.now) (bound_meanings b)) }
    {
        let meanings = all_meanings(alloc, grm, self.names.as_slice())?;
        Ok(BoundRules {
            rules: self,
            meanings,
        })
    }
}

impl<'r, S: IndexStorage> BoundRules<'r, S> {
    /// Returns what each rule is, in their order.
    pub fn meanings(&self) -> &[Meaning<S>]
        ensures { result.now ≡ bound_meanings self.now }
    {
        self.meanings.as_slice()
    }

    /// Returns the numbers of the rules whose name is no token's, ascending.
    pub fn missing_from_parser(&self, alloc: Global) -> Result<Vec<usize>, AllocError>
        ensures { IfOk result (λ v. v.items ≡ numbers_below (λ k. is_unknown (meaning_at (bound_meanings self.now) k)) (length (bound_meanings self.now))) }
    {
        unknown_rules(alloc, self.meanings.as_slice())
    }

    /// Returns the numbers of the grammar's tokens that no rule is for, ascending. The end token is never among them.
    pub fn missing_from_lexer(
        &self,
        alloc: Global,
        grm: &NumberedGrammar<S>,
    ) -> Result<Vec<usize>, AllocError>
        ensures { IfOk result (λ v. v.items ≡ numbers_below (λ t. not (list_any (is_token S.number t) (bound_meanings self.now))) (end_token grm.now.grammar)) }
    {
        let end = grm.eof_token_idx().0.to_usize();
        unlexed_tokens(alloc, self.meanings.as_slice(), end)
    }
}

impl<'r, S: IndexOrder> BoundRules<'r, S> {
    /// Lexes a text by maximal munch. The list ends at the text's end, or with the one error at the first offset at which there is
    /// no lexeme.
    pub fn lex<'t>(
        &self,
        alloc: Global,
        text: &'t str,
    ) -> Result<LRNonStreamingLexer<'t, S>, AllocError>
        ensures text { IfOk result (λ l. l.text ≡ text.entry.now) }
        ensures items { IfOk result (λ l. Lexes (bound_rules self.now) (bound_meanings self.now) text.entry.now l.items) }
    {
        let items = lexed_items(alloc, &self.rules.set, self.meanings.as_slice(), text)?;
        TextLexer::new(alloc, text, items)
    }
}

/// Returns what a rule is; one that isn't there has no name that is a token's.
fn meaning_at<S: IndexStorage>(meanings: &[Meaning<S>], rule: usize) -> Meaning<S>
    ensures { result ≡ meaning_at meanings.now rule }
{
    meanings.get(rule).copied().unwrap_or(Meaning::Unknown)
}

/// Returns whether a rule's name is no token's.
fn is_unknown<S: IndexStorage>(meaning: Meaning<S>) -> bool
    ensures { result ≡ is_unknown meaning }
{
    match meaning {
        Meaning::Skipped => false,
        Meaning::Token(_) => false,
        Meaning::Unknown => true,
    }
}

/// Puts a number that passes.
fn push_if(passes: bool, number: usize, numbers: &mut Vec<usize>) -> Result<(), AllocError>
    ensures { OnOk result (numbers.new.items ≡ numbers.old.items ++ (if passes then number ∷ [] else [])) }
{
    if passes {
        numbers.push(number)?;
    }
    Ok(())
}

/// Returns the numbers of the rules whose name is no token's.
fn unknown_rules<S: IndexStorage>(
    alloc: Global,
    meanings: &[Meaning<S>],
) -> Result<Vec<usize>, AllocError>
    ensures { IfOk result (λ v. v.items ≡ numbers_below (λ k. is_unknown (meaning_at meanings.now k)) (length meanings.now)) }
{
    let mut numbers = Vec::new(alloc);
    'rules: for rule in 0..meanings.len() {
        let meaning = meaning_at(meanings, rule);
        let unknown = is_unknown(meaning);
        push_if(unknown, rule, &mut numbers)?;
    }
    Ok(numbers)
}

/// Returns the numbers below `end` that are no token of a rule.
fn unlexed_tokens<S: IndexStorage>(
    alloc: Global,
    meanings: &[Meaning<S>],
    end: usize,
) -> Result<Vec<usize>, AllocError>
    ensures { IfOk result (λ v. v.items ≡ numbers_below (λ t. not (list_any (is_token S.number t) meanings.now)) end) }
{
    let mut numbers = Vec::new(alloc);
    'tokens: for token in 0..end {
        let known = has_token(meanings, token);
        push_if(!known, token, &mut numbers)?;
    }
    Ok(numbers)
}

/// Returns whether some rule is for a token.
fn has_token<S: IndexStorage>(meanings: &[Meaning<S>], token: usize) -> bool
    ensures { result ≡ list_any (is_token S.number token) meanings.now }
{
    'rules: for meaning in meanings {
        if let Meaning::Token(tidx) = meaning {
            if tidx.0.to_usize() == token {
                return true;
            }
        }
    }
    false
}

/// Returns the items of a text.
fn lexed_items<S: IndexStorage>(
    alloc: Global,
    rules: &RuleSet,
    meanings: &[Meaning<S>],
    text: &str,
) -> Result<Vec<Result<DefaultLexeme<S>, LRLexError>>, AllocError>
    ensures { IfOk result (λ v. Lexes (rule_set_of rules.now) meanings.now text.now v.items) }
{
    let munched = munch(alloc, rules, text)?;
    laws::parts_lie_within_their_text();
    // So an offset within the text is a number.
    let length = text.len();
    prove!(length < usize::MAX);
    let mut items = Vec::new(alloc);
    push_items(
        meanings,
        munched.parts.as_slice(),
        munched.ending,
        &mut items,
    )?;
    Ok(items)
}

/// Puts the items of parts behind those that are there.
fn push_items<S: IndexStorage>(
    meanings: &[Meaning<S>],
    parts: &[Part],
    ending: Ending,
    items: &mut Vec<Result<DefaultLexeme<S>, LRLexError>>,
) -> Result<(), AllocError>
    requires { All (λ p. p.start + p.len < 2 ^ 64) parts.now }
    ensures { OnOk result (items.new.items ≡ items.old.items ++ items_of meanings.now parts.now ending) }
{
    'parts: for part in parts {
        let go_on = push_part(meaning_at(meanings, part.rule), *part, items)?;
        if !go_on {
            return Ok(());
        }
    }
    match ending {
        Ending::Finished => {}
        Ending::NoMatch(at) => items.push(Err(error_at(LexErrorKind::NoMatch, at)))?,
    }
    Ok(())
}

/// Puts the item of a part, and returns whether lexing goes on.
fn push_part<S: IndexStorage>(
    meaning: Meaning<S>,
    part: Part,
    items: &mut Vec<Result<DefaultLexeme<S>, LRLexError>>,
) -> Result<bool, AllocError>
    requires { part.start + part.len < 2 ^ 64 }
    ensures { IfOk result (λ go_on. (rest : List (Result (DefaultLexeme S) LRLexError)) →
        items.old.items ++ put_part meaning part rest ≡ (if go_on then items.new.items ++ rest else items.new.items)) }
{
    match meaning {
        Meaning::Skipped => Ok(true),
        Meaning::Token(token) => {
            let span = Span::new(part.start, part.start + part.len);
            items.push(Ok(DefaultLexeme {
                tok_id: token.0,
                span,
                faulty: false,
            }))?;
            Ok(true)
        }
        Meaning::Unknown => {
            items.push(Err(error_at(LexErrorKind::UnknownName, part.start)))?;
            Ok(false)
        }
    }
}

/// Makes the error at an offset.
fn error_at(kind: LexErrorKind, at: usize) -> LRLexError
    ensures { result ≡ error_at kind at }
{
    LRLexError {
        span: Span::new(at, at),
        kind,
    }
}
