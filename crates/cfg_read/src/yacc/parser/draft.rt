//! Alternatives as they are read.

ghost use Rattle.std.specs.Prelude.{◌≡◌, ◌≤◌, ◌&&◌, [], ◌∷◌, not, true, OnOk, IfOk};
ghost use Rattle.cfg_read.specs.SyntaxUpdates.{no_part, is_open, span_with, span_or, append_symbol, put_empty, put_precedence, put_action, alternative};
ghost use Rattle.cfg_read.specs.Scanning.{StartsBy};
ghost use Rattle.cfg_read.specs.SyntaxModels.{word_of, boxed_word, symbol_of, part_of, alternative_of};

use crate::yacc::parser::syntax::{Alternative, Body, Plain, Single, Symbol, Word};
use cfg_base::span::Span;
use std::alloc::{AllocError, Global};
use std::mem;

/// How many symbols a list goes over with without further room.
const FEW: usize = 64;

/// An alternative as far as it is read.
#[derive(Drop)]
pub(crate) struct Draft {
    pub(crate) symbols: Vec<Symbol>,
    /// Whether `%empty` was read.
    pub(crate) is_empty: bool,
    /// The token of `%prec`.
    pub(crate) precedence: Option<Box<Word>>,
    pub(crate) action: Option<Word>,
    /// From the first part to the last, actions left out; `None` while there is none.
    pub(crate) span: Option<Span>,
}

/// Extends a span so far, if there is one, to this part.
fn span_with(span: Option<Span>, start: usize, end: usize) -> Option<Span>
    requires { (start ≤ end) × StartsBy span end }
    ensures value { result ≡ span_with span start end }
    ensures starts { StartsBy result end }
{
    match span {
        None => Some(Span::new(start, end)),
        Some(span) => Some(Span::new(span.start(), end)),
    }
}

/// Returns the span so far, else an empty one at this offset.
fn span_or(span: Option<Span>, offset: usize) -> Span
    ensures { result ≡ span_or span offset }
{
    match span {
        None => Span::new(offset, offset),
        Some(span) => span,
    }
}

/// Takes symbols out. Few go over into a list without further room, so that the one that they were read into serves the next
/// alternative; a long list goes over itself.
fn take_symbols(symbols: &mut Vec<Symbol>, alloc: Global) -> Result<Vec<Symbol>, AllocError>
    ensures taken { IfOk result (λ taken. taken.items ≡ symbols.old.items) }
    ensures left { OnOk result (symbols.new.items ≡ []) }
{
    if symbols.len() > FEW {
        return Ok(mem::replace(symbols, Vec::new(alloc)));
    }
    let mut taken = Vec::with_capacity(alloc, symbols.len())?;
    taken.append(symbols)?;
    Ok(taken)
}

impl Draft {
    /// Creates an alternative of which nothing is read.
    pub(crate) fn new(alloc: Global) -> Draft
        ensures { part_of result ≡ no_part }
    {
        Draft {
            symbols: Vec::new(alloc),
            is_empty: false,
            precedence: None,
            action: None,
            span: None,
        }
    }

    /// Returns whether neither `%prec` nor an action was read.
    pub(crate) fn is_open(&self) -> bool
        ensures { result ≡ is_open (part_of self.now) }
    {
        self.precedence.is_none() && self.action.is_none()
    }

    /// Returns whether neither `%empty`, `%prec` nor an action was read.
    pub(crate) fn takes_empty(&self) -> bool
        ensures { result ≡ (not (part_of self.now).is_empty && is_open (part_of self.now)) }
    {
        !self.is_empty && self.is_open()
    }

    /// Appends a symbol.
    pub(crate) fn add_symbol(
        &mut self,
        symbol: Symbol,
        start: usize,
        end: usize,
    ) -> Result<(), AllocError>
        requires { (start ≤ end) × StartsBy self.old.span end }
        ensures value { OnOk result (part_of self.new ≡ append_symbol (part_of self.old) (symbol_of symbol) start end) }
        ensures starts { OnOk result (StartsBy self.new.span end) }
    {
        self.span = span_with(self.span, start, end);
        self.symbols.push(symbol)?;
        Ok(())
    }

    /// Adds `%empty`.
    pub(crate) fn add_empty(&mut self, start: usize, end: usize)
        requires { (start ≤ end) × StartsBy self.old.span end }
        ensures value { part_of self.new ≡ put_empty (part_of self.old) start end }
        ensures starts { StartsBy self.new.span end }
    {
        self.span = span_with(self.span, start, end);
        self.is_empty = true;
    }

    /// Adds `%prec` with its token.
    pub(crate) fn add_precedence(&mut self, token: Box<Word>, start: usize, end: usize)
        requires { (start ≤ end) × StartsBy self.old.span end }
        ensures value { part_of self.new ≡ put_precedence (part_of self.old) (boxed_word token) start end }
        ensures starts { StartsBy self.new.span end }
    {
        self.span = span_with(self.span, start, end);
        self.precedence = Some(token);
    }

    /// Adds the action.
    pub(crate) fn add_action(&mut self, word: Word)
        ensures value { part_of self.new ≡ put_action (part_of self.old) (word_of word) }
        ensures span { self.new.span ≡ self.old.span }
    {
        self.action = Some(word);
    }

    /// Returns whether nothing was read.
    fn is_blank(&self) -> bool
        ensures { result ≡ true → part_of self.now ≡ no_part }
    {
        self.span.is_none() && self.symbols.is_empty() && self.takes_empty()
    }

    /// Makes the alternative of what was read, which ends at this offset, and begins anew.
    fn take_body(&mut self, alloc: Global, offset: usize) -> Result<Alternative, AllocError>
        ensures made { IfOk result (λ a. alternative_of a ≡ alternative (part_of self.old) offset) }
        ensures anew { OnOk result (part_of self.new ≡ no_part) }
    {
        let symbols = take_symbols(&mut self.symbols, alloc)?;
        let body = Body {
            symbols,
            precedence: mem::replace(&mut self.precedence, None),
            action: mem::replace(&mut self.action, None),
            span: span_or(self.span, offset),
            is_empty: self.is_empty,
        };
        self.is_empty = false;
        self.span = None;
        let boxed = Box::new(alloc, body)?;
        Ok(Alternative::Body(boxed))
    }

    /// Makes an alternative of one symbol, and begins anew.
    fn take_single(
        &mut self,
        alloc: Global,
        symbol: Symbol,
        offset: usize,
    ) -> Result<Alternative, AllocError>
        requires plain { (not (part_of self.old).is_empty && is_open (part_of self.old)) ≡ true }
        requires rest { (part_of self.old).symbols ≡ [] }
        ensures made { IfOk result (λ a. alternative_of a ≡ alternative (record (part_of self.old) { symbols = symbol_of symbol ∷ [] }) offset) }
        ensures anew { OnOk result (part_of self.new ≡ no_part) }
    {
        let span = span_or(self.span, offset);
        self.span = None;
        let boxed = Box::new(
            alloc,
            Single {
                symbols: [symbol],
                span,
            },
        )?;
        Ok(Alternative::Single(boxed))
    }

    /// Makes an alternative of symbols alone, and begins anew.
    fn take_plain(&mut self, alloc: Global, offset: usize) -> Result<Alternative, AllocError>
        requires { (not (part_of self.old).is_empty && is_open (part_of self.old)) ≡ true }
        ensures made { IfOk result (λ a. alternative_of a ≡ alternative (part_of self.old) offset) }
        ensures anew { OnOk result (part_of self.new ≡ no_part) }
    {
        let symbols = take_symbols(&mut self.symbols, alloc)?;
        let span = span_or(self.span, offset);
        self.span = None;
        let boxed = Box::new(alloc, Plain { symbols, span })?;
        Ok(Alternative::Plain(boxed))
    }

    /// Makes the alternative, which ends at this offset, and begins anew.
    pub(crate) fn finish(&mut self, alloc: Global, offset: usize) -> Result<Alternative, AllocError>
        ensures made { IfOk result (λ a. alternative_of a ≡ alternative (part_of self.old) offset) }
        ensures anew { OnOk result (part_of self.new ≡ no_part) }
    {
        if self.is_blank() {
            return Ok(Alternative::Blank(offset));
        }
        if !self.takes_empty() {
            return self.take_body(alloc, offset);
        }
        if self.symbols.len() == 1 {
            if let Some(symbol) = self.symbols.pop() {
                return self.take_single(alloc, symbol, offset);
            }
        }
        self.take_plain(alloc, offset)
    }
}
