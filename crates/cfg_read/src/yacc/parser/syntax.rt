//! What a grammar text says, before its names are looked up.

ghost use Rattle.std.specs.Prelude.{◌≡◌, ◌≤◌, None, IfOk, OnOk};
ghost use Rattle.cfg_read.specs.SyntaxUpdates.{no_syntax, append_list, append_number};
ghost use Rattle.cfg_read.specs.NameTexts.{name_text, name_optional};
ghost use Rattle.cfg_read.specs.SyntaxModels.{mark_of, symbol_of, symbols_of, alternative_of, number_text, syntax_of};

use crate::yacc::AssocKind;
use crate::yacc::name::{Name, NameSet};
use crate::yacc::parser::declaration::{Count, LineList};
use cfg_base::span::Span;
use std::alloc::{AllocError, Global};

/// A text, and its byte span.
#[derive(Debug, Drop)]
pub struct Word {
    /// The text, of a token without its quotes.
    pub text: String,
    /// Its byte offsets in the file: without the quotes of a token, with those of a string.
    pub span: Span,
}

/// A symbol, and its byte span without quotes. In what was read its kind is given by its quotes alone, in a
/// production by what it means.
#[derive(Debug, Drop)]
pub enum Symbol {
    /// A rule; in what was read, a name.
    Rule(Name, Span),
    /// A token; in what was read, a quoted one.
    Token(Name, Span),
}

impl Symbol {
    /// Returns the name.
    pub fn name(&self) -> &Name
        ensures { name_text result.now ≡ (symbol_of self.now).word.text }
    {
        match self {
            Symbol::Rule(name, _span) => name,
            Symbol::Token(name, _span) => name,
        }
    }

    /// Returns the byte span of the symbol's text, without quotes.
    pub fn span(&self) -> Span
        ensures { result ≡ (symbol_of self.now).word.span }
    {
        match self {
            Symbol::Rule(_name, span) => *span,
            Symbol::Token(_name, span) => *span,
        }
    }

    /// Returns whether it is quoted.
    pub(crate) fn is_quoted(&self) -> bool
        ensures { result ≡ (symbol_of self.now).is_quoted }
    {
        match self {
            Symbol::Rule(_name, _span) => false,
            Symbol::Token(_name, _span) => true,
        }
    }

    /// Returns a copy without a `?`.
    pub(crate) fn plain(&self) -> Result<Symbol, AllocError>
        ensures { IfOk result (λ s. symbol_of s ≡ record (symbol_of self.now) { optional = None }) }
    {
        match self {
            Symbol::Rule(name, span) => Ok(Symbol::Rule(name.plain()?, *span)),
            Symbol::Token(name, span) => Ok(Symbol::Token(name.plain()?, *span)),
        }
    }

    /// Returns the span of the symbol and a `?` right behind it in an alternative, quotes included; `None` where
    /// there is no `?`.
    pub(crate) fn optional(&self) -> Option<Span>
        ensures { result ≡ (symbol_of self.now).optional }
    {
        match self {
            Symbol::Rule(name, span) => mark_of(name, span.start(), span.end()),
            Symbol::Token(name, span) => mark_of(
                name,
                span.start().saturating_sub(1),
                span.end().saturating_add(1),
            ),
        }
    }
}

/// Returns the span from an offset up to the `?` behind a name, if there is one.
fn mark_of(name: &Name, start: usize, end: usize) -> Option<Span>
    requires { start ≤ end }
    ensures { result ≡ mark_of (name_optional name.now) start end }
{
    if name.is_optional() {
        Some(Span::new(start, end.saturating_add(1)))
    } else {
        None
    }
}

/// One symbol, and nothing else.
#[derive(Debug, Drop)]
pub struct Single {
    /// The symbol, as an array, so that it is read as a slice like those of others.
    pub symbols: [Symbol; 1],
    /// The symbol's byte offsets, with quotes and `?`.
    pub span: Span,
}

/// Symbols, and nothing else.
#[derive(Debug, Drop)]
pub struct Plain {
    /// At least two symbols, in order.
    pub symbols: Vec<Symbol>,
    /// From the first to the last.
    pub span: Span,
}

/// All parts of an alternative.
#[derive(Debug, Drop)]
pub struct Body {
    /// The symbols in order; none beside `%empty`.
    pub symbols: Vec<Symbol>,
    /// Whether `%empty` is there.
    pub is_empty: bool,
    /// The token of `%prec`.
    pub precedence: Option<Box<Word>>,
    /// The text between the action's braces, trimmed.
    pub action: Option<Word>,
    /// Symbols, `%empty` and `%prec` with its token; without these an empty one at the `|` or `;`.
    pub span: Span,
}

/// An alternative of a rule, which a production takes over. One with few parts is small, since a text may have one
/// for each of its bytes.
#[derive(Debug, Drop)]
pub enum Alternative {
    /// Nothing, up to the `|` or `;` at this byte offset.
    Blank(usize),
    /// One symbol, and nothing else.
    Single(Box<Single>),
    /// Several symbols, and nothing else.
    Plain(Box<Plain>),
    /// Anything more: `%empty`, `%prec` or an action.
    Body(Box<Body>),
}

impl Alternative {
    /// Returns the symbols.
    pub fn symbols(&self) -> &[Symbol]
        ensures { symbols_of result.now ≡ (alternative_of self.now).symbols }
    {
        match self {
            Alternative::Blank(_) => &[],
            Alternative::Single(single) => &single.symbols,
            Alternative::Plain(plain) => plain.symbols.as_slice(),
            Alternative::Body(body) => body.symbols.as_slice(),
        }
    }
}

/// One heading of a rule with its alternatives.
#[derive(Drop)]
pub struct Rule {
    /// The rule's name, which several headings may share.
    pub name: Name,
    /// The byte offsets of the name in this heading.
    pub span: Span,
    /// The type behind `->`, in Grmtools.
    pub action_type: Option<Box<Word>>,
    /// At least one, in order.
    pub alternatives: Vec<Alternative>,
}

/// One precedence line.
#[derive(Drop)]
pub struct Level {
    /// The declaration's word: `%left`, `%right` or `%nonassoc`.
    pub kind: AssocKind,
    /// The tokens of the line, in order, quoted ones and bare names.
    pub tokens: Vec<Symbol>,
}

/// The names and tokens of one line of `%avoid_insert`, `%implicit_tokens` or `%expect-unused`.
#[derive(Drop)]
pub struct Line {
    /// In order; a name without quotes is a rule or a token.
    pub items: Vec<Symbol>,
}

/// The number of `%expect` or `%expect-rr`.
#[derive(Drop)]
pub struct Number {
    /// The number, up to `usize::MAX`.
    pub value: usize,
    /// The byte offsets of its digits.
    pub span: Span,
}

/// The printed text of a token.
#[derive(Drop)]
pub struct Epp {
    /// The token, quoted or not.
    pub token: Word,
    /// The text between the quotes of the string, without the `\` before an escaped quote.
    pub text: Word,
}

/// The parameter of `%parse-param`.
#[derive(Drop)]
pub struct Param {
    /// The trimmed text before the colon.
    pub name: Word,
    /// The trimmed text behind the colon.
    pub param_type: Word,
}

/// What a text says, each kind of thing in the order of the text.
#[derive(Drop)]
pub struct Syntax {
    /// The rule's name of each `%start`; a valid text has at most one.
    pub starts: Vec<Word>,
    /// The tokens of all `%token` lines.
    pub tokens: Vec<Symbol>,
    /// The precedence lines, the one that binds least first.
    pub levels: Vec<Level>,
    /// The `%avoid_insert` lines.
    pub avoid_insert: Vec<Line>,
    /// The `%implicit_tokens` lines; none unless the kind is Eco.
    pub implicit_tokens: Vec<Line>,
    /// The `%expect-unused` lines.
    pub expect_unused: Vec<Line>,
    /// The `%expect` numbers; a valid text has at most one.
    pub expect: Vec<Number>,
    /// The `%expect-rr` numbers; a valid text has at most one.
    pub expect_rr: Vec<Number>,
    /// The `%epp` declarations.
    pub epp: Vec<Epp>,
    /// The texts of `%actiontype`; a valid text has at most one.
    pub action_types: Vec<Word>,
    /// The last one.
    pub parse_param: Option<Param>,
    /// The last one.
    pub parse_generics: Option<Word>,
    /// The headings with their alternatives; a rule may have several headings.
    pub rules: Vec<Rule>,
    /// The text behind the second `%%`.
    pub programs: Option<Word>,
    /// The names of the symbols.
    pub(crate) names: NameSet,
}

impl Syntax {
    /// Creates the syntax of an empty text, whose names are collected in this set.
    pub(crate) fn new(alloc: Global, names: NameSet) -> Syntax
        ensures { syntax_of result ≡ no_syntax }
    {
        Syntax {
            starts: Vec::new(alloc),
            tokens: Vec::new(alloc),
            levels: Vec::new(alloc),
            avoid_insert: Vec::new(alloc),
            implicit_tokens: Vec::new(alloc),
            expect_unused: Vec::new(alloc),
            expect: Vec::new(alloc),
            expect_rr: Vec::new(alloc),
            epp: Vec::new(alloc),
            action_types: Vec::new(alloc),
            parse_param: None,
            parse_generics: None,
            rules: Vec::new(alloc),
            programs: None,
            names,
        }
    }

    /// Appends what a line lists.
    pub(crate) fn add_list(&mut self, list: LineList, items: Vec<Symbol>) -> Result<(), AllocError>
        ensures { OnOk result (syntax_of self.new ≡ append_list (syntax_of self.old) list (symbols_of items.items)) }
    {
        match list {
            LineList::Level(kind) => self.levels.push(Level {
                kind,
                tokens: items,
            })?,
            LineList::AvoidInsert => self.avoid_insert.push(Line { items })?,
            LineList::ImplicitTokens => self.implicit_tokens.push(Line { items })?,
            LineList::ExpectUnused => self.expect_unused.push(Line { items })?,
        }
        Ok(())
    }

    /// Appends the number of a declaration.
    pub(crate) fn add_number(&mut self, count: Count, number: Number) -> Result<(), AllocError>
        ensures { OnOk result (syntax_of self.new ≡ append_number (syntax_of self.old) count (number_text number)) }
    {
        match count {
            Count::Expect => self.expect.push(number)?,
            Count::ExpectRR => self.expect_rr.push(number)?,
        }
        Ok(())
    }
}
