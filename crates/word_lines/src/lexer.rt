//! The words of a line as the list of a lexer.

ghost use Rattle.std.specs.Prelude.{◌≡◌, ◌==◌, ◌+◌, ◌<◌, ◌≤◌, ◌^◌, List, [], ◌∷◌, ◌++◌, IfOk, OnOk, length};
ghost use Rattle.std.specs.List.{AllByRecursion, position_or_len};
ghost use Rattle.parse_trees.specs.Lexemes.{AreItems, Misfit, AreLexemes};
ghost use Rattle.parse_trees.specs.Refusals.{HasMisfit};
ghost use Rattle.word_lines.specs.Lexing.{IsInside, items_of, items_in, item_of, lex_of};
ghost use Rattle.word_lines.specs.declared.lexeme.WordLexeme.{WordLexeme};

use crate::lexeme::{WordLexError, WordLexeme, WordLexerTypes};
use crate::names::find_token;
use cfg_base::index::{IndexOrder, IndexStorage, each_number_is_of_one_value};
use cfg_base::span::Span;
use cfg_base::text_lines::TextLines;
use cfg_numbered::yacc::grammar::NumberedGrammar;
use lrpar::{Lexer, NonStreamingLexer};
use std::alloc::{AllocError, Global};
use std::marker::Model;
use std::slice::Iter;

/// Room for the list of a lexer. A program that parses line after line hands it on from line to line (`LexerRoom::read`,
/// `WordLexer::into_room`), and so asks for a list only where a line has more words than each one before it. It is a lexer for
/// parses itself; what counts lines and columns too is made of it (`WordLexer::of_read`), for a line with errors alone. Contracts
/// see the items that it holds.
#[derive(Drop)]
pub struct LexerRoom<S: IndexStorage> {
    items: Vec<Result<WordLexeme<S>, WordLexError>>,
}

impl<S: IndexStorage> Model for LexerRoom<S> {
    ghost use Rattle.std.specs.Prelude.{List, Result};
    ghost use Rattle.word_lines.specs.declared.lexeme.WordLexError.{WordLexError};
    ghost use Rattle.word_lines.specs.declared.lexeme.WordLexeme.{WordLexeme};

    ghost Value = { List (Result (WordLexeme S) WordLexError) };

    ghost view = { λ r. r.items.items };
}

impl<S: IndexStorage> LexerRoom<S> {
    /// Makes room for no word. It takes no memory.
    pub fn new(alloc: Global) -> LexerRoom<S>
        ensures { result ≡ [] }
    {
        LexerRoom {
            items: Vec::new(alloc),
        }
    }

    /// Reads the words of a line in place of the items that it held, as `WordLexer::new` does.
    pub fn read(self, grm: &NumberedGrammar<S>, line: &str) -> Result<LexerRoom<S>, AllocError>
        ensures items { IfOk result (λ r. r ≡ items_of S.of_number grm.now line.now) }
        ensures taken { IfOk result (λ r. (lexemes : List (WordLexeme S)) → AreItems r lexemes → AreLexemes grm.now.grammar (lex_of S.number) lexemes) }
        ensures not_refused { IfOk result (λ r. (m : Misfit) → HasMisfit grm.now.grammar (lex_of S.number) r m → ⊥) }
    {
        let LexerRoom { items: mut room } = self;
        room.clear();
        let items = lex_line(room, grm, line)?;
        Ok(LexerRoom { items })
    }
}

impl<S: IndexOrder> Lexer<WordLexerTypes<S>> for LexerRoom<S> {
    ghost lexed = { λ r. r };

    fn iter<'a>(&'a self) -> Iter<'a, Result<WordLexeme<S>, WordLexError>> {
        self.items.as_slice().iter()
    }
}

/// The lexemes and lexing errors of a line of words. Contracts see the line and this list.
#[derive(Drop)]
pub struct WordLexer<'input, S: IndexStorage> {
    line: TextLines<'input>,
    items: Vec<Result<WordLexeme<S>, WordLexError>>,
}

impl<'input, S: IndexStorage> Model for WordLexer<'input, S> {
    ghost use Rattle.word_lines.specs.Lexing.{LexedLine};

    ghost Value = { LexedLine S };

    ghost view = { λ l. record { text = l.line; items = l.items.items } };
}

impl<'input, S: IndexStorage> WordLexer<'input, S> {
    /// Makes the lexer of a line. Words are the nonempty parts between spaces (U+0020 alone). One is the lexeme of the token
    /// with this name, or a lexing error where no token has it. No such list is refused by a parse.
    pub fn new(
        alloc: Global,
        grm: &NumberedGrammar<S>,
        line: &'input str,
    ) -> Result<WordLexer<'input, S>, AllocError>
        ensures text { IfOk result (λ l. l.text ≡ line.entry.now) }
        ensures items { IfOk result (λ l. l.items ≡ items_of S.of_number grm.now line.entry.now) }
        ensures taken { IfOk result (λ l. (lexemes : List (WordLexeme S)) → AreItems l.items lexemes → AreLexemes grm.now.grammar (lex_of S.number) lexemes) }
        ensures not_refused { IfOk result (λ l. (m : Misfit) → HasMisfit grm.now.grammar (lex_of S.number) l.items m → ⊥) }
    {
        WordLexer::in_room(alloc, LexerRoom::new(alloc), grm, line)
    }

    /// Makes the lexer of a line, as `new` does, whose list takes the room of an earlier one.
    pub fn in_room(
        alloc: Global,
        room: LexerRoom<S>,
        grm: &NumberedGrammar<S>,
        line: &'input str,
    ) -> Result<WordLexer<'input, S>, AllocError>
        ensures text { IfOk result (λ l. l.text ≡ line.entry.now) }
        ensures items { IfOk result (λ l. l.items ≡ items_of S.of_number grm.now line.entry.now) }
        ensures taken { IfOk result (λ l. (lexemes : List (WordLexeme S)) → AreItems l.items lexemes → AreLexemes grm.now.grammar (lex_of S.number) lexemes) }
        ensures not_refused { IfOk result (λ l. (m : Misfit) → HasMisfit grm.now.grammar (lex_of S.number) l.items m → ⊥) }
    {
        let read = room.read(grm, line)?;
        WordLexer::of_read(alloc, read, line)
    }

    /// Makes the lexer of a line whose items are at hand.
    pub fn of_read(
        alloc: Global,
        read: LexerRoom<S>,
        line: &'input str,
    ) -> Result<WordLexer<'input, S>, AllocError>
        ensures text { IfOk result (λ l. l.text ≡ line.entry.now) }
        ensures items { IfOk result (λ l. l.items ≡ read) }
    {
        let line = TextLines::new(alloc, line)?;
        let LexerRoom { items } = read;
        Ok(WordLexer { line, items })
    }

    /// Lets the line go, and keeps the room of the list.
    pub fn into_room(self) -> LexerRoom<S>
        ensures { result ≡ self.entry.items }
    {
        let WordLexer { items, .. } = self;
        LexerRoom { items }
    }
}

/// The items of a line's words, in the room of an empty list.
fn lex_line<S: IndexStorage>(
    room: Vec<Result<WordLexeme<S>, WordLexError>>,
    grm: &NumberedGrammar<S>,
    line: &str,
) -> Result<Vec<Result<WordLexeme<S>, WordLexError>>, AllocError>
    requires { room.items ≡ [] }
    ensures items { IfOk result (λ v. v.items ≡ items_of S.of_number grm.now line.now) }
    ensures inside { IfOk result (λ v. AllByRecursion (IsInside S.number grm.now.grammar) v.items) }
{
    let mut items = room;
    let mut rest = line;
    'parts: loop {
        let len = part_len(rest.as_bytes());
        push_part(grm, &rest[..len], line.len() - rest.len(), &mut items)?;
        if len == rest.len() {
            return Ok(items);
        }
        rest = &rest[len + 1..];
    }
}

/// Counts the bytes before the first space.
fn part_len(bytes: &[u8]) -> usize
    ensures value { result ≡ position_or_len (λ b. b == 32) bytes.now }
    ensures within { result ≤ length bytes.now }
{
    bytes.iter().take_while(|b| **b != b' ').count()
}

/// Puts the item of a part between spaces, if it is a word.
fn push_part<S: IndexStorage>(
    grm: &NumberedGrammar<S>,
    part: &str,
    start: usize,
    items: &mut Vec<Result<WordLexeme<S>, WordLexError>>,
) -> Result<(), AllocError>
    requires { start + length part.now < 2 ^ 64 }
    ensures items { OnOk result (items.new.items ≡ items.old.items ++ items_in S.of_number grm.now start (part.now ∷ [])) }
    ensures inside { OnOk result (AllByRecursion (IsInside S.number grm.now.grammar) (items_in S.of_number grm.now start (part.now ∷ []))) }
{
    if part.is_empty() {
        return Ok(());
    }
    items.push(item_at(grm, part, start))?;
    Ok(())
}

/// The item of a word.
fn item_at<S: IndexStorage>(
    grm: &NumberedGrammar<S>,
    word: &str,
    start: usize,
) -> Result<WordLexeme<S>, WordLexError>
    requires { start + length word.now < 2 ^ 64 }
    ensures item { result ≡ item_of S.of_number grm.now (record { start = start; text = word.now }) }
    ensures inside { IsInside S.number grm.now.grammar result }
{
    let span = Span::new(start, start + word.len());
    match find_token(grm, word) {
        Some(tidx) => {
            let token = tidx.0;
            // Read, so that the proof may use that the number fits, and is that of this value alone.
            token.to_usize();
            each_number_is_of_one_value::<S>();
            Ok(WordLexeme {
                token,
                span,
                faulty: false,
            })
        }
        None => Err(WordLexError { span }),
    }
}

impl<'input, S: IndexOrder> Lexer<WordLexerTypes<S>> for WordLexer<'input, S> {
    ghost lexed = { λ l. l.items };

    fn iter<'a>(&'a self) -> Iter<'a, Result<WordLexeme<S>, WordLexError>> {
        self.items.iter()
    }
}

impl<'input, S: IndexOrder> NonStreamingLexer<'input, WordLexerTypes<S>> for WordLexer<'input, S> {
    ghost text = { λ l. l.text };

    fn span_str(&self, span: Span) -> &'input str {
        &self.line.text()[span.start()..span.end()]
    }

    fn span_lines_str(&self, span: Span) -> &'input str {
        self.line.lines_of(span)
    }

    fn line_col(&self, span: Span) -> ((usize, usize), (usize, usize)) {
        (
            self.line.line_col(span.start()),
            self.line.line_col(span.end()),
        )
    }
}
