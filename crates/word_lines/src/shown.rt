//! The texts of a line's errors.

ghost use Rattle.std.specs.Prelude.{◌≡◌, ◌≤◌, ◌++◌, ◌∷◌, [], length, string_bytes, IfOk, OnOk};
ghost use Rattle.std.specs.List.{flat_map, AllByRecursion};
ghost use Rattle.lrpar.specs.ErrorTexts.{ErrorFits, error_text};
ghost use Rattle.parse_trees.specs.ErrorTexts.{name_or_number};
ghost use Rattle.word_lines.specs.Lexing.{lex_of};
ghost use Rattle.word_lines.specs.LineTexts.{ErrorCanBeShown, error_line, fault_line, shown_name};
ghost use Rattle.word_lines.specs.declared.lexeme.WordLexeme.{WordLexeme};

use crate::lexeme::{WordLexError, WordLexeme, WordLexerTypes};
use crate::lexer::WordLexer;
use cfg_base::index::{IndexOrder, IndexStorage};
use cfg_base::symbol::TIdx;
use cfg_numbered::yacc::grammar::NumberedGrammar;
use lrpar::{LexParseError, ParseError};
use std::alloc::{AllocError, Global};

/// Adds the text of an error of lexing a line, and LF.
pub fn push_fault<'a, S: IndexOrder>(
    alloc: Global,
    grm: &'a NumberedGrammar<S>,
    lexer: &WordLexer<'a, S>,
    error: WordLexError,
    text: &mut Vec<u8>,
) -> Result<(), AllocError>
    requires { error.span.end ≤ length lexer.now.text }
    ensures { OnOk result (text.new.items ≡ text.old.items ++ fault_line lexer.now.text error) }
{
    push_told(alloc, grm, lexer, LexParseError::LexError(error), text)
}

/// Adds the texts of errors of parsing a line, with LF behind each.
pub fn push_errors<'a, S: IndexOrder>(
    alloc: Global,
    grm: &'a NumberedGrammar<S>,
    lexer: &WordLexer<'a, S>,
    errors: Vec<ParseError<WordLexeme<S>, S>>,
    text: &mut Vec<u8>,
) -> Result<(), AllocError>
    requires { AllByRecursion (ErrorCanBeShown S.number grm.now lexer.now.text) errors.items }
    ensures { OnOk result (text.new.items ≡ text.old.items ++ flat_map (error_line S.number grm.now lexer.now.text) errors.items) }
{
    'errors: for error in errors {
        push_error(alloc, grm, lexer, error, text)?;
    }
    Ok(())
}

/// Adds the text of an error of parsing a line, and LF. It shows a token by the text of `%epp`, else by its name, else by its
/// number.
pub fn push_error<'a, S: IndexOrder>(
    alloc: Global,
    grm: &'a NumberedGrammar<S>,
    lexer: &WordLexer<'a, S>,
    error: ParseError<WordLexeme<S>, S>,
    text: &mut Vec<u8>,
) -> Result<(), AllocError>
    requires { ErrorCanBeShown S.number grm.now lexer.now.text error }
    ensures { OnOk result (text.new.items ≡ text.old.items ++ error_line S.number grm.now lexer.now.text error) }
{
    push_told(alloc, grm, lexer, LexParseError::ParseError(error), text)
}

// Adds the text of an error, and LF.
fn push_told<'a, S: IndexOrder>(
    alloc: Global,
    grm: &'a NumberedGrammar<S>,
    lexer: &WordLexer<'a, S>,
    error: LexParseError<WordLexerTypes<S>>,
    text: &mut Vec<u8>,
) -> Result<(), AllocError>
    requires { ErrorFits S.number lexer.now.text (lex_of S.number) (λ e. e.span) error }
    ensures { OnOk result (text.new.items ≡ text.old.items ++ (error_text S.number lexer.now.text (lex_of S.number) (λ e. e.span) (shown_name grm.now) error ++ 10 ∷ [])) }
{
    let told = told_text(alloc, grm, lexer, &error);
    drop(error);
    push_shown(told?, text)?;
    text.push(b'\n')?;
    Ok(())
}

// The text of an error.
fn told_text<'a, S: IndexOrder>(
    alloc: Global,
    grm: &'a NumberedGrammar<S>,
    lexer: &WordLexer<'a, S>,
    error: &LexParseError<WordLexerTypes<S>>,
) -> Result<String, AllocError>
    requires { ErrorFits S.number lexer.now.text (lex_of S.number) (λ e. e.span) error.now }
    ensures { IfOk result (λ told. string_bytes told ≡ error_text S.number lexer.now.text (lex_of S.number) (λ e. e.span) (shown_name grm.now) error.now) }
{
    let texts = TokenTexts { grm };
    let epp = move |token: TIdx<S>| texts.of(token);
    error.pp(alloc, lexer, &epp)
}

// The texts by which messages show the tokens of a grammar.
#[derive(Clone, Copy)]
struct TokenTexts<'a, S: IndexStorage> {
    grm: &'a NumberedGrammar<S>,
}

impl<'a, S: IndexStorage> TokenTexts<'a, S> {
    // The text of a token, if it has one.
    fn of(self, token: TIdx<S>) -> Option<&'a str>
        ensures { shown_name self.entry.grm.now (S.number token.0) ≡ name_or_number (S.number token.0) result }
    {
        if !self.grm.has_token(token) {
            return None;
        }
        self.grm.token_epp(token)
    }
}

// Adds the bytes of a text.
fn push_shown(shown: String, text: &mut Vec<u8>) -> Result<(), AllocError>
    ensures { OnOk result (text.new.items ≡ text.old.items ++ string_bytes shown) }
{
    text.extend_from_slice(shown.as_bytes())
}
