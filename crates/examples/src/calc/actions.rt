//! What productions make of values.

ghost use Rattle.std.specs.Prelude.{◌≡◌, ℕ, IfOk, IsOk, get_or, map};
ghost use Rattle.examples.specs.Values.{difference, number_in, number_of};

use cfg_base::span::Span;
use cfg_base::symbol::{PIdx, RIdx};
use lrpar::{AStackType, Actions, DefaultLexeme, DefaultLexerTypes, ListLexer};
use std::alloc::{AllocError, Global};

/// What a symbol gave: a word, or the value of a tree.
type Argument = AStackType<DefaultLexeme<u32>, u64>;

/// Returns the number of the digit where a word starts, or 0 where the line has ended.
fn digit(line: &str, word: DefaultLexeme<u32>) -> u64
    ensures { result ≡ number_of line.now word }
{
    let bytes = line.as_bytes();
    let start = word.span.start();
    if start < bytes.len() {
        bytes[start].saturating_sub(b'0') as u64
    } else {
        0
    }
}

/// Returns the number of an argument.
fn number(line: &str, argument: &Argument) -> u64
    ensures { result ≡ number_in line.now argument.now }
{
    match argument {
        AStackType::ActionType(value) => *value,
        AStackType::Lexeme(word) => digit(line, *word),
    }
}

/// Returns the number of one of the arguments, or 0 past the last.
fn nth(line: &str, args: &[Argument], index: usize) -> u64
    ensures { result ≡ get_or (map (number_in line.now) args.now) index 0 }
{
    if index < args.len() {
        number(line, &args[index])
    } else {
        0
    }
}

/// Returns the value of a production for its arguments: the first one subtracts, down to 0.
fn value_of(line: &str, production: u32, args: &[Argument]) -> u64
    ensures { result ≡ difference production (map (number_in line.now) args.now) }
{
    if production == 0 {
        nth(line, args, 0).saturating_sub(nth(line, args, 2))
    } else {
        nth(line, args, 0)
    }
}

/// Actions that make the values of the trees of a line.
#[derive(Clone, Copy)]
pub struct Differences<'a> {
    /// The line, which has the digits.
    pub line: &'a str,
}

impl<'a> Actions<DefaultLexerTypes<u32>, ListLexer<DefaultLexerTypes<u32>>> for Differences<'a> {
    type ActionT = u64;

    ghost answers = { λ actions lexer p r span args v. v ≡ difference p (map (number_in actions.line.now) args) };

    fn act(
        &self,
        _alloc: Global,
        pidx: PIdx<u32>,
        _ridx: RIdx<u32>,
        _lexer: &ListLexer<DefaultLexerTypes<u32>>,
        _span: Span,
        args: Vec<Argument>,
    ) -> Result<u64, AllocError>
        ensures value { IfOk result (λ v. v ≡ difference pidx.0 (map (number_in self.now.line.now) args.items)) }
        ensures made { IsOk result }
    {
        Ok(value_of(self.line, pidx.0, args.as_slice()))
    }
}
