//! Tokens that may come next.

ghost use Rattle.std.specs.Prelude.{◌≡◌, ◌<◌, ◌^◌, ◌++◌, ◌∷◌, [], if◌then◌else◌, IfOk, IfSome, IsSome, OnOk, length, map};
ghost use Rattle.lrkit_c.specs.Expecting.{IsExpected, TellsExpected, numbers_of};
ghost use Rattle.lrkit_c.specs.Parses.{lexeme_of};

use crate::answers::{LrkitAnswer, answer, put_all};
use crate::handle::LrkitParser;
use crate::lexemes::{LrkitLexeme, lexeme_of};
use crate::status::Status;
use lrlex::DefaultLexeme;
use parser_kit::ParserKit;
use std::alloc::{AllocError, Global};
use vob::Vob;

/// Returns the kit's lexemes for those of C.
fn lexemes_of(alloc: Global, lexemes: &[LrkitLexeme]) -> Result<Vec<DefaultLexeme<u32>>, AllocError>
    ensures { IfOk result (λ v. v.items ≡ map lexeme_of lexemes.now) }
{
    let mut list = Vec::new(alloc);
    'lexemes: for index in 0..lexemes.len() {
        list.push(lexeme_of(lexemes[index]))?;
    }
    Ok(list)
}

/// Puts the number of a token whose bit is set.
fn push_if(set: bool, number: u32, numbers: &mut Vec<u32>) -> Result<(), AllocError>
    ensures { OnOk result (numbers.new.items ≡ numbers.old.items ++ (if set then number ∷ [] else [])) }
{
    if set {
        numbers.push(number)?;
    }
    Ok(())
}

/// Returns the numbers of the tokens whose bits are set, ascending.
pub fn numbers_of(alloc: Global, bits: &Vob) -> Result<Vec<u32>, AllocError>
    requires { length bits.now.bits < 2 ^ 32 }
    ensures { IfOk result (λ v. v.items ≡ numbers_of bits.now.bits) }
{
    let mut numbers = Vec::new(alloc);
    'tokens: for token in 0..bits.len() {
        let set = bits.get(token).unwrap_or(false);
        push_if(set, token as u32, &mut numbers)?;
    }
    Ok(numbers)
}

/// Returns the numbers of the tokens that may come after lexemes; none where these have an error.
fn find_expected(
    alloc: Global,
    kit: &ParserKit<u32>,
    lexemes: &[LrkitLexeme],
) -> Result<Option<Vec<u32>>, AllocError>
    ensures { IfOk result (IsExpected kit.now.parser (map lexeme_of lexemes.now)) }
{
    // Called for the proof alone: the tokens' count is a u32.
    let _count = kit.grm().tokens_len();
    let list = lexemes_of(alloc, lexemes)?;
    match kit.parser_data().next_tokens(alloc, list.as_slice())? {
        Some(bits) => {
            let numbers = numbers_of(alloc, &bits)?;
            Ok(Some(numbers))
        }
        None => Ok(None),
    }
}

/// Writes which tokens may come after lexemes.
fn answer_expected(
    alloc: Global,
    kit: &ParserKit<u32>,
    lexemes: &[LrkitLexeme],
    tokens: &mut [u32],
) -> LrkitAnswer
    ensures { TellsExpected kit.now.parser (map lexeme_of lexemes.now) tokens.old tokens.new result }
{
    match find_expected(alloc, kit, lexemes) {
        Ok(Some(numbers)) => put_all(Status::Done, numbers.as_slice(), tokens),
        Ok(None) => answer(Status::Syntax, 0),
        Err(_) => answer(Status::Memory, 0),
    }
}

/// Writes the numbers of the tokens that may come after lexemes, ascending; the end token is the last.
#[unsafe(no_mangle)]
pub extern "C" fn lrkit_expected(
    alloc: Global,
    parser: &mut LrkitParser,
    lexemes: &[LrkitLexeme],
    tokens: &mut [u32],
) -> LrkitAnswer
    requires { IsSome parser.old.value }
    ensures parser { parser.new.value ≡ parser.old.value }
    ensures answer { IfSome parser.old.value (λ h. TellsExpected h.kit.parser (map lexeme_of lexemes.now) tokens.old tokens.new result) }
{
    let held = parser.take(alloc);
    let put = answer_expected(alloc, &held.kit, lexemes, tokens);
    parser.put(held);
    put
}
