//! Making a parser of texts, and freeing it.

ghost use Rattle.std.specs.Prelude.{◌≡◌, IfErr, IfOk, IsSome, OnErr, OnOk, false, length};
ghost use Rattle.grammar_report.specs.Outcomes.{IsKitIn};
ghost use Rattle.lrlex.specs.LexTexts.{ReadsRules};
ghost use Rattle.parser_kit.specs.KitErrors.{IsMemory};
ghost use Rattle.lrkit_c.specs.Making.{AreRulesFor, HoldsMade, IsGrammarRefusal, IsLexerRefusal, IsMadeOf, IsRefusal, MakesParser, Shows, TellsRefusal};
ghost use Rattle.lrkit_c.specs.Answers.{answer_of};

use crate::answers::{LrkitAnswer, answer, fill};
use crate::handle::LrkitParser;
use crate::held::Held;
use crate::lexer_faults::lexer_fault;
use crate::reports::report_on;
use crate::status::Status;
use lrlex::LexRules;
use parser_kit::{KitError, ParserKit};
use std::alloc::{AllocError, Global};

/// No chain of reductions on one token goes past this.
const CAP: u16 = 1000;

/// Why texts give no parser.
#[derive(Drop)]
pub enum Refusal {
    /// Memory is refused.
    Memory,
    /// A text is not UTF-8.
    NotUtf8,
    /// The grammar's text gives no parser, for what the report says.
    Grammar(String),
    /// The lexer's text gives no lexer, for what this says.
    Lexer(String),
}

/// Returns why a grammar's text gives no parser: what the report on it says.
fn grammar_message(alloc: Global, text: &str) -> Result<String, AllocError> {
    let shown = report_on(alloc, text, "grammar", false)?;
    Ok(shown.text)
}

/// Returns whether memory was refused.
fn is_memory(refusal: &KitError<u32>) -> bool
    ensures { result ≡ false → IsMemory refusal.now → ⊥ }
{
    match refusal {
        KitError::Grammar(_) => false,
        KitError::TooMany(_) => false,
        KitError::TooManyStates(_) => false,
        KitError::AcceptReduce(_) => false,
        KitError::TooLarge => false,
        KitError::TooManyReductions {
            state: _,
            rule: _,
            token: _,
            cap: _,
        } => false,
        KitError::Memory(_) => true,
    }
}

/// Makes the kit of a grammar's text.
fn make_kit(alloc: Global, text: &[u8]) -> Result<ParserKit<u32>, Refusal>
    ensures kit { IfOk result (IsKitIn text.now) }
    ensures refused { IfErr result (IsGrammarRefusal text.now) }
{
    let Ok(text) = std::str::from_utf8(text) else {
        return Err(Refusal::NotUtf8);
    };
    match ParserKit::of_text(alloc, text, CAP) {
        Ok(kit) => Ok(kit),
        Err(refusal) => {
            let memory = is_memory(&refusal);
            drop(refusal);
            if memory {
                return Err(Refusal::Memory);
            }
            match grammar_message(alloc, text) {
                Ok(message) => Err(Refusal::Grammar(message)),
                Err(_) => Err(Refusal::Memory),
            }
        }
    }
}

/// Makes the rules of a lexer's text.
fn rules_of(alloc: Global, text: &str) -> Result<LexRules, Refusal>
    ensures rules { IfOk result (ReadsRules text.now) }
    ensures refused { IfErr result (IsLexerRefusal text.now) }
{
    match LexRules::from_text(alloc, text) {
        Ok(rules) => Ok(rules),
        Err(error) => {
            let memory = error.is_memory();
            let shown = lexer_fault(alloc, text, &error);
            drop(error);
            match shown {
                Ok(message) => {
                    if memory {
                        return Err(Refusal::Memory);
                    }
                    Err(Refusal::Lexer(message))
                }
                Err(_) => Err(Refusal::Memory),
            }
        }
    }
}

/// Makes the rules of a lexer's text; none of an empty one.
fn make_rules(alloc: Global, text: &[u8]) -> Result<Option<LexRules>, Refusal>
    ensures rules { IfOk result (AreRulesFor text.now) }
    ensures refused { IfErr result (IsLexerRefusal text.now) }
{
    if text.is_empty() {
        return Ok(None);
    }
    let Ok(text) = std::str::from_utf8(text) else {
        return Err(Refusal::NotUtf8);
    };
    match rules_of(alloc, text) {
        Ok(rules) => Ok(Some(rules)),
        Err(refusal) => Err(refusal),
    }
}

/// Makes what a handle holds of texts.
pub fn make_held(alloc: Global, grammar: &[u8], lexer: &[u8]) -> Result<Held, Refusal>
    ensures made { IfOk result (IsMadeOf grammar.now lexer.now) }
    ensures refused { IfErr result (IsRefusal grammar.now lexer.now) }
{
    match make_kit(alloc, grammar) {
        Ok(kit) => match make_rules(alloc, lexer) {
            Ok(rules) => Ok(Held { kit, rules }),
            Err(lacking) => {
                drop(kit);
                Err(lacking)
            }
        },
        Err(refusal) => Err(refusal),
    }
}

/// Writes a message where it fits. The count is that of its bytes either way.
fn put_message(status: Status, text: &[u8], message: &mut [u8]) -> LrkitAnswer
    ensures answer { result ≡ answer_of status (length text.now) }
    ensures message { Shows text.now message.old message.new }
{
    if text.len() <= message.len() {
        fill(text, message);
    }
    answer(status, text.len())
}

/// Writes why there is no parser.
fn put_refusal(refusal: &Refusal, message: &mut [u8]) -> LrkitAnswer
    ensures { TellsRefusal refusal.now message.old message.new result }
{
    match refusal {
        Refusal::Memory => answer(Status::Memory, 0),
        Refusal::NotUtf8 => answer(Status::NotUtf8, 0),
        Refusal::Grammar(text) => put_message(Status::Grammar, text.as_bytes(), message),
        Refusal::Lexer(text) => put_message(Status::Lexer, text.as_bytes(), message),
    }
}

/// Puts what is made of texts into a handle.
fn make_parser(
    alloc: Global,
    grammar: &[u8],
    lexer: &[u8],
    parser: &mut LrkitParser,
) -> Result<(), Refusal>
    ensures made { OnOk result (HoldsMade grammar.now lexer.now parser.new.value) }
    ensures kept { OnErr result (parser.new ≡ parser.old) }
    ensures refused { IfErr result (IsRefusal grammar.now lexer.now) }
{
    match make_held(alloc, grammar, lexer) {
        Ok(held) => match Box::new(alloc, held) {
            Ok(boxed) => {
                parser.put(boxed);
                Ok(())
            }
            Err(_) => Err(Refusal::Memory),
        },
        Err(refusal) => Err(refusal),
    }
}

/// Makes a parser of a grammar's text and a lexer's, or of the former alone where the latter is empty. What the handle held
/// before is forgotten, and not freed.
#[unsafe(no_mangle)]
pub extern "C" fn lrkit_parser_new(
    alloc: Global,
    grammar: &[u8],
    lexer: &[u8],
    parser: &mut LrkitParser,
    message: &mut [u8],
) -> LrkitAnswer
    ensures { MakesParser grammar.now lexer.now parser.old parser.new message.old message.new result }
{
    match make_parser(alloc, grammar, lexer, parser) {
        Ok(()) => answer(Status::Done, 0),
        Err(refusal) => {
            let told = put_refusal(&refusal, message);
            drop(refusal);
            told
        }
    }
}

/// Frees a parser.
#[unsafe(no_mangle)]
pub extern "C" fn lrkit_parser_free(alloc: Global, parser: &mut LrkitParser)
    requires { IsSome parser.old.value }
{
    drop(parser.take(alloc));
}
