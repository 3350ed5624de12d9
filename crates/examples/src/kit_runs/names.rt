//! What the ported crates show of their own tests: a line whose value names its rules and tokens, of a text that names its kind.

use crate::kit_runs::lexer::lexer_of;
use crate::kit_runs::spell::{mapped_text, over};
use cfg_base::symbol::{RIdx, TIdx};
use cfg_numbered::yacc::NumberedGrammar;
use cfgrammar::yacc::{YaccGrammar, YaccGrammarMakeError};
use lrpar::{DefaultLexeme, DefaultLexerTypes, NoRecovery};
use parser_kit::{GrammarKit, GrammarKitError};
use std::alloc::{AllocError, Global};

const FACTORS: &str = "
%grmtools{YaccKind: Original(NoAction)}
%start Expr
%%
Expr : Expr '+' Term | Term;
Term : Term '*' Factor | Factor;
Factor : 'INT';";

const INPUT: &str = "2*3+4";

/// Returns a lexeme as the name of its token and its text.
fn named_leaf(
    alloc: Global,
    grm: &NumberedGrammar<u16>,
    lexeme: DefaultLexeme<u16>,
) -> Result<String, AllocError> {
    let token = TIdx(lexeme.tok_id);
    let name = if grm.has_token(token) {
        grm.token_name(token).unwrap_or("end")
    } else {
        "none"
    };
    let span = lexeme.span;
    let text = INPUT.get(span.start()..span.end()).unwrap_or("outside");
    format!(in alloc; "{name} {text}")
}

/// Returns a node as the name of its rule and its children.
fn named_branch(
    alloc: Global,
    grm: &NumberedGrammar<u16>,
    ridx: RIdx<u16>,
    args: Vec<String>,
) -> Result<String, AllocError> {
    let name = if grm.has_rule(ridx) {
        grm.rule_name_str(ridx)
    } else {
        "none"
    };
    over(String::from_str(alloc, name)?, args)
}

/// Returns what the input yields by names.
fn names_text(alloc: Global, kit: &GrammarKit<u16>) -> Result<String, AllocError> {
    let lexemes = [(2, 0, 1), (1, 1, 1), (2, 2, 1), (0, 3, 1), (2, 4, 1)];
    let lexer = lexer_of::<u16>(alloc, &lexemes)?;
    let grm = kit.grm();
    let fterm = |alloc: Global, lexeme: DefaultLexeme<u16>| named_leaf(alloc, grm, lexeme);
    let fnonterm = |alloc: Global, ridx: RIdx<u16>, args: Vec<String>| named_branch(
        alloc, grm, ridx, args,
    );
    let outcome = kit.parse_map::<DefaultLexerTypes<u16>, _, _, _, _, _>(
        alloc,
        &lexer,
        &NoRecovery,
        &fterm,
        &fnonterm,
    );
    let text = mapped_text(alloc, &outcome);
    drop(outcome);
    drop(lexer);
    text
}

/// Adds what the input yields by the kit of a grammar.
fn push_by(alloc: Global, out: &mut String, grm: NumberedGrammar<u16>) -> Result<(), AllocError> {
    match GrammarKit::new(alloc, grm, 1000) {
        Ok(kit) => {
            let names = names_text(alloc, &kit);
            drop(kit);
            out.push_str(names?.as_str())?;
            out.push('\n')
        }
        Err(GrammarKitError::Memory(e)) => Err(e),
        Err(_) => out.push_str("no kit\n"),
    }
}

/// Adds what the input yields by the text's grammar, whose section names its kind.
pub fn push_names(alloc: Global, out: &mut String) -> Result<(), AllocError> {
    match YaccGrammar::<u16>::from_str(alloc, FACTORS) {
        Ok(grm) => push_by(alloc, out, grm.into_numbered()),
        Err(YaccGrammarMakeError::Memory(e)) => Err(e),
        Err(_) => out.push_str("no grammar\n"),
    }
}
