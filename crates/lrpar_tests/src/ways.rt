//! What a line yields, by each call that parses.

ghost use Rattle.std.specs.Prelude.{IfOk};

use crate::flat::{flat_text, shown_text};
use crate::lines::note;
use crate::outcomes::{errors_text, folded_text, outcome_text};
use crate::spell::{branch, leaf};
use crate::trees::{Tree, is_told, tree_outcome_text};
use cfg_base::span::Span;
use cfg_base::symbol::{PIdx, RIdx};
use lrpar::flat::Visit;
use lrpar::{
    AStackType, Actions, DefaultLexeme, DefaultLexerTypes, GenericTreeActions, ListLexer,
    ParseRefusal, RTParserBuilder, Recoverer,
};
use std::alloc::{AllocError, Global};
use std::cell::Cell;

/// The types of the lexemes.
type Types = DefaultLexerTypes<u8>;

/// A parser that asks a recoverer at each error.
pub type Parser<'a, R> = RTParserBuilder<'a, Types, R>;

/// Returns a text, and behind it what a parse asked for: the index of each error, the token of each leaf and the production of
/// each node, as digits.
fn with_asked(
    alloc: Global,
    text: &str,
    indices: usize,
    tokens: usize,
    productions: usize,
) -> Result<String, AllocError> {
    format!(in alloc; "{text}; asked {indices} {tokens} {productions}")
}

/// Returns the text of the value by functions of productions, and what the parse asked for if the indices of errors are lent.
pub fn by_productions<R: Recoverer<u8, DefaultLexeme<u8>>>(
    alloc: Global,
    parser: &Parser<'_, R>,
    lexer: &ListLexer<Types>,
    indices: Option<&Cell<usize>>,
) -> Result<String, AllocError> {
    let tokens = Cell::new(0usize);
    let productions = Cell::new(0usize);
    let fterm = |alloc: Global, lexeme: DefaultLexeme<u8>| {
        note(&tokens, lexeme.tok_id as usize);
        leaf(alloc, lexeme)
    };
    let fnonterm = |alloc: Global, pidx: PIdx<u8>, ridx: RIdx<u8>, span: Span, args: Vec<String>| {
        note(&productions, pidx.0 as usize);
        let text = branch(alloc, pidx, ridx, span, args.as_slice());
        drop(args);
        text
    };
    let outcome = parser.parse_fold(alloc, lexer, &fterm, &fnonterm);
    let text = folded_text(alloc, &outcome);
    drop(outcome);
    match indices {
        None => text,
        Some(indices) => with_asked(
            alloc,
            text?.as_str(),
            indices.get(),
            tokens.get(),
            productions.get(),
        ),
    }
}

/// Returns the arguments' texts in their order, and behind them the rule and their count.
fn postfix(alloc: Global, ridx: RIdx<u8>, args: &[String]) -> Result<String, AllocError> {
    let rule = ridx.0;
    let count = args.len();
    let mut text = String::new(alloc);
    for arg in args {
        text.push_str(arg.as_str())?;
        text.push(' ')?;
    }
    text.push_str(format!(in alloc; "{rule}/{count}")?.as_str())?;
    Ok(text)
}

/// Returns the text of the value by functions of rules.
fn by_rules<R: Recoverer<u8, DefaultLexeme<u8>>>(
    alloc: Global,
    parser: &Parser<'_, R>,
    lexer: &ListLexer<Types>,
) -> Result<String, AllocError> {
    let fterm = |alloc: Global, lexeme: DefaultLexeme<u8>| leaf(alloc, lexeme);
    let fnonterm = |alloc: Global, ridx: RIdx<u8>, args: Vec<String>| {
        let text = postfix(alloc, ridx, args.as_slice());
        drop(args);
        text
    };
    let outcome = parser.parse_map(alloc, lexer, &fterm, &fnonterm);
    let text = outcome_text(alloc, &outcome);
    drop(outcome);
    text
}

/// What a symbol gave.
type Argument = AStackType<DefaultLexeme<u8>, String>;

/// Adds the text of an argument.
fn push_arg(alloc: Global, text: &mut String, arg: &Argument) -> Result<(), AllocError> {
    match arg {
        AStackType::ActionType(answer) => text.push_str(answer.as_str())?,
        AStackType::Lexeme(lexeme) => text.push_str(leaf(alloc, *lexeme)?.as_str())?,
    }
    text.push(' ')
}

/// Returns the arguments' texts in their order, and behind them the production, the rule, the span and their count.
fn postfix_action(
    alloc: Global,
    pidx: PIdx<u8>,
    ridx: RIdx<u8>,
    span: Span,
    args: &[Argument],
) -> Result<String, AllocError> {
    let production = pidx.0;
    let rule = ridx.0;
    let start = span.start();
    let end = span.end();
    let count = args.len();
    let mut text = String::new(alloc);
    for arg in args {
        push_arg(alloc, &mut text, arg)?;
    }
    text.push_str(format!(in alloc; "{production}:{rule}[{start},{end}]/{count}")?.as_str())?;
    Ok(text)
}

/// Answers texts.
pub struct PostfixActions;

impl Actions<DefaultLexerTypes<u8>, ListLexer<DefaultLexerTypes<u8>>> for PostfixActions {
    type ActionT = String;

    ghost answers = { λ actions lexer p r span vs v. Unit {0} };

    fn act(
        &self,
        alloc: Global,
        pidx: PIdx<u8>,
        ridx: RIdx<u8>,
        _lexer: &ListLexer<DefaultLexerTypes<u8>>,
        span: Span,
        args: Vec<AStackType<DefaultLexeme<u8>, String>>,
    ) -> Result<String, AllocError>
        ensures { IfOk result (λ v. Unit {0}) }
    {
        let text = postfix_action(alloc, pidx, ridx, span, args.as_slice());
        drop(args);
        text
    }
}

/// Returns the text of the value by actions.
fn by_actions<R: Recoverer<u8, DefaultLexeme<u8>>>(
    alloc: Global,
    parser: &Parser<'_, R>,
    lexer: &ListLexer<Types>,
) -> Result<String, AllocError> {
    let outcome = parser.parse_actions(alloc, lexer, &PostfixActions);
    let text = outcome_text(alloc, &outcome);
    drop(outcome);
    text
}

/// Returns the text of the tree by rules.
fn as_tree<R: Recoverer<u8, DefaultLexeme<u8>>>(
    alloc: Global,
    parser: &Parser<'_, R>,
    lexer: &ListLexer<Types>,
) -> Result<String, AllocError> {
    let outcome = parser.parse_generictree(alloc, lexer);
    let text = tree_outcome_text(alloc, &outcome);
    drop(outcome);
    text
}

/// Returns the text of the tree by rules that actions make.
fn as_tree_by_actions<R: Recoverer<u8, DefaultLexeme<u8>>>(
    alloc: Global,
    parser: &Parser<'_, R>,
    lexer: &ListLexer<Types>,
) -> Result<String, AllocError> {
    let outcome = parser.parse_actions(alloc, lexer, &GenericTreeActions);
    let text = tree_outcome_text(alloc, &outcome);
    drop(outcome);
    text
}

/// Returns the text of the tree as a list of nodes; over an input its text and the children of nodes.
pub fn as_nodes<R: Recoverer<u8, DefaultLexeme<u8>>>(
    alloc: Global,
    parser: &Parser<'_, R>,
    lexer: &ListLexer<Types>,
    over: Option<(&str, &[Visit])>,
) -> Result<String, AllocError> {
    let outcome = parser.parse_flat(alloc, lexer);
    let text = match over {
        None => flat_text(alloc, &outcome),
        Some((input, nodes)) => shown_text(alloc, parser.grammar(), &outcome, input, nodes),
    };
    drop(outcome);
    text
}

/// Returns the text of the errors of a parse without values.
fn by_errors<R: Recoverer<u8, DefaultLexeme<u8>>>(
    alloc: Global,
    parser: &Parser<'_, R>,
    lexer: &ListLexer<Types>,
) -> Result<String, AllocError> {
    let outcome = parser.parse_noaction(alloc, lexer);
    let text = errors_text(alloc, &outcome);
    drop(outcome);
    text
}

/// Adds a text and the end of its line.
fn push_line(text: &mut String, line: Result<String, AllocError>) -> Result<(), AllocError> {
    text.push_str(line?.as_str())?;
    text.push('\n')
}

/// Returns a line for each call: by functions of productions, by functions of rules, by actions, as a tree, as a tree by actions,
/// as a list of nodes, without values.
pub fn each_way<R: Recoverer<u8, DefaultLexeme<u8>>>(
    alloc: Global,
    parser: &Parser<'_, R>,
    lexer: &ListLexer<Types>,
) -> Result<String, AllocError> {
    let mut text = String::new(alloc);
    push_line(&mut text, by_productions(alloc, parser, lexer, None))?;
    push_line(&mut text, by_rules(alloc, parser, lexer))?;
    push_line(&mut text, by_actions(alloc, parser, lexer))?;
    push_line(&mut text, as_tree(alloc, parser, lexer))?;
    push_line(&mut text, as_tree_by_actions(alloc, parser, lexer))?;
    push_line(&mut text, as_nodes(alloc, parser, lexer, None))?;
    text.push_str(by_errors(alloc, parser, lexer)?.as_str())?;
    Ok(text)
}

/// Returns the tree by rules that the list of nodes gives, nothing where there is none.
fn given_tree<R: Recoverer<u8, DefaultLexeme<u8>>>(
    alloc: Global,
    parser: &Parser<'_, R>,
    lexer: &ListLexer<Types>,
) -> Result<Option<Tree>, AllocError> {
    let outcome = parser.parse_flat(alloc, lexer);
    let tree = match &outcome {
        Ok(Ok((Some(tree), _))) => match tree.to_node(alloc, parser.grammar()) {
            Ok(tree) => Ok(Some(tree)),
            Err(e) => Err(e),
        },
        Err(ParseRefusal::Memory(e)) => Err(*e),
        _ => Ok(None),
    };
    drop(outcome);
    tree
}

/// Returns whether the tree by rules is the one that the list of nodes gives.
pub fn as_one_tree<R: Recoverer<u8, DefaultLexeme<u8>>>(
    alloc: Global,
    parser: &Parser<'_, R>,
    lexer: &ListLexer<Types>,
) -> Result<String, AllocError> {
    match given_tree(alloc, parser, lexer)? {
        Some(tree) => {
            let outcome = parser.parse_generictree(alloc, lexer);
            let same = is_told(alloc, &outcome, &tree);
            drop(outcome);
            drop(tree);
            let same = same?;
            format!(in alloc; "one tree: {same}")
        }
        None => String::from_str(alloc, "no tree"),
    }
}
