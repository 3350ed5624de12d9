//! Parses whose value is given by actions.

ghost use Rattle.std.specs.Prelude.{◌≡◌, ℕ, List, map, Ok, IfOk, IfErr};
ghost use Rattle.cfg_theory.specs.Fold.{Span as Extent};
ghost use Rattle.lrpar.specs.Acting.{HasAction, action_in, node_in, IsNodeOver};
ghost use Rattle.parse_trees.specs.Refusals.{IsParseRefusal};
ghost use Rattle.parse_trees.specs.Lex.{span_by};
ghost use Rattle.parse_trees.specs.Stacks.{span_of_places};
ghost use Rattle.lrpar.specs.Told.{IsReportedOutcome};
ghost use Rattle.lrpar.specs.declared.parse_actions.AStackType.TheVariants as variants;

use crate::folded_parse::{FoldedOutcome, parse_folded};
use crate::machine::Machine;
use crate::recoverer::Recoverer;
use cfg_base::index::IndexStorage;
use cfg_base::span::Span;
use cfg_base::symbol::{PIdx, RIdx};
use parse_trees::lex_api::{Lexeme, Lexer, LexerTypes};
use parse_trees::lexemes::ParseRefusal;
use parse_trees::node::Node;
use std::alloc::{AllocError, Global};

/// An argument of an action: the value that an action returned, or a lexeme.
#[derive(Debug, Drop)]
pub enum AStackType<LexemeT, ActionT> {
    /// The value that an action returned for a rule's node.
    ActionType(ActionT),
    /// The lexeme of a token.
    Lexeme(LexemeT),
}

/// Makes a value for each reduction of a parse.
pub trait Actions<T: LexerTypes, X: Lexer<T>> {
    /// The type of the values.
    type ActionT: Drop;

    ghost use Rattle.lrpar.specs.declared.parse_actions.AStackType.{AStackType};

    /// The values that `act` may return with a lexer for a production, its rule, a span and the arguments.
    ghost answers: { Self → X → ℕ → ℕ → Extent → List (AStackType T.LexemeT Self.ActionT) → Self.ActionT → Type 0 };

    /// Returns the value of a node from its production, its rule, its span, and the values of its symbols in
    /// order.
    fn act(
        &self,
        alloc: Global,
        pidx: PIdx<T::StorageT>,
        ridx: RIdx<T::StorageT>,
        lexer: &X,
        span: Span,
        args: Vec<AStackType<T::LexemeT, Self::ActionT>>,
    ) -> Result<Self::ActionT, AllocError>
        ensures { IfOk result (answers self.now lexer.now (T.StorageT.number pidx.0) (T.StorageT.number ridx.0) (span_of_places span) args.items) };
}

/// Returns the nodes of arguments: a lexeme's is a node of its own.
fn nodes_of<L: Lexeme<S>, S: IndexStorage>(
    alloc: Global,
    args: Vec<AStackType<L, Node<L, S>>>,
) -> Result<Vec<Node<L, S>>, AllocError>
    ensures { IfOk result (λ r. r.items ≡ map node_in args.items) }
{
    let mut nodes = Vec::new(alloc);
    'each: for arg in args {
        match arg {
            AStackType::ActionType(node) => nodes.push(node)?,
            AStackType::Lexeme(lexeme) => nodes.push(Node::Term { lexeme })?,
        }
    }
    Ok(nodes)
}

/// Actions that make nodes.
#[derive(Clone, Copy, Debug, PartialEq, Eq)]
pub struct GenericTreeActions;

impl<T: LexerTypes, X: Lexer<T>> Actions<T, X> for GenericTreeActions {
    type ActionT = Node<T::LexemeT, T::StorageT>;

    ghost answers = { λ actions lexer p r span vs v. IsNodeOver T.StorageT.number r vs v };

    fn act(
        &self,
        alloc: Global,
        _pidx: PIdx<T::StorageT>,
        ridx: RIdx<T::StorageT>,
        _lexer: &X,
        _span: Span,
        args: Vec<AStackType<T::LexemeT, Node<T::LexemeT, T::StorageT>>>,
    ) -> Result<Node<T::LexemeT, T::StorageT>, AllocError>
        ensures { IfOk result (IsNodeOver T.StorageT.number (T.StorageT.number ridx.0) args.items) }
    {
        let nodes = nodes_of(alloc, args)?;
        Ok(Node::Nonterm { ridx, nodes })
    }
}

/// Returns the value that an action returned; `None` for a lexeme.
fn answer_of<L: Drop, U: Drop>(value: Option<AStackType<L, U>>) -> Option<U>
    ensures { result ≡ action_in value }
{
    match value {
        Some(AStackType::ActionType(answer)) => Some(answer),
        Some(AStackType::Lexeme(_)) => None,
        None => None,
    }
}

type Acted<L, U> = Result<AStackType<L, U>, AllocError>;

/// Parses the list of a lexer, with the value that actions make.
pub(crate) fn parse_acted<
    T: LexerTypes,
    X: Lexer<T>,
    A: Actions<T, X>,
    R: Recoverer<T::StorageT, T::LexemeT>,
>(
    alloc: Global,
    machine: &Machine<'_, T::StorageT>,
    items: &[Result<T::LexemeT, T::LexErrorT>],
    recoverer: &R,
    lexer: &X,
    actions: &A,
) -> Result<FoldedOutcome<T::StorageT, T::LexemeT, T::LexErrorT, A::ActionT>, ParseRefusal>
    ensures parsed { IfOk result (λ o. IsReportedOutcome T.StorageT.number T.LexemeT.lex T.LexemeT.faulty_of machine.now.grm.now.grammar machine.now.sgraph.now machine.now.stable.now (HasAction machine.now.grm.now.grammar (A.answers actions.now lexer.now) (span_by T.LexemeT.lex)) (R.answers recoverer.now) items.now o) }
    ensures refused { IfErr result (IsParseRefusal machine.now.grm.now.grammar T.LexemeT.lex items.now) }
{
    let term = |_alloc: Global, lexeme: T::LexemeT| -> Acted<T::LexemeT, A::ActionT>
        ensures { result ≡ Ok (variants.Lexeme lexeme) }
    { Ok(AStackType::Lexeme(lexeme)) };
    let nonterm = |alloc: Global, pidx: PIdx<T::StorageT>, ridx: RIdx<
        T::StorageT,
    >, span: Span, args: Vec<AStackType<T::LexemeT, A::ActionT>>| -> Acted<T::LexemeT, A::ActionT>
        ensures { IfOk result (λ v. (u : A.ActionT) × (v ≡ variants.ActionType u) × A.answers actions.entry.now lexer.entry.now (T.StorageT.number pidx.0) (T.StorageT.number ridx.0) (span_of_places span) args.items u) }
    {
        let answer = actions.act(alloc, pidx, ridx, lexer, span, args)?;
        Ok(AStackType::ActionType(answer))
    };
    match parse_folded(alloc, machine, items, recoverer, &term, &nonterm)? {
        FoldedOutcome::Fault(fault) => Ok(FoldedOutcome::Fault(fault)),
        FoldedOutcome::Parsed(value, errors) => {
            Ok(FoldedOutcome::Parsed(answer_of(value), errors))
        }
    }
}
