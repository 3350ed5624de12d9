//! Parsers: checked data, with a recoverer for errors.

ghost use Rattle.std.specs.Prelude.{◌≡◌, Option, IfOk, IfErr, IfSome};
ghost use Rattle.lrpar.specs.Acting.{HasAction};
ghost use Rattle.lrpar.specs.FlatParses.{IsFlatParse};
ghost use Rattle.lrpar.specs.OutlineParses.{IsOutlineParse};
ghost use Rattle.parse_trees.specs.FlatTrees.{IsFlatTree};
ghost use Rattle.parse_trees.specs.Lexemes.{IsFirstLexError};
ghost use Rattle.parse_trees.specs.NodeValues.{HasNode};
ghost use Rattle.lrpar.specs.Parses.{HasValue};
ghost use Rattle.parse_trees.specs.Refusals.{IsParseRefusal};
ghost use Rattle.parse_trees.specs.Lex.{span_by, token_by};
ghost use Rattle.parse_trees.specs.Stacks.{mapped_by, values_by};
ghost use Rattle.lrpar.specs.Told.{IsFoldedOutcome, IsHandedOut};
ghost use Rattle.lrpar.specs.declared.parse_error.LexParseError.TheVariants as errors;

use crate::folded_parse::{FoldedOutcome, parse_folded};
use crate::handed_out::hand_out;
use crate::parse_actions::{Actions, parse_acted};
use crate::parse_error::{LexParseError, ParseError};
use crate::parse_generictree::parse_nodes;
use crate::parse_map::parse_mapped;
use crate::parse_noaction::parse_unvalued;
use crate::parserdata::ParserData;
use crate::recoverer::{NoRecovery, Recoverer};
use crate::{flat_parse, outline_parse};
use cfg_base::span::Span;
use cfg_base::symbol::{PIdx, RIdx};
use cfg_numbered::yacc::grammar::NumberedGrammar;
use parse_trees::flat::FlatTree;
use parse_trees::lex_api::{Lexer, LexerTypes};
use parse_trees::lexemes::ParseRefusal;
use parse_trees::node::Node;
use parse_trees::outline::Outline;
use std::alloc::{AllocError, Global};
use std::marker::PhantomData;

/// A parser over checked data, and the recoverer that it asks at errors.
#[derive(Drop)]
pub struct RTParserBuilder<'a, T: LexerTypes, R> {
    /// The grammar and the table that each parse runs on.
    pub checked: &'a ParserData<T::StorageT>,
    /// Returns the repairs that are tried at an error.
    pub recoverer: &'a R,
    types: PhantomData<T>,
}

impl<'a, T: LexerTypes> RTParserBuilder<'a, T, NoRecovery> {
    /// Returns a parser that stops at its first error.
    pub fn new(checked: &'a ParserData<T::StorageT>) -> RTParserBuilder<'a, T, NoRecovery>
        ensures { result.checked.now ≡ checked.now }
    {
        RTParserBuilder {
            checked,
            recoverer: &NoRecovery,
            types: PhantomData,
        }
    }
}

impl<'a, T: LexerTypes, R> RTParserBuilder<'a, T, R> {
    /// Sets the recoverer that parses ask at errors, in place of the one before.
    pub fn recoverer<Q: Recoverer<T::StorageT, T::LexemeT>>(
        self,
        recoverer: &'a Q,
    ) -> RTParserBuilder<'a, T, Q>
        ensures same { result.checked.now ≡ self.entry.checked.now }
        ensures recoverer { result.recoverer.now ≡ recoverer.now }
    {
        RTParserBuilder {
            checked: self.checked,
            recoverer,
            types: PhantomData,
        }
    }

    /// Lends the grammar.
    pub fn grammar(&self) -> &'a NumberedGrammar<T::StorageT>
        ensures { result.now ≡ self.now.checked.now.grammar }
    {
        self.checked.grm()
    }
}

impl<'a, T: LexerTypes, R: Recoverer<T::StorageT, T::LexemeT>> RTParserBuilder<'a, T, R> {
    /// Parses, and makes the value by two functions: `fterm` for each lexeme that is shifted, `fnonterm` for each
    /// reduction, by its production, rule, span and the values of its symbols. Returns the lexer's first error;
    /// or the value, if there is one, and the parse errors.
    ///
    /// # Errors
    ///
    /// - `LexemeOutside` or `StartDecreases` where the lexer's list has no error and a lexeme that no run takes:
    ///   the first such one. Neither function is called before.
    /// - `Memory` where the parse, a function or the recoverer is refused memory.
    pub fn parse_fold<V: Drop, X: Lexer<T>, F, H>(
        &self,
        alloc: Global,
        lexer: &X,
        fterm: &F,
        fnonterm: &H,
    ) -> Result<FoldedOutcome<T::StorageT, T::LexemeT, T::LexErrorT, V>, ParseRefusal>
    where
        F: Fn(Global, T::LexemeT) -> Result<V, AllocError>,
        H: Fn(Global, PIdx<T::StorageT>, RIdx<T::StorageT>, Span, Vec<V>) -> Result<V, AllocError>,
        requires term { F.IsAlwaysCallable fterm.now }
        requires nonterm { H.IsAlwaysCallable fnonterm.now }
        ensures parsed { IfOk result (IsFoldedOutcome T.StorageT.number T.LexemeT.lex T.LexemeT.faulty_of self.now.checked.now.grammar.grammar self.now.checked.now.graph self.now.checked.now.table (values_by T.StorageT.number (F.post fterm.now) (H.post fnonterm.now)) (R.answers self.now.recoverer.now) (X.lexed lexer.now)) }
        ensures refused { IfErr result (IsParseRefusal self.now.checked.now.grammar.grammar T.LexemeT.lex (X.lexed lexer.now)) }
    {
        let items = lexer.iter().as_slice();
        parse_folded(
            alloc,
            &self.checked.machine(),
            items,
            self.recoverer,
            fterm,
            fnonterm,
        )
    }

    /// Parses, and makes the tree as one list of nodes. Returns the lexer's first error; or the tree, if there is
    /// one, and the parse errors. Fails as `parse_fold` does.
    pub fn parse_flat<X: Lexer<T>>(
        &self,
        alloc: Global,
        lexer: &X,
    ) -> Result<
        Result<
            (
                Option<FlatTree<T::StorageT, T::LexemeT>>,
                Vec<ParseError<T::LexemeT, T::StorageT>>,
            ),
            T::LexErrorT,
        >,
        ParseRefusal,
    >
        ensures fault { IfOk result (λ r. IfErr r (IsFirstLexError (X.lexed lexer.now))) }
        ensures parsed { IfOk result (λ r. IfOk r (λ p. IsFlatParse T.StorageT.number T.LexemeT.lex T.LexemeT.faulty_of self.now.checked.now.grammar.grammar self.now.checked.now.graph self.now.checked.now.table (R.answers self.now.recoverer.now) (X.lexed lexer.now) p.0 p.1.items)) }
        ensures tree { IfOk result (λ r. IfOk r (λ p. IfSome p.0 (IsFlatTree self.now.checked.now.grammar.grammar (token_by T.LexemeT.lex) (span_by T.LexemeT.lex)))) }
        ensures refused { IfErr result (IsParseRefusal self.now.checked.now.grammar.grammar T.LexemeT.lex (X.lexed lexer.now)) }
    {
        let items = lexer.iter().as_slice();
        flat_parse::parse_flat(alloc, &self.checked.machine(), items, self.recoverer)
    }

    /// Parses, and makes an outline of the tree, which has no lexemes. Returns the lexer's first error; or the outline, if there is a
    /// tree and no node has too many below it, and the parse errors. Fails as `parse_fold` does.
    pub fn parse_outline<X: Lexer<T>>(
        &self,
        alloc: Global,
        lexer: &X,
    ) -> Result<
        Result<
            (
                Option<Outline<T::StorageT, T::LexemeT>>,
                Vec<ParseError<T::LexemeT, T::StorageT>>,
            ),
            T::LexErrorT,
        >,
        ParseRefusal,
    >
        ensures fault { IfOk result (λ r. IfErr r (IsFirstLexError (X.lexed lexer.now))) }
        ensures parsed { IfOk result (λ r. IfOk r (λ p. IsOutlineParse T.StorageT.number T.LexemeT.lex T.LexemeT.faulty_of self.now.checked.now.grammar.grammar self.now.checked.now.graph self.now.checked.now.table (R.answers self.now.recoverer.now) (X.lexed lexer.now) p.0 p.1.items)) }
        ensures refused { IfErr result (IsParseRefusal self.now.checked.now.grammar.grammar T.LexemeT.lex (X.lexed lexer.now)) }
    {
        let items = lexer.iter().as_slice();
        outline_parse::parse_outline(alloc, &self.checked.machine(), items, self.recoverer)
    }

    /// Parses, and makes the value by two functions: `fterm` for each lexeme that is shifted, `fnonterm` for each
    /// reduction, by its rule and the values of its symbols. Returns the value, if there is one, and the errors:
    /// the lexer's first one alone, or those of the parse. Fails as `parse_fold` does.
    pub fn parse_map<N: Drop, X: Lexer<T>, F, H>(
        &self,
        alloc: Global,
        lexer: &X,
        fterm: &F,
        fnonterm: &H,
    ) -> Result<(Option<N>, Vec<LexParseError<T>>), ParseRefusal>
    where
        F: Fn(Global, T::LexemeT) -> Result<N, AllocError>,
        H: Fn(Global, RIdx<T::StorageT>, Vec<N>) -> Result<N, AllocError>,
        requires term { F.IsAlwaysCallable fterm.now }
        requires nonterm { H.IsAlwaysCallable fnonterm.now }
        ensures parsed { IfOk result (λ r. IsHandedOut errors.LexError errors.ParseError T.StorageT.number T.LexemeT.lex T.LexemeT.faulty_of self.now.checked.now.grammar.grammar self.now.checked.now.graph self.now.checked.now.table (HasValue self.now.checked.now.grammar.grammar (mapped_by T.StorageT.number (F.post fterm.now) (H.post fnonterm.now)) (span_by T.LexemeT.lex)) (R.answers self.now.recoverer.now) (X.lexed lexer.now) r.0 r.1.items) }
        ensures refused { IfErr result (IsParseRefusal self.now.checked.now.grammar.grammar T.LexemeT.lex (X.lexed lexer.now)) }
    {
        let items = lexer.iter().as_slice();
        let outcome = parse_mapped(
            alloc,
            &self.checked.machine(),
            items,
            self.recoverer,
            fterm,
            fnonterm,
        )?;
        match hand_out::<T, N>(alloc, outcome) {
            Ok(told) => Ok(told),
            Err(e) => Err(ParseRefusal::Memory(e)),
        }
    }

    /// Parses, and makes a tree by rules. Returns the tree, if there is one, and the errors: the lexer's first
    /// one alone, or those of the parse. Fails as `parse_fold` does.
    pub fn parse_generictree<X: Lexer<T>>(
        &self,
        alloc: Global,
        lexer: &X,
    ) -> Result<(Option<Node<T::LexemeT, T::StorageT>>, Vec<LexParseError<T>>), ParseRefusal>
        ensures parsed { IfOk result (λ r. IsHandedOut errors.LexError errors.ParseError T.StorageT.number T.LexemeT.lex T.LexemeT.faulty_of self.now.checked.now.grammar.grammar self.now.checked.now.graph self.now.checked.now.table (HasNode T.StorageT.number self.now.checked.now.grammar.grammar) (R.answers self.now.recoverer.now) (X.lexed lexer.now) r.0 r.1.items) }
        ensures refused { IfErr result (IsParseRefusal self.now.checked.now.grammar.grammar T.LexemeT.lex (X.lexed lexer.now)) }
    {
        let items = lexer.iter().as_slice();
        let outcome = parse_nodes(alloc, &self.checked.machine(), items, self.recoverer)?;
        match hand_out::<T, Node<T::LexemeT, T::StorageT>>(alloc, outcome) {
            Ok(told) => Ok(told),
            Err(e) => Err(ParseRefusal::Memory(e)),
        }
    }

    /// Parses, and makes the value by actions. Returns what the action at the root returned, if there is a tree,
    /// and the errors: the lexer's first one alone, or those of the parse.
    ///
    /// # Errors
    ///
    /// - `LexemeOutside` or `StartDecreases` where the lexer's list has no error and a lexeme that no run takes:
    ///   the first such one. No action is called before.
    /// - `Memory` where the parse, an action or the recoverer is refused memory.
    pub fn parse_actions<X: Lexer<T>, A: Actions<T, X>>(
        &self,
        alloc: Global,
        lexer: &X,
        actions: &A,
    ) -> Result<(Option<A::ActionT>, Vec<LexParseError<T>>), ParseRefusal>
        ensures parsed { IfOk result (λ r. IsHandedOut errors.LexError errors.ParseError T.StorageT.number T.LexemeT.lex T.LexemeT.faulty_of self.now.checked.now.grammar.grammar self.now.checked.now.graph self.now.checked.now.table (HasAction self.now.checked.now.grammar.grammar (A.answers actions.now lexer.now) (span_by T.LexemeT.lex)) (R.answers self.now.recoverer.now) (X.lexed lexer.now) r.0 r.1.items) }
        ensures refused { IfErr result (IsParseRefusal self.now.checked.now.grammar.grammar T.LexemeT.lex (X.lexed lexer.now)) }
    {
        let items = lexer.iter().as_slice();
        let outcome = parse_acted::<T, X, A, R>(
            alloc,
            &self.checked.machine(),
            items,
            self.recoverer,
            lexer,
            actions,
        )?;
        match hand_out::<T, A::ActionT>(alloc, outcome) {
            Ok(told) => Ok(told),
            Err(e) => Err(ParseRefusal::Memory(e)),
        }
    }

    /// Parses without making a value. Returns the errors: the lexer's first one alone, or those of the parse.
    /// Fails as `parse_fold` does.
    pub fn parse_noaction<X: Lexer<T>>(
        &self,
        alloc: Global,
        lexer: &X,
    ) -> Result<Vec<LexParseError<T>>, ParseRefusal>
        ensures parsed { IfOk result (λ r. (value : Option (Unit {0})) × IsHandedOut errors.LexError errors.ParseError T.StorageT.number T.LexemeT.lex T.LexemeT.faulty_of self.now.checked.now.grammar.grammar self.now.checked.now.graph self.now.checked.now.table (λ value tree. Unit {0}) (R.answers self.now.recoverer.now) (X.lexed lexer.now) value r.items) }
        ensures refused { IfErr result (IsParseRefusal self.now.checked.now.grammar.grammar T.LexemeT.lex (X.lexed lexer.now)) }
    {
        let items = lexer.iter().as_slice();
        let outcome = parse_unvalued(alloc, &self.checked.machine(), items, self.recoverer)?;
        match hand_out::<T, ()>(alloc, outcome) {
            Ok(told) => {
                let (_, errors) = told;
                Ok(errors)
            }
            Err(e) => Err(ParseRefusal::Memory(e)),
        }
    }
}
