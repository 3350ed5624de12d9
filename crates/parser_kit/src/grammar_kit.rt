//! Kits of grammars.

ghost use Rattle.std.specs.Prelude.{◌≡◌, ◌↔◌, IfOk, IfErr, IfSome, IsNone, IsSome, IsTrue, OnOk, option_map};
ghost use Rattle.cfg_theory.specs.Derivation.{AllProductive};
ghost use Rattle.lr_theory.specs.Automaton.{Complete};
ghost use Rattle.lrpar.specs.FlatParses.{HasFlat};
ghost use Rattle.lrpar.specs.OutlineParses.{HasOutline};
ghost use Rattle.parse_trees.specs.Lexemes.{IsFirstLexError};
ghost use Rattle.lrpar.specs.Parses.{HasValue};
ghost use Rattle.parse_trees.specs.Refusals.{IsParseRefusal};
ghost use Rattle.parse_trees.specs.Lex.{span_by};
ghost use Rattle.parse_trees.specs.Stacks.{mapped_by, values_by};
ghost use Rattle.lrpar.specs.declared.parse_error.LexParseError.TheVariants as errors;
ghost use Rattle.state_table.specs.CellViews.{precedences_of};
ghost use Rattle.state_table.specs.Tables.{AreContested, automaton_of};
ghost use Rattle.table_theory.specs.CellLaws.{SomeContested};
ghost use Rattle.table_theory.specs.Cells.{NoPrecedences};
ghost use Rattle.parser_kit.specs.Tabled.{HasTabledCause, IsTabled, IsTabledRefusal, NeverAcceptsAndReduces};
ghost use Rattle.cfg_sets.specs.Productive.{EachProductive};
ghost use Rattle.cfg_theory.specs.Decides.{Decides};
ghost use Rattle.parser_kit.specs.KitParses.{IsHanded, IsKitOutcome, IsKitParse, ItemsFollowSentences, LeavesNoTrace, WhereParsed};

use crate::grammar_kit_error::GrammarKitError;
use crate::making::{data_of, tables_of};
use cfg_base::index::IndexStorage;
use cfg_base::span::Span;
use cfg_base::symbol::{PIdx, RIdx};
use cfg_numbered::yacc::NumberedGrammar;
use cfg_sets::all_productive;
use lrpar::{
    FlatTree, FoldedOutcome, LexParseError, Lexer, LexerTypes, Outline, ParseError, ParseRefusal,
    ParserData, RTParserBuilder, Recoverer,
};
use lrtable::laws::conflicts_are_canonical;
use lrtable::{Conflicts, StateGraph, StateTable};
use std::alloc::{AllocError, Global};
use std::marker::Model;

/// A parser of a grammar, with the grammar's own graph and table. Contracts see it as its checked data.
#[derive(Drop)]
pub struct GrammarKit<S: IndexStorage> {
    data: ParserData<S>,
    all_productive: bool,
}

impl<S: IndexStorage> Model for GrammarKit<S> {
    ghost use Rattle.lrpar.specs.Checked.{ParserValue};
    ghost use Rattle.cfg_sets.specs.Productive.{EachProductive};
    ghost use Rattle.cfg_theory.specs.Decides.{Decides};
    ghost use Rattle.parser_kit.specs.Tabled.{IsTabled};

    ghost Value = { ParserValue };

    ghost view = { λ k. k.data };

    ghost invariant = { λ k. IsTabled S.MAX k.data × Decides (EachProductive k.data.grammar.grammar) k.all_productive };
}

impl<S: IndexStorage> GrammarKit<S> {
    /// Builds the kit of a grammar, in which at most `cap` reductions follow each other on one token.
    ///
    /// # Errors
    ///
    /// The first of these that holds; `Memory` may come at any time.
    ///
    /// - `TooManyStates` where, while the states are built, there are more of them at once than the index type's
    ///   greatest number.
    /// - `AcceptReduce` where a state both accepts and reduces at the end token: the least production that it
    ///   reduces.
    /// - `TooLarge` where a cell for each state and token, and one for each state and rule, are more than
    ///   `usize::MAX`.
    /// - `TooManyReductions` where more than `cap` reductions follow each other on one token: the least such
    ///   chain.
    /// - `Memory` where memory is refused.
    pub fn new(
        alloc: Global,
        grm: NumberedGrammar<S>,
        cap: u16,
    ) -> Result<GrammarKit<S>, GrammarKitError<S>>
        ensures grammar { IfOk result (λ k. k.grammar ≡ grm) }
        ensures cap { IfOk result (λ k. k.cap ≡ cap) }
        ensures tabled { IfOk result (IsTabled S.MAX) }
        ensures refused { IfErr result (IsTabledRefusal S.number S.MAX grm cap) }
        ensures crowded { IfErr result (HasTabledCause S.number S.MAX grm) }
        ensures accepts { OnOk result (NeverAcceptsAndReduces grm.grammar) }
    {
        grm.start_prod();
        let all_productive = all_productive(alloc, &grm)?;
        let (graph, table) = tables_of(alloc, &grm)?;
        let data = data_of(alloc, grm, graph, table, cap)?;
        Ok(GrammarKit {
            data,
            all_productive,
        })
    }

    /// Lends the checked data.
    pub fn parser_data(&self) -> &ParserData<S>
        ensures { result.now ≡ self.now }
    {
        &self.data
    }

    /// Lends the grammar.
    pub fn grm(&self) -> &NumberedGrammar<S>
        ensures { result.now ≡ self.now.grammar }
    {
        self.data.grm()
    }

    /// Lends the graph.
    pub fn sgraph(&self) -> &StateGraph<S>
        ensures { result.now ≡ self.now.graph }
    {
        self.data.sgraph()
    }

    /// Lends the table.
    pub fn stable(&self) -> &StateTable<S>
        ensures { result.now ≡ self.now.table }
    {
        self.data.stable()
    }

    /// Returns the conflicts that no precedence settles, `None` where there are none. Without precedences some
    /// are listed if and only if some string leaves a token two canonical LR(1) actions; with any, each listed
    /// one is contested.
    pub fn conflicts(&self) -> Option<&Conflicts<S>>
        ensures value { option_map (λ c. c.now) result ≡ self.now.table.conflicts }
        ensures exact { NoPrecedences (precedences_of self.now.grammar) → IsSome self.now.table.conflicts ↔ SomeContested self.now.grammar.grammar }
        ensures contested { IfSome self.now.table.conflicts (AreContested self.now.grammar.grammar) }
    {
        conflicts_are_canonical();
        self.stays_tabled();
        self.stable().conflicts()
    }

    /// Returns whether each item's action is in its cell, so that each sentence is parsed without errors.
    pub fn complete(&self) -> bool
        ensures value { IsTrue result ↔ Complete self.now.grammar.grammar (automaton_of self.now.graph self.now.table) }
        ensures unlisted { NoPrecedences (precedences_of self.now.grammar) → IsTrue result ↔ IsNone self.now.table.conflicts }
    {
        self.stays_tabled();
        self.parser_data().complete()
    }

    /// Returns whether each rule of the grammar derives some text.
    pub fn all_productive(&self) -> bool
        ensures value { IsTrue result ↔ EachProductive self.now.grammar.grammar }
        ensures named { IsTrue result → AllProductive self.now.grammar.grammar }
    {
        self.stays_tabled();
        self.tells_productive()
    }

    /// Parses, and makes the value by two functions: `fterm` for each lexeme that is shifted, `fnonterm` for each
    /// reduction, by its production, rule, span and the values of its symbols. At each error the recoverer
    /// returns sequences of repairs, and the first that can be applied is. Returns the lexer's first error; or
    /// the value, if there is one, and the parse errors.
    ///
    /// Without precedences and listed conflicts lexemes parse without errors if and only if they are a sentence,
    /// and then with the value of their only tree. If each rule derives some text too, repairs leave no trace:
    /// the value is that of the lexemes as repaired, and each error is at a token that continues no sentence
    /// there.
    ///
    /// # Errors
    ///
    /// - `LexemeOutside` or `StartDecreases` where the lexer's list has no error and a lexeme that no run takes:
    ///   the first such one. No function is called before.
    /// - `Memory` where the parse, a function or the recoverer is refused memory.
    pub fn parse_fold<
        T: LexerTypes<StorageT = S>,
        V: Drop,
        X: Lexer<T>,
        R: Recoverer<S, T::LexemeT>,
        F,
        H,
    >(
        &self,
        alloc: Global,
        lexer: &X,
        recoverer: &R,
        fterm: &F,
        fnonterm: &H,
    ) -> Result<FoldedOutcome<S, T::LexemeT, T::LexErrorT, V>, ParseRefusal>
    where
        F: Fn(Global, T::LexemeT) -> Result<V, AllocError>,
        H: Fn(Global, PIdx<S>, RIdx<S>, Span, Vec<V>) -> Result<V, AllocError>,
        requires term { F.IsAlwaysCallable fterm.now }
        requires nonterm { H.IsAlwaysCallable fnonterm.now }
        ensures parsed { IfOk result (IsKitOutcome S.number T.LexemeT.lex T.LexemeT.faulty_of self.now (values_by S.number (F.post fterm.now) (H.post fnonterm.now)) (R.answers recoverer.now) (X.lexed lexer.now)) }
        ensures refused { IfErr result (IsParseRefusal self.now.grammar.grammar T.LexemeT.lex (X.lexed lexer.now)) }
        ensures sentences { NoPrecedences (precedences_of self.now.grammar) → IsNone self.now.table.conflicts → IfOk result (WhereParsed (λ value errors. ItemsFollowSentences T.LexemeT.lex self.now.grammar.grammar (X.lexed lexer.now) (HasValue self.now.grammar.grammar (values_by S.number (F.post fterm.now) (H.post fnonterm.now)) (span_by T.LexemeT.lex) value) errors)) }
        ensures traceless { NoPrecedences (precedences_of self.now.grammar) → IsNone self.now.table.conflicts → AllProductive self.now.grammar.grammar → IfOk result (WhereParsed (λ value errors. LeavesNoTrace S.number T.LexemeT.lex T.LexemeT.faulty_of self.now (R.answers recoverer.now) (X.lexed lexer.now) (HasValue self.now.grammar.grammar (values_by S.number (F.post fterm.now) (H.post fnonterm.now)) (span_by T.LexemeT.lex) value) errors)) }
    {
        self.stays_tabled();
        let parser = RTParserBuilder::<T, _>::new(self.parser_data()).recoverer(recoverer);
        parser.parse_fold(alloc, lexer, fterm, fnonterm)
    }

    /// Parses, and makes the tree as one list of nodes. Returns the lexer's first error; or the tree, if there is
    /// one, and the parse errors. Fails as `parse_fold` does.
    pub fn parse_flat<T: LexerTypes<StorageT = S>, X: Lexer<T>, R: Recoverer<S, T::LexemeT>>(
        &self,
        alloc: Global,
        lexer: &X,
        recoverer: &R,
    ) -> Result<
        Result<
            (
                Option<FlatTree<S, T::LexemeT>>,
                Vec<ParseError<T::LexemeT, S>>,
            ),
            T::LexErrorT,
        >,
        ParseRefusal,
    >
        ensures fault { IfOk result (λ r. IfErr r (IsFirstLexError (X.lexed lexer.now))) }
        ensures parsed { IfOk result (λ r. IfOk r (λ p. IsKitParse S.number T.LexemeT.lex T.LexemeT.faulty_of self.now (R.answers recoverer.now) (X.lexed lexer.now) (HasFlat (span_by T.LexemeT.lex) p.0) p.1.items)) }
        ensures refused { IfErr result (IsParseRefusal self.now.grammar.grammar T.LexemeT.lex (X.lexed lexer.now)) }
        ensures sentences { NoPrecedences (precedences_of self.now.grammar) → IsNone self.now.table.conflicts → IfOk result (λ r. IfOk r (λ p. ItemsFollowSentences T.LexemeT.lex self.now.grammar.grammar (X.lexed lexer.now) (HasFlat (span_by T.LexemeT.lex) p.0) p.1.items)) }
        ensures traceless { NoPrecedences (precedences_of self.now.grammar) → IsNone self.now.table.conflicts → AllProductive self.now.grammar.grammar → IfOk result (λ r. IfOk r (λ p. LeavesNoTrace S.number T.LexemeT.lex T.LexemeT.faulty_of self.now (R.answers recoverer.now) (X.lexed lexer.now) (HasFlat (span_by T.LexemeT.lex) p.0) p.1.items)) }
    {
        self.stays_tabled();
        let parser = RTParserBuilder::<T, _>::new(self.parser_data()).recoverer(recoverer);
        parser.parse_flat(alloc, lexer)
    }

    /// Parses, and makes an outline of the tree, which has no lexemes. Returns the lexer's first error; or the outline, if there is a
    /// tree and no node has too many below it, and the parse errors. Fails as `parse_fold` does.
    pub fn parse_outline<T: LexerTypes<StorageT = S>, X: Lexer<T>, R: Recoverer<S, T::LexemeT>>(
        &self,
        alloc: Global,
        lexer: &X,
        recoverer: &R,
    ) -> Result<
        Result<
            (
                Option<Outline<S, T::LexemeT>>,
                Vec<ParseError<T::LexemeT, S>>,
            ),
            T::LexErrorT,
        >,
        ParseRefusal,
    >
        ensures fault { IfOk result (λ r. IfErr r (IsFirstLexError (X.lexed lexer.now))) }
        ensures parsed { IfOk result (λ r. IfOk r (λ p. IsKitParse S.number T.LexemeT.lex T.LexemeT.faulty_of self.now (R.answers recoverer.now) (X.lexed lexer.now) (HasOutline p.0) p.1.items)) }
        ensures refused { IfErr result (IsParseRefusal self.now.grammar.grammar T.LexemeT.lex (X.lexed lexer.now)) }
    {
        self.stays_tabled();
        let parser = RTParserBuilder::<T, _>::new(self.parser_data()).recoverer(recoverer);
        parser.parse_outline(alloc, lexer)
    }

    /// Parses, and makes the value by two functions: `fterm` for each lexeme that is shifted, `fnonterm` for each
    /// reduction, by its rule and the values of its symbols. Returns the value, if there is one, and the errors:
    /// the lexer's first one alone, or those of the parse. Fails as `parse_fold` does.
    pub fn parse_map<
        T: LexerTypes<StorageT = S>,
        N: Drop,
        X: Lexer<T>,
        R: Recoverer<S, T::LexemeT>,
        F,
        H,
    >(
        &self,
        alloc: Global,
        lexer: &X,
        recoverer: &R,
        fterm: &F,
        fnonterm: &H,
    ) -> Result<(Option<N>, Vec<LexParseError<T>>), ParseRefusal>
    where
        F: Fn(Global, T::LexemeT) -> Result<N, AllocError>,
        H: Fn(Global, RIdx<S>, Vec<N>) -> Result<N, AllocError>,
        requires term { F.IsAlwaysCallable fterm.now }
        requires nonterm { H.IsAlwaysCallable fnonterm.now }
        ensures parsed { IfOk result (λ r. IsHanded errors.LexError errors.ParseError (X.lexed lexer.now) (λ value es. IsKitParse S.number T.LexemeT.lex T.LexemeT.faulty_of self.now (R.answers recoverer.now) (X.lexed lexer.now) (HasValue self.now.grammar.grammar (mapped_by S.number (F.post fterm.now) (H.post fnonterm.now)) (span_by T.LexemeT.lex) value) es) r.0 r.1.items) }
        ensures refused { IfErr result (IsParseRefusal self.now.grammar.grammar T.LexemeT.lex (X.lexed lexer.now)) }
        ensures sentences { NoPrecedences (precedences_of self.now.grammar) → IsNone self.now.table.conflicts → IfOk result (λ r. ItemsFollowSentences T.LexemeT.lex self.now.grammar.grammar (X.lexed lexer.now) (HasValue self.now.grammar.grammar (mapped_by S.number (F.post fterm.now) (H.post fnonterm.now)) (span_by T.LexemeT.lex) r.0) r.1.items) }
        ensures traceless { NoPrecedences (precedences_of self.now.grammar) → IsNone self.now.table.conflicts → AllProductive self.now.grammar.grammar → IfOk result (λ r. IsHanded errors.LexError errors.ParseError (X.lexed lexer.now) (λ value es. LeavesNoTrace S.number T.LexemeT.lex T.LexemeT.faulty_of self.now (R.answers recoverer.now) (X.lexed lexer.now) (HasValue self.now.grammar.grammar (mapped_by S.number (F.post fterm.now) (H.post fnonterm.now)) (span_by T.LexemeT.lex) value) es) r.0 r.1.items) }
    {
        self.stays_tabled();
        let parser = RTParserBuilder::<T, _>::new(self.parser_data()).recoverer(recoverer);
        parser.parse_map(alloc, lexer, fterm, fnonterm)
    }

    /// Whether each rule derives some text, as it was found.
    fn tells_productive(&self) -> bool
        ensures { Decides (EachProductive self.now.grammar.grammar) result }
    {
        self.all_productive
    }

    /// Proves that graph and table of a kit are its grammar's own.
    pub fn stays_tabled(&self)
        ensures { IsTabled S.MAX self.now }
    {
        // Read, so that the proof may use what is so of each kit.
        let _all = self.all_productive;
    }
}
