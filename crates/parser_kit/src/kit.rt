//! Kits of texts.

ghost use Rattle.std.specs.Prelude.{◌≡◌, ◌↔◌, [], IfOk, IfErr, IfSome, IsNone, IsSome, IsTrue, option_map};
ghost use Rattle.cfg_theory.specs.Derivation.{AllProductive};
ghost use Rattle.lr_theory.specs.Automaton.{Complete};
ghost use Rattle.cfg_read.specs.declared.yacc.YaccKind.{YaccKind};
ghost use Rattle.lrpar.specs.FlatParses.{HasFlat};
ghost use Rattle.lrpar.specs.OutlineParses.{HasOutline};
ghost use Rattle.parse_trees.specs.Lexemes.{IsFirstLexError};
ghost use Rattle.lrpar.specs.Parses.{HasValue};
ghost use Rattle.parse_trees.specs.Refusals.{IsParseRefusal};
ghost use Rattle.parse_trees.specs.Lex.{span_by};
ghost use Rattle.parse_trees.specs.Stacks.{mapped_by, values_by};
ghost use Rattle.lrpar.specs.declared.parse_error.LexParseError.TheVariants as errors;
ghost use Rattle.state_table.specs.CellViews.{precedences_of};
ghost use Rattle.state_table.specs.Tables.{AreContested, automaton_of};
ghost use Rattle.table_theory.specs.CellLaws.{SomeContested};
ghost use Rattle.table_theory.specs.Cells.{NoPrecedences};
ghost use Rattle.parser_kit.specs.Kit.{IsKit, IsKitOf};
ghost use Rattle.parser_kit.specs.Tabled.{NeverAcceptsAndReduces};
ghost use Rattle.parser_kit.specs.KitErrors.{HasKitCause, IsKitRefusal, IsToldRefusal};
ghost use Rattle.parser_kit.specs.KitParses.{IsHanded, IsKitOutcome, IsKitParse, ItemsFollowSentences, LeavesNoTrace, WhereParsed};
ghost use Rattle.cfg_sets.specs.Productive.{EachProductive};
ghost use Rattle.parser_kit.specs.TextKinds.{IsKindOfText};

use crate::declared_kind::kind_or_default;
use crate::grammar_kit::GrammarKit;
use crate::kit_error::KitError;
use crate::text_making::kit_in;
use cfg_base::index::IndexStorage;
use cfg_base::span::Span;
use cfg_base::symbol::{PIdx, RIdx};
use cfg_numbered::yacc::NumberedGrammar;
use cfg_read::yacc::ast::GrammarAST;
use cfg_read::yacc::{ASTWithValidityInfo, YaccKind, one_answer};
use cfgrammar::yacc::from_ast::trees_without_precedences_make_grammars_without;
use lrpar::{
    FlatTree, FoldedOutcome, LexParseError, Lexer, LexerTypes, Outline, ParseError, ParseRefusal,
    ParserData, Recoverer,
};
use lrtable::laws::precedences_are_kept;
use lrtable::{Conflicts, StateGraph, StateTable};
use std::alloc::{AllocError, Global};
use std::marker::Model;

/// A parser of the grammar of a text. Contracts see the text's tree and the checked data.
#[derive(Drop)]
pub struct ParserKit<S: IndexStorage> {
    kept: ASTWithValidityInfo,
    kit: GrammarKit<S>,
}

impl<S: IndexStorage> Model for ParserKit<S> {
    ghost use Rattle.parser_kit.specs.Kit.{IsKit, KitValue};

    ghost Value = { KitValue };

    ghost view = { λ k. record { kept = k.kept; parser = k.kit } };

    ghost invariant = { λ k. IsKit S.MAX (record { kept = k.kept; parser = k.kit }) };
}

impl<S: IndexStorage> ParserKit<S> {
    /// Builds the kit of a text of a kind, in which at most `cap` reductions follow each other on one token. A
    /// section is read, and its `yacckind` ignored.
    ///
    /// # Errors
    ///
    /// - `Grammar` with all that is wrong with the text.
    /// - Else `TooMany` where a count of the grammar is past the index type's greatest number.
    /// - Else as `GrammarKit::new`: `TooManyStates`, `AcceptReduce`, `TooLarge` or `TooManyReductions`.
    /// - `Memory` where memory is refused, at any time.
    pub fn new(
        alloc: Global,
        text: &str,
        kind: YaccKind,
        cap: u16,
    ) -> Result<ParserKit<S>, KitError<S>>
        ensures kit { IfOk result (IsKitOf S.MAX kind text.now cap) }
        ensures refused { IfErr result (IsKitRefusal S.number S.MAX kind text.now cap) }
        ensures crowded { IfErr result (HasKitCause S.number S.MAX kind text.now) }
        ensures accepts { IfOk result (λ k. NeverAcceptsAndReduces k.parser.grammar.grammar) }
    {
        one_answer();
        let kept = ASTWithValidityInfo::new(alloc, kind, text)?;
        match kit_in(alloc, &kept, cap) {
            Ok(kit) => Ok(ParserKit { kept, kit }),
            Err(e) => {
                drop(kept);
                Err(e)
            }
        }
    }

    /// Builds the kit of a text whose kind is its section's `yacckind`, or, where this key is missing,
    /// `Original(GenericParseTree)`. At most `cap` reductions follow each other on one token. Fails as `new`
    /// does; `Grammar` also has the errors of the section, or of a `yacckind` that names no kind.
    pub fn of_text(alloc: Global, text: &str, cap: u16) -> Result<ParserKit<S>, KitError<S>>
        ensures kit { IfOk result (λ k. (kind : YaccKind) × IsKindOfText text.now kind × IsKitOf S.MAX kind text.now cap k) }
        ensures refused { IfErr result (IsToldRefusal text.now (λ kind. IsKitRefusal S.number S.MAX kind text.now cap)) }
        ensures crowded { IfErr result (IsToldRefusal text.now (λ kind. HasKitCause S.number S.MAX kind text.now)) }
        ensures accepts { IfOk result (λ k. NeverAcceptsAndReduces k.parser.grammar.grammar) }
    {
        match kind_or_default(alloc, text) {
            Ok(kind) => ParserKit::new(alloc, text, kind, cap),
            Err(e) => Err(e),
        }
    }

    /// Returns the syntax tree of the text.
    pub fn ast(&self) -> &GrammarAST
        ensures { result.now ≡ self.now.kept.ast }
    {
        self.kept.ast()
    }

    /// Drops the syntax tree, and returns the kit of the grammar.
    pub fn into_kit(self) -> GrammarKit<S>
        ensures { result ≡ self.parser }
    {
        let ParserKit { kept, kit } = self;
        drop(kept);
        kit
    }

    /// Lends the kit of the grammar, whose contracts see the checked data, and which parses.
    pub fn kit(&self) -> &GrammarKit<S>
        ensures { result.now ≡ self.now.parser }
    {
        &self.kit
    }

    /// Lends the checked data.
    pub fn parser_data(&self) -> &ParserData<S>
        ensures { result.now ≡ self.now.parser }
    {
        self.kit.parser_data()
    }

    /// Lends the grammar.
    pub fn grm(&self) -> &NumberedGrammar<S>
        ensures { result.now ≡ self.now.parser.grammar }
    {
        self.kit.grm()
    }

    /// Lends the graph.
    pub fn sgraph(&self) -> &StateGraph<S>
        ensures { result.now ≡ self.now.parser.graph }
    {
        self.kit.sgraph()
    }

    /// Lends the table.
    pub fn stable(&self) -> &StateTable<S>
        ensures { result.now ≡ self.now.parser.table }
    {
        self.kit.stable()
    }

    /// Returns the conflicts that no precedence settles, `None` where there are none. If the text declares no
    /// precedence, some are listed if and only if some string leaves a token two canonical LR(1) actions; with any,
    /// each listed one is contested.
    pub fn conflicts(&self) -> Option<&Conflicts<S>>
        ensures value { option_map (λ c. c.now) result ≡ self.now.parser.table.conflicts }
        ensures exact { self.now.kept.ast.precedences ≡ [] → IsSome self.now.parser.table.conflicts ↔ SomeContested self.now.parser.grammar.grammar }
        ensures contested { IfSome self.now.parser.table.conflicts (AreContested self.now.parser.grammar.grammar) }
    {
        self.stays_without_precedences();
        self.kit().conflicts()
    }

    /// Returns whether each item's action is in its cell, so that each sentence is parsed without errors.
    pub fn complete(&self) -> bool
        ensures value { IsTrue result ↔ Complete self.now.parser.grammar.grammar (automaton_of self.now.parser.graph self.now.parser.table) }
        ensures unlisted { self.now.kept.ast.precedences ≡ [] → IsTrue result ↔ IsNone self.now.parser.table.conflicts }
    {
        self.stays_without_precedences();
        self.kit().complete()
    }

    /// Returns whether each rule of the grammar derives some text.
    pub fn all_productive(&self) -> bool
        ensures value { IsTrue result ↔ EachProductive self.now.parser.grammar.grammar }
        ensures named { IsTrue result → AllProductive self.now.parser.grammar.grammar }
    {
        self.kit.all_productive()
    }

    /// Parses, and makes the value by two functions: `fterm` for each lexeme that is shifted, `fnonterm` for each
    /// reduction, by its production, rule, span and the values of its symbols. At each error the recoverer
    /// returns sequences of repairs, and the first that can be applied is. Returns the lexer's first error; or
    /// the value, if there is one, and the parse errors.
    ///
    /// If the text declares no precedence and no conflict is listed, lexemes parse without errors if and only if they are
    /// a sentence, and then with the value of their only tree. If each rule derives some text too, repairs leave no trace:
    /// the value is that of the lexemes as repaired, and each error is at a token that continues no sentence
    /// there.
    ///
    /// # Errors
    ///
    /// - `LexemeOutside` or `StartDecreases` where the lexer's list has no error and a lexeme that no run takes:
    ///   the first such one. No function is called before.
    /// - `Memory` where the parse, a function or the recoverer is refused memory.
    pub fn parse_fold<
        T: LexerTypes<StorageT = S>,
        V: Drop,
        X: Lexer<T>,
        R: Recoverer<S, T::LexemeT>,
        F,
        H,
    >(
        &self,
        alloc: Global,
        lexer: &X,
        recoverer: &R,
        fterm: &F,
        fnonterm: &H,
    ) -> Result<FoldedOutcome<S, T::LexemeT, T::LexErrorT, V>, ParseRefusal>
    where
        F: Fn(Global, T::LexemeT) -> Result<V, AllocError>,
        H: Fn(Global, PIdx<S>, RIdx<S>, Span, Vec<V>) -> Result<V, AllocError>,
        requires term { F.IsAlwaysCallable fterm.now }
        requires nonterm { H.IsAlwaysCallable fnonterm.now }
        ensures parsed { IfOk result (IsKitOutcome S.number T.LexemeT.lex T.LexemeT.faulty_of self.now.parser (values_by S.number (F.post fterm.now) (H.post fnonterm.now)) (R.answers recoverer.now) (X.lexed lexer.now)) }
        ensures refused { IfErr result (IsParseRefusal self.now.parser.grammar.grammar T.LexemeT.lex (X.lexed lexer.now)) }
        ensures sentences { self.now.kept.ast.precedences ≡ [] → IsNone self.now.parser.table.conflicts → IfOk result (WhereParsed (λ value errors. ItemsFollowSentences T.LexemeT.lex self.now.parser.grammar.grammar (X.lexed lexer.now) (HasValue self.now.parser.grammar.grammar (values_by S.number (F.post fterm.now) (H.post fnonterm.now)) (span_by T.LexemeT.lex) value) errors)) }
        ensures traceless { self.now.kept.ast.precedences ≡ [] → IsNone self.now.parser.table.conflicts → AllProductive self.now.parser.grammar.grammar → IfOk result (WhereParsed (λ value errors. LeavesNoTrace S.number T.LexemeT.lex T.LexemeT.faulty_of self.now.parser (R.answers recoverer.now) (X.lexed lexer.now) (HasValue self.now.parser.grammar.grammar (values_by S.number (F.post fterm.now) (H.post fnonterm.now)) (span_by T.LexemeT.lex) value) errors)) }
    {
        self.stays_without_precedences();
        self.kit()
            .parse_fold::<T, V, X, R, F, H>(alloc, lexer, recoverer, fterm, fnonterm)
    }

    /// Parses, and makes the tree as one list of nodes. Returns the lexer's first error; or the tree, if there is
    /// one, and the parse errors. Fails as `parse_fold` does.
    pub fn parse_flat<T: LexerTypes<StorageT = S>, X: Lexer<T>, R: Recoverer<S, T::LexemeT>>(
        &self,
        alloc: Global,
        lexer: &X,
        recoverer: &R,
    ) -> Result<
        Result<
            (
                Option<FlatTree<S, T::LexemeT>>,
                Vec<ParseError<T::LexemeT, S>>,
            ),
            T::LexErrorT,
        >,
        ParseRefusal,
    >
        ensures fault { IfOk result (λ r. IfErr r (IsFirstLexError (X.lexed lexer.now))) }
        ensures parsed { IfOk result (λ r. IfOk r (λ p. IsKitParse S.number T.LexemeT.lex T.LexemeT.faulty_of self.now.parser (R.answers recoverer.now) (X.lexed lexer.now) (HasFlat (span_by T.LexemeT.lex) p.0) p.1.items)) }
        ensures refused { IfErr result (IsParseRefusal self.now.parser.grammar.grammar T.LexemeT.lex (X.lexed lexer.now)) }
        ensures sentences { self.now.kept.ast.precedences ≡ [] → IsNone self.now.parser.table.conflicts → IfOk result (λ r. IfOk r (λ p. ItemsFollowSentences T.LexemeT.lex self.now.parser.grammar.grammar (X.lexed lexer.now) (HasFlat (span_by T.LexemeT.lex) p.0) p.1.items)) }
        ensures traceless { self.now.kept.ast.precedences ≡ [] → IsNone self.now.parser.table.conflicts → AllProductive self.now.parser.grammar.grammar → IfOk result (λ r. IfOk r (λ p. LeavesNoTrace S.number T.LexemeT.lex T.LexemeT.faulty_of self.now.parser (R.answers recoverer.now) (X.lexed lexer.now) (HasFlat (span_by T.LexemeT.lex) p.0) p.1.items)) }
    {
        self.stays_without_precedences();
        self.kit().parse_flat::<T, X, R>(alloc, lexer, recoverer)
    }

    /// Parses, and makes an outline of the tree, which has no lexemes. Returns the lexer's first error; or the outline, if there is a
    /// tree and no node has too many below it, and the parse errors. Fails as `parse_fold` does.
    pub fn parse_outline<T: LexerTypes<StorageT = S>, X: Lexer<T>, R: Recoverer<S, T::LexemeT>>(
        &self,
        alloc: Global,
        lexer: &X,
        recoverer: &R,
    ) -> Result<
        Result<
            (
                Option<Outline<S, T::LexemeT>>,
                Vec<ParseError<T::LexemeT, S>>,
            ),
            T::LexErrorT,
        >,
        ParseRefusal,
    >
        ensures fault { IfOk result (λ r. IfErr r (IsFirstLexError (X.lexed lexer.now))) }
        ensures parsed { IfOk result (λ r. IfOk r (λ p. IsKitParse S.number T.LexemeT.lex T.LexemeT.faulty_of self.now.parser (R.answers recoverer.now) (X.lexed lexer.now) (HasOutline p.0) p.1.items)) }
        ensures refused { IfErr result (IsParseRefusal self.now.parser.grammar.grammar T.LexemeT.lex (X.lexed lexer.now)) }
    {
        self.kit().parse_outline::<T, X, R>(alloc, lexer, recoverer)
    }

    /// Parses, and makes the value by two functions: `fterm` for each lexeme that is shifted, `fnonterm` for each
    /// reduction, by its rule and the values of its symbols. Returns the value, if there is one, and the errors:
    /// the lexer's first one alone, or those of the parse. Fails as `parse_fold` does.
    pub fn parse<
        T: LexerTypes<StorageT = S>,
        N: Drop,
        X: Lexer<T>,
        R: Recoverer<S, T::LexemeT>,
        F,
        H,
    >(
        &self,
        alloc: Global,
        lexer: &X,
        recoverer: &R,
        fterm: &F,
        fnonterm: &H,
    ) -> Result<(Option<N>, Vec<LexParseError<T>>), ParseRefusal>
    where
        F: Fn(Global, T::LexemeT) -> Result<N, AllocError>,
        H: Fn(Global, RIdx<S>, Vec<N>) -> Result<N, AllocError>,
        requires term { F.IsAlwaysCallable fterm.now }
        requires nonterm { H.IsAlwaysCallable fnonterm.now }
        ensures parsed { IfOk result (λ r. IsHanded errors.LexError errors.ParseError (X.lexed lexer.now) (λ value es. IsKitParse S.number T.LexemeT.lex T.LexemeT.faulty_of self.now.parser (R.answers recoverer.now) (X.lexed lexer.now) (HasValue self.now.parser.grammar.grammar (mapped_by S.number (F.post fterm.now) (H.post fnonterm.now)) (span_by T.LexemeT.lex) value) es) r.0 r.1.items) }
        ensures refused { IfErr result (IsParseRefusal self.now.parser.grammar.grammar T.LexemeT.lex (X.lexed lexer.now)) }
        ensures sentences { self.now.kept.ast.precedences ≡ [] → IsNone self.now.parser.table.conflicts → IfOk result (λ r. ItemsFollowSentences T.LexemeT.lex self.now.parser.grammar.grammar (X.lexed lexer.now) (HasValue self.now.parser.grammar.grammar (mapped_by S.number (F.post fterm.now) (H.post fnonterm.now)) (span_by T.LexemeT.lex) r.0) r.1.items) }
        ensures traceless { self.now.kept.ast.precedences ≡ [] → IsNone self.now.parser.table.conflicts → AllProductive self.now.parser.grammar.grammar → IfOk result (λ r. IsHanded errors.LexError errors.ParseError (X.lexed lexer.now) (λ value es. LeavesNoTrace S.number T.LexemeT.lex T.LexemeT.faulty_of self.now.parser (R.answers recoverer.now) (X.lexed lexer.now) (HasValue self.now.parser.grammar.grammar (mapped_by S.number (F.post fterm.now) (H.post fnonterm.now)) (span_by T.LexemeT.lex) value) es) r.0 r.1.items) }
    {
        self.stays_without_precedences();
        self.kit()
            .parse_map::<T, N, X, R, F, H>(alloc, lexer, recoverer, fterm, fnonterm)
    }

    /// Proves that the table of a text that declares no precedence knows none.
    pub fn stays_without_precedences(&self)
        ensures { self.now.kept.ast.precedences ≡ [] → NoPrecedences (precedences_of self.now.parser.grammar) }
    {
        trees_without_precedences_make_grammars_without();
        precedences_are_kept();
        self.stays_kit();
    }

    /// Proves that each kit is that of some text, kind and cap.
    pub fn stays_kit(&self)
        ensures { IsKit S.MAX self.now }
    {
        // Read, so that the proof may use what is so of each kit.
        let _grm = self.kit.grm();
    }
}
