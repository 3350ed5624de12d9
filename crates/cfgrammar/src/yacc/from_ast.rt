//! Makes grammars of syntax trees.

ghost use Rattle.std.specs.Prelude.{◌≡◌, ℕ, ◌≤◌, Bool, None, [], length, IfOk};
ghost use Rattle.cfg_read.specs.declared.yacc.YaccKind.{YaccKind};
ghost use Rattle.cfg_read.specs.ErrorModels.{failures_in};
ghost use Rattle.cfg_read.specs.Asts.{Ast};
ghost use Rattle.cfg_read.specs.WellFormedAst.{IsWellFormedAst, NamesAreWords};
ghost use Rattle.cfg_numbered.specs.Value.{IsGrammar, HasNoPrecedences};
ghost use Rattle.cfgrammar.specs.FromAst.{has_implicit, grammar_of, value_by, made, too_many, NamesNoAdded, MakesTree, Refuses};

mod by_name;
mod counts;
mod heads;
mod info;
mod numbers;
mod productions;

use crate::yacc::grammar::YaccGrammar;
use cfg_base::index::IndexStorage;
use cfg_base::symbol::PIdx;
use cfg_numbered::yacc::NumberedGrammar;
use cfg_numbered::yacc::grammar::index_of;
use cfg_read::yacc::YaccKind;
use cfg_read::yacc::ast::GrammarAST;
use cfg_read::yacc::validity::{YaccGrammarError, copy_errors};
use std::alloc::{AllocError, Global};
use thiserror::Error;

/// A count that the index type of a grammar has no number for: it is past the greatest one.
#[derive(Clone, Copy, Debug, PartialEq, Eq, Error)]
pub enum TooMany {
    /// Rules, the added ones among them.
    #[error("TooManyRules")]
    TooManyRules(usize),
    /// Productions, the added ones among them.
    #[error("TooManyProds")]
    TooManyProds(usize),
    /// Tokens, the end token among them.
    #[error("TooManyTokens")]
    TooManyTokens(usize),
    /// Symbols of the longest production.
    #[error("TooManySymbols")]
    TooManySymbols(usize),
}

/// Why no grammar is made of a text.
#[derive(Debug, Drop, Error)]
pub enum YaccGrammarMakeError {
    /// The grammar doesn't fit into memory.
    #[error("Memory")]
    Memory(AllocError),
    /// All that is wrong with the text.
    #[error("Invalid")]
    Invalid(Vec<YaccGrammarError>),
    /// Nothing is wrong with the text, but the index type has too few numbers.
    #[error(transparent)]
    TooMany(TooMany),
}

/// Proves that what is made of a sound tree is a grammar, where its counts fit.
#[tactic(auto, using(crate::proofs::FromAstWell::made_well))]
pub fn sound_trees_make_grammars()
    ensures { (top : ℕ) (implicit : Bool) (ast : Ast) → IsWellFormedAst ast → NamesNoAdded ast → too_many top (grammar_of implicit ast) ≡ None → IsGrammar top (value_by implicit ast) }
{}

/// Proves that no rule of a text has the name of a rule that is added: names of the file grammar hold none of the signs of these,
/// and names of fresh rules end in `?`.
#[tactic(auto, using(crate::proofs::AddedNames::names_not_added))]
pub fn names_of_texts_are_not_added()
    ensures { (ast : Ast) → NamesAreWords ast → NamesNoAdded ast }
{}

/// Proves that a tree without precedence lines has a grammar without precedences.
#[tactic(auto, using(crate::proofs::FromAstLevels::made_without_precedences))]
pub fn trees_without_precedences_make_grammars_without()
    ensures { (kind : YaccKind) (ast : Ast) → ast.precedences ≡ [] → HasNoPrecedences (made kind ast) }
{}

/// Whether a grammar of this kind has rules for implicit tokens.
fn adds_implicit(kind: YaccKind, ast: &GrammarAST) -> bool
    ensures { result ≡ has_implicit kind ast.now }
{
    match kind {
        YaccKind::Eco => !ast.implicit_tokens().is_empty(),
        _ => false,
    }
}

/// The production of `^`, which stands behind those of the file.
fn start_prod<S: IndexStorage>(ast: &GrammarAST) -> PIdx<S>
    requires { length ast.now.productions ≤ S.MAX }
    ensures { S.number result.0 ≡ length ast.now.productions }
{
    PIdx(index_of(ast.prods().len()))
}

/// Builds the grammar of a tree whose counts fit. Its names and texts are taken over.
fn of_tree<S: IndexStorage>(
    alloc: Global,
    ast: &mut GrammarAST,
    implicit: bool,
) -> Result<NumberedGrammar<S>, AllocError>
    requires sound { IsWellFormedAst ast.old }
    requires free { NamesNoAdded ast.old }
    requires fits { too_many S.MAX (grammar_of implicit ast.old) ≡ None }
    ensures { IfOk result (λ g. g ≡ value_by implicit ast.old) }
{
    let kept = info::info_of_text(ast, implicit)?;
    let start = start_prod(ast);
    let levels = info::levels(alloc, ast)?;
    let prods = productions::all(alloc, ast, &levels, implicit)?;
    let rules = info::rules(alloc, ast, implicit)?;
    let tokens = info::tokens(alloc, ast, &levels)?;
    NumberedGrammar::of_parts(alloc, rules, tokens, prods, start, kept)
}

/// Builds the grammar of the tree of a valid text, whose names and texts are taken over.
fn of_valid<S: IndexStorage>(
    alloc: Global,
    kind: YaccKind,
    ast: &mut GrammarAST,
) -> Result<YaccGrammar<S>, YaccGrammarMakeError>
    requires sound { IsWellFormedAst ast.old }
    requires names { NamesAreWords ast.old }
    ensures { MakesTree S.MAX kind ast.old result }
{
    let implicit = adds_implicit(kind, ast);
    match counts::too_many::<S>(ast, implicit) {
        Some(count) => Err(YaccGrammarMakeError::TooMany(count)),
        None => match of_tree(alloc, ast, implicit) {
            Ok(grm) => Ok(YaccGrammar::of_numbered(grm)),
            Err(e) => Err(YaccGrammarMakeError::Memory(e)),
        },
    }
}

/// Builds the grammar of the tree of a valid text, and lets the tree go.
pub(crate) fn of_own_tree<S: IndexStorage>(
    alloc: Global,
    kind: YaccKind,
    ast: GrammarAST,
) -> Result<YaccGrammar<S>, YaccGrammarMakeError>
    requires sound { IsWellFormedAst ast }
    requires names { NamesAreWords ast }
    ensures { MakesTree S.MAX kind ast result }
{
    let mut own = ast;
    let made = of_valid(alloc, kind, &mut own);
    drop(own);
    made
}

/// Builds the grammar of a copy of the tree of a valid text.
pub(crate) fn of_lent_tree<S: IndexStorage>(
    alloc: Global,
    kind: YaccKind,
    ast: &GrammarAST,
) -> Result<YaccGrammar<S>, YaccGrammarMakeError>
    requires sound { IsWellFormedAst ast.now }
    requires names { NamesAreWords ast.now }
    ensures { MakesTree S.MAX kind ast.now result }
{
    match ast.clone() {
        Ok(copy) => of_own_tree(alloc, kind, copy),
        Err(e) => Err(YaccGrammarMakeError::Memory(e)),
    }
}

/// The answer for an invalid text.
pub(crate) fn refusal_of<S: IndexStorage>(
    alloc: Global,
    errors: &[YaccGrammarError],
) -> Result<YaccGrammar<S>, YaccGrammarMakeError>
    ensures { Refuses (failures_in errors.now) result }
{
    match copy_errors(alloc, errors) {
        Ok(errors) => Err(YaccGrammarMakeError::Invalid(errors)),
        Err(e) => Err(YaccGrammarMakeError::Memory(e)),
    }
}
