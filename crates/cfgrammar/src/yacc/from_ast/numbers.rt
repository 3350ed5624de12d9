//! Names and symbols by their numbers.

ghost use Rattle.std.specs.Prelude.{◌≡◌, ℕ, suc, ◌≤◌, ◌++◌, Bool, true, length, map, Contains, All, IfOk, OnOk};
ghost use Rattle.std.specs.List.{flat_map};
ghost use Rattle.cfg_read.specs.AstModels.{ast_symbol_of};
ghost use Rattle.cfg_read.specs.NameTexts.{name_text};
ghost use Rattle.cfg_read.specs.WellFormedAst.{names_of_rules, names_of_tokens, NamesOne};
ghost use Rattle.cfg_numbered.specs.Symbols.{sym_of, syms_of};
ghost use Rattle.cfgrammar.specs.FromAst as tree;

use cfg_base::index::IndexStorage;
use cfg_base::symbol::{RIdx, Symbol, TIdx};
use cfg_numbered::yacc::grammar::index_of;
use cfg_read::yacc::Name;
use cfg_read::yacc::ast::{self, GrammarAST};
use std::alloc::{AllocError, Global};

/// The rule of a name.
pub(crate) fn rule_named<S: IndexStorage>(ast: &GrammarAST, name: &str) -> RIdx<S>
    requires known { Contains (names_of_rules ast.now) name.now }
    requires fits { suc (length ast.now.rules) ≤ S.MAX }
    ensures { S.number result.0 ≡ tree.rule_number ast.now name.now }
{
    let index = ast.rules().get_index_of(name).unwrap();
    RIdx(index_of(index + 1))
}

/// The token of a name.
pub(crate) fn token_named<S: IndexStorage>(ast: &GrammarAST, name: &str) -> TIdx<S>
    requires known { Contains (names_of_tokens ast.now) name.now }
    requires fits { length ast.now.tokens ≤ S.MAX }
    ensures { S.number result.0 ≡ tree.token_number ast.now name.now }
{
    let index = ast.tokens().get_index_of(name).unwrap();
    TIdx(index_of(index))
}

/// The rule of a name in a production.
fn rule_of<S: IndexStorage>(ast: &GrammarAST, name: &Name) -> RIdx<S>
    requires known { Contains (names_of_rules ast.now) (name_text name.now) }
    requires fits { suc (length ast.now.rules) ≤ S.MAX }
    ensures { S.number result.0 ≡ tree.rule_number ast.now (name_text name.now) }
{
    let index = ast.rule_number(name).unwrap();
    RIdx(index_of(index + 1))
}

/// The rule `~`.
pub(crate) fn tilde<S: IndexStorage>(ast: &GrammarAST) -> RIdx<S>
    requires { length (tree.rules_of true ast.now) ≤ S.MAX }
    ensures { S.number result.0 ≡ tree.implicit_rule ast.now }
{
    RIdx(index_of(ast.rules().len() + 2))
}

/// The rule `^~`.
pub(crate) fn tilde_start<S: IndexStorage>(ast: &GrammarAST) -> RIdx<S>
    requires { length (tree.rules_of true ast.now) ≤ S.MAX }
    ensures { S.number result.0 ≡ tree.implicit_start ast.now }
{
    RIdx(index_of(ast.rules().len() + 1))
}

fn to_symbol<S: IndexStorage>(ast: &GrammarAST, symbol: &ast::Symbol) -> Symbol<S>
    requires known { NamesOne ast.now (ast_symbol_of symbol.now) }
    requires rules { suc (length ast.now.rules) ≤ S.MAX }
    requires tokens { length ast.now.tokens ≤ S.MAX }
    ensures { sym_of S.number result ≡ tree.sym_of ast.now (ast_symbol_of symbol.now) }
{
    match symbol {
        ast::Symbol::Rule(name, _span) => Symbol::Rule(rule_of(ast, name)),
        ast::Symbol::Token(name, _span) => {
            let index = ast.token_number(name).unwrap();
            Symbol::Token(TIdx(index_of(index)))
        }
    }
}

fn is_token(symbol: &ast::Symbol) -> bool
    ensures { result ≡ (ast_symbol_of symbol.now).is_token }
{
    match symbol {
        ast::Symbol::Rule(_name, _span) => false,
        ast::Symbol::Token(_name, _span) => true,
    }
}

/// Puts a symbol behind the others, and `~` behind a token where there are implicit tokens.
fn push_symbol<S: IndexStorage>(
    made: &mut Vec<Symbol<S>>,
    ast: &GrammarAST,
    implicit: bool,
    symbol: &ast::Symbol,
) -> Result<(), AllocError>
    requires known { NamesOne ast.now (ast_symbol_of symbol.now) }
    requires rules { length (tree.rules_of implicit ast.now) ≤ S.MAX }
    requires tokens { length ast.now.tokens ≤ S.MAX }
    ensures { OnOk result (syms_of S.number made.new.items ≡ syms_of S.number made.old.items ++ tree.syms_of implicit ast.now (ast_symbol_of symbol.now)) }
{
    made.push(to_symbol(ast, symbol))?;
    if implicit && is_token(symbol) {
        made.push(Symbol::Rule(tilde(ast)))?;
    }
    Ok(())
}

/// The symbols of a production of the file.
pub(crate) fn body<S: IndexStorage>(
    alloc: Global,
    ast: &GrammarAST,
    implicit: bool,
    symbols: &[ast::Symbol],
) -> Result<Vec<Symbol<S>>, AllocError>
    requires known { All (NamesOne ast.now) (map ast_symbol_of symbols.now) }
    requires rules { length (tree.rules_of implicit ast.now) ≤ S.MAX }
    requires tokens { length ast.now.tokens ≤ S.MAX }
    ensures { IfOk result (λ v. syms_of S.number v.items ≡ flat_map (tree.syms_of implicit ast.now) (map ast_symbol_of symbols.now)) }
{
    let mut made = Vec::with_capacity(alloc, symbols.len())?;
    'symbols: for symbol in symbols {
        push_symbol(&mut made, ast, implicit, symbol)?;
    }
    Ok(made)
}
