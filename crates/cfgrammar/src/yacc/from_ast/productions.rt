//! The productions of a grammar.

ghost use Rattle.std.specs.Prelude.{◌≡◌, ℕ, suc, zero, ◌<◌, ◌≤◌, ◌++◌, ◌∷◌, [], Bool, true, length, map, get_or, slice_get, option_map, All, Contains, IfOk, IsSomeAnd, IfSome, OnOk, if◌then◌else◌};
ghost use Rattle.std.specs.Option.{option_and_then, option_copied, option_or};
ghost use Rattle.std.specs.String.{string_bytes};
ghost use Rattle.cfg_theory.specs.Grammar.{Production};
ghost use Rattle.cfg_read.specs.AstModels.{ast_symbol_of};
ghost use Rattle.cfg_read.specs.AstModels as views;
ghost use Rattle.cfg_read.specs.AstChanges.{without_productions};
ghost use Rattle.cfg_read.specs.Names.{texts};
ghost use Rattle.cfg_read.specs.NameTexts.{name_text};
ghost use Rattle.cfg_read.specs.WellFormedAst.{names_of_rules, names_of_tokens, NamesOne, NameTokens, IsWellFormedAst};
ghost use Rattle.cfg_numbered.specs.Symbols.{sym_of, syms_of};
ghost use Rattle.cfg_numbered.specs.Info.{production_of, production_facts};
ghost use Rattle.cfgrammar.specs.FromAst as tree;
ghost use Rattle.cfgrammar.specs.AddedProductions.{Adds};

use super::{heads, info, numbers};
use cfg_base::index::IndexStorage;
use cfg_base::span::Span;
use cfg_base::symbol::{RIdx, Symbol};
use cfg_numbered::yacc::grammar::index_of;
use cfg_numbered::yacc::info::ProductionInfo;
use cfg_read::yacc::ast::{self, GrammarAST, Production};
use cfg_read::yacc::{Name, Precedence};
use std::alloc::{AllocError, Global};

fn last_token(symbols: &[ast::Symbol]) -> Option<&Name>
    ensures { option_map (λ s. name_text s.now) result ≡ tree.last_token (map ast_symbol_of symbols.now) }
{
    let mut found = None;
    'symbols: for symbol in symbols {
        if let ast::Symbol::Token(name, _span) = symbol {
            found = Some(name);
        }
    }
    found
}

/// The precedence of the token of this name.
fn token_precedence(
    ast: &GrammarAST,
    levels: &[Option<Precedence>],
    name: &Name,
) -> Option<Precedence>
    requires told { levels.now ≡ map (tree.precedence_of ast.now) (names_of_tokens ast.now) }
    requires known { Contains (names_of_tokens ast.now) (name_text name.now) }
    ensures { result ≡ tree.precedence_of ast.now (name_text name.now) }
{
    let number = ast.token_number(name).unwrap();
    info::level_of(levels, number)
}

/// The precedence of a production with this token of `%prec` and these symbols.
fn precedence_by(
    ast: &GrammarAST,
    levels: &[Option<Precedence>],
    own: Option<&String>,
    symbols: &[ast::Symbol],
) -> Option<Precedence>
    requires told { levels.now ≡ map (tree.precedence_of ast.now) (names_of_tokens ast.now) }
    requires known { All (NamesOne ast.now) (map ast_symbol_of symbols.now) }
    ensures { result ≡ option_and_then (tree.precedence_of ast.now)
        (option_or (option_map string_bytes (option_copied own.entry)) (tree.last_token (map ast_symbol_of symbols.now))) }
{
    match own {
        Some(name) => info::precedence_of(ast, name.as_str()),
        None => match last_token(symbols) {
            Some(name) => token_precedence(ast, levels, name),
            None => None,
        },
    }
}

fn precedence_of(
    ast: &GrammarAST,
    levels: &[Option<Precedence>],
    production: &Production,
) -> Option<Precedence>
    requires told { levels.now ≡ map (tree.precedence_of ast.now) (names_of_tokens ast.now) }
    requires known { All (NamesOne ast.now) (views.production_of production.now).symbols }
    ensures { result ≡ tree.production_precedence ast.now (views.production_of production.now) }
{
    precedence_by(ast, levels, production.precedence(), production.symbols())
}

/// A production of the file, of the rule at this index, which is taken over.
fn file_part<S: IndexStorage>(
    alloc: Global,
    ast: &GrammarAST,
    levels: &[Option<Precedence>],
    implicit: bool,
    index: usize,
    production: Production,
) -> Result<ProductionInfo<S>, AllocError>
    requires told { levels.now ≡ map (tree.precedence_of ast.now) (names_of_tokens ast.now) }
    requires known { All (NamesOne ast.now) (views.production_of production).symbols }
    requires index { index < length ast.now.rules }
    requires rules { length (tree.rules_of implicit ast.now) ≤ S.MAX }
    requires tokens { length ast.now.tokens ≤ S.MAX }
    ensures production { IfOk result (λ p. production_of S.number p ≡ record { head = suc index; body = tree.file_body implicit ast.now (views.production_of production) }) }
    ensures facts { IfOk result (λ p. production_facts p ≡ tree.file_production_facts ast.now (views.production_of production)) }
{
    let symbols = numbers::body(alloc, ast, implicit, production.symbols())?;
    let precedence = precedence_of(ast, levels, &production);
    let span = production.prod_span();
    let action_span = production.action_span();
    Ok(ProductionInfo {
        rule: RIdx(index_of(index + 1)),
        symbols,
        span,
        precedence,
        action: production.into_action(),
        action_span,
    })
}

/// These productions of the file, which are taken over.
fn file_parts<S: IndexStorage>(
    alloc: Global,
    ast: &GrammarAST,
    levels: &[Option<Precedence>],
    implicit: bool,
    heads: Vec<usize>,
    from: Vec<Production>,
) -> Result<Vec<ProductionInfo<S>>, AllocError>
    requires told { levels.now ≡ map (tree.precedence_of ast.now) (names_of_tokens ast.now) }
    requires known { All (λ p. All (NamesOne ast.now) p.symbols) (map views.production_of from.items) }
    requires within { (p : ℕ) → p < length from.items → get_or heads.items p 0 < length ast.now.rules }
    requires heads { (p : ℕ) → p < length from.items → suc (get_or heads.items p 0) ≡ tree.file_head ast.now p }
    requires count { length heads.items ≡ length from.items }
    requires rules { length (tree.rules_of implicit ast.now) ≤ S.MAX }
    requires tokens { length ast.now.tokens ≤ S.MAX }
    ensures productions { IfOk result (λ v. map (production_of S.number) v.items ≡ tree.file_productions implicit ast.now zero (map views.production_of from.items)) }
    ensures facts { IfOk result (λ v. map production_facts v.items ≡ map (tree.file_production_facts ast.now) (map views.production_of from.items)) }
{
    let mut made = Vec::with_capacity(alloc, from.len().saturating_add(1))?;
    'prods: for production in from {
        let head = heads[made.len()];
        made.push(file_part(alloc, ast, levels, implicit, head, production)?)?;
    }
    Ok(made)
}

/// Puts an added production behind the others.
fn push_added<S: IndexStorage>(
    made: &mut Vec<ProductionInfo<S>>,
    rule: RIdx<S>,
    symbols: Vec<Symbol<S>>,
) -> Result<(), AllocError>
    ensures { OnOk result (Adds S.number made.old.items made.new.items (record { head = S.number rule.0; body = syms_of S.number symbols.items } ∷ [])) }
{
    made.push(ProductionInfo {
        rule,
        symbols,
        span: Span::new(0, 0),
        precedence: None,
        action: None,
        action_span: None,
    })?;
    Ok(())
}

/// The rule of the file that the text is of.
fn text_rule<S: IndexStorage>(ast: &GrammarAST) -> RIdx<S>
    requires start { IsSomeAnd ast.now.start (λ w. Contains (names_of_rules ast.now) w.text) }
    requires fits { suc (length ast.now.rules) ≤ S.MAX }
    ensures { S.number result.0 ≡ tree.file_start ast.now }
{
    let start = ast.start().unwrap();
    numbers::rule_named(ast, start.0.as_str())
}

/// The rule under `^`.
fn rule_below_start<S: IndexStorage>(ast: &GrammarAST, implicit: bool) -> RIdx<S>
    requires start { IsSomeAnd ast.now.start (λ w. Contains (names_of_rules ast.now) w.text) }
    requires rules { length (tree.rules_of implicit ast.now) ≤ S.MAX }
    ensures { S.number result.0 ≡ tree.first_rule implicit ast.now }
{
    if implicit {
        numbers::tilde_start(ast)
    } else {
        text_rule(ast)
    }
}

fn two<S: IndexStorage>(
    alloc: Global,
    before: Symbol<S>,
    behind: Symbol<S>,
) -> Result<Vec<Symbol<S>>, AllocError>
    ensures { IfOk result (λ v. syms_of S.number v.items ≡ sym_of S.number before ∷ sym_of S.number behind ∷ []) }
{
    let mut symbols = Vec::new(alloc);
    symbols.push(before)?;
    symbols.push(behind)?;
    Ok(symbols)
}

/// Puts the production of `^` behind the others.
fn push_start<S: IndexStorage>(
    alloc: Global,
    made: &mut Vec<ProductionInfo<S>>,
    ast: &GrammarAST,
    implicit: bool,
) -> Result<(), AllocError>
    requires start { IsSomeAnd ast.now.start (λ w. Contains (names_of_rules ast.now) w.text) }
    requires rules { length (tree.rules_of implicit ast.now) ≤ S.MAX }
    ensures { OnOk result (Adds S.number made.old.items made.new.items (tree.start_production implicit ast.now ∷ [])) }
{
    let mut symbols = Vec::new(alloc);
    symbols.push(Symbol::Rule(rule_below_start(ast, implicit)))?;
    push_added(made, RIdx(index_of(0)), symbols)
}

/// Puts the production of `~` with the implicit token at this index behind the others.
fn push_implicit<S: IndexStorage>(
    alloc: Global,
    made: &mut Vec<ProductionInfo<S>>,
    ast: &GrammarAST,
    index: usize,
) -> Result<(), AllocError>
    requires named { NameTokens ast.now (texts ast.now.implicit_tokens) }
    requires rules { length (tree.rules_of true ast.now) ≤ S.MAX }
    requires tokens { length ast.now.tokens ≤ S.MAX }
    requires index { index < length ast.now.implicit_tokens }
    ensures { OnOk result (IfSome (slice_get ast.now.implicit_tokens index)
        (λ w. Adds S.number made.old.items made.new.items (tree.implicit_production ast.now w ∷ []))) }
{
    let (name, _span) = ast.implicit_tokens().get_index(index).unwrap();
    let token = Symbol::Token(numbers::token_named(ast, name.as_str()));
    let rule = numbers::tilde(ast);
    let symbols = two(alloc, token, Symbol::Rule(rule))?;
    push_added(made, rule, symbols)
}

/// Puts the productions of `~` with its tokens behind the others.
fn push_implicits<S: IndexStorage>(
    alloc: Global,
    made: &mut Vec<ProductionInfo<S>>,
    ast: &GrammarAST,
) -> Result<(), AllocError>
    requires named { NameTokens ast.now (texts ast.now.implicit_tokens) }
    requires rules { length (tree.rules_of true ast.now) ≤ S.MAX }
    requires tokens { length ast.now.tokens ≤ S.MAX }
    ensures { OnOk result (Adds S.number made.old.items made.new.items (map (tree.implicit_production ast.now) ast.now.implicit_tokens)) }
{
    'tokens: for index in 0..ast.implicit_tokens().len() {
        push_implicit(alloc, made, ast, index)?;
    }
    Ok(())
}

/// Puts the productions of `^~` and `~` behind the others.
fn push_tildes<S: IndexStorage>(
    alloc: Global,
    made: &mut Vec<ProductionInfo<S>>,
    ast: &GrammarAST,
) -> Result<(), AllocError>
    requires start { IsSomeAnd ast.now.start (λ w. Contains (names_of_rules ast.now) w.text) }
    requires named { NameTokens ast.now (texts ast.now.implicit_tokens) }
    requires rules { length (tree.rules_of true ast.now) ≤ S.MAX }
    requires tokens { length ast.now.tokens ≤ S.MAX }
    ensures { OnOk result (Adds S.number made.old.items made.new.items (tree.implicit_productions ast.now)) }
{
    let rule = numbers::tilde(ast);
    let text = Symbol::Rule(text_rule(ast));
    let symbols = two(alloc, Symbol::Rule(rule), text)?;
    push_added(made, numbers::tilde_start(ast), symbols)?;
    push_implicits(alloc, made, ast)?;
    push_added(made, rule, Vec::new(alloc))
}

/// Puts the added productions behind the others.
fn push_all_added<S: IndexStorage>(
    alloc: Global,
    made: &mut Vec<ProductionInfo<S>>,
    ast: &GrammarAST,
    implicit: bool,
) -> Result<(), AllocError>
    requires start { IsSomeAnd ast.now.start (λ w. Contains (names_of_rules ast.now) w.text) }
    requires named { NameTokens ast.now (texts ast.now.implicit_tokens) }
    requires rules { length (tree.rules_of implicit ast.now) ≤ S.MAX }
    requires tokens { length ast.now.tokens ≤ S.MAX }
    ensures { OnOk result (Adds S.number made.old.items made.new.items (tree.start_production implicit ast.now ∷ (if implicit then tree.implicit_productions ast.now else []))) }
{
    push_start(alloc, made, ast, implicit)?;
    if implicit {
        push_tildes(alloc, made, ast)?;
    }
    Ok(())
}

/// The productions, which are taken out of the tree.
pub(crate) fn all<S: IndexStorage>(
    alloc: Global,
    ast: &mut GrammarAST,
    levels: &[Option<Precedence>],
    implicit: bool,
) -> Result<Vec<ProductionInfo<S>>, AllocError>
    requires told { levels.now ≡ map (tree.precedence_of ast.old) (names_of_tokens ast.old) }
    requires sound { IsWellFormedAst ast.old }
    requires rules { length (tree.rules_of implicit ast.old) ≤ S.MAX }
    requires tokens { length ast.old.tokens ≤ S.MAX }
    ensures productions { IfOk result (λ v. map (production_of S.number) v.items ≡ tree.productions_of implicit ast.old) }
    ensures facts { IfOk result (λ v. map production_facts v.items ≡ tree.production_facts_of implicit ast.old) }
    ensures rest { OnOk result (ast.new ≡ without_productions ast.old) }
{
    let heads = heads::heads(alloc, ast)?;
    let from = ast.take_prods(alloc);
    let mut made = file_parts(alloc, ast, levels, implicit, heads, from)?;
    push_all_added(alloc, &mut made, ast, implicit)?;
    Ok(made)
}
