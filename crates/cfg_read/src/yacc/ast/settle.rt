//! Makes the alternatives of a text the productions of a tree, and collects what their symbols name.

ghost use Rattle.std.specs.Prelude.{◌≡◌, ◌++◌, ◌∷◌, [], Some, Bool, false, map, fold, if◌then◌else◌, IfOk, OnOk};
ghost use Rattle.std.specs.List.{flat_map};
ghost use Rattle.std.specs.String.{string_bytes};
ghost use Rattle.cfg_read.specs.SyntaxTexts.{SyntaxText};
ghost use Rattle.cfg_read.specs.Names.{is_token_by, symbols_in, symbols_used};
ghost use Rattle.cfg_read.specs.NameTexts.{name_text};
ghost use Rattle.cfg_read.specs.NameTables.{known_of, with_token, known_before};
ghost use Rattle.cfg_read.specs.FreshRules.{fresh_name};
ghost use Rattle.cfg_read.specs.Validity.{without};
ghost use Rattle.cfg_read.specs.Asts.{plain_symbol_ast, symbol_ast, production_ast, productions_in};
ghost use Rattle.cfg_read.specs.AstModels.{ast_symbol_of, production_of};
ghost use Rattle.cfg_read.specs.SyntaxModels.{symbol_of, symbols_of, alternative_of, rule_of};
ghost use Rattle.cfg_read.specs.Settling.{AreUsesOf, with_symbol, with_symbols, with_fresh_ast, named_fresh, uses_of};

use super::{Production, Symbol};
use crate::yacc::name::Name;
use crate::yacc::name_table::{Entry, NameTable};
use crate::yacc::parser::syntax::{self, Alternative};
use cfg_base::name_hasher::NameHasher;
use cfg_base::span::Span;
use indexmap::IndexMap;
use std::alloc::{AllocError, Global};

/// A symbol that means a fresh rule.
#[derive(Drop)]
pub(crate) struct Fresh {
    /// The byte span of its first appearance, with its `?`.
    pub(crate) span: Span,
    /// The symbol without the `?`, as one of a tree.
    pub(crate) inner: Symbol,
}

/// The names by which alternatives become productions, and what alternatives add to them.
#[derive(Drop)]
pub(crate) struct Uses {
    pub(crate) table: NameTable,
    /// The names that mean nothing, with their spans.
    pub(crate) unknown: Vec<(Name, Span)>,
    /// The symbols with a `?`, by the names of their fresh rules.
    pub(crate) fresh: IndexMap<String, Fresh, NameHasher>,
}

/// Returns the name of the fresh rule of a symbol: `'X'?` of a token X, `X?` of a rule.
fn fresh_name(alloc: Global, text: &str, is_token: bool) -> Result<String, AllocError>
    ensures { IfOk result (λ name. string_bytes name ≡ fresh_name is_token text.now) }
{
    if is_token {
        format!(in alloc; "'{text}'?")
    } else {
        format!(in alloc; "{text}?")
    }
}

/// Returns the name of the fresh rule of a symbol, as the rule's own and as that of a symbol.
fn fresh_names(alloc: Global, inner: &Symbol) -> Result<(String, Name), AllocError>
    ensures name { IfOk result (λ names. string_bytes names.0 ≡ fresh_name (ast_symbol_of inner.now).is_token (ast_symbol_of inner.now).word.text) }
    ensures same { IfOk result (λ names. name_text names.1 ≡ string_bytes names.0) }
{
    let name = fresh_name(alloc, inner.name().as_str(), inner.is_quoted())?;
    let shared = Name::new(alloc, name.as_str())?;
    Ok((name, shared))
}

/// Notes the symbol of an optional one by this name, where that isn't there yet.
fn insert_fresh(
    fresh: &mut IndexMap<String, Fresh, NameHasher>,
    name: String,
    span: Span,
    inner: Symbol,
) -> Result<(), AllocError>
    ensures { OnOk result (named_fresh fresh.new ≡ with_fresh_ast (named_fresh fresh.old)
        (record { word = record { text = string_bytes name; span = span }; inner = ast_symbol_of inner })) }
{
    if fresh.contains_key(name.as_str()) {
        drop(inner);
        return Ok(());
    }
    fresh.insert(name, Fresh { span, inner })?;
    Ok(())
}

impl Uses {
    /// Makes the uses known before alternatives.
    pub(crate) fn of(alloc: Global, table: NameTable) -> Uses
        ensures { uses_of result ≡ record { known = known_of table; unknown = []; fresh = [] } }
    {
        let hasher = *table.tokens().hasher();
        Uses {
            table,
            unknown: Vec::new(alloc),
            fresh: IndexMap::with_hasher(alloc, hasher),
        }
    }

    /// Notes the inner symbol of an optional one by the name of its fresh rule, where that isn't there yet.
    /// Returns the symbol of that rule.
    fn note_fresh(&mut self, alloc: Global, span: Span, inner: Symbol) -> Result<Symbol, AllocError>
        ensures symbol { IfOk result (λ s. ast_symbol_of s ≡ record { is_token = false; word = record { text = fresh_name (ast_symbol_of inner).is_token (ast_symbol_of inner).word.text; span = span } }) }
        ensures noted { OnOk result ((uses_of self.new).fresh ≡ with_fresh_ast (uses_of self.old).fresh (record { word = record { text = fresh_name (ast_symbol_of inner).is_token (ast_symbol_of inner).word.text; span = span }; inner = ast_symbol_of inner })) }
        ensures known { OnOk result (self.new.table ≡ self.old.table) }
        ensures unknown { OnOk result (self.new.unknown ≡ self.old.unknown) }
    {
        match fresh_names(alloc, &inner) {
            Ok((name, shared)) => {
                insert_fresh(&mut self.fresh, name, span, inner)?;
                Ok(Symbol::Rule(shared, span))
            }
            Err(e) => {
                drop(inner);
                Err(e)
            }
        }
    }

    /// Makes a name that isn't a token one of a tree, and notes it where it means nothing.
    fn settle_name(&mut self, name: &mut Name, entry: Entry, span: Span) -> Result<(), AllocError>
        requires { entry.is_rule ≡ (known_of self.old.table).rules (name_text name.old) }
        ensures unknown { OnOk result ((uses_of self.new).unknown ≡ (uses_of self.old).unknown ++ without (known_of self.old.table).rules (record { text = name_text name.old; span = span } ∷ [])) }
        ensures known { OnOk result (self.new.table ≡ self.old.table) }
        ensures fresh { OnOk result (self.new.fresh ≡ self.old.fresh) }
        ensures name { OnOk result (name_text name.new ≡ name_text name.old) }
    {
        if !entry.is_rule {
            self.unknown.push((name.plain()?, span))?;
        }
        name.set_place(entry.rule);
        Ok(())
    }

    /// Makes a symbol of a text that isn't optional one of a tree.
    fn settle_plain(&mut self, alloc: Global, symbol: &mut Symbol) -> Result<(), AllocError>
        ensures symbol { OnOk result (ast_symbol_of symbol.new ≡ plain_symbol_ast (known_of self.old.table).declared (symbol_of symbol.old)) }
        ensures known { OnOk result (known_of self.new.table ≡ (if is_token_by (known_of self.old.table).declared (symbol_of symbol.old) then with_token (known_of self.old.table) (symbol_of symbol.old).word else known_of self.old.table)) }
        ensures unknown { OnOk result ((uses_of self.new).unknown ≡ (if is_token_by (known_of self.old.table).declared (symbol_of symbol.old) then (uses_of self.old).unknown else (uses_of self.old).unknown ++ without (known_of self.old.table).rules ((symbol_of symbol.old).word ∷ []))) }
        ensures fresh { OnOk result (self.new.fresh ≡ self.old.fresh) }
    {
        match symbol {
            Symbol::Token(name, span) => {
                let number = self.table.note_token(alloc, name, *span)?;
                name.set_place(number);
            }
            Symbol::Rule(name, span) => {
                let entry = self.table.entry(name);
                if !entry.is_declared {
                    return self.settle_name(name, entry, *span);
                }
                let mut token = name.plain()?;
                let number = self.table.note_token_of(alloc, name, *span, entry)?;
                token.set_place(number);
                *symbol = Symbol::Token(token, *span);
            }
        }
        Ok(())
    }

    /// Makes a symbol of a text one of a tree.
    fn settle(&mut self, alloc: Global, symbol: &mut Symbol) -> Result<(), AllocError>
        ensures symbol { OnOk result (ast_symbol_of symbol.new ≡ symbol_ast (known_of self.old.table).declared (symbol_of symbol.old)) }
        ensures uses { OnOk result (uses_of self.new ≡ with_symbol (uses_of self.old) (symbol_of symbol.old)) }
    {
        match symbol.optional() {
            None => self.settle_plain(alloc, symbol),
            Some(span) => {
                let mut inner = symbol.plain()?;
                self.settle_plain(alloc, &mut inner)?;
                *symbol = self.note_fresh(alloc, span, inner)?;
                Ok(())
            }
        }
    }

    /// Makes symbols of a text those of a tree.
    fn settle_all(&mut self, alloc: Global, symbols: &mut [Symbol]) -> Result<(), AllocError>
        ensures symbols { OnOk result (map ast_symbol_of symbols.new ≡ map (symbol_ast (known_of self.old.table).declared) (symbols_of symbols.old)) }
        ensures uses { OnOk result (uses_of self.new ≡ with_symbols (uses_of self.old) (symbols_of symbols.old)) }
    {
        'symbols: for symbol in symbols.iter_mut() {
            self.settle(alloc, symbol)?;
        }
        Ok(())
    }

    /// Returns the production of an alternative.
    fn to_production(
        &mut self,
        alloc: Global,
        alternative: Alternative,
    ) -> Result<Production, AllocError>
        ensures production { IfOk result (λ p. production_of p ≡ production_ast (known_of self.old.table).declared (alternative_of alternative)) }
        ensures uses { OnOk result (uses_of self.new ≡ with_symbols (uses_of self.old) (alternative_of alternative).symbols) }
    {
        let kept = match alternative {
            Alternative::Blank(offset) => Alternative::Blank(offset),
            Alternative::Single(mut single) => match self.settle_all(alloc, &mut single.symbols) {
                Ok(()) => Alternative::Single(single),
                Err(e) => {
                    drop(single);
                    return Err(e);
                }
            },
            Alternative::Plain(mut plain) => match self.settle_all(
                alloc,
                plain.symbols.as_mut_slice(),
            ) {
                Ok(()) => Alternative::Plain(plain),
                Err(e) => {
                    drop(plain);
                    return Err(e);
                }
            },
            Alternative::Body(mut body) => match self.settle_all(
                alloc,
                body.symbols.as_mut_slice(),
            ) {
                Ok(()) => Alternative::Body(body),
                Err(e) => {
                    drop(body);
                    return Err(e);
                }
            },
        };
        Ok(Production { kept })
    }

    /// Puts the productions of these alternatives behind the others.
    fn push_productions(
        &mut self,
        alloc: Global,
        made: &mut Vec<Production>,
        alternatives: Vec<Alternative>,
    ) -> Result<(), AllocError>
        ensures productions { OnOk result (map production_of made.new.items ≡ map production_of made.old.items ++ map (production_ast (known_of self.old.table).declared) (map alternative_of alternatives.items)) }
        ensures uses { OnOk result (uses_of self.new ≡ with_symbols (uses_of self.old) (flat_map (λ a. a.symbols) (map alternative_of alternatives.items))) }
    {
        'alternatives: for alternative in alternatives {
            let new = self.to_production(alloc, alternative)?;
            made.push(new)?;
        }
        Ok(())
    }

    /// Returns the productions of these rules, in the order of the text.
    pub(crate) fn productions(
        &mut self,
        alloc: Global,
        rules: Vec<syntax::Rule>,
    ) -> Result<Vec<Production>, AllocError>
        ensures productions { IfOk result (λ made. map production_of made.items ≡ flat_map (productions_in (known_of self.old.table).declared) (map rule_of rules.items)) }
        ensures uses { OnOk result (uses_of self.new ≡ with_symbols (uses_of self.old) (flat_map symbols_in (map rule_of rules.items))) }
    {
        let mut made = Vec::with_capacity(alloc, room_for(&rules))?;
        'rules: for rule in rules {
            let syntax::Rule {
                name: _,
                span: _,
                action_type: _,
                alternatives,
            } = rule;
            self.push_productions(alloc, &mut made, alternatives)?;
        }
        Ok(made)
    }
}

/// Returns the room that the productions of these rules take, for a list that is filled with them.
fn room_for(rules: &[syntax::Rule]) -> usize {
    let mut room = 0usize;
    'rules: for rule in rules {
        room = room.saturating_add(rule.alternatives.len());
    }
    room
}

/// Proves that the uses of a text are those known before its alternatives, with the symbols of all alternatives
/// added.
pub(crate) fn all_settled()
    ensures { (x : SyntaxText) → AreUsesOf x (with_symbols (record { known = known_before x; unknown = []; fresh = [] }) (symbols_used x)) }
{}
