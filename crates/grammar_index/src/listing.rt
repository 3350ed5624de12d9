//! The occurrences of what was read.

ghost use Rattle.std.specs.Prelude.{◌≡◌, ◌++◌, ◌∷◌, [], map, option_map, option_to_list, OnOk};
ghost use Rattle.std.specs.List.{flat_map};
ghost use Rattle.cfg_read.specs.SyntaxModels.{words_of, symbol_of, symbols_of, line_of, level_of, epp_of, alternative_of, rule_of, syntax_of, boxed_word};
ghost use Rattle.grammar_index.specs.Occurrences.{at_span, at_word, at_item, at_symbol, at_epp, in_alternative, in_rule, in_level, in_line, in_unused, in_names, in_levels, in_lines, in_lists, in_words, in_declarations, occurrences_of};
ghost use Rattle.grammar_index.specs.declared.occurrence.Role.TheVariants.{Declared, Start, Token};

use crate::occurrence::{Occurrence, Role};
use cfg_base::span::Span;
use cfg_read::yacc::parser::syntax::{Alternative, Epp, Level, Line, Rule, Symbol, Syntax, Word};
use std::alloc::AllocError;

/// Adds an occurrence.
fn push_span(found: &mut Vec<Occurrence>, role: Role, span: Span) -> Result<(), AllocError>
    ensures { OnOk result (found.new.items ≡ found.old.items ++ at_span role span ∷ []) }
{
    found.push(Occurrence {
        start: span.start(),
        end: span.end(),
        role,
    })?;
    Ok(())
}

/// Adds words.
fn push_words(found: &mut Vec<Occurrence>, role: Role, words: &[Word]) -> Result<(), AllocError>
    ensures { OnOk result (found.new.items ≡ found.old.items ++ map (at_word role) (words_of words.now)) }
{
    'words: for word in words {
        push_span(found, role, word.span)?;
    }
    Ok(())
}

/// Adds the items of a line of tokens.
fn push_items(found: &mut Vec<Occurrence>, role: Role, items: &[Symbol]) -> Result<(), AllocError>
    ensures { OnOk result (found.new.items ≡ found.old.items ++ map (at_item role) (symbols_of items.now)) }
{
    'items: for item in items {
        push_span(found, role, item.span())?;
    }
    Ok(())
}

/// Adds a symbol.
fn push_symbol(found: &mut Vec<Occurrence>, symbol: &Symbol) -> Result<(), AllocError>
    ensures { OnOk result (found.new.items ≡ found.old.items ++ at_symbol (symbol_of symbol.now) ∷ []) }
{
    match symbol {
        Symbol::Token(_, span) => push_span(found, Role::Token, *span),
        Symbol::Rule(_, span) => push_span(found, Role::Bare, *span),
    }
}

/// Adds the symbols of an alternative or of `%expect-unused`.
fn push_symbols(found: &mut Vec<Occurrence>, symbols: &[Symbol]) -> Result<(), AllocError>
    ensures { OnOk result (found.new.items ≡ found.old.items ++ map at_symbol (symbols_of symbols.now)) }
{
    'symbols: for symbol in symbols {
        push_symbol(found, symbol)?;
    }
    Ok(())
}

/// Adds the tokens of precedence lines.
fn push_levels(found: &mut Vec<Occurrence>, levels: &[Level]) -> Result<(), AllocError>
    ensures { OnOk result (found.new.items ≡ found.old.items ++ flat_map in_level (map level_of levels.now)) }
{
    'levels: for level in levels {
        push_items(found, Role::Token, level.tokens.as_slice())?;
    }
    Ok(())
}

/// Adds the tokens of lines.
fn push_lines(found: &mut Vec<Occurrence>, lines: &[Line]) -> Result<(), AllocError>
    ensures { OnOk result (found.new.items ≡ found.old.items ++ flat_map in_line (map line_of lines.now)) }
{
    'lines: for line in lines {
        push_items(found, Role::Token, line.items.as_slice())?;
    }
    Ok(())
}

/// Adds the names and tokens of `%expect-unused`.
fn push_unused(found: &mut Vec<Occurrence>, lines: &[Line]) -> Result<(), AllocError>
    ensures { OnOk result (found.new.items ≡ found.old.items ++ flat_map in_unused (map line_of lines.now)) }
{
    'lines: for line in lines {
        push_symbols(found, line.items.as_slice())?;
    }
    Ok(())
}

/// Adds the tokens of `%epp`.
fn push_epp(found: &mut Vec<Occurrence>, epp: &[Epp]) -> Result<(), AllocError>
    ensures { OnOk result (found.new.items ≡ found.old.items ++ map at_epp (map epp_of epp.now)) }
{
    'epp: for one in epp {
        push_span(found, Role::Token, one.token.span)?;
    }
    Ok(())
}

/// Adds the token of a `%prec`, if there is one.
fn push_boxed(found: &mut Vec<Occurrence>, word: &Option<Box<Word>>) -> Result<(), AllocError>
    ensures { OnOk result (found.new.items ≡ found.old.items ++ map (at_word Token) (option_to_list (option_map boxed_word word.now))) }
{
    if let Some(word) = word {
        return push_span(found, Role::Token, word.span);
    }
    Ok(())
}

/// Adds the token behind an alternative's `%prec`, if there is one.
fn push_precedence(found: &mut Vec<Occurrence>, one: &Alternative) -> Result<(), AllocError>
    ensures { OnOk result (found.new.items ≡ found.old.items ++ map (at_word Token) (option_to_list (alternative_of one.now).precedence)) }
{
    match one {
        Alternative::Body(body) => push_boxed(found, &body.precedence),
        _ => Ok(()),
    }
}

/// Adds the names of an alternative.
fn push_alternative(found: &mut Vec<Occurrence>, one: &Alternative) -> Result<(), AllocError>
    ensures { OnOk result (found.new.items ≡ found.old.items ++ in_alternative (alternative_of one.now)) }
{
    push_symbols(found, one.symbols())?;
    push_precedence(found, one)
}

/// Adds the names of alternatives.
fn push_alternatives(found: &mut Vec<Occurrence>, list: &[Alternative]) -> Result<(), AllocError>
    ensures { OnOk result (found.new.items ≡ found.old.items ++ flat_map in_alternative (map alternative_of list.now)) }
{
    'alternatives: for one in list {
        push_alternative(found, one)?;
    }
    Ok(())
}

/// Adds the names of a heading and its alternatives.
fn push_rule(found: &mut Vec<Occurrence>, rule: &Rule) -> Result<(), AllocError>
    ensures { OnOk result (found.new.items ≡ found.old.items ++ in_rule (rule_of rule.now)) }
{
    push_span(found, Role::Head, rule.span)?;
    push_alternatives(found, rule.alternatives.as_slice())
}

/// Adds the names of rules.
fn push_rules(found: &mut Vec<Occurrence>, rules: &[Rule]) -> Result<(), AllocError>
    ensures { OnOk result (found.new.items ≡ found.old.items ++ flat_map in_rule (map rule_of rules.now)) }
{
    'rules: for rule in rules {
        push_rule(found, rule)?;
    }
    Ok(())
}

/// Adds the rules of `%start` and the tokens of `%token`.
fn push_starts(found: &mut Vec<Occurrence>, syntax: &Syntax) -> Result<(), AllocError>
    ensures { OnOk result (found.new.items ≡ found.old.items ++ in_names (syntax_of syntax.now)) }
{
    push_words(found, Role::Start, syntax.starts.as_slice())?;
    push_items(found, Role::Declared, syntax.tokens.as_slice())
}

/// Adds the tokens of precedence lines and of `%avoid_insert`.
fn push_bindings(found: &mut Vec<Occurrence>, syntax: &Syntax) -> Result<(), AllocError>
    ensures { OnOk result (found.new.items ≡ found.old.items ++ in_levels (syntax_of syntax.now)) }
{
    push_levels(found, syntax.levels.as_slice())?;
    push_lines(found, syntax.avoid_insert.as_slice())
}

/// Adds the names of `%implicit_tokens` and of `%expect-unused`.
fn push_others(found: &mut Vec<Occurrence>, syntax: &Syntax) -> Result<(), AllocError>
    ensures { OnOk result (found.new.items ≡ found.old.items ++ in_lines (syntax_of syntax.now)) }
{
    push_lines(found, syntax.implicit_tokens.as_slice())?;
    push_unused(found, syntax.expect_unused.as_slice())
}

/// Adds the names of lines.
fn push_lists(found: &mut Vec<Occurrence>, syntax: &Syntax) -> Result<(), AllocError>
    ensures { OnOk result (found.new.items ≡ found.old.items ++ in_lists (syntax_of syntax.now)) }
{
    push_bindings(found, syntax)?;
    push_others(found, syntax)
}

/// Adds the names of the declarations but those of `%epp`.
fn push_all_words(found: &mut Vec<Occurrence>, syntax: &Syntax) -> Result<(), AllocError>
    ensures { OnOk result (found.new.items ≡ found.old.items ++ in_words (syntax_of syntax.now)) }
{
    push_starts(found, syntax)?;
    push_lists(found, syntax)
}

/// Adds the names of the declarations.
fn push_declarations(found: &mut Vec<Occurrence>, syntax: &Syntax) -> Result<(), AllocError>
    ensures { OnOk result (found.new.items ≡ found.old.items ++ in_declarations (syntax_of syntax.now)) }
{
    push_all_words(found, syntax)?;
    push_epp(found, syntax.epp.as_slice())
}

/// Adds all names of a text.
pub(crate) fn push_names(found: &mut Vec<Occurrence>, syntax: &Syntax) -> Result<(), AllocError>
    ensures { OnOk result (found.new.items ≡ found.old.items ++ occurrences_of (syntax_of syntax.now)) }
{
    push_declarations(found, syntax)?;
    push_rules(found, syntax.rules.as_slice())
}
