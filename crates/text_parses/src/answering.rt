//! The answer to a text: its tree, or its errors.

ghost use Rattle.std.specs.Prelude.{◌≡◌, None, Some, IfOk, OnOk};
ghost use Rattle.lrlex.specs.Lexing.{bound_meanings, bound_rules};
ghost use Rattle.text_parses.specs.Answers.{Answers, AnswersIn, AnswersItems, AnswersLine, AnswersObject, AnswersText, TellsNextIf, WritesTree, is_noted};
ghost use Rattle.cfg_theory.specs.Tree.{Tree, yield};
ghost use Rattle.parse_trees.specs.Lexemes.{AreItems};
ghost use Rattle.parse_trees.specs.Outlines.{IsOutline};
ghost use Rattle.text_parses.specs.OutlineTexts.{IsWalked, flat_tree};
ghost use Rattle.text_parses.specs.Parses.{IsParsed, TextLexeme, title_of};
ghost use Rattle.text_parses.specs.AskedTexts.{asked_in, asked_of, asked_of_line};
ghost use Rattle.text_parses.specs.declared.form.Form.TheVariants.{Quiet};

use crate::answer_fault::AnswerFault;
use crate::errors::{write_errors, write_lex_error};
use crate::form::{FileLine, Form, Input, Shown};
use crate::names::Grammar;
use crate::next::write_next;
use crate::objects::write_object;
use crate::outlines::{Outlined, write_outline_lines, write_outline_sexp};
use crate::parsing::{Parsed, WordLexer, WordTree, has_tree, outline_of, parse_lexed};
use crate::trees::{write_dot, write_lines, write_sexp};
use crate::words::lex_line;
use byte_streams::Sink;
use lrlex::BoundRules;
use lrpar::Lexer;
use parser_kit::ParserKit;
use std::alloc::{AllocError, Global};
use text_messages::Source;

/// Returns what is above the tree of a line.
fn line_title(alloc: Global, input: Input<'_>, line: usize) -> Result<Vec<u8>, AllocError>
    ensures { IfOk result (λ v. v.items ≡ title_of (Some line) input.entry.named input.entry.path.now) }
{
    let path = input.path;
    let title = format!(in alloc; "{path}:{line}:\n")?;
    Ok(title.into_bytes())
}

/// Returns what is above the tree of a text: the path, if it is to be named.
fn path_title(alloc: Global, input: Input<'_>) -> Result<Vec<u8>, AllocError>
    ensures { IfOk result (λ v. v.items ≡ title_of None input.entry.named input.entry.path.now) }
{
    let mut text = Vec::new(alloc);
    if input.named {
        text.extend_from_slice(input.path.as_bytes())?;
        text.extend_from_slice(b":\n")?;
    }
    Ok(text)
}

/// Returns what is above a tree.
fn title_of(alloc: Global, shown: Shown<'_>) -> Result<Vec<u8>, AllocError>
    ensures { IfOk result (λ v. v.items ≡ title_of shown.entry.line shown.entry.input.named shown.entry.input.path.now) }
{
    match shown.line {
        Some(line) => line_title(alloc, shown.input, line),
        None => path_title(alloc, shown.input),
    }
}

/// Writes a tree in the form that is asked for, below the path if it is to be named.
fn write_tree<W: Sink>(
    alloc: Global,
    grm: &Grammar,
    shown: Shown<'_>,
    tree: &WordTree,
    out: &mut W,
) -> Result<(), AnswerFault>
    ensures { OnOk result (WritesTree shown.entry.input.form grm.now (asked_in shown.entry) tree.now (W.known out.old) (W.known out.new)) }
{
    let mut text = title_of(alloc, shown)?;
    match shown.input.form {
        Form::Tree => write_lines(alloc, grm, shown.input.text, tree, &mut text, out),
        Form::Sexp => write_sexp(alloc, grm, shown.input.text, tree, &mut text, out),
        Form::Dot => write_dot(alloc, grm, shown, tree, out),
        Form::Json => Ok(()),
        Form::Quiet => Ok(()),
    }
}

/// Writes what is found of a text's lexemes, and returns whether that is a tree.
fn write_parsed<W: Sink>(
    alloc: Global,
    kit: &ParserKit<u32>,
    shown: Shown<'_>,
    lexer: &WordLexer<'_>,
    parsed: &Parsed,
    out: &mut W,
) -> Result<bool, AnswerFault>
    requires { IsParsed kit.now.parser lexer.now.items shown.input.edits parsed.now }
    ensures { IfOk result (Answers kit.now.parser lexer.now.items (asked_in shown.entry) (W.known out.old) (W.known out.new)) }
{
    match parsed {
        Parsed::Tree(tree) => {
            write_tree(alloc, kit.grm(), shown, tree, out)?;
            Ok(true)
        }
        Parsed::Unlexed(error) => {
            write_lex_error(alloc, shown, *error, out)?;
            Ok(false)
        }
        Parsed::Unparsed(errors) => {
            write_errors(alloc, kit, shown, lexer, errors.as_slice(), out)?;
            Ok(false)
        }
    }
}

/// Writes what is found of a text's lexemes as an object, and returns whether that is a tree.
fn write_as_object<W: Sink>(
    alloc: Global,
    kit: &ParserKit<u32>,
    shown: Shown<'_>,
    lexer: &WordLexer<'_>,
    parsed: &Parsed,
    out: &mut W,
) -> Result<bool, AnswerFault>
    requires { IsParsed kit.now.parser lexer.now.items shown.input.edits parsed.now }
    ensures { IfOk result (AnswersObject kit.now.parser lexer.now.items (asked_in shown.entry) (W.known out.old) (W.known out.new)) }
{
    write_object(alloc, kit, shown, lexer, parsed, out)?;
    Ok(parsed.is_tree())
}

/// Writes what is found of a text's lexemes in the form that is asked for, and returns whether that is a tree.
fn write_found<W: Sink>(
    alloc: Global,
    kit: &ParserKit<u32>,
    shown: Shown<'_>,
    lexer: &WordLexer<'_>,
    parsed: &Parsed,
    out: &mut W,
) -> Result<bool, AnswerFault>
    requires { IsParsed kit.now.parser lexer.now.items shown.input.edits parsed.now }
    ensures { IfOk result (AnswersIn shown.entry.input.form kit.now.parser lexer.now.items (asked_in shown.entry) (W.known out.old) (W.known out.new)) }
{
    match shown.input.form {
        Form::Json => write_as_object(alloc, kit, shown, lexer, parsed, out),
        Form::Tree | Form::Sexp | Form::Dot | Form::Quiet => {
            write_parsed(alloc, kit, shown, lexer, parsed, out)
        }
    }
}

/// Returns whether the tokens that may come are written behind the rest.
fn is_noted(shown: Shown<'_>) -> bool
    ensures { result ≡ is_noted shown.entry.input.form shown.entry.input.next }
{
    match shown.input.form {
        Form::Json => false,
        Form::Tree | Form::Sexp | Form::Dot | Form::Quiet => shown.input.next,
    }
}

/// Writes which tokens may come at the first error of a text, else at its end, if they are asked for.
fn write_next_if<W: Sink>(
    alloc: Global,
    kit: &ParserKit<u32>,
    shown: Shown<'_>,
    lexer: &WordLexer<'_>,
    out: &mut W,
) -> Result<(), AnswerFault>
    ensures { OnOk result (TellsNextIf (is_noted shown.entry.input.form shown.entry.input.next) kit.now.parser lexer.now.items (asked_in shown.entry) (W.known out.old) (W.known out.new)) }
{
    if is_noted(shown) {
        return write_next(alloc, kit, shown, lexer, out);
    }
    Ok(())
}

/// Parses the lexemes of a text, writes its tree or its errors, and returns whether it has a tree.
fn answer_parsed<W: Sink>(
    alloc: Global,
    kit: &ParserKit<u32>,
    shown: Shown<'_>,
    lexer: &WordLexer<'_>,
    out: &mut W,
) -> Result<bool, AnswerFault>
    ensures { IfOk result (AnswersIn shown.entry.input.form kit.now.parser lexer.now.items (asked_in shown.entry) (W.known out.old) (W.known out.new)) }
{
    let parsed = parse_lexed(alloc, kit, lexer, shown.input.edits)?;
    let wrote = write_found(alloc, kit, shown, lexer, &parsed, out);
    drop(parsed);
    wrote
}

/// Answers the lexemes of a text whose tree isn't written: where they have one, none is made.
fn answer_quietly<W: Sink>(
    alloc: Global,
    kit: &ParserKit<u32>,
    shown: Shown<'_>,
    lexer: &WordLexer<'_>,
    out: &mut W,
) -> Result<bool, AnswerFault>
    requires { shown.input.form ≡ Quiet }
    ensures { IfOk result (AnswersIn shown.entry.input.form kit.now.parser lexer.now.items (asked_in shown.entry) (W.known out.old) (W.known out.new)) }
{
    if has_tree(alloc, kit, lexer, shown.input.edits)? {
        return Ok(true);
    }
    answer_parsed(alloc, kit, shown, lexer, out)
}

/// Writes a tree by its outline, as lines or as an expression, below the path if it is to be named.
fn write_outlined<W: Sink>(
    alloc: Global,
    shown: Shown<'_>,
    outlined: Outlined<'_>,
    out: &mut W,
) -> Result<(), AnswerFault>
    requires form { IsWalked shown.input.form }
    requires outline { (t : Tree TextLexeme) × IsOutline t outlined.outline.now }
    requires input { outlined.input.now ≡ shown.input.text.now }
    ensures { OnOk result ((t : Tree TextLexeme) → AreItems outlined.entry.items.now (yield t) → IsOutline t outlined.entry.outline.now →
        WritesTree shown.entry.input.form outlined.entry.grm.now (asked_in shown.entry) (flat_tree t) (W.known out.old) (W.known out.new)) }
{
    let mut text = title_of(alloc, shown)?;
    match shown.input.form {
        Form::Tree => {
            write_outline_lines(alloc, outlined, &mut text, out)?;
            Ok(())
        }
        Form::Sexp => {
            write_outline_sexp(alloc, outlined, &mut text, out)?;
            Ok(())
        }
        Form::Dot | Form::Json | Form::Quiet => Ok(()),
    }
}

/// Answers the lexemes of a text whose tree is written as lines or as an expression: where they have one, by its outline.
fn answer_outlined<W: Sink>(
    alloc: Global,
    kit: &ParserKit<u32>,
    shown: Shown<'_>,
    lexer: &WordLexer<'_>,
    out: &mut W,
) -> Result<bool, AnswerFault>
    requires { IsWalked shown.input.form }
    ensures { IfOk result (AnswersIn shown.entry.input.form kit.now.parser lexer.now.items (asked_in shown.entry) (W.known out.old) (W.known out.new)) }
{
    match outline_of(alloc, kit, lexer, shown.input.edits)? {
        Some(outline) => {
            let outlined = Outlined {
                grm: kit.grm(),
                input: shown.input.text,
                items: lexer.iter().as_slice(),
                outline: &outline,
            };
            write_outlined(alloc, shown, outlined, out)?;
            Ok(true)
        }
        None => answer_parsed(alloc, kit, shown, lexer, out),
    }
}

/// Parses the lexemes of a text, writes its tree or its errors, and returns whether it has a tree.
fn answer_lexed<W: Sink>(
    alloc: Global,
    kit: &ParserKit<u32>,
    shown: Shown<'_>,
    lexer: &WordLexer<'_>,
    out: &mut W,
) -> Result<bool, AnswerFault>
    ensures { IfOk result (AnswersIn shown.entry.input.form kit.now.parser lexer.now.items (asked_in shown.entry) (W.known out.old) (W.known out.new)) }
{
    match shown.input.form {
        Form::Quiet => answer_quietly(alloc, kit, shown, lexer, out),
        Form::Tree | Form::Sexp => answer_outlined(alloc, kit, shown, lexer, out),
        Form::Dot | Form::Json => { answer_parsed(alloc, kit, shown, lexer, out) }
    }
}

/// Writes the tree or the errors of a text, and then which tokens may come if they are asked for. Returns whether it has a tree.
fn answer_items<W: Sink>(
    alloc: Global,
    kit: &ParserKit<u32>,
    shown: Shown<'_>,
    lexer: &WordLexer<'_>,
    out: &mut W,
) -> Result<bool, AnswerFault>
    ensures { IfOk result (AnswersItems kit.now.parser lexer.now.items (asked_in shown.entry) (W.known out.old) (W.known out.new)) }
{
    let well = answer_lexed(alloc, kit, shown, lexer, out)?;
    write_next_if(alloc, kit, shown, lexer, out)?;
    Ok(well)
}

/// Lexes and parses a text, writes its tree or its errors, and returns whether it has a tree.
pub fn answer_text<W: Sink>(
    alloc: Global,
    kit: &ParserKit<u32>,
    bound: &BoundRules<'_, u32>,
    input: Input<'_>,
    out: &mut W,
) -> Result<bool, AnswerFault>
    ensures { IfOk result (AnswersText kit.now.parser (bound_rules bound.now) (bound_meanings bound.now) (asked_of input.entry) (W.known out.old) (W.known out.new)) }
{
    let lexer = bound.lex(alloc, input.text)?;
    let source = Source::new(alloc, input.text, input.path)?;
    let shown = Shown {
        input,
        source: &source,
        start: 0,
        line: None,
    };
    let answered = answer_items(alloc, kit, shown, &lexer, out);
    drop(source);
    drop(lexer);
    answered
}

/// Parses a line of token names as `answer_text` does a text. Words are the nonempty parts between spaces (U+0020 alone); one that
/// is no token's name is an error of the lexer. Messages show the file; its lines are numbered above trees.
pub fn answer_line<W: Sink>(
    alloc: Global,
    kit: &ParserKit<u32>,
    line: FileLine<'_>,
    input: Input<'_>,
    out: &mut W,
) -> Result<bool, AnswerFault>
    ensures { IfOk result (AnswersLine kit.now.parser (asked_of_line input.entry line.entry) (W.known out.old) (W.known out.new)) }
{
    let lexer = lex_line(alloc, kit.grm(), input.text)?;
    let shown = Shown {
        input,
        source: line.source,
        start: line.start,
        line: Some(line.number),
    };
    let answered = answer_items(alloc, kit, shown, &lexer, out);
    drop(lexer);
    answered
}
