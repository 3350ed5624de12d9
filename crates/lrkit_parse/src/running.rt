//! From the words to the trees.

use crate::fault::{Outcome, ParseFault};
use crate::lines::answer_lines;
use crate::making::make_rules;
use crate::streams::{fault_of_answer, read_file};
use crate::warnings::{say_notes, say_refusal, say_warnings};
use crate::words::Words;
use bison_sources::{BisonFile, BisonImport, bison_file, import_file};
use byte_streams::Recorded;
use kit_texts::make_kit;
use lrlex::{BoundRules, LexRules};
use parser_kit::ParserKit;
use std::io;
use std::io::Write;
use std::rt::Files;
use text_messages::Source;
use text_parses::{Input, answer_text};

/// How many paths are behind the program's name where there is one text.
const ONE_TEXT: usize = 3;

/// Answers the text of a path, and returns whether it has a tree.
fn answer_file<R: Files + io::Input + AllocGlobal, W: Write>(
    rt: &R,
    words: &Words,
    index: usize,
    kit: &ParserKit<u32>,
    bound: &BoundRules<'_, u32>,
    out: &mut Recorded<W>,
) -> Result<bool, ParseFault> {
    let text = read_file(rt, words, index)?;
    let input = Input {
        path: words.path(index),
        text: text.as_str(),
        form: words.form,
        named: words.paths.len() > ONE_TEXT,
        edits: words.edits,
        listed: words.listed,
        next: words.next,
    };
    match answer_text(rt.alloc(), kit, bound, input, out) {
        Ok(well) => Ok(well),
        Err(fault) => Err(fault_of_answer(rt.alloc(), out, fault)),
    }
}

/// Answers all texts, one after another.
fn answer_files<R: Files + io::Input + AllocGlobal, W: Write>(
    rt: &R,
    words: &Words,
    kit: &ParserKit<u32>,
    bound: &BoundRules<'_, u32>,
    out: &mut Recorded<W>,
) -> Result<Outcome, ParseFault> {
    let mut outcome = Outcome::Parsed;
    'paths: for index in 2..words.paths.len() {
        if !answer_file(rt, words, index, kit, bound, out)? {
            outcome = Outcome::Faulty;
        }
    }
    Ok(outcome)
}

/// Answers all texts by a parser and rules.
fn answer_by<R: Files + io::Input + Print + Eprint + AllocGlobal>(
    rt: &R,
    words: &Words,
    kit: &ParserKit<u32>,
    rules: &LexRules,
) -> Result<Outcome, ParseFault> {
    let bound = rules.bind(rt.alloc(), kit.grm())?;
    say_warnings(rt, words.path(0), words.path(1), kit, rules, &bound)?;
    let mut out = Recorded::new(io::writer(rt));
    answer_files(rt, words, kit, &bound, &mut out)
}

/// Answers all lines; or reads the lexer, and answers all texts.
fn answer_with<R: Files + io::Input + Print + Eprint + AllocGlobal>(
    rt: &R,
    words: &Words,
    kit: &ParserKit<u32>,
) -> Result<Outcome, ParseFault> {
    if words.lines {
        return answer_lines(rt, words, kit);
    }
    let lexer = read_file(rt, words, 1)?;
    match make_rules(rt.alloc(), lexer.as_str(), words.path(1))? {
        Ok(rules) => {
            let answered = answer_by(rt, words, kit, &rules);
            drop(rules);
            answered
        }
        Err(shown) => {
            let _ = eprint!(rt; "{shown}");
            Ok(Outcome::NoParser)
        }
    }
}

/// Makes the parser of a grammar's text, reads the lexer, and answers all texts.
fn answer_grammar<R: Files + io::Input + Print + Eprint + AllocGlobal>(
    rt: &R,
    words: &Words,
    grammar: &Source<'_>,
) -> Result<Outcome, ParseFault> {
    match make_kit(rt.alloc(), grammar)? {
        Ok(kit) => {
            let answered = answer_with(rt, words, &kit);
            drop(kit);
            answered
        }
        Err(told) => {
            let _ = eprint!(rt; "{}", told.text.as_str());
            drop(told);
            Ok(Outcome::NoParser)
        }
    }
}

/// Imports a grammar's file, and answers all texts by the import.
fn answer_bison<R: Files + io::Input + Print + Eprint + AllocGlobal>(
    rt: &R,
    words: &Words,
    file: BisonFile<'_>,
) -> Result<Outcome, ParseFault> {
    match import_file(rt.alloc(), file) {
        Ok(import) => {
            let answered = answer_import(rt, words, file, &import);
            drop(import);
            answered
        }
        Err(error) => {
            say_refusal(rt, file, error)?;
            Ok(Outcome::NoParser)
        }
    }
}

/// Answers all texts by the import of a grammar's file.
fn answer_import<R: Files + io::Input + Print + Eprint + AllocGlobal>(
    rt: &R,
    words: &Words,
    file: BisonFile<'_>,
    import: &BisonImport,
) -> Result<Outcome, ParseFault> {
    say_notes(rt, file, import.imported.notes.as_slice())?;
    let source = import.source(rt.alloc(), file)?;
    let answered = answer_grammar(rt, words, &source);
    drop(source);
    answered
}

/// Answers all texts by a grammar's file.
fn answer_by_file<R: Files + io::Input + Print + Eprint + AllocGlobal>(
    rt: &R,
    words: &Words,
    text: &str,
    path: &str,
) -> Result<Outcome, ParseFault> {
    if let Some(file) = bison_file(text, path, words.bison) {
        return answer_bison(rt, words, file);
    }
    let source = Source::new(rt.alloc(), text, path)?;
    let answered = answer_grammar(rt, words, &source);
    drop(source);
    answered
}

/// Reads the grammar and the lexer, and writes for each text its tree or its errors.
pub fn run<R: Files + io::Input + Print + Eprint + AllocGlobal>(
    rt: &R,
    words: &Words,
) -> Result<Outcome, ParseFault> {
    let grammar = read_file(rt, words, 0)?;
    answer_by_file(rt, words, grammar.as_str(), words.path(0))
}
