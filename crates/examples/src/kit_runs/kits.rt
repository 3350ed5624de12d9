//! What texts yield: a kit with its counts, or why there is none.

use cfg_base::index::IndexStorage;
use cfg_read::yacc::{YaccGrammarError, YaccKind, YaccOriginalActionKind};
use parser_kit::{KitError, ParserKit};
use std::alloc::{AllocError, Global};

/// Yacc's own syntax, with trees.
const TREE: YaccKind = YaccKind::Original(YaccOriginalActionKind::GenericParseTree);

/// Returns the kit of a text of Yacc's own syntax with trees, or why there is none.
pub fn kit_of<S: IndexStorage>(alloc: Global, text: &str) -> Result<ParserKit<S>, KitError<S>> {
    ParserKit::<S>::new(alloc, text, TREE, 1000)
}

/// Returns how many conflicts are listed, of shifts and of pairs of reductions.
fn counts<S: IndexStorage>(kit: &ParserKit<S>) -> (usize, usize) {
    match kit.conflicts() {
        Some(conflicts) => (conflicts.sr_len(), conflicts.rr_len()),
        None => (0, 0),
    }
}

/// Returns the text of a kit.
fn kit_text<S: IndexStorage>(alloc: Global, kit: &ParserKit<S>) -> Result<String, AllocError> {
    let (sr, rr) = counts(kit);
    let complete = kit.complete();
    let productive = kit.all_productive();
    format!(in alloc; "{sr} {rr} {complete} {productive}")
}

/// Adds the spans of an error of a text.
fn push_spans(
    alloc: Global,
    text: &mut String,
    error: &YaccGrammarError,
) -> Result<(), AllocError> {
    for span in error.spans.as_slice() {
        let start = span.start();
        let end = span.end();
        text.push_str(format!(in alloc; " {start}-{end}")?.as_str())?;
    }
    Ok(())
}

/// Returns why there is none, and for each error of the grammar its spans behind a semicolon.
fn error_text<S: IndexStorage>(alloc: Global, error: &KitError<S>) -> Result<String, AllocError> {
    let mut text = format!(in alloc; "{error}")?;
    if let KitError::Grammar(errors) = error {
        for error in errors.as_slice() {
            text.push(';')?;
            push_spans(alloc, &mut text, error)?;
        }
    }
    Ok(text)
}

/// Returns the text of a kit, or of why there is none.
fn answer_of<S: IndexStorage>(
    alloc: Global,
    made: Result<ParserKit<S>, KitError<S>>,
) -> Result<String, AllocError> {
    let text = match &made {
        Ok(kit) => kit_text(alloc, kit),
        Err(KitError::Memory(e)) => Err(*e),
        Err(error) => error_text(alloc, error),
    };
    drop(made);
    text
}

/// Returns what comes of a text of Yacc's own syntax with trees.
fn answer_to<S: IndexStorage>(alloc: Global, text: &str) -> Result<String, AllocError> {
    answer_of(alloc, kit_of::<S>(alloc, text))
}

/// Returns what comes of a text whose section may tell its kind.
fn answer_by_section<S: IndexStorage>(alloc: Global, text: &str) -> Result<String, AllocError> {
    answer_of(alloc, ParserKit::<S>::of_text(alloc, text, 1000))
}

/// Texts of Yacc's own syntax. Of each there is told how many conflicts are listed, of shifts and of pairs of reductions, whether
/// the table is complete and each rule productive; or its errors with their spans.
const TEXTS: &[&str] = &[
    "%start S %% S: 'a' A 'd' | 'b' B 'd' | 'a' B 'e' | 'b' A 'e'; A: 'c'; B: 'c';",
    "%start E %% E: E '+' E | 'n';",
    "%start S %% S: A 'x' 'y' | B 'x' 'z'; A: 'a'; B: 'a';",
    "%start S %% S: S | 'x';",
    "%start S %% S: S;",
    "%nonassoc 'a'\n%nonassoc 'p'\n%start S %% S: E S 'b' | 'a'; E: %prec 'p';",
    "%start S %% A: B; B: A | 'x'; S: A;",
    "%start S %% S: T;",
    "%start S %% S: T U | 'a';",
    "%start S %% S: 'a' U | 'b'; U: 'u' U;",
    "%start S %% S: U; U: U 'x';",
    "%start S %% S: A; A: B; B: A | 'x';",
    "%start S",
    "%% S: 'a'",
    "",
    "%start S %start S %% S: 'a';",
    "%start A %% A : 'a' 'b' | B 'b'; B : 'a' | C; C : 'a';",
    "%left '+'\n%left '*'\n%start E %% E: E '+' E | E '*' E | 'n';",
];

/// Texts with a section and without.
const SECTIONS: &[&str] = &[
    "%grmtools{yacckind: Eco}\n%implicit_tokens ws\n%% S: 'a' 'b';",
    "%implicit_tokens ws\n%% S: 'a' 'b';",
    "%grmtools{yacckind: Foo} %% S: 'a';",
    "%% S: 'a';",
];

/// Adds an answer, and those at two and at four bytes where they are others.
pub fn push_answers(
    out: &mut String,
    narrow: &str,
    middle: &str,
    wide: &str,
) -> Result<(), AllocError> {
    out.push_str(narrow)?;
    out.push('\n')?;
    if middle != narrow {
        out.push_str("by u16: ")?;
        out.push_str(middle)?;
        out.push('\n')?;
    }
    if wide != narrow {
        out.push_str("by u32: ")?;
        out.push_str(wide)?;
        out.push('\n')?;
    }
    Ok(())
}

/// Adds a text and what comes of it.
fn push_text(alloc: Global, out: &mut String, text: &str) -> Result<(), AllocError> {
    out.push_str(text)?;
    out.push('\n')?;
    let narrow = answer_to::<u8>(alloc, text)?;
    let middle = answer_to::<u16>(alloc, text)?;
    let wide = answer_to::<u32>(alloc, text)?;
    push_answers(out, narrow.as_str(), middle.as_str(), wide.as_str())
}

/// Adds a text that may have a section, and what comes of it.
fn push_section(alloc: Global, out: &mut String, text: &str) -> Result<(), AllocError> {
    out.push_str(text)?;
    out.push('\n')?;
    out.push_str(answer_by_section::<u8>(alloc, text)?.as_str())?;
    out.push('\n')
}

/// Returns a text whose one production is a token this many times.
fn symbols_text(alloc: Global, count: usize) -> Result<String, AllocError> {
    let mut text = String::from_str(alloc, "%start S %% S:")?;
    for _ in 0..count {
        text.push_str(" 'a'")?;
    }
    text.push(';')?;
    Ok(text)
}

/// Adds what comes of a production of this many symbols with numbers of eight bits.
fn push_number(alloc: Global, out: &mut String, count: usize) -> Result<(), AllocError> {
    let text = symbols_text(alloc, count)?;
    let answer = answer_to::<u8>(alloc, text.as_str())?;
    out.push_str(format!(in alloc; "{count} symbols: {answer}\n")?.as_str())
}

/// Adds what comes of each text.
pub fn push_kits(alloc: Global, out: &mut String) -> Result<(), AllocError> {
    for text in TEXTS {
        push_text(alloc, out, text)?;
    }
    for text in SECTIONS {
        push_section(alloc, out, text)?;
    }
    for count in [253, 254, 256] {
        push_number(alloc, out, count)?;
    }
    Ok(())
}
