//! What is printed of a text.

ghost use Rattle.std.specs.Prelude.{◌<◌, ◌≡◌};

use crate::shortest::cheapest;
use crate::text_errors::grammar;
use cfgrammar::TIdx;
use cfgrammar::index::IndexStorage;
use cfgrammar::yacc::{NumberedGrammar, SentenceGenerator, YaccGrammar};
use std::alloc::{AllocError, Global};

fn push_list<S: IndexStorage>(
    grm: &NumberedGrammar<S>,
    list: &[TIdx<S>],
    line: &mut String,
) -> Result<(), AllocError> {
    for tidx in list {
        if grm.has_token(*tidx) {
            line.push_str(" ")?;
            line.push_str(grm.token_epp(*tidx).unwrap_or("$"))?;
        }
    }
    Ok(())
}

/// Returns a line for each rule, the added start rule `^` among them.
fn lines<S: IndexStorage>(
    alloc: Global,
    grm: &NumberedGrammar<S>,
    sentences: &SentenceGenerator<'_, S>,
) -> Result<String, AllocError>
    requires { sentences.now.grammar ≡ grm.now.grammar }
{
    let mut out = String::new(alloc);
    for number in 0..usize::from(grm.rules_len()) {
        let ridx = grm.rule_at(number);
        out.push_str(grm.rule_name_str(ridx))?;
        match cheapest(alloc, sentences, ridx)? {
            Some(list) => push_list(grm, &list, &mut out)?,
            None => out.push_str(" derives nothing")?,
        }
        out.push_str("\n")?;
    }
    Ok(out)
}

/// Returns a shortest list of each rule: each token costs 1.
fn lists_report<S: IndexStorage>(
    alloc: Global,
    grm: &YaccGrammar<S>,
) -> Result<String, AllocError> {
    let sentences = grm.sentence_generator(alloc, |_token| 1)?;
    let report = lines(alloc, grm, &sentences);
    drop(sentences);
    report
}

/// Returns the lists of a text's grammar, or why it has none.
pub fn report_on(alloc: Global, text: &str) -> Result<String, AllocError> {
    match grammar(alloc, text)? {
        Ok(grm) => {
            let report = lists_report(alloc, &grm);
            drop(grm);
            report
        }
        Err(report) => Ok(report),
    }
}
