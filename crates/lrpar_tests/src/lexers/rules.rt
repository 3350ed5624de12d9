//! Rules and the grammar that they are bound to.

use crate::same::same;
use lrlex::LexRules;
use maximal_munch::Target;
use std::alloc::{AllocError, Global};
use std::test::*;

/// Tokens `NUMBER`, `+`, `*`, `(`, `)`, `IF`, `ID`, `=` and `==`, with the numbers from 0 to 8.
pub const TOKENS: &str =
    "%token 'NUMBER' '+' '*' '(' ')' 'IF' 'ID' '=' '==' %start E %% E: E '+' T | T; T: T '*' F | F; F: '(' E ')' | 'NUMBER' | 'IF' | 'ID' | '=' | '==';";

/// A rule: its expression, its name, the start conditions that it is limited to, and what it does to the stack of these.
#[derive(Clone, Copy)]
pub struct Row {
    pub expression: &'static str,
    pub name: Option<&'static str>,
    pub conditions: &'static [usize],
    pub target: Target,
}

/// Adds a row behind the rules that are there.
fn push_row(alloc: Global, rules: &mut LexRules, row: Row) -> Result<(), Fail> {
    let mut conditions = Vec::new(alloc);
    conditions.extend_from_slice(row.conditions)?;
    rules.push(alloc, row.expression, row.name, conditions, row.target)?;
    Ok(())
}

/// Adds condition 0, condition 1, which is exclusive, and the rows.
fn push_rows(alloc: Global, rules: &mut LexRules, rows: &[Row]) -> Result<(), Fail> {
    rules.push_condition(false)?;
    rules.push_condition(true)?;
    for row in rows {
        push_row(alloc, rules, *row)?;
    }
    Ok(())
}

/// Makes the rules of rows, with condition 0 and condition 1, which is exclusive.
pub fn rules_of(alloc: Global, rows: &[Row]) -> Result<LexRules, Fail> {
    let mut rules = LexRules::new(alloc);
    match push_rows(alloc, &mut rules, rows) {
        Ok(()) => Ok(rules),
        Err(fail) => {
            drop(rules);
            Err(fail)
        }
    }
}

/// A lexer file in which what stands between `/*` and `*/` is skipped.
const COMMENTS: &str = "%x COMMENT
%%
[0-9]+ 'NUMBER'
\\s+ ;
/\\* <+COMMENT>;
<COMMENT>\\*/ <-COMMENT>;
<COMMENT>. ;
";

/// Returns how many rules a lexer file has, and how many of them have a name; nothing where it gives no rules.
fn counts(alloc: Global, text: &str) -> Option<(usize, usize)> {
    let Ok(rules) = LexRules::from_text(alloc, text) else {
        return None;
    };
    let mut named: usize = 0;
    for name in rules.names() {
        if name.is_some() {
            named = named.saturating_add(1);
        }
    }
    Some((rules.names().len(), named))
}

/// Returns a lexer file with so many rules.
fn large_file(alloc: Global, count: usize) -> Result<String, AllocError> {
    let mut text = String::from_str(alloc, "%%\n")?;
    for number in 0..count {
        text.push_str(format!(in alloc; "a{number} \"T{number}\"\n")?.as_str())?;
    }
    Ok(text)
}

#[test]
fn rules_of_files(rt: HostRuntime) -> Result<(), Fail> {
    let alloc = rt.alloc();
    let large = large_file(alloc, 500)?;
    same(&rt, "comments", counts(alloc, COMMENTS), Some((5, 1)));
    same(
        &rt,
        "many rules",
        counts(alloc, large.as_str()),
        Some((500, 500)),
    );
    same(&rt, "no mark", counts(alloc, "[0-9] 'N'\n"), None);
    same(&rt, "an open class", counts(alloc, "%%\n[0-9 'N'\n"), None);
    Ok(())
}
