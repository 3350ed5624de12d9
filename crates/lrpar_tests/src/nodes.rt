//! A tree by rules as a text.

use crate::make::data;
use crate::same::same;
use crate::shown::sum_shown;
use cfg_base::symbol::RIdx;
use lrpar::{DefaultLexeme, Lexeme};
use std::test::*;

#[test]
fn nodes_are_shown(rt: HostRuntime) -> Result<(), Fail> {
    let data = data(rt.alloc(), "%start E %% E: T '+' E | T; T: 'ID';")?;
    let lexemes: (DefaultLexeme<u8>, DefaultLexeme<u8>, DefaultLexeme<u8>) = (
        DefaultLexeme::new(1, 0, 1),
        DefaultLexeme::new(0, 1, 1),
        DefaultLexeme::new(1, 2, 2),
    );
    let rules = (RIdx(1), RIdx(2));
    let text = sum_shown(rt.alloc(), data.grm(), "a+\u{E9}", rules, lexemes);
    drop(data);
    same(
        &rt,
        "tree",
        text?.as_str(),
        "E\n T\n  ID a\n + +\n E\n  T\n   ID \u{E9}\n",
    );
    Ok(())
}
