//! Conflicts of a grammar under its text.

ghost use Rattle.state_table.specs.ConflictTexts.{ConflictsInRange};
ghost use Rattle.std.specs.Prelude.{IfSome};

use crate::lines::push_lines;
use cfg_read::yacc::ast::GrammarAST;
use cfgrammar::index::IndexStorage;
use cfgrammar::yacc::{ASTWithValidityInfo, YaccGrammar, YaccGrammarMakeError, YaccKind};
use lrpar_diagnostics::SpannedDiagnosticFormatter;
use lrtable::stategraph::StateGraph;
use lrtable::statetable::StateTable;
use lrtable::{FromYaccError, Minimiser, from_yacc};
use std::alloc::{AllocError, Global};

/// The conflicts of a grammar's table.
fn push_of_table<S: IndexStorage>(
    alloc: Global,
    out: &mut String,
    formatter: &SpannedDiagnosticFormatter,
    ast: &GrammarAST,
    grm: &YaccGrammar<S>,
    tables: &(StateGraph<S>, StateTable<S>),
) -> Result<(), AllocError>
    requires listed { IfSome tables.now.1.conflicts (ConflictsInRange grm.now) }
{
    match tables.1.conflicts() {
        Some(conflicts) => {
            let text = formatter.format_conflicts(
                alloc, grm, ast, conflicts, &tables.0, &tables.1,
            )?;
            push_lines(out, text.as_str())
        }
        None => out.push_str("no conflict\n"),
    }
}

fn push_of_grammar<S: IndexStorage>(
    alloc: Global,
    out: &mut String,
    formatter: &SpannedDiagnosticFormatter,
    ast: &GrammarAST,
    grm: &YaccGrammar<S>,
) -> Result<(), AllocError> {
    match from_yacc(alloc, grm, Minimiser::Pager) {
        Ok(tables) => {
            let pushed = push_of_table(alloc, out, formatter, ast, grm, &tables);
            drop(tables);
            pushed
        }
        Err(FromYaccError::Memory(e)) => Err(e),
        Err(_) => out.push_str("no table\n"),
    }
}

fn push_of_tree(
    alloc: Global,
    out: &mut String,
    formatter: &SpannedDiagnosticFormatter,
    info: &ASTWithValidityInfo,
) -> Result<(), AllocError> {
    match YaccGrammar::<u32>::new_from_ast_with_validity_info(alloc, info) {
        Ok(grm) => {
            let pushed = push_of_grammar(alloc, out, formatter, info.ast(), &grm);
            drop(grm);
            pushed
        }
        Err(YaccGrammarMakeError::Memory(e)) => Err(e),
        Err(_) => out.push_str("no grammar\n"),
    }
}

/// The conflicts of a text of a kind.
pub fn push_conflicts(
    alloc: Global,
    out: &mut String,
    formatter: &SpannedDiagnosticFormatter,
    kind: YaccKind,
    text: &str,
) -> Result<(), AllocError> {
    let info = ASTWithValidityInfo::new(alloc, kind, text)?;
    let pushed = push_of_tree(alloc, out, formatter, &info);
    drop(info);
    pushed
}
