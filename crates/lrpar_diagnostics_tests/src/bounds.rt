//! Formatters by their trait, and the lines that a formatter lends.

use crate::same::same;
use cfg_base::span::{Span, Spanned, SpansKind};
use lrpar_diagnostics::{DiagnosticFormatter, SpannedDiagnosticFormatter};
use std::alloc::{AllocError, Global};
use std::error::Error;
use std::fmt;
use std::fmt::{Display, Formatter, Write};

/// An error without a place.
#[derive(Debug, Drop)]
struct Nowhere;

impl Display for Nowhere {
    fn fmt<W: Write>(&self, f: &mut Formatter<W>) -> fmt::Result {
        write!(f, "Fault")
    }
}

impl Error for Nowhere {}

impl Spanned for Nowhere {
    ghost use Rattle.std.specs.Prelude.{[]};
    ghost use Rattle.cfg_base.specs.declared.span.SpansKind.TheVariants.{Error};

    ghost spans_of = { λ e. [] };

    ghost spanskind_of = { λ e. Error };

    fn spans(&self) -> &[Span] {
        &[]
    }

    fn spanskind(&self) -> SpansKind {
        SpansKind::Error
    }
}

/// An error and a warning by any formatter.
fn both<D: DiagnosticFormatter, E: Spanned + Error>(
    alloc: Global,
    formatter: &D,
    e: &E,
) -> Result<(String, String), AllocError> {
    let error = formatter.format_error(alloc, e)?;
    let warning = formatter.format_warning(alloc, e)?;
    Ok((error, warning))
}

#[test]
fn formatters_go_by_their_trait(rt: HostRuntime) -> Result<(), AllocError> {
    let formatter = SpannedDiagnosticFormatter::new(rt.alloc(), "a\nb", "g.y")?;
    let (error, warning) = both(rt.alloc(), &formatter, &Nowhere)?;
    same(&rt, "error", error.as_str(), "");
    same(&rt, "warning", warning.as_str(), "");
    Ok(())
}

#[test]
fn lines_are_lent(rt: HostRuntime) -> Result<(), AllocError> {
    let formatter = SpannedDiagnosticFormatter::new(rt.alloc(), "a\nb\n", "g.y")?;
    same(&rt, "2", formatter.nlc().byte_to_line_num(2), Some(2));
    same(&rt, "5", formatter.nlc().byte_to_line_num(5), None);
    Ok(())
}
