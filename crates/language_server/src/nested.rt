//! An outline that is a tree, as JSON: each symbol has a list of those below it. Nothing recurses.

ghost use Rattle.std.specs.Prelude.{OnOk};
ghost use Rattle.language_server.specs.Texts.{ClosesSymbols, OpensSymbol, WritesMembers, WritesNested};

use crate::answers::{Nested, Outline, Symbol};
use crate::texts::write_member;
use serde::{Case, Described, Serialize, Serializer};

/// Writes the members of a symbol but those below it.
pub(crate) fn write_members<S: Serializer>(symbol: &Symbol, out: &mut S) -> Result<(), S::Error>
    ensures { OnOk result (WritesMembers symbol.now (S.written out.old) (S.written out.new)) }
{
    write_member("name", &symbol.name, out)?;
    write_member("kind", &symbol.kind, out)?;
    write_member("range", &symbol.range, out)?;
    write_member("selectionRange", &symbol.selection_range, out)
}

/// Writes a symbol up to those below it, which come next.
fn open_symbol<S: Serializer>(symbol: &Symbol, out: &mut S) -> Result<(), S::Error>
    ensures { OnOk result (OpensSymbol symbol.now (S.written out.old) (S.written out.new)) }
{
    out.begin_map(None)?;
    write_members(symbol, out)?;
    out.key_cased("children", Case::AsIs)?;
    out.begin_seq(None)
}

/// Ends `count` symbols, each within the next one.
fn close_symbols<S: Serializer>(count: usize, out: &mut S) -> Result<(), S::Error>
    ensures { OnOk result (ClosesSymbols count (S.written out.old) (S.written out.new)) }
{
    'symbols: for _ in 0..count {
        out.end_seq()?;
        out.end_map()?;
    }
    Ok(())
}

/// Writes the symbols of a tree.
fn write_nested<S: Serializer>(symbols: &[Nested], out: &mut S) -> Result<(), S::Error>
    ensures { OnOk result (WritesNested 0 symbols.now (S.written out.old) (S.written out.new)) }
{
    let mut left: usize = 0;
    'symbols: for index in 0..symbols.len() {
        let one = &symbols[index];
        let depth = one.depth.min(left);
        close_symbols(left - depth, out)?;
        open_symbol(&one.symbol, out)?;
        left = depth + 1;
    }
    close_symbols(left, out)
}

impl Described for Outline {
    ghost use Rattle.language_server.specs.Texts.{WritesOutline};

    ghost writes = { WritesOutline };
}

impl Serialize for Outline {
    fn serialize<S: Serializer>(&self, out: &mut S) -> Result<(), S::Error> {
        out.begin_seq(None)?;
        write_nested(self.symbols.as_slice(), out)?;
        out.end_seq()
    }
}
