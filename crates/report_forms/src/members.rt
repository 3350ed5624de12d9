//! The members that each value has as a JSON object.

ghost use Rattle.std.specs.Prelude.{OnOk};
ghost use Rattle.report_forms.specs.ObjectTexts.{Member, MemberIf, WritesAction, WritesConflict, WritesCounts, WritesExample, WritesObject, WritesPlace, WritesProduction, WritesRange, WritesSaid};

use crate::values::{Action, Conflict, Counts, Example, Object, Place, Production, Range, Said};
use serde::{Case, Described, Serialize, Serializer};

/// Writes a member: its key, and then its value.
pub(crate) fn write_member<T: Serialize, S: Serializer>(
    key: &str,
    value: &T,
    out: &mut S,
) -> Result<(), S::Error>
    ensures { OnOk result (Member key.now (T.writes value.now) (S.written out.old) (S.written out.new)) }
{
    out.key_cased(key, Case::AsIs)?;
    value.serialize(out)
}

/// Writes a member, if it has a value.
fn write_member_if<S: Serializer>(
    key: &str,
    value: Option<usize>,
    out: &mut S,
) -> Result<(), S::Error>
    ensures { OnOk result (MemberIf key.now value (S.written out.old) (S.written out.new)) }
{
    match value {
        Some(value) => write_member(key, &value, out),
        None => Ok(()),
    }
}

impl Described for Place {
    ghost writes = { WritesPlace };
}

impl Serialize for Place {
    fn serialize<S: Serializer>(&self, out: &mut S) -> Result<(), S::Error> {
        out.begin_map(None)?;
        write_member("byte", &self.byte, out)?;
        write_member("line", &self.line, out)?;
        write_member("column", &self.column, out)?;
        write_member("utf16_column", &self.utf16_column, out)?;
        out.end_map()
    }
}

impl Described for Range {
    ghost writes = { WritesRange };
}

impl Serialize for Range {
    fn serialize<S: Serializer>(&self, out: &mut S) -> Result<(), S::Error> {
        out.begin_map(None)?;
        write_member("start", &self.start, out)?;
        write_member("end", &self.end, out)?;
        out.end_map()
    }
}

impl Described for Said {
    ghost writes = { WritesSaid };
}

impl Serialize for Said {
    fn serialize<S: Serializer>(&self, out: &mut S) -> Result<(), S::Error> {
        out.begin_map(None)?;
        write_member("severity", &self.severity, out)?;
        write_member("message", &self.message, out)?;
        write_member("range", &self.range, out)?;
        write_member("help", &self.help, out)?;
        write_member("example", &self.example, out)?;
        out.end_map()
    }
}

impl Described for Production {
    ghost writes = { WritesProduction };
}

impl Serialize for Production {
    fn serialize<S: Serializer>(&self, out: &mut S) -> Result<(), S::Error> {
        out.begin_map(None)?;
        write_member("production", &self.production, out)?;
        write_member_if("dot", self.dot, out)?;
        write_member("range", &self.range, out)?;
        out.end_map()
    }
}

impl Described for Action {
    ghost writes = { WritesAction };
}

impl Serialize for Action {
    fn serialize<S: Serializer>(&self, out: &mut S) -> Result<(), S::Error> {
        out.begin_map(None)?;
        write_member("spine", &self.spine, out)?;
        write_member("steps", &self.steps, out)?;
        out.end_map()
    }
}

impl Described for Example {
    ghost writes = { WritesExample };
}

impl Serialize for Example {
    fn serialize<S: Serializer>(&self, out: &mut S) -> Result<(), S::Error> {
        out.begin_map(None)?;
        write_member("symbols", &self.symbols, out)?;
        write_member("token", &self.token, out)?;
        write_member("first", &self.first, out)?;
        write_member("second", &self.second, out)?;
        out.end_map()
    }
}

impl Described for Conflict {
    ghost writes = { WritesConflict };
}

impl Serialize for Conflict {
    fn serialize<S: Serializer>(&self, out: &mut S) -> Result<(), S::Error> {
        out.begin_map(None)?;
        write_member("kind", &self.kind, out)?;
        write_member("tokens", &self.tokens, out)?;
        write_member("states", &self.states, out)?;
        write_member("productions", &self.productions, out)?;
        write_member("shift", &self.shift, out)?;
        write_member("example", &self.example, out)?;
        out.end_map()
    }
}

impl Described for Counts {
    ghost writes = { WritesCounts };
}

impl Serialize for Counts {
    fn serialize<S: Serializer>(&self, out: &mut S) -> Result<(), S::Error> {
        out.begin_map(None)?;
        write_member("rules", &self.rules, out)?;
        write_member("tokens", &self.tokens, out)?;
        write_member("productions", &self.productions, out)?;
        write_member("states", &self.states, out)?;
        write_member("shift_reduce", &self.shift_reduce, out)?;
        write_member("reduce_reduce", &self.reduce_reduce, out)?;
        write_member("expected_shift_reduce", &self.expected_shift_reduce, out)?;
        write_member("expected_reduce_reduce", &self.expected_reduce_reduce, out)?;
        out.end_map()
    }
}

impl Described for Object {
    ghost writes = { WritesObject };
}

impl Serialize for Object {
    fn serialize<S: Serializer>(&self, out: &mut S) -> Result<(), S::Error> {
        out.begin_map(None)?;
        write_member("version", &self.version, out)?;
        write_member("status", &self.status, out)?;
        write_member("errors", &self.errors, out)?;
        write_member("warnings", &self.warnings, out)?;
        write_member("conflicts", &self.conflicts, out)?;
        write_member("counts", &self.counts, out)?;
        write_member("notes", &self.notes, out)?;
        out.end_map()
    }
}
