//! The members that the parse of a text has as a JSON object.

ghost use Rattle.report_forms.specs.ParseTexts.{WritesNode, WritesParse, WritesStep, WritesTextError};

use crate::members::write_member;
use crate::parse_values::{Parse, Step, TextError, TreeNode};
use serde::{Described, Serialize, Serializer};

impl<'a> Described for Step<'a> {
    ghost writes = { WritesStep };
}

impl<'a> Serialize for Step<'a> {
    fn serialize<S: Serializer>(&self, out: &mut S) -> Result<(), S::Error> {
        out.begin_map(None)?;
        write_member("edit", &self.edit, out)?;
        write_member("token", &self.token, out)?;
        write_member("text", &self.text, out)?;
        out.end_map()
    }
}

impl<'a> Described for TextError<'a> {
    ghost writes = { WritesTextError };
}

impl<'a> Serialize for TextError<'a> {
    fn serialize<S: Serializer>(&self, out: &mut S) -> Result<(), S::Error> {
        out.begin_map(None)?;
        write_member("message", &self.message, out)?;
        write_member("range", &self.range, out)?;
        write_member("expected", &self.expected, out)?;
        write_member("repairs", &self.repairs, out)?;
        out.end_map()
    }
}

impl<'a> Described for TreeNode<'a> {
    ghost writes = { WritesNode };
}

impl<'a> Serialize for TreeNode<'a> {
    fn serialize<S: Serializer>(&self, out: &mut S) -> Result<(), S::Error> {
        out.begin_map(None)?;
        write_member("kind", &self.kind, out)?;
        write_member("name", &self.name, out)?;
        write_member("start", &self.start, out)?;
        write_member("end", &self.end, out)?;
        write_member("parent", &self.parent, out)?;
        write_member("text", &self.text, out)?;
        out.end_map()
    }
}

impl<'a> Described for Parse<'a> {
    ghost writes = { WritesParse };
}

impl<'a> Serialize for Parse<'a> {
    fn serialize<S: Serializer>(&self, out: &mut S) -> Result<(), S::Error> {
        out.begin_map(None)?;
        write_member("version", &self.version, out)?;
        write_member("path", &self.path, out)?;
        write_member("line", &self.line, out)?;
        write_member("errors", &self.errors, out)?;
        write_member("tree", &self.tree, out)?;
        write_member("next", &self.next, out)?;
        out.end_map()
    }
}
