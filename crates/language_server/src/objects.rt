//! Objects of answers as JSON.

use crate::answers::{Contents, Fold, Hover, Item, Range, Symbol};
use crate::nested::write_members;
use crate::place_lists::write_place;
use crate::texts::write_member;
use serde::{Described, Serialize, Serializer};

impl Described for Range {
    ghost use Rattle.language_server.specs.Texts.{WritesRange};

    ghost writes = { WritesRange };
}

impl Serialize for Range {
    fn serialize<S: Serializer>(&self, out: &mut S) -> Result<(), S::Error> {
        out.begin_map(None)?;
        write_place("start", self.start, out)?;
        write_place("end", self.end, out)?;
        out.end_map()
    }
}

impl Described for Symbol {
    ghost use Rattle.language_server.specs.Texts.{WritesSymbol};

    ghost writes = { WritesSymbol };
}

impl Serialize for Symbol {
    fn serialize<S: Serializer>(&self, out: &mut S) -> Result<(), S::Error> {
        out.begin_map(None)?;
        write_members(self, out)?;
        out.end_map()
    }
}

impl Described for Fold {
    ghost use Rattle.language_server.specs.Texts.{WritesFold};

    ghost writes = { WritesFold };
}

impl Serialize for Fold {
    fn serialize<S: Serializer>(&self, out: &mut S) -> Result<(), S::Error> {
        out.begin_map(None)?;
        write_member("startLine", &self.start_line, out)?;
        write_member("endLine", &self.end_line, out)?;
        out.end_map()
    }
}

impl Described for Item {
    ghost use Rattle.language_server.specs.Texts.{WritesItem};

    ghost writes = { WritesItem };
}

impl Serialize for Item {
    fn serialize<S: Serializer>(&self, out: &mut S) -> Result<(), S::Error> {
        out.begin_map(None)?;
        write_member("label", &self.label, out)?;
        write_member("kind", &self.kind, out)?;
        out.end_map()
    }
}

impl Described for Contents {
    ghost use Rattle.language_server.specs.Texts.{WritesContents};

    ghost writes = { WritesContents };
}

impl Serialize for Contents {
    fn serialize<S: Serializer>(&self, out: &mut S) -> Result<(), S::Error> {
        out.begin_map(None)?;
        write_member("kind", &self.kind, out)?;
        write_member("value", &self.value, out)?;
        out.end_map()
    }
}

impl Described for Hover {
    ghost use Rattle.language_server.specs.Texts.{WritesHover};

    ghost writes = { WritesHover };
}

impl Serialize for Hover {
    fn serialize<S: Serializer>(&self, out: &mut S) -> Result<(), S::Error> {
        out.begin_map(None)?;
        write_member("contents", &self.contents, out)?;
        write_member("range", &self.range, out)?;
        out.end_map()
    }
}
