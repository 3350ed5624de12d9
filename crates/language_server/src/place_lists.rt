//! Places of a name as JSON. There are as many as a text has room for, so each is written by few calls, and nothing is copied for it.

ghost use Rattle.std.specs.Prelude.{codes, OnOk};
ghost use Rattle.serde.specs.Event.{WritesSeq};
ghost use Rattle.language_server.specs.Texts.{Member, WritesEdit, WritesHighlight, WritesLocation, WritesPlace, WritesRange};

use crate::answers::{Edits, Highlights, Places, Range};
use crate::places::Position;
use serde::{Case, Described, Serialize, Serializer};

/// Writes the member with a place.
pub(crate) fn write_place<S: Serializer>(
    key: &str,
    place: Position,
    out: &mut S,
) -> Result<(), S::Error>
    ensures { OnOk result (Member key.now (WritesPlace place) (S.written out.old) (S.written out.new)) }
{
    out.key_cased(key, Case::AsIs)?;
    out.begin_map(None)?;
    out.key_cased("line", Case::AsIs)?;
    out.u64(place.line)?;
    out.key_cased("character", Case::AsIs)?;
    out.u64(place.character)?;
    out.end_map()
}

/// Writes the member with a range.
fn write_range<S: Serializer>(range: Range, out: &mut S) -> Result<(), S::Error>
    ensures { OnOk result (Member (codes "range") (WritesRange range) (S.written out.old) (S.written out.new)) }
{
    out.key_cased("range", Case::AsIs)?;
    out.begin_map(None)?;
    write_place("start", range.start, out)?;
    write_place("end", range.end, out)?;
    out.end_map()
}

/// Writes a location of a document.
fn write_location<S: Serializer>(uri: &str, range: Range, out: &mut S) -> Result<(), S::Error>
    ensures { OnOk result (WritesLocation uri.now range (S.written out.old) (S.written out.new)) }
{
    out.begin_map(None)?;
    out.key_cased("uri", Case::AsIs)?;
    out.str(uri)?;
    write_range(range, out)?;
    out.end_map()
}

/// Writes a range to highlight.
fn write_highlight<S: Serializer>(range: Range, out: &mut S) -> Result<(), S::Error>
    ensures { OnOk result (WritesHighlight range (S.written out.old) (S.written out.new)) }
{
    out.begin_map(None)?;
    write_range(range, out)?;
    out.end_map()
}

/// Writes an edit.
fn write_edit<S: Serializer>(new_text: &str, range: Range, out: &mut S) -> Result<(), S::Error>
    ensures { OnOk result (WritesEdit new_text.now range (S.written out.old) (S.written out.new)) }
{
    out.begin_map(None)?;
    write_range(range, out)?;
    out.key_cased("newText", Case::AsIs)?;
    out.str(new_text)?;
    out.end_map()
}

/// Writes the locations of a document.
fn write_locations<S: Serializer>(uri: &str, ranges: &[Range], out: &mut S) -> Result<(), S::Error>
    ensures { OnOk result (WritesSeq (WritesLocation uri.now) ranges.now (S.written out.old) (S.written out.new)) }
{
    out.begin_seq(Some(ranges.len()))?;
    'all: for range in ranges {
        write_location(uri, *range, out)?;
    }
    out.end_seq()
}

/// Writes ranges to highlight.
fn write_highlights<S: Serializer>(ranges: &[Range], out: &mut S) -> Result<(), S::Error>
    ensures { OnOk result (WritesSeq WritesHighlight ranges.now (S.written out.old) (S.written out.new)) }
{
    out.begin_seq(Some(ranges.len()))?;
    'all: for range in ranges {
        write_highlight(*range, out)?;
    }
    out.end_seq()
}

/// Writes the edits of ranges.
fn write_edits<S: Serializer>(new_text: &str, ranges: &[Range], out: &mut S) -> Result<(), S::Error>
    ensures { OnOk result (WritesSeq (WritesEdit new_text.now) ranges.now (S.written out.old) (S.written out.new)) }
{
    out.begin_seq(Some(ranges.len()))?;
    'all: for range in ranges {
        write_edit(new_text, *range, out)?;
    }
    out.end_seq()
}

impl Described for Places {
    ghost use Rattle.language_server.specs.Texts.{WritesPlaces};

    ghost writes = { WritesPlaces };
}

impl Serialize for Places {
    fn serialize<S: Serializer>(&self, out: &mut S) -> Result<(), S::Error> {
        write_locations(self.uri.as_str(), self.ranges.as_slice(), out)
    }
}

impl Described for Highlights {
    ghost use Rattle.language_server.specs.Texts.{WritesHighlights};

    ghost writes = { WritesHighlights };
}

impl Serialize for Highlights {
    fn serialize<S: Serializer>(&self, out: &mut S) -> Result<(), S::Error> {
        write_highlights(self.ranges.as_slice(), out)
    }
}

impl Described for Edits {
    ghost use Rattle.language_server.specs.Texts.{WritesEdits};

    ghost writes = { WritesEdits };
}

impl Serialize for Edits {
    fn serialize<S: Serializer>(&self, out: &mut S) -> Result<(), S::Error> {
        out.begin_map(None)?;
        out.key_cased("changes", Case::AsIs)?;
        out.begin_map(None)?;
        out.key_cased(self.uri.as_str(), Case::AsIs)?;
        write_edits(self.new_text.as_str(), self.ranges.as_slice(), out)?;
        out.end_map()?;
        out.end_map()
    }
}
