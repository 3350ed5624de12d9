//! The index of a text.

ghost use Rattle.std.specs.Prelude.{◌≡◌, ◌≤◌, [], true, false, None, Contains, filter, length, IfOk, IfSome, OnOk};
ghost use Rattle.std.specs.List.{list_any};
ghost use Rattle.cfg_read.specs.SyntaxTexts.{SyntaxText};
ghost use Rattle.cfg_read.specs.SyntaxModels.{rule_of, syntax_of};
ghost use Rattle.cfg_read.specs.Reading.{Reads};
ghost use Rattle.grammar_index.specs.Occurrences.{AreHeadings, AreWithin, HasKind, IsIndexIn, at_word, is_heading, is_within, occurrences_of, touches};
ghost use Rattle.grammar_index.specs.declared.occurrence.Role.TheVariants.{Head};

use crate::asking::is_within;
use crate::listing::push_names;
use crate::mending::read_most;
use crate::occurrence::{Heading, Occurrence, Role};
use cfg_read::yacc::parser::syntax::{Alternative, Rule, Syntax};
use cfg_read::yacc::{YaccGrammarFailure, YaccKind, YaccOriginalActionKind, kind_of};
use cfg_sections::header::{GrmtoolsSectionParser, SectionError};
use std::alloc::{AllocError, Global};

/// Where a text names its rules and tokens.
#[derive(Debug, Drop)]
pub struct GrammarIndex {
    names: Vec<Occurrence>,
    headings: Vec<Heading>,
}

/// Returns the occurrences that are parts of a text of `len` bytes.
fn within(alloc: Global, found: &[Occurrence], len: usize) -> Result<Vec<Occurrence>, AllocError>
    ensures items { IfOk result (λ v. v.items ≡ filter (is_within len) found.now) }
    ensures within { IfOk result (λ v. AreWithin len v.items) }
{
    let mut names = Vec::new(alloc);
    'found: for one in found {
        if is_within(len, *one) {
            names.push(*one)?;
        }
    }
    Ok(names)
}

/// Returns all names of what was read of a text of `len` bytes.
fn names_of(alloc: Global, syntax: &Syntax, len: usize) -> Result<Vec<Occurrence>, AllocError>
    ensures items { IfOk result (λ v. v.items ≡ filter (is_within len) (occurrences_of (syntax_of syntax.now))) }
    ensures within { IfOk result (λ v. AreWithin len v.items) }
{
    let mut found = Vec::new(alloc);
    push_names(&mut found, syntax)?;
    within(alloc, found.as_slice(), len)
}

/// Returns the offset behind the last symbol of an alternative, or behind the text of its action.
fn end_of(one: &Alternative) -> usize {
    match one {
        Alternative::Blank(at) => *at,
        Alternative::Single(single) => single.span.end(),
        Alternative::Plain(plain) => plain.span.end(),
        Alternative::Body(body) => match &body.action {
            Some(action) => action.span.end(),
            None => body.span.end(),
        },
    }
}

/// Returns a heading with its alternatives.
fn heading_of(rule: &Rule) -> Heading
    ensures { result.name ≡ at_word Head (rule_of rule.now).name }
{
    let name = Occurrence {
        start: rule.span.start(),
        end: rule.span.end(),
        role: Role::Head,
    };
    let end = match rule.alternatives.last() {
        Some(last) => end_of(last),
        None => name.end,
    };
    Heading { name, end }
}

/// Returns the headings of what was read of a text of `len` bytes.
fn headings_of(alloc: Global, syntax: &Syntax, len: usize) -> Result<Vec<Heading>, AllocError>
    ensures { IfOk result (λ v. AreHeadings len v.items) }
{
    let mut headings = Vec::new(alloc);
    'rules: for rule in syntax.rules.as_slice() {
        let heading = heading_of(rule);
        if is_heading(len, heading) {
            headings.push(heading)?;
        }
    }
    Ok(headings)
}

/// Fills in the names and headings of what was read of a text of `len` bytes.
fn fill(
    alloc: Global,
    index: &mut GrammarIndex,
    syntax: &Syntax,
    len: usize,
) -> Result<(), AllocError>
    ensures names { OnOk result (index.new.names.items ≡ filter (is_within len) (occurrences_of (syntax_of syntax.now))) }
    ensures within { OnOk result (IsIndexIn len index.new.names.items index.new.headings.items) }
{
    index.names = names_of(alloc, syntax, len)?;
    index.headings = headings_of(alloc, syntax, len)?;
    Ok(())
}

/// Fills in the names and headings of a text of a kind from an offset on.
fn fill_from(
    alloc: Global,
    index: &mut GrammarIndex,
    kind: YaccKind,
    text: &str,
    start: usize,
) -> Result<(), AllocError>
    requires empty { IsIndexIn (length text.now) index.old.names.items index.old.headings.items }
    ensures within { OnOk result (IsIndexIn (length text.now) index.new.names.items index.new.headings.items) }
    ensures reading { (x : SyntaxText) → Reads kind text.now start x → OnOk result (index.new.names.items ≡ filter (is_within (length text.now)) (occurrences_of x)) }
{
    match read_most(alloc, kind, text, start)? {
        Some(syntax) => fill(alloc, index, &syntax, text.len()),
        None => Ok(()),
    }
}

/// Returns the kind that a text's section names, else that of Yacc's own syntax with trees; none where the section is faulty.
pub fn kind_in(alloc: Global, text: &str) -> Result<Option<YaccKind>, AllocError>
    ensures { IfOk result (λ o. IfSome o (HasKind text.now)) }
{
    match kind_of(alloc, text) {
        Ok(Some(kind)) => Ok(Some(kind)),
        Ok(None) => Ok(Some(YaccKind::Original(YaccOriginalActionKind::GenericParseTree))),
        Err(YaccGrammarFailure::Memory(e)) => Err(e),
        Err(YaccGrammarFailure::Invalid(_)) => Ok(None),
    }
}

/// Returns the offset behind a text's section, 0 where it has none; none where the section is faulty.
fn section_end(alloc: Global, text: &str) -> Result<Option<usize>, AllocError> {
    match GrmtoolsSectionParser::new(text, false).parse(alloc) {
        Ok((header, end)) => {
            drop(header);
            Ok(Some(end))
        }
        Err(SectionError::Memory(e)) => Err(e),
        Err(SectionError::Invalid(_)) => Ok(None),
    }
}

/// Fills in the names and headings of a text.
fn fill_text(alloc: Global, index: &mut GrammarIndex, text: &str) -> Result<(), AllocError>
    requires { IsIndexIn (length text.now) index.old.names.items index.old.headings.items }
    ensures { OnOk result (IsIndexIn (length text.now) index.new.names.items index.new.headings.items) }
{
    let (Some(kind), Some(start)) = (kind_in(alloc, text)?, section_end(alloc, text)?) else {
        return Ok(());
    };
    fill_from(alloc, index, kind, text, start)
}

impl GrammarIndex {
    /// Makes the index of an empty text.
    pub fn empty(alloc: Global) -> GrammarIndex
        ensures names { result.names.items ≡ [] }
        ensures headings { result.headings.items ≡ [] }
    {
        GrammarIndex {
            names: Vec::new(alloc),
            headings: Vec::new(alloc),
        }
    }

    /// Makes the index of a text. Where the text doesn't read, the rules or lines with its first faults are passed over.
    pub fn of_text(alloc: Global, text: &str) -> Result<GrammarIndex, AllocError>
        ensures { IfOk result (λ i. IsIndexIn (length text.now) i.names.items i.headings.items) }
    {
        let mut index = GrammarIndex::empty(alloc);
        match fill_text(alloc, &mut index, text) {
            Ok(()) => Ok(index),
            Err(e) => {
                drop(index);
                Err(e)
            }
        }
    }

    /// Returns all names, those of the declarations first.
    pub fn names(&self) -> &[Occurrence]
        ensures { result.now ≡ self.now.names.items }
    {
        self.names.as_slice()
    }

    /// Returns the headings, in the order of the text.
    pub fn headings(&self) -> &[Heading]
        ensures { result.now ≡ self.now.headings.items }
    {
        self.headings.as_slice()
    }

    /// Returns a name that has an offset within it or at one of its ends.
    pub fn at(&self, offset: usize) -> Option<Occurrence>
        ensures some { IfSome result (λ o. Contains self.now.names.items o × (touches offset o ≡ true)) }
        ensures none { result ≡ None → list_any (touches offset) self.now.names.items ≡ false }
    {
        'names: for one in self.names.as_slice() {
            if touches(offset, *one) {
                return Some(*one);
            }
        }
        None
    }
}

/// Returns whether an offset is within an occurrence or at one of its ends.
fn touches(offset: usize, one: Occurrence) -> bool
    ensures { result ≡ touches offset one }
{
    one.start <= offset && offset <= one.end
}

/// Returns whether a heading with its alternatives is a part of a text of `len` bytes.
fn is_heading(len: usize, one: Heading) -> bool
    ensures { result ≡ is_heading len one }
{
    is_within(len, one.name) && one.name.end <= one.end && one.end <= len
}
