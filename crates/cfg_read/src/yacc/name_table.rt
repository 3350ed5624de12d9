//! What the names of a text mean: rules, tokens, or nothing.

ghost use Rattle.std.specs.Prelude.{◌≡◌, ◌++◌, ◌∷◌, [], ℕ, Bool, false, List, length, slice_get, Some, IfOk, OnOk, OnErr};
ghost use Rattle.std.specs.List.{list_any, IsDistinct};
ghost use Rattle.std.specs.Str.{bytes_eq};
ghost use Rattle.cfg_base.specs.SpanModel.{SpanModel};
ghost use Rattle.cfg_read.specs.NameTexts.{name_text};
ghost use Rattle.cfg_read.specs.NameTables.{known_of, no_names, nothing, is_marked, with_declared, with_rule_name, with_token};
ghost use Rattle.cfg_read.specs.Names.{is_among};
ghost use Rattle.cfg_read.specs.declared.yacc.name_table.Entry.{Entry};
ghost use Rattle.cfg_read.specs.AstModels.{named_spans};

use crate::yacc::name::{Name, NameSet};
use cfg_base::name_hasher::NameHasher;
use cfg_base::span::Span;
use indexmap::IndexMap;
use std::alloc::{AllocError, Global};
use std::marker::Model;

/// What a name means.
#[derive(Clone, Copy, PartialEq, Eq)]
pub(crate) struct Entry {
    /// Whether `%token` declares it.
    pub(crate) is_declared: bool,
    /// Whether a rule has it.
    pub(crate) is_rule: bool,
    /// Whether a token has it.
    pub(crate) is_token: bool,
    /// The index at which to look first for the rule, and for the token.
    pub(crate) rule: u32,
    pub(crate) token: u32,
}

/// A name that means nothing.
const NOTHING: Entry = Entry {
    is_declared: false,
    is_rule: false,
    is_token: false,
    rule: 0,
    token: 0,
};

/// The names of a text, what they mean, and the tokens with their first spans.
#[derive(Drop)]
pub(crate) struct NameTable {
    names: NameSet,
    entries: Vec<Entry>,
    rules_len: u32,
    tokens: IndexMap<String, Span, NameHasher>,
}

impl Model for NameTable {
    ghost use Rattle.cfg_read.specs.AstModels.{named_spans};
    ghost use Rattle.cfg_read.specs.NameTables.{TableParts, IsTable};

    ghost Value = { TableParts };

    ghost view = { λ t. record { names = t.names; entries = t.entries.items; tokens = named_spans t.tokens } };

    ghost invariant = { λ t. IsTable t.names t.entries.items (named_spans t.tokens) };
}

/// Puts a name that isn't there yet behind the others, as one that means nothing.
fn add(names: &mut NameSet, entries: &mut Vec<Entry>, name: &Name) -> Result<usize, AllocError>
    requires absent { list_any (bytes_eq (name_text name.now)) names.old ≡ false }
    requires size { length entries.old.items ≡ length names.old }
    ensures size { length entries.new.items ≡ length names.new }
    ensures marks { (mark : Entry → Bool) → mark nothing ≡ false → (q : List ℕ) → is_marked mark names.new entries.new.items q ≡ is_marked mark names.old entries.old.items q }
    ensures there { IfOk result (λ p. slice_get names.new p ≡ Some (name_text name.now)) }
    ensures unique { OnOk result (IsDistinct bytes_eq names.new) }
{
    entries.reserve(1)?;
    let place = names.put(name)?;
    entries.push(NOTHING).unwrap();
    Ok(place)
}

/// Returns the index of a name, which is put behind the others if it isn't there yet.
fn place_in(names: &mut NameSet, entries: &mut Vec<Entry>, name: &Name) -> Result<usize, AllocError>
    requires { length entries.old.items ≡ length names.old }
    ensures size { length entries.new.items ≡ length names.new }
    ensures marks { (mark : Entry → Bool) → mark nothing ≡ false → (q : List ℕ) → is_marked mark names.new entries.new.items q ≡ is_marked mark names.old entries.old.items q }
    ensures there { IfOk result (λ p. slice_get names.new p ≡ Some (name_text name.now)) }
    ensures unique { OnOk result (IsDistinct bytes_eq names.new) }
{
    match names.find(name) {
        Some(place) => Ok(place),
        None => add(names, entries, name),
    }
}

/// Puts a token with its span behind the others, and returns where to look for it.
fn add_token(
    tokens: &mut IndexMap<String, Span, NameHasher>,
    alloc: Global,
    name: &Name,
    span: Span,
) -> Result<u32, AllocError>
    requires { is_among (named_spans tokens.old) (name_text name.now) ≡ false }
    ensures added { OnOk result (named_spans tokens.new ≡ named_spans tokens.old ++ record { text = name_text name.now; span = span } ∷ []) }
    ensures kept { OnErr result (named_spans tokens.new ≡ named_spans tokens.old) }
{
    let number = tokens.len();
    let text = String::from_str(alloc, name.as_str())?;
    tokens.insert(text, span)?;
    Ok((number % 0x1_0000_0000) as u32)
}

impl NameTable {
    /// Makes a table of names that mean nothing, with room for `room` tokens.
    pub(crate) fn of(alloc: Global, names: NameSet, room: usize) -> Result<NameTable, AllocError>
        ensures { IfOk result (λ t. known_of t ≡ no_names) }
    {
        let entries = vec![in alloc; NOTHING; names.len()]?;
        let tokens = IndexMap::with_capacity_and_hasher(alloc, room, names.hasher())?;
        Ok(NameTable {
            names,
            entries,
            rules_len: 0,
            tokens,
        })
    }

    /// Returns what a name means.
    pub(crate) fn entry(&self, name: &Name) -> Entry
        ensures declared { result.is_declared ≡ (known_of self.now).declared (name_text name.now) }
        ensures rule { result.is_rule ≡ (known_of self.now).rules (name_text name.now) }
        ensures token { result.is_token ≡ is_among self.now.tokens (name_text name.now) }
    {
        match self.names.find(name) {
            Some(place) => self.entries[place],
            None => NOTHING,
        }
    }

    /// Notes that `%token` declares a name.
    pub(crate) fn note_declared(&mut self, name: &Name) -> Result<(), AllocError>
        ensures { (at : SpanModel) → OnOk result (known_of self.new ≡ with_declared (known_of self.old) (record { text = name_text name.now; span = at })) }
    {
        let place = place_in(&mut self.names, &mut self.entries, name)?;
        self.entries[place].is_declared = true;
        Ok(())
    }

    /// Notes that a rule has a name.
    pub(crate) fn note_rule(&mut self, name: &Name) -> Result<(), AllocError>
        ensures { (at : SpanModel) → OnOk result (known_of self.new ≡ with_rule_name (known_of self.old) (record { text = name_text name.now; span = at })) }
    {
        let place = place_in(&mut self.names, &mut self.entries, name)?;
        let entry = &mut self.entries[place];
        if !entry.is_rule {
            entry.is_rule = true;
            entry.rule = self.rules_len;
            self.rules_len = self.rules_len.wrapping_add(1);
        }
        Ok(())
    }

    /// Notes that a token has a name: its first span, and where to look for it, which it returns.
    pub(crate) fn note_token(
        &mut self,
        alloc: Global,
        name: &Name,
        span: Span,
    ) -> Result<u32, AllocError>
        ensures { OnOk result (known_of self.new ≡ with_token (known_of self.old) (record { text = name_text name.now; span = span })) }
    {
        let place = place_in(&mut self.names, &mut self.entries, name)?;
        let entry = &mut self.entries[place];
        if entry.is_token {
            return Ok(entry.token);
        }
        let number = add_token(&mut self.tokens, alloc, name, span)?;
        entry.is_token = true;
        entry.token = number;
        Ok(number)
    }

    /// Notes that a token has a name, as `note_token` does, where the name's entry is known.
    pub(crate) fn note_token_of(
        &mut self,
        alloc: Global,
        name: &Name,
        span: Span,
        entry: Entry,
    ) -> Result<u32, AllocError>
        requires { entry.is_token ≡ is_among self.old.tokens (name_text name.now) }
        ensures { OnOk result (known_of self.new ≡ with_token (known_of self.old) (record { text = name_text name.now; span = span })) }
    {
        if entry.is_token {
            return Ok(entry.token);
        }
        self.note_token(alloc, name, span)
    }

    /// Returns how many rules there are.
    pub(crate) fn rules_len(&self) -> usize {
        self.rules_len as usize
    }

    /// Returns the tokens, each with its first span.
    pub(crate) fn tokens(&self) -> &IndexMap<String, Span, NameHasher>
        ensures { named_spans result.now ≡ self.now.tokens }
    {
        &self.tokens
    }

    /// Returns the tokens, taken over.
    pub(crate) fn into_tokens(self) -> IndexMap<String, Span, NameHasher>
        ensures { named_spans result ≡ self.tokens }
    {
        self.tokens
    }
}
