//! The names of a file, what they stand for, and how the profile spells them.

use crate::errors::{Fault, ImportError};
use crate::notes::{cut, text_of};
use crate::roles::{Part, Role};
use crate::tokens::{Kind, Token};
use bison_rules::code_of;
use cfg_base::name_hasher::NameHasher;
use indexmap::{IndexMap, IndexSet};
use std::alloc::{AllocError, Global};

/// The names of a file. A token's key is its name, or the string or character that stands for it where it has none.
#[derive(Drop)]
pub(crate) struct Names<'a> {
    text: &'a str,
    /// The names of the tokens that strings stand for.
    aliases: IndexMap<&'a str, &'a str, NameHasher>,
    /// Characters by their codes, each as it is spelled first.
    characters: IndexMap<u8, &'a str>,
    /// All names of the file, where one of them has a dash; else none.
    names: IndexSet<&'a str, NameHasher>,
    /// Names of rules.
    heads: IndexSet<&'a str, NameHasher>,
    /// Tokens that `%token` declares.
    declared: IndexSet<&'a str, NameHasher>,
    /// Keys of tokens with a precedence.
    leveled: IndexSet<&'a str, NameHasher>,
    /// Tokens that are to be declared.
    pub late: IndexSet<&'a str, NameHasher>,
    /// Names with dashes as the profile spells them, and in the file.
    dashed: IndexMap<String, &'a str, NameHasher>,
}

/// Returns a string without the `_( .. )` around it.
fn inner_string(raw: &str) -> &str {
    match raw.strip_prefix("_(") {
        Some(rest) => rest.strip_suffix(")").unwrap_or(rest),
        None => raw,
    }
}

/// Returns a text without its first and its last byte.
fn inner(raw: &str) -> &str {
    cut(raw, 1, raw.len().saturating_sub(1))
}

/// Returns the code of a character in single quotes.
fn code_of_quoted(raw: &str) -> Option<u8> {
    code_of(inner(raw).as_bytes())
}

/// Returns whether a name is one of Bison's own tokens.
fn is_predefined(name: &str) -> bool {
    matches!(name.as_bytes().first(), Some(b'e' | b'Y'))
        && matches!(name, "error" | "YYEOF" | "YYerror" | "YYUNDEF")
}

/// Returns whether a name has a dash.
fn has_dash(name: &str) -> bool {
    name.as_bytes().contains(&b'-')
}

/// Returns a name with underscores in place of its dashes.
pub(crate) fn with_underscores(alloc: Global, name: &str) -> Result<String, AllocError> {
    let mut spelled = String::new(alloc);
    for c in name.chars() {
        spelled.push(if c == '-' { '_' } else { c })?;
    }
    Ok(spelled)
}

impl<'a> Names<'a> {
    /// Returns the hasher of the names of the file.
    pub(crate) fn hasher(&self) -> NameHasher {
        *self.names.hasher()
    }

    /// Returns the text of a token.
    pub(crate) fn raw(&self, token: Token) -> &'a str {
        cut(self.text, token.start, token.end)
    }

    /// Returns the key of a token.
    pub(crate) fn key(&self, token: Token) -> &'a str {
        let raw = self.raw(token);
        match token.kind {
            Kind::Text => {
                let quoted = inner_string(raw);
                self.aliases.get(&quoted).copied().unwrap_or(quoted)
            }
            Kind::Character => match code_of_quoted(raw) {
                Some(code) => self.characters.get(&code).copied().unwrap_or(raw),
                None => raw,
            },
            _ => raw,
        }
    }

    /// Returns whether a token is a name that the profile spells as the file does.
    pub(crate) fn is_plain(&self, token: Token) -> bool {
        matches!(token.kind, Kind::Name | Kind::Head)
            && (self.dashed.is_empty() || !has_dash(self.raw(token)))
    }

    /// Returns whether a token has a precedence.
    pub(crate) fn has_level(&self, token: Token) -> bool {
        let key = self.key(token);
        self.leveled.contains(&key)
    }

    /// Leaves out these levels of `%precedence`, a bit for each.
    pub(crate) fn unsettle(&mut self, levels: u64, parts: &[Part]) {
        if levels == 0 {
            return;
        }
        for part in parts {
            if part.is_in_level() && levels & part.bit != 0 {
                let key = self.key(part.token);
                self.leveled.shift_remove(&key);
            }
        }
    }

    /// Takes a character, which is spelled as the first one of its code.
    fn take_character(&mut self, token: Token) -> Result<(), ImportError> {
        let raw = self.raw(token);
        let Some(code) = code_of_quoted(raw) else {
            return Err(ImportError::Refused(Fault::NotACharacter, token.start));
        };
        if !self.characters.contains_key(&code) {
            self.characters.insert(code, raw)?;
        }
        Ok(())
    }

    /// Takes what a token heads or declares, and a character.
    fn take_token(&mut self, token: Token, role: Role) -> Result<(), ImportError> {
        let raw = self.raw(token);
        match role {
            Role::Leave(_) => return Ok(()),
            Role::Head => {
                self.heads.insert(raw)?;
            }
            Role::Declared => {
                self.declared.insert(raw)?;
            }
            Role::LateDeclared => {
                self.late.insert(raw)?;
            }
            _ => {}
        }
        if token.kind == Kind::Character {
            return self.take_character(token);
        }
        Ok(())
    }

    /// Takes what stands for tokens: aliases first, then names, levels and symbols.
    fn take_all(&mut self, parts: &[Part]) -> Result<(), ImportError> {
        for part in parts {
            if let Role::AliasOf(of) = part.role
                && let Some(of) = parts.get(of)
            {
                let alias = inner_string(self.raw(part.token));
                let name = self.raw(of.token);
                self.aliases.insert(alias, name)?;
            }
            self.take_token(part.token, part.role)?;
        }
        for part in parts {
            if part.is_in_level() {
                let key = self.key(part.token);
                self.leveled.insert(key)?;
            }
        }
        for part in parts {
            if part.role == Role::Symbol {
                self.take_symbol(part.token)?;
            }
        }
        Ok(())
    }

    /// Takes a symbol, and declares it where the file does so by a precedence, or not at all.
    fn take_symbol(&mut self, token: Token) -> Result<(), ImportError> {
        let key = self.key(token);
        let has_level = !self.leveled.is_empty() && self.leveled.contains(&key);
        let is_token = has_level || is_predefined(key);
        if !is_token || key.starts_with('"') || key.starts_with('\'') {
            return Ok(());
        }
        if !self.declared.contains(&key) && !self.heads.contains(&key) {
            self.late.insert(key)?;
        }
        Ok(())
    }

    /// Takes the spelling of a name with dashes, which must be that of no other name.
    fn take_dashed(&mut self, alloc: Global, token: Token) -> Result<(), ImportError> {
        let raw = self.raw(token);
        if !has_dash(raw) {
            return Ok(());
        }
        let spelled = with_underscores(alloc, raw)?;
        let is_taken = self.names.contains(&spelled.as_str());
        let is_other = match self.dashed.insert(spelled, raw)? {
            Some(name) => name != raw,
            None => false,
        };
        if is_taken || is_other {
            return Err(ImportError::Refused(Fault::TakenName, token.start));
        }
        Ok(())
    }

    /// Returns whether a name of the file has a dash.
    fn has_dashes(&self, parts: &[Part]) -> bool {
        for part in parts {
            if part.is_name() && has_dash(self.raw(part.token)) {
                return true;
            }
        }
        false
    }

    /// Takes all names, and the spellings of those with dashes.
    fn take_names(&mut self, alloc: Global, parts: &[Part]) -> Result<(), ImportError> {
        for part in parts {
            if part.is_name() {
                let raw = self.raw(part.token);
                self.names.insert(raw)?;
            }
        }
        for part in parts {
            if part.is_name() {
                self.take_dashed(alloc, part.token)?;
            }
        }
        Ok(())
    }

    /// Takes aliases, declarations and levels, and all names where one of them has a dash.
    fn fill(&mut self, alloc: Global, parts: &[Part]) -> Result<(), ImportError> {
        self.take_all(parts)?;
        if self.has_dashes(parts) {
            return self.take_names(alloc, parts);
        }
        Ok(())
    }

    /// Returns whether a quoted text would be another token of the profile.
    fn is_other(&self, text: &'a str) -> bool {
        self.declared.contains(&text) || self.late.contains(&text)
    }

    /// Returns how the profile spells a character.
    fn character(&self, alloc: Global, key: &'a str) -> Result<String, AllocError> {
        let text = inner(key);
        if text == "\\'" {
            return text_of(alloc, &["\"\\'\""]);
        }
        if self.is_other(text) {
            return text_of(alloc, &["\"", key, "\""]);
        }
        text_of(alloc, &[key])
    }

    /// Returns whether a text is one of the file's characters.
    fn is_character(&self, text: &str) -> bool {
        match text.as_bytes() {
            [b] => self.characters.contains_key(b),
            _ => false,
        }
    }

    /// Returns how the profile spells a string that stands for a token of its own; none where it can't.
    fn string(&self, alloc: Global, key: &'a str) -> Result<Option<String>, AllocError> {
        let text = inner(key);
        let is_other = self.is_character(text) || self.is_other(text);
        let quoted = if is_other { key } else { text };
        if text.is_empty() {
            return Ok(None);
        }
        if !is_other && !text.contains('"') {
            return text_of(alloc, &[key]).map(Some);
        }
        if text.contains('\'') {
            return Ok(None);
        }
        text_of(alloc, &["'", quoted, "'"]).map(Some)
    }

    /// Returns how the profile spells a key; none where it can't.
    pub(crate) fn spelling_of(
        &self,
        alloc: Global,
        key: &'a str,
    ) -> Result<Option<String>, AllocError> {
        if key.starts_with('"') {
            return self.string(alloc, key);
        }
        if key.starts_with('\'') {
            return self.character(alloc, key).map(Some);
        }
        with_underscores(alloc, key).map(Some)
    }

    /// Returns whether a name of the file begins so.
    fn has_beginning(&self, parts: &[Part], prefix: &str) -> bool {
        for part in parts {
            if part.is_name() && self.raw(part.token).starts_with(prefix) {
                return true;
            }
        }
        false
    }

    /// Returns a beginning of names that no name of the file has; none where all are taken.
    pub(crate) fn fresh(&self, parts: &[Part]) -> Option<&'static str> {
        for prefix in ["mid_", "midrule_", "action_"] {
            if !self.has_beginning(parts, prefix) {
                return Some(prefix);
            }
        }
        None
    }
}

/// Reads the names of a file.
pub(crate) fn names_of<'a>(
    alloc: Global,
    text: &'a str,
    parts: &[Part],
) -> Result<Names<'a>, ImportError> {
    let hasher = NameHasher::of_text(text);
    let mut names = Names {
        text,
        aliases: IndexMap::with_hasher(alloc, hasher),
        characters: IndexMap::new(alloc),
        names: IndexSet::with_hasher(alloc, hasher),
        heads: IndexSet::with_hasher(alloc, hasher),
        declared: IndexSet::with_hasher(alloc, hasher),
        leveled: IndexSet::with_hasher(alloc, hasher),
        late: IndexSet::with_hasher(alloc, hasher),
        dashed: IndexMap::with_hasher(alloc, hasher),
    };
    match names.fill(alloc, parts) {
        Ok(()) => Ok(names),
        Err(e) => {
            drop(names);
            Err(e)
        }
    }
}
