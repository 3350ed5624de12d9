//! Names, each of them a part of the text that it was read in.

ghost use Rattle.std.specs.Prelude.{◌≡◌, ◌++◌, ◌∷◌, [], false, is_some, slice_get, slice_range, length, Some, IfOk, IfSome, OnOk, OnErr};
ghost use Rattle.std.specs.List.{list_any, IsDistinct};
ghost use Rattle.std.specs.Rc.{rc_str_bytes};
ghost use Rattle.std.specs.Str.{bytes_eq};
ghost use Rattle.cfg_read.specs.NameTexts.{name_text, name_optional};
ghost use Rattle.cfg_read.specs.Scanning.{FitsPart};

use cfg_base::name_hasher::NameHasher;
use indexmap::IndexSet;
use std::alloc::{AllocError, Global};
use std::fmt;
use std::hash::{Hash, Hasher};
use std::marker::Model;
use std::rc::RcStr;

/// The greatest offset that a part of a text can begin at, to be a name that shares the text.
const MAX_START: usize = 0xffff_ffff;

/// What `Name::len` is where all of the text is the name. A part that shares the text is shorter.
const WHOLE: u8 = 0xff;

/// A name, or the text of a quoted token. All that are read in one text share that text, and each is a part of it.
#[derive(Drop)]
pub struct Name {
    /// The text of which the name is a part.
    text: RcStr,
    /// Where the part begins.
    start: u32,
    /// An index at which the name may be in a list of names: for a name that was read among all names of its
    /// text, for one in a tree among the rules or the tokens. A look-up tries it first; no result depends on it.
    place: u16,
    /// How long the part is, or `WHOLE`.
    len: u8,
    /// Whether a `?` was read right behind it.
    is_optional: bool,
}

impl Model for Name {
    ghost use Rattle.std.specs.Rc.{rc_str_bytes};
    ghost use Rattle.cfg_read.specs.NameParts.{NameValue, part_of, IsPartOf};

    ghost Value = { NameValue };

    ghost view = { λ n. record { text = part_of (rc_str_bytes n.text) n.start n.len; optional = n.is_optional } };

    ghost invariant = { λ n. IsPartOf (rc_str_bytes n.text) n.start n.len };
}

impl Name {
    /// Makes a name of its own.
    pub fn new(alloc: Global, text: &str) -> Result<Name, AllocError>
        ensures text { IfOk result (λ n. name_text n ≡ text.now) }
        ensures mark { IfOk result (λ n. name_optional n ≡ false) }
    {
        let text = RcStr::from_str(alloc, text)?;
        Ok(Name {
            text,
            start: 0,
            place: 0,
            len: WHOLE,
            is_optional: false,
        })
    }

    /// Makes a part of a text a name, which shares the text. One that begins far behind its start, or is long, has a text of
    /// its own.
    pub(crate) fn of_part(
        alloc: Global,
        text: &RcStr,
        start: usize,
        end: usize,
    ) -> Result<Name, AllocError>
        requires { FitsPart (rc_str_bytes text.now) start end }
        ensures text { IfOk result (λ n. name_text n ≡ slice_range (rc_str_bytes text.now) start end) }
        ensures mark { IfOk result (λ n. name_optional n ≡ false) }
    {
        let len = end - start;
        if start > MAX_START || len >= WHOLE as usize {
            return Name::new(alloc, &text.as_str()[start..end]);
        }
        let text = text.clone()?;
        Ok(Name {
            text,
            start: start as u32,
            place: 0,
            len: len as u8,
            is_optional: false,
        })
    }

    /// Returns the text.
    pub fn as_str(&self) -> &str
        ensures { result.now ≡ name_text self.now }
    {
        let text = self.text.as_str();
        if self.len == WHOLE {
            return text;
        }
        let start = self.start as usize;
        &text[start..start + self.len as usize]
    }

    /// Returns the index at which a look-up tries first.
    pub(crate) fn place(&self) -> usize {
        self.place as usize
    }

    /// Returns whether a `?` was read right behind it.
    pub(crate) fn is_optional(&self) -> bool
        ensures { result ≡ name_optional self.now }
    {
        self.is_optional
    }

    /// Marks it, or takes the mark away.
    pub(crate) fn set_optional(&mut self, is_optional: bool)
        ensures text { name_text self.new ≡ name_text self.old }
        ensures mark { name_optional self.new ≡ is_optional }
    {
        self.is_optional = is_optional;
    }

    /// Sets the index at which look-ups try first.
    pub(crate) fn set_place(&mut self, place: u32)
        ensures text { name_text self.new ≡ name_text self.old }
        ensures mark { name_optional self.new ≡ name_optional self.old }
    {
        self.place = (place % 0x1_0000) as u16;
    }

    /// Returns a name of the same text, with such a mark.
    pub(crate) fn copy_marked(&self, is_optional: bool) -> Result<Name, AllocError>
        ensures text { IfOk result (λ n. name_text n ≡ name_text self.now) }
        ensures mark { IfOk result (λ n. name_optional n ≡ is_optional) }
    {
        let text = self.text.clone()?;
        Ok(Name {
            text,
            start: self.start,
            place: self.place,
            len: self.len,
            is_optional,
        })
    }

    /// Returns a name of the same text, without a `?`.
    pub(crate) fn plain(&self) -> Result<Name, AllocError>
        ensures text { IfOk result (λ n. name_text n ≡ name_text self.now) }
        ensures mark { IfOk result (λ n. name_optional n ≡ false) }
    {
        self.copy_marked(false)
    }
}

impl Clone for Name {
    ghost use Rattle.std.specs.Prelude.{◌≡◌};
    ghost use Rattle.cfg_read.specs.NameTexts.{name_text, name_optional};

    ghost is_clone = { λ n copy. (name_text copy ≡ name_text n) × (name_optional copy ≡ name_optional n) };

    fn clone(&self) -> Result<Name, AllocError> {
        self.copy_marked(self.is_optional)
    }
}

impl PartialEq for Name {
    ghost use Rattle.std.specs.Prelude.{nat_eq};
    ghost use Rattle.std.specs.Cmp.Lexicographic.{pointwise};
    ghost use Rattle.std.specs.Cmp.Rules.{comparing};
    ghost use Rattle.std.proofs.Common.{rules};
    ghost use Rattle.cfg_read.specs.NameTexts.{name_text};

    ghost eq = { λ a b. pointwise nat_eq (name_text a) (name_text b) };

    ghost laws = { Prim.search (comparing, rules) };

    fn eq(&self, other: &Name) -> bool {
        self.as_str() == other.as_str()
    }
}

impl Eq for Name {
    ghost use Rattle.std.specs.Cmp.Rules.{comparing};
    ghost use Rattle.std.proofs.Common.{rules};

    ghost laws = { Prim.search (comparing, rules) };
}

impl Hash for Name {
    ghost use Rattle.std.specs.Hash as fed;
    ghost use Rattle.std.specs.Cmp.Rules.{hashing};
    ghost use Rattle.std.proofs.Common.{rules};
    ghost use Rattle.cfg_read.specs.NameTexts.{name_text};

    ghost hash_input = { λ n. fed.str (name_text n) };

    ghost respects_eq = { Prim.search (hashing, rules) };

    fn hash<H: Hasher>(&self, state: &mut H) {
        self.as_str().hash(state);
    }
}

impl fmt::Display for Name {
    ghost use Rattle.std.specs.Prelude.{Some};
    ghost use Rattle.cfg_read.specs.NameTexts.{name_text};

    ghost output = { λ n. Some (name_text n) };

    fn fmt<W: fmt::Write>(&self, f: &mut fmt::Formatter<W>) -> fmt::Result {
        let text = self.as_str();
        write!(f, "{text}")
    }
}

impl fmt::Debug for Name {
    fn fmt<W: fmt::Write>(&self, f: &mut fmt::Formatter<W>) -> fmt::Result {
        fmt::Debug::fmt(&self.as_str(), f)
    }
}

/// The names of a text, each once, in the order of their first appearances.
#[derive(Drop)]
pub(crate) struct NameSet {
    names: IndexSet<Name, NameHasher>,
}

impl Model for NameSet {
    ghost use Rattle.std.specs.Prelude.{ℕ, List};
    ghost use Rattle.std.specs.List.{IsDistinct};
    ghost use Rattle.cfg_read.specs.NameTexts.{texts_of, same_text};

    ghost Value = { List (List ℕ) };

    ghost view = { λ n. texts_of n.names.keys };

    ghost invariant = { λ n. IsDistinct same_text n.names.keys };
}

impl NameSet {
    /// Creates a set of no names.
    pub(crate) fn new(alloc: Global, hasher: NameHasher) -> NameSet
        ensures { result ≡ [] }
    {
        NameSet {
            names: IndexSet::with_hasher(alloc, hasher),
        }
    }

    /// Creates a set of no names, with room for `room` of them.
    pub(crate) fn with_room(
        alloc: Global,
        room: usize,
        hasher: NameHasher,
    ) -> Result<NameSet, AllocError>
        ensures { IfOk result (λ n. n ≡ []) }
    {
        let names = IndexSet::with_capacity_and_hasher(alloc, room, hasher)?;
        Ok(NameSet { names })
    }

    /// Returns the hasher of the names of the text.
    pub(crate) fn hasher(&self) -> NameHasher {
        *self.names.hasher()
    }

    /// Returns how many there are.
    pub(crate) fn len(&self) -> usize
        ensures { result ≡ length self.now }
    {
        self.names.len()
    }

    /// Returns the index of a name, if it is there, trying the index stored in the name first.
    pub(crate) fn find(&self, name: &Name) -> Option<usize>
        ensures there { IfSome result (λ p. slice_get self.now p ≡ Some (name_text name.now)) }
        ensures found { is_some result ≡ list_any (bytes_eq (name_text name.now)) self.now }
        ensures unique { IsDistinct bytes_eq self.now }
    {
        let hint = name.place();
        match self.names.get_index(hint) {
            Some(found) if *found == *name => Some(hint),
            _ => self.names.get_index_of(name),
        }
    }

    /// Puts a name that isn't there yet behind the others, and returns its index.
    pub(crate) fn put(&mut self, name: &Name) -> Result<usize, AllocError>
        requires { list_any (bytes_eq (name_text name.now)) self.old ≡ false }
        ensures texts { OnOk result (self.new ≡ self.old ++ name_text name.now ∷ []) }
        ensures last { IfOk result (λ p. p ≡ length self.old) }
        ensures unique { OnOk result (IsDistinct bytes_eq self.new) }
        ensures kept { OnErr result (self.new ≡ self.old) }
    {
        let (place, _) = self.names.insert_full(name.clone()?)?;
        Ok(place)
    }

    /// Notes a name that was read, and stores in it the index that all that are read alike have here.
    pub(crate) fn note(&mut self, name: &mut Name) -> Result<(), AllocError>
        ensures text { name_text name.new ≡ name_text name.old }
        ensures mark { name_optional name.new ≡ name_optional name.old }
    {
        let place = match self.names.get_index_of(&*name) {
            Some(place) => place,
            None => {
                let (place, _) = self.names.insert_full(name.clone()?)?;
                place
            }
        };
        name.set_place((place % 0x1_0000_0000) as u32);
        Ok(())
    }
}
