//! Handles of parsers, as C keeps them.

ghost use Rattle.std.specs.Prelude.{◌≡◌, Option, Some, None, IsSome};
ghost use Rattle.std.specs.Coded.{coded_option};
ghost use Rattle.lrkit_c.specs.declared.held.Held.{Held};
ghost use Rattle.lrkit_c.specs.contracts.held.Held as held;

use crate::held::Held;
use crate::loose::Loose;
use std::alloc::Global;
use std::marker::Model;
use std::mem;
use std::ptr::null_mut;

/// A handle: the pointer to what it holds, or null. C keeps it, and passes its address. A handle that is dropped or written over
/// forgets what it holds.
#[repr(C)]
#[derive(Drop)]
pub struct LrkitParser {
    at: *mut u8,
    pub ghost value: { Option Held } by { coded_option held.the_row.coded },
}

impl Model for LrkitParser {
    ghost use Rattle.lrkit_c.specs.Handles.{held_at};
    ghost use Rattle.lrkit_c.specs.contracts.held.Held as held;

    ghost also_owns = { λ h. held_at held.the_row h.at h.value };
}

impl LrkitParser {
    /// Makes a handle of nothing.
    pub fn empty() -> LrkitParser
        ensures { result.value ≡ None }
    {
        LrkitParser { at: null_mut() }
    }

    /// Makes the handle of a box.
    fn of_loose(loose: Loose<Held, Global>) -> LrkitParser
        ensures { result.value ≡ Some loose.value }
    {
        let Loose { at, alloc: _ } = loose;
        LrkitParser { at: at as *mut u8 }
    }

    /// Takes the box out of a handle.
    fn into_loose(self, alloc: Global) -> Loose<Held, Global>
        requires { IsSome self.value }
        ensures { Some result.value ≡ self.value }
    {
        let LrkitParser { at } = self;
        Loose {
            at: at as *mut Held,
            alloc,
        }
    }

    /// Takes out what the handle holds.
    pub fn take(&mut self, alloc: Global) -> Box<Held, Global>
        requires { IsSome self.old.value }
        ensures { Some result.value ≡ self.old.value }
    {
        let whole = mem::replace(self, LrkitParser::empty());
        whole.into_loose(alloc).into_box()
    }

    /// Puts something in.
    pub fn put(&mut self, held: Box<Held, Global>)
        ensures { self.new.value ≡ Some held.value }
    {
        *self = LrkitParser::of_loose(Loose::of(held));
    }
}
