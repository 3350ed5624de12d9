//! Numbers in the order in which they came, as long as there is room for them.

ghost use Rattle.std.specs.Prelude.{◌≡◌, ◌<◌, Bool, List, false, true, length, slice_set, take, IfOk};
ghost use Rattle.vob.specs.Sets.{is_set};
ghost use Rattle.lrtable.specs.Opening.{AreNoted};

use std::alloc::{AllocError, Global};

/// The first `count` of `order` are the numbers. Where these are all of `order`, further numbers may be missing.
#[derive(Drop)]
pub(crate) struct Noted {
    pub order: Vec<usize>,
    pub count: usize,
    /// How many further numbers came.
    pub missed: usize,
}

impl Noted {
    /// Makes an empty list, with room for `room` numbers and one more.
    pub(crate) fn empty(alloc: Global, room: usize) -> Result<Noted, AllocError>
        ensures { IfOk result (λ n. n.count ≡ 0) }
    {
        let order = vec![in alloc; 0; room.saturating_add(1)]?;
        Ok(Noted {
            order,
            count: 0,
            missed: 0,
        })
    }

    /// Writes a number behind the others, if there is room.
    pub(crate) fn put(&mut self, number: usize)
        ensures { (flags : List Bool) → number < length flags → AreNoted flags self.old.count self.old.order.items → AreNoted (slice_set flags number true) self.new.count self.new.order.items }
    {
        let count = self.count;
        if count >= self.order.len() {
            self.missed = self.missed.wrapping_add(1);
            return;
        }
        self.order[count] = number;
        self.count = count + 1;
    }

    /// Returns whether there may be others.
    pub(crate) fn is_full(&self) -> bool
        ensures { result ≡ false → self.now.count < length self.now.order.items }
    {
        self.count >= self.order.len()
    }

    /// Returns the numbers, as far as there was room.
    pub(crate) fn numbers(&self) -> &[usize]
        ensures { result.now ≡ take self.now.count self.now.order.items }
    {
        let count = self.count.min(self.order.len());
        &self.order[..count]
    }

    /// Forgets all.
    pub(crate) fn clear(&mut self)
        ensures { self.new.count ≡ 0 }
    {
        self.count = 0;
        self.missed = 0;
    }

    /// Returns how many numbers came.
    pub(crate) fn total(&self) -> usize {
        self.count.saturating_add(self.missed)
    }
}
