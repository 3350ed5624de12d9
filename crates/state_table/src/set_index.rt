//! Indices of sets as items store them, for crates that build states.

ghost use Rattle.std.specs.Prelude.{◌≡◌};

use std::marker::Model;

/// The index of a set, in two halves, so that an item that has it takes twelve bytes: with a `usize` it would be
/// aligned to eight and take sixteen. Contracts see the index.
#[derive(Clone, Copy)]
pub struct SetIndex {
    low: u32,
    high: u32,
}

impl Model for SetIndex {
    ghost use Rattle.std.specs.Prelude.{ℕ, ◌+◌, ◌*◌, ◌/◌, ◌%◌, ◌^◌, ◌<◌};
    ghost use Rattle.std.proofs.lemmas.Nat.{div-mul-add, mod-mul-add};

    ghost Value = { ℕ };

    ghost view = { λ a. a.high * 2 ^ 32 + a.low };

    ghost invariant = { λ a. a.low < 2 ^ 32 };

    ghost inverse = { λ n. record { low = n % 2 ^ 32; high = n / 2 ^ 32 } };

    ghost inverse_ok = { λ a h i. record {
      low = mod-mul-add a.high (2 ^ 32) a.low h i;
      high = div-mul-add a.high (2 ^ 32) a.low h i;
    } };
}

impl SetIndex {
    /// Makes the index of a number.
    pub fn of(number: usize) -> SetIndex
        ensures { result ≡ number }
    {
        SetIndex {
            low: (number % 0x1_0000_0000) as u32,
            high: (number / 0x1_0000_0000) as u32,
        }
    }

    /// Returns the index as a number.
    pub fn get(&self) -> usize
        ensures { result ≡ self.now }
    {
        self.high as usize * 0x1_0000_0000 + self.low as usize
    }
}
