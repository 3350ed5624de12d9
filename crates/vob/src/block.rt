//! Words of bits, which are the blocks of a list.

ghost use Rattle.std.specs.Prelude.{◌≡◌, ◌<◌, ◌≤◌, ◌+◌, ◌-◌, ◌^◌, ◌&&◌, ◌||◌, ◌↔◌, ℕ, Bool, true, false, not, List, ◌++◌, map, take, drop, replicate, slice_index_or, slice_set, IsTrue, refl};
ghost use Rattle.num_traits.specs.Laws.{bit_len};
ghost use Rattle.vob.specs.Bits.{bitwise, differs, count_true};
ghost use Rattle.vob.specs.Digits.{digits};

use crate::word::Word;
use num_traits::PrimInt;

/// A word of bits, which is one block of the storage. Contracts see it as the list `bits` of its bits,
/// the least significant first.
pub trait Block: PrimInt + Word {
    /// Does nothing: its contract says that a value is within its type.
    fn in_range(self)
        ensures fits { Self.fits (Self.value self) }
        ensures below { Self.bits_of self < 2 ^ Self.BITS };

    /// The bits are the binary digits of the number that `PrimInt` gives the block.
    ghost bits_law: { (x : Self) → Self.bits x ≡ digits Self.BITS (Self.bits_of x) };

    /// `PrimInt` and `Word` have the same number of bits.
    ghost width_law: { Self.BITS ≡ bit_len Self.width };

    /// Makes a block whose bits all are `value`.
    final fn of_bit(value: bool) -> Self
        ensures { Self.bits result ≡ replicate Self.BITS value }
    {
        Self::all(value)
    }

    /// Sets each bit that is set in both blocks.
    final fn both(self, other: Self) -> Self
        ensures { Self.bits result ≡ bitwise (λ x y. x && y) (Self.bits self) (Self.bits other) }
    {
        self.in_both(other)
    }

    /// Sets each bit that is set in either block.
    final fn either(self, other: Self) -> Self
        ensures { Self.bits result ≡ bitwise (λ x y. x || y) (Self.bits self) (Self.bits other) }
    {
        self.in_either(other)
    }

    /// Sets each bit in which the blocks differ.
    final fn differing(self, other: Self) -> Self
        ensures { Self.bits result ≡ bitwise differs (Self.bits self) (Self.bits other) }
    {
        self.in_one(other)
    }

    /// Turns each bit.
    final fn complement(self) -> Self
        ensures { Self.bits result ≡ map not (Self.bits self) }
    {
        self.turn_bits()
    }

    /// Moves each bit up to the index that is greater by `by`.
    final fn shifted_up(self, by: usize) -> Self
        requires { by < Self.BITS }
        ensures { Self.bits result ≡ replicate by false ++ take (Self.BITS - by) (Self.bits self) }
    {
        self.moved_up(by)
    }

    /// Moves each bit down to the index that is less by `by`.
    final fn shifted_down(self, by: usize) -> Self
        requires { by < Self.BITS }
        ensures { Self.bits result ≡ drop by (Self.bits self) ++ replicate by false }
    {
        self.moved_down(by)
    }

    /// Counts the bits that are set.
    final fn ones(self) -> usize
        ensures { result ≡ count_true (Self.bits self) }
    {
        self.set_count()
    }

    /// Counts the bits below the lowest one that is set: all of them where none is.
    final fn zeros_below(self) -> usize
        ensures within { result ≤ Self.BITS }
        ensures before { (i : ℕ) → i < result → slice_index_or (Self.bits self) i false ≡ false }
        ensures found { result < Self.BITS → slice_index_or (Self.bits self) result false ≡ true }
    {
        self.clear_below()
    }

    /// Counts the bits above the highest one that is set: all of them where none is.
    final fn zeros_above(self) -> usize
        ensures within { result ≤ Self.BITS }
        ensures after { (i : ℕ) → Self.BITS ≤ i + result → slice_index_or (Self.bits self) i false ≡ false }
        ensures found { (i : ℕ) → i + result + 1 ≡ Self.BITS → slice_index_or (Self.bits self) i false ≡ true }
    {
        self.clear_above()
    }

    /// Keeps the low `count` bits, and clears those above them.
    final fn low(self, count: usize) -> Self
        requires { count ≤ Self.BITS }
        ensures { Self.bits result ≡ take count (Self.bits self) ++ replicate (Self.BITS - count) false }
    {
        self.low_part(count)
    }

    /// Returns whether the bit at `index` is set.
    final fn bit(self, index: usize) -> bool
        requires { index < Self.BITS }
        ensures { result ≡ slice_index_or (Self.bits self) index false }
    {
        self.digit(index)
    }

    /// Returns the block with the bit at `index` set to `value`.
    final fn with_bit(self, index: usize, value: bool) -> Self
        requires { index < Self.BITS }
        ensures { Self.bits result ≡ slice_set (Self.bits self) index value }
    {
        self.with_digit(index, value)
    }

    /// Returns whether the bits are equal.
    final fn same(self, other: Self) -> bool
        ensures { IsTrue result ↔ (Self.bits self ≡ Self.bits other) }
    {
        self.is_same(other)
    }
}

impl Block for u8 {
    fn in_range(self) {}

    ghost bits_law = { λ x. refl };

    ghost width_law = { refl };
}

impl Block for u16 {
    fn in_range(self) {}

    ghost bits_law = { λ x. refl };

    ghost width_law = { refl };
}

impl Block for u32 {
    fn in_range(self) {}

    ghost bits_law = { λ x. refl };

    ghost width_law = { refl };
}

impl Block for u64 {
    fn in_range(self) {}

    ghost bits_law = { λ x. refl };

    ghost width_law = { refl };
}

impl Block for u128 {
    fn in_range(self) {}

    ghost bits_law = { λ x. refl };

    ghost width_law = { refl };
}

impl Block for usize {
    fn in_range(self) {}

    ghost bits_law = { λ x. refl };

    ghost width_law = { refl };
}
