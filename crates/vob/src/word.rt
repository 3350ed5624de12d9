//! Words of bits as lists use them: what each kind of block gives a list, and nothing else. The trait is small, since
//! every proof about a list carries what its blocks' trait has.

ghost use Rattle.std.specs.Prelude.{◌≡◌, ◌<◌, ◌≤◌, ◌+◌, ◌-◌, ◌*◌, ◌/◌, ◌%◌, ◌^◌, ◌&&◌, ◌||◌, ◌↔◌, ℕ, Bool, true, false, not, List, ◌++◌, map, take, drop, replicate, slice_index_or, slice_set, IsTrue, refl, bit_and, bit_or, bit_xor, count_ones, if◌then◌else◌};
ghost use lib.Count.{count_leading_zeros, count_trailing_zeros};
ghost use Rattle.vob.specs.Bits.{bitwise, differs, count_true};
ghost use Rattle.vob.specs.Digits.{digits};
ghost use Rattle.std.proofs.Common.{arith};

/// A word of bits. Contracts see it as the list `bits` of its bits, the least significant first, and as the number
/// of which they are the binary digits.
pub trait Word: Copy {
    /// The number of bits of a word.
    const BITS: usize;

    /// The number of bits of a word, as contracts see it.
    ghost BITS: { ℕ };

    /// The number whose binary digits the bits are.
    ghost number: { Self → ℕ };

    /// The bits, the least significant first.
    ghost bits: { Self → List Bool };

    /// Does nothing: its contract says that a number has no more digits than the word has bits.
    fn number_fits(self)
        ensures { number self < 2 ^ BITS };

    /// Returns the word of the number 1 or 0.
    fn lowest(value: bool) -> Self
        ensures { number result ≡ (if value then 1 else 0) };

    /// Returns the bits that are set in both words.
    fn and_digits(self, other: Self) -> Self
        ensures { number result ≡ bit_and (number self) (number other) };

    /// Returns the bits that are set in either word.
    fn or_digits(self, other: Self) -> Self
        ensures { number result ≡ bit_or (number self) (number other) };

    /// Returns the bits in which the words differ.
    fn xor_digits(self, other: Self) -> Self
        ensures { number result ≡ bit_xor (number self) (number other) };

    /// Returns the bits that aren't set.
    fn not_digits(self) -> Self
        ensures { number result ≡ 2 ^ BITS - 1 - number self };

    /// Moves the bits up.
    fn shl_digits(self, by: u32) -> Self
        requires { by < BITS }
        ensures { number result ≡ (number self * 2 ^ by) % 2 ^ BITS };

    /// Moves the bits down.
    fn shr_digits(self, by: u32) -> Self
        requires { by < BITS }
        ensures { number result ≡ number self / 2 ^ by };

    /// Counts the bits that are set.
    fn count_digits(self) -> u32
        ensures { result ≡ count_ones (number self) };

    /// Counts the bits below the lowest one that is set.
    fn trailing_digits(self) -> u32
        ensures within { result ≤ BITS }
        ensures count { result ≡ count_trailing_zeros BITS (number self) };

    /// Counts the bits above the highest one that is set.
    fn leading_digits(self) -> u32
        ensures within { result ≤ BITS }
        ensures count { result ≡ count_leading_zeros BITS (number self) };

    /// Returns whether the numbers are equal.
    fn has_digits_of(self, other: Self) -> bool
        ensures { IsTrue result ↔ (number self ≡ number other) };

    /// The bits are the binary digits of the number.
    ghost number_law: { (x : Self) → bits x ≡ digits BITS (number x) };

    /// A word has at least one bit.
    ghost some_law: { 0 < BITS };

    /// A word has at most 128 bits, so that a count of them fits any index.
    ghost most_law: { BITS ≤ 128 };

    /// Makes a word whose bits all are `value`.
    final fn all(value: bool) -> Self
        ensures { bits result ≡ replicate BITS value }
    {
        let none = Self::lowest(false);
        if value { none.turn_bits() } else { none }
    }

    /// Sets each bit that is set in both words.
    final fn in_both(self, other: Self) -> Self
        ensures { bits result ≡ bitwise (λ x y. x && y) (bits self) (bits other) }
    {
        self.and_digits(other)
    }

    /// Sets each bit that is set in either word.
    final fn in_either(self, other: Self) -> Self
        ensures { bits result ≡ bitwise (λ x y. x || y) (bits self) (bits other) }
    {
        self.or_digits(other)
    }

    /// Sets each bit in which the words differ.
    final fn in_one(self, other: Self) -> Self
        ensures { bits result ≡ bitwise differs (bits self) (bits other) }
    {
        self.xor_digits(other)
    }

    /// Turns each bit.
    final fn turn_bits(self) -> Self
        ensures { bits result ≡ map not (bits self) }
    {
        self.number_fits();
        self.not_digits()
    }

    /// Moves each bit up to the index that is greater by `by`.
    final fn moved_up(self, by: usize) -> Self
        requires { by < BITS }
        ensures { bits result ≡ replicate by false ++ take (BITS - by) (bits self) }
    {
        self.shl_digits(by as u32)
    }

    /// Moves each bit down to the index that is less by `by`.
    final fn moved_down(self, by: usize) -> Self
        requires { by < BITS }
        ensures { bits result ≡ drop by (bits self) ++ replicate by false }
    {
        self.number_fits();
        self.shr_digits(by as u32)
    }

    /// Counts the bits that are set.
    final fn set_count(self) -> usize
        ensures { result ≡ count_true (bits self) }
    {
        self.number_fits();
        self.count_digits() as usize
    }

    /// Counts the bits below the lowest one that is set: all of them where none is.
    final fn clear_below(self) -> usize
        ensures within { result ≤ BITS }
        ensures before { (i : ℕ) → i < result → slice_index_or (bits self) i false ≡ false }
        ensures found { result < BITS → slice_index_or (bits self) result false ≡ true }
    {
        self.trailing_digits() as usize
    }

    /// Counts the bits above the highest one that is set: all of them where none is.
    final fn clear_above(self) -> usize
        ensures within { result ≤ BITS }
        ensures after { (i : ℕ) → BITS ≤ i + result → slice_index_or (bits self) i false ≡ false }
        ensures found { (i : ℕ) → i + result + 1 ≡ BITS → slice_index_or (bits self) i false ≡ true }
    {
        self.number_fits();
        self.leading_digits() as usize
    }

    /// Keeps the low `count` bits, and clears those above them.
    final fn low_part(self, count: usize) -> Self
        requires { count ≤ BITS }
        ensures { bits result ≡ take count (bits self) ++ replicate (BITS - count) false }
    {
        if count == 0 {
            return Self::all(false);
        }
        let by = Self::BITS - count;
        self.moved_up(by).moved_down(by)
    }

    /// Returns whether the bit at `index` is set.
    final fn digit(self, index: usize) -> bool
        requires { index < BITS }
        ensures { result ≡ slice_index_or (bits self) index false }
    {
        self.moved_down(index).clear_below() == 0
    }

    /// Returns the word with the bit at `index` set to `value`.
    final fn with_digit(self, index: usize, value: bool) -> Self
        requires { index < BITS }
        ensures { bits result ≡ slice_set (bits self) index value }
    {
        if self.digit(index) == value {
            return self;
        }
        self.in_one(Self::lowest(true).moved_up(index))
    }

    /// Returns whether the bits are equal.
    final fn is_same(self, other: Self) -> bool
        ensures { IsTrue result ↔ (bits self ≡ bits other) }
    {
        self.number_fits();
        other.number_fits();
        self.has_digits_of(other)
    }
}

impl Word for u8 {
    const BITS: usize = 8;

    ghost BITS = { 8 };

    ghost number = { λ x. x };

    ghost bits = { digits 8 };

    fn number_fits(self) {}

    fn lowest(value: bool) -> Self {
        if value { 1 } else { 0 }
    }

    fn and_digits(self, other: Self) -> Self {
        self & other
    }

    fn or_digits(self, other: Self) -> Self {
        self | other
    }

    fn xor_digits(self, other: Self) -> Self {
        self ^ other
    }

    fn not_digits(self) -> Self {
        !self
    }

    fn shl_digits(self, by: u32) -> Self {
        self << by
    }

    fn shr_digits(self, by: u32) -> Self {
        self >> by
    }

    fn count_digits(self) -> u32 {
        self.count_ones()
    }

    fn trailing_digits(self) -> u32 {
        self.trailing_zeros()
    }

    fn leading_digits(self) -> u32 {
        self.leading_zeros()
    }

    fn has_digits_of(self, other: Self) -> bool {
        self == other
    }

    ghost number_law = { λ x. refl };

    ghost some_law = { Prim.omega arith };

    ghost most_law = { Prim.omega arith };
}

impl Word for u16 {
    const BITS: usize = 16;

    ghost BITS = { 16 };

    ghost number = { λ x. x };

    ghost bits = { digits 16 };

    fn number_fits(self) {}

    fn lowest(value: bool) -> Self {
        if value { 1 } else { 0 }
    }

    fn and_digits(self, other: Self) -> Self {
        self & other
    }

    fn or_digits(self, other: Self) -> Self {
        self | other
    }

    fn xor_digits(self, other: Self) -> Self {
        self ^ other
    }

    fn not_digits(self) -> Self {
        !self
    }

    fn shl_digits(self, by: u32) -> Self {
        self << by
    }

    fn shr_digits(self, by: u32) -> Self {
        self >> by
    }

    fn count_digits(self) -> u32 {
        self.count_ones()
    }

    fn trailing_digits(self) -> u32 {
        self.trailing_zeros()
    }

    fn leading_digits(self) -> u32 {
        self.leading_zeros()
    }

    fn has_digits_of(self, other: Self) -> bool {
        self == other
    }

    ghost number_law = { λ x. refl };

    ghost some_law = { Prim.omega arith };

    ghost most_law = { Prim.omega arith };
}

impl Word for u32 {
    const BITS: usize = 32;

    ghost BITS = { 32 };

    ghost number = { λ x. x };

    ghost bits = { digits 32 };

    fn number_fits(self) {}

    fn lowest(value: bool) -> Self {
        if value { 1 } else { 0 }
    }

    fn and_digits(self, other: Self) -> Self {
        self & other
    }

    fn or_digits(self, other: Self) -> Self {
        self | other
    }

    fn xor_digits(self, other: Self) -> Self {
        self ^ other
    }

    fn not_digits(self) -> Self {
        !self
    }

    fn shl_digits(self, by: u32) -> Self {
        self << by
    }

    fn shr_digits(self, by: u32) -> Self {
        self >> by
    }

    fn count_digits(self) -> u32 {
        self.count_ones()
    }

    fn trailing_digits(self) -> u32 {
        self.trailing_zeros()
    }

    fn leading_digits(self) -> u32 {
        self.leading_zeros()
    }

    fn has_digits_of(self, other: Self) -> bool {
        self == other
    }

    ghost number_law = { λ x. refl };

    ghost some_law = { Prim.omega arith };

    ghost most_law = { Prim.omega arith };
}

impl Word for u64 {
    const BITS: usize = 64;

    ghost BITS = { 64 };

    ghost number = { λ x. x };

    ghost bits = { digits 64 };

    fn number_fits(self) {}

    fn lowest(value: bool) -> Self {
        if value { 1 } else { 0 }
    }

    fn and_digits(self, other: Self) -> Self {
        self & other
    }

    fn or_digits(self, other: Self) -> Self {
        self | other
    }

    fn xor_digits(self, other: Self) -> Self {
        self ^ other
    }

    fn not_digits(self) -> Self {
        !self
    }

    fn shl_digits(self, by: u32) -> Self {
        self << by
    }

    fn shr_digits(self, by: u32) -> Self {
        self >> by
    }

    fn count_digits(self) -> u32 {
        self.count_ones()
    }

    fn trailing_digits(self) -> u32 {
        self.trailing_zeros()
    }

    fn leading_digits(self) -> u32 {
        self.leading_zeros()
    }

    fn has_digits_of(self, other: Self) -> bool {
        self == other
    }

    ghost number_law = { λ x. refl };

    ghost some_law = { Prim.omega arith };

    ghost most_law = { Prim.omega arith };
}

impl Word for u128 {
    const BITS: usize = 128;

    ghost BITS = { 128 };

    ghost number = { λ x. x };

    ghost bits = { digits 128 };

    fn number_fits(self) {}

    fn lowest(value: bool) -> Self {
        if value { 1 } else { 0 }
    }

    fn and_digits(self, other: Self) -> Self {
        self & other
    }

    fn or_digits(self, other: Self) -> Self {
        self | other
    }

    fn xor_digits(self, other: Self) -> Self {
        self ^ other
    }

    fn not_digits(self) -> Self {
        !self
    }

    fn shl_digits(self, by: u32) -> Self {
        self << by
    }

    fn shr_digits(self, by: u32) -> Self {
        self >> by
    }

    fn count_digits(self) -> u32 {
        self.count_ones()
    }

    fn trailing_digits(self) -> u32 {
        self.trailing_zeros()
    }

    fn leading_digits(self) -> u32 {
        self.leading_zeros()
    }

    fn has_digits_of(self, other: Self) -> bool {
        self == other
    }

    ghost number_law = { λ x. refl };

    ghost some_law = { Prim.omega arith };

    ghost most_law = { Prim.omega arith };
}

impl Word for usize {
    const BITS: usize = 64;

    ghost BITS = { 64 };

    ghost number = { λ x. x };

    ghost bits = { digits 64 };

    fn number_fits(self) {}

    fn lowest(value: bool) -> Self {
        if value { 1 } else { 0 }
    }

    fn and_digits(self, other: Self) -> Self {
        self & other
    }

    fn or_digits(self, other: Self) -> Self {
        self | other
    }

    fn xor_digits(self, other: Self) -> Self {
        self ^ other
    }

    fn not_digits(self) -> Self {
        !self
    }

    fn shl_digits(self, by: u32) -> Self {
        self << by
    }

    fn shr_digits(self, by: u32) -> Self {
        self >> by
    }

    fn count_digits(self) -> u32 {
        self.count_ones()
    }

    fn trailing_digits(self) -> u32 {
        self.trailing_zeros()
    }

    fn leading_digits(self) -> u32 {
        self.leading_zeros()
    }

    fn has_digits_of(self, other: Self) -> bool {
        self == other
    }

    ghost number_law = { λ x. refl };

    ghost some_law = { Prim.omega arith };

    ghost most_law = { Prim.omega arith };
}
