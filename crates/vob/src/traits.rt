//! The traits of the standard library that a list has.

ghost use Rattle.std.specs.Prelude.{◌≡◌, ◌<◌, ◌↔◌, ◌&&◌, ◌||◌, length, slice_index_or, IsTrue, IsOk, IfOk, false};
ghost use Rattle.std.proofs.Common.{ap, rules};
ghost use Rattle.std.specs.Cmp.{booleans_Decides};
ghost use Rattle.std.specs.Cmp.Lexicographic.{pointwise, pointwise_decides};
ghost use Rattle.std.specs.Cmp.Rules.{comparing};
ghost use Rattle.std.specs.Bool.{beq};
ghost use Rattle.vob.specs.Bits.{bitwise, differs};
ghost use Rattle.vob.specs.Fed.{fed_list};

use crate::word::Word;
use crate::{Vob, packed, sets};
use std::alloc::AllocError;
use std::fmt;
use std::hash::{Hash, Hasher};
use std::ops::{BitAnd, BitAndAssign, BitOr, BitOrAssign, BitXor, BitXorAssign, Index};

impl<T: Word> Clone for Vob<T> {
    ghost is_clone = { λ v w. w.bits ≡ v.bits };

    // Cloning a list without items takes no memory.
    ghost is_infallible = { λ v. length v.bits ≡ 0 };

    fn clone(&self) -> Result<Self, AllocError> {
        let blocks = packed::copy_blocks(
            *self.blocks.allocator(),
            self.blocks.as_slice(),
            self.len,
        )?;
        Ok(Vob {
            len: self.len,
            blocks,
        })
    }
}

impl<T: Word> PartialEq for Vob<T> {
    ghost eq = { λ a b. pointwise beq a.bits b.bits };

    ghost laws = { Prim.search (comparing, rules) };

    fn eq(&self, other: &Vob<T>) -> bool
        ensures gives { result ≡ pointwise beq self.now.bits other.now.bits }
        ensures exactly { IsTrue result ↔ (self.now.bits ≡ other.now.bits) }
    {
        if self.len != other.len {
            return false;
        }
        sets::same_blocks(self.blocks.as_slice(), other.blocks.as_slice())
    }
}

impl<T: Word> Eq for Vob<T> {
    ghost laws = { Prim.search (comparing, rules) };
}

impl<T: Word> Hash for Vob<T> {
    ghost hash_input = { λ v. fed_list v.bits };

    ghost respects_eq = { λ x y e. ap fed_list ((pointwise_decides booleans_Decides x.bits y.bits).0 e) };

    fn hash<H: Hasher>(&self, state: &mut H) {
        state.write_usize(self.len());
        let mut indices = self.iter_set_bits(..);
        'each: while let Some(index) = indices.next() {
            state.write_usize(index);
        }
    }
}

impl<T: Word> Index<usize> for Vob<T> {
    type Output = bool;

    ghost can_index = { λ v i. i < length v.bits };

    ghost index_gives = { λ v i x. x ≡ slice_index_or v.bits i false };

    fn index(&self, index: usize) -> &bool {
        if self.get_unchecked(index) {
            &true
        } else {
            &false
        }
    }
}

/// Prints the items as `Vob[101]`.
impl<T: Word> fmt::Debug for Vob<T> {
    fn fmt<W: fmt::Write>(&self, f: &mut fmt::Formatter<W>) -> fmt::Result {
        f.write_str("Vob[")?;
        for item in self.iter() {
            f.write_str(if item { "1" } else { "0" })?;
        }
        f.write_str("]")
    }
}

impl<'b, T: Word> BitAndAssign<&'b Vob<T>> for Vob<T> {
    ghost can_bitand_assign = { λ a b. length a.bits ≡ length b.now.bits };

    ghost bitand_assign_gives = { λ a b c. c.bits ≡ bitwise (λ x y. x && y) a.bits b.now.bits };

    fn bitand_assign(&mut self, other: &'b Vob<T>) {
        self.and(other);
    }
}

impl<'b, T: Word> BitAnd<&'b Vob<T>> for Vob<T> {
    type Output = Vob<T>;

    ghost can_bitand = { λ a b. length a.bits ≡ length b.now.bits };

    ghost bitand_gives = { λ a b c. c.bits ≡ bitwise (λ x y. x && y) a.bits b.now.bits };

    fn bitand(mut self, other: &'b Vob<T>) -> Vob<T> {
        self &= other;
        self
    }
}

impl<'a, 'b, T: Word> BitAnd<&'b Vob<T>> for &'a Vob<T> {
    type Output = Result<Vob<T>, AllocError>;

    ghost can_bitand = { λ a b. length a.now.bits ≡ length b.now.bits };

    ghost bitand_gives = { λ a b r. IfOk r (λ c. c.bits ≡ bitwise (λ x y. x && y) a.now.bits b.now.bits) × (length a.now.bits ≡ 0 → IsOk r) };

    fn bitand(self, other: &'b Vob<T>) -> Result<Vob<T>, AllocError> {
        let mut made = self.clone()?;
        made.and(other);
        Ok(made)
    }
}

impl<'b, T: Word> BitOrAssign<&'b Vob<T>> for Vob<T> {
    ghost can_bitor_assign = { λ a b. length a.bits ≡ length b.now.bits };

    ghost bitor_assign_gives = { λ a b c. c.bits ≡ bitwise (λ x y. x || y) a.bits b.now.bits };

    fn bitor_assign(&mut self, other: &'b Vob<T>) {
        self.or(other);
    }
}

impl<'b, T: Word> BitOr<&'b Vob<T>> for Vob<T> {
    type Output = Vob<T>;

    ghost can_bitor = { λ a b. length a.bits ≡ length b.now.bits };

    ghost bitor_gives = { λ a b c. c.bits ≡ bitwise (λ x y. x || y) a.bits b.now.bits };

    fn bitor(mut self, other: &'b Vob<T>) -> Vob<T> {
        self |= other;
        self
    }
}

impl<'a, 'b, T: Word> BitOr<&'b Vob<T>> for &'a Vob<T> {
    type Output = Result<Vob<T>, AllocError>;

    ghost can_bitor = { λ a b. length a.now.bits ≡ length b.now.bits };

    ghost bitor_gives = { λ a b r. IfOk r (λ c. c.bits ≡ bitwise (λ x y. x || y) a.now.bits b.now.bits) × (length a.now.bits ≡ 0 → IsOk r) };

    fn bitor(self, other: &'b Vob<T>) -> Result<Vob<T>, AllocError> {
        let mut made = self.clone()?;
        made.or(other);
        Ok(made)
    }
}

impl<'b, T: Word> BitXorAssign<&'b Vob<T>> for Vob<T> {
    ghost can_bitxor_assign = { λ a b. length a.bits ≡ length b.now.bits };

    ghost bitxor_assign_gives = { λ a b c. c.bits ≡ bitwise differs a.bits b.now.bits };

    fn bitxor_assign(&mut self, other: &'b Vob<T>) {
        self.xor(other);
    }
}

impl<'b, T: Word> BitXor<&'b Vob<T>> for Vob<T> {
    type Output = Vob<T>;

    ghost can_bitxor = { λ a b. length a.bits ≡ length b.now.bits };

    ghost bitxor_gives = { λ a b c. c.bits ≡ bitwise differs a.bits b.now.bits };

    fn bitxor(mut self, other: &'b Vob<T>) -> Vob<T> {
        self ^= other;
        self
    }
}

impl<'a, 'b, T: Word> BitXor<&'b Vob<T>> for &'a Vob<T> {
    type Output = Result<Vob<T>, AllocError>;

    ghost can_bitxor = { λ a b. length a.now.bits ≡ length b.now.bits };

    ghost bitxor_gives = { λ a b r. IfOk r (λ c. c.bits ≡ bitwise differs a.now.bits b.now.bits) × (length a.now.bits ≡ 0 → IsOk r) };

    fn bitxor(self, other: &'b Vob<T>) -> Result<Vob<T>, AllocError> {
        let mut made = self.clone()?;
        made.xor(other);
        Ok(made)
    }
}
