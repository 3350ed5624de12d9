//! How maps hash the names of a text: by a key that is made of the text.

ghost use Rattle.std.specs.Prelude.{◌≡◌, ◌+◌, ◌≤◌, length};
ghost use Rattle.std.specs.Hash.FoldHasher as folding;
ghost use Rattle.cfg_base.specs.NameKeys.{hasher_of_text, hasher_of_no_text};

use std::hash::{BuildHasher, DefaultHasher, Hasher};

/// Hashes names: a map copies it for each name that it is asked for.
///
/// A map looks up names of one hash by trying one after the other, so a text whose names have one hash would be read in
/// quadratic time, if anybody could choose such names. A name is hashed by products of its words, joined with the key, as
/// std's `FoldHasher` does, but both factors have 64 bits of the key, which is SipHash of the whole text. So whoever changes
/// a text to have names of one hash changes the key with it. That such texts can't be found is trusted; no clause says it.
#[derive(Clone, Copy)]
pub struct NameHasher {
    /// What first factors are joined with: a half of the key, and then what was written.
    state: u64,
    /// What second factors are joined with: the other half.
    key: u64,
}

impl NameHasher {
    /// Makes the hasher of the names of a text.
    pub fn of_text(text: &str) -> NameHasher
        ensures { result ≡ hasher_of_text text.now }
    {
        let mut digest = DefaultHasher::new();
        digest.write(text.as_bytes());
        let state = digest.finish();
        digest.write_u64(state);
        let key = digest.finish();
        NameHasher { state, key }
    }

    /// Makes the hasher of names that come from no text, with a key that everybody knows.
    pub fn of_no_text() -> NameHasher
        ensures { result ≡ hasher_of_no_text }
    {
        NameHasher {
            state: 0x243f_6a88_85a3_08d3,
            key: 0x9e37_79b9_7f4a_7c15,
        }
    }
}

/// Multiplies to 128 bits, and joins their halves by xor.
fn folded_multiply(a: u64, b: u64) -> u64
    ensures { result ≡ folding.folded_multiply a b }
{
    let product = a as u128 * b as u128;
    (product & 0xFFFF_FFFF_FFFF_FFFF) as u64 ^ (product >> 64) as u64
}

/// Returns the four bytes from `at` on as a number.
fn read_u32(bytes: &[u8], at: usize) -> u64
    requires { at + 4 ≤ length bytes.now }
    ensures { result ≡ folding.read_u32 bytes.now at }
{
    u32::from_le_bytes([bytes[at], bytes[at + 1], bytes[at + 2], bytes[at + 3]]) as u64
}

/// Returns the eight bytes from `at` on as a number.
fn read_u64(bytes: &[u8], at: usize) -> u64
    requires { at + 8 ≤ length bytes.now }
    ensures { result ≡ folding.read_u64 bytes.now at }
{
    read_u32(bytes, at) | read_u32(bytes, at + 4) << 32
}

/// Returns up to eight bytes as a number, by reads that may overlap.
fn read_short(bytes: &[u8]) -> u64
    ensures { result ≡ folding.read_short bytes.now }
{
    let len = bytes.len();
    if len >= 4 {
        read_u32(bytes, 0) | read_u32(bytes, len - 4) << 32
    } else if len > 0 {
        bytes[0] as u64 | (bytes[len / 2] as u64) << 8 | (bytes[len - 1] as u64) << 16
    } else {
        0
    }
}

impl Hasher for NameHasher {
    ghost use Rattle.cfg_base.specs.NameKeys.{write, finish};

    ghost write = { write };

    ghost finish = { finish };

    fn finish(&self) -> u64 {
        self.state
    }

    fn write(&mut self, bytes: &[u8]) {
        let len = bytes.len();
        if len <= 8 {
            self.state = folded_multiply(
                self.state ^ read_short(bytes),
                self.key ^ (2 * len as u64),
            );
            return;
        }
        let key = self.key;
        let mut state = self.state.wrapping_add(len as u64);
        let mut at = 0;
        while len - at > 16 {
            state = folded_multiply(read_u64(bytes, at) ^ state, read_u64(bytes, at + 8) ^ key);
            at += 16;
        }
        self.state = folded_multiply(
            read_u64(bytes, len.saturating_sub(16)) ^ state,
            read_u64(bytes, len - 8) ^ key,
        );
    }
}

impl BuildHasher for NameHasher {
    type Hasher = NameHasher;

    ghost build_hasher = { λ h. h };

    fn build_hasher(&self) -> NameHasher {
        *self
    }
}
