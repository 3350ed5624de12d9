//! Whether the lookaheads of a set are all held, and Pager's test of weak compatibility.

ghost use Rattle.std.specs.Prelude.{◌≡◌, ◌<◌, ◌↔◌, ◌⊎◌, false, true, [], ℕ, length, map, get_or, slice_index_or, IsTrue};
ghost use Rattle.vob.specs.Bits.{Meets};
ghost use Rattle.state_table.specs.ItemRows.{CoversRows, LacksRows};
ghost use Rattle.state_table.specs.Meeting.{PairFits, PairApart, RowsFit, RowsApart, AreAlike, row, rows_in};
ghost use Rattle.lrtable.specs.LookRows.{IsInEach};
ghost use Rattle.lrtable.specs.MovedItems.{AreWide, rows_from};

use crate::moved_items::{MovedItem, Rows};
use cfg_base::index::IndexStorage;
use vob::Vob;

/// Returns whether one of two pairs of sets shares a token.
fn either_meet(a: &Vob, b: &Vob, c: &Vob, d: &Vob) -> bool
    requires one { length a.now.bits ≡ length b.now.bits }
    requires other { length c.now.bits ≡ length d.now.bits }
    ensures { IsTrue result ↔ (Meets a.now.bits b.now.bits ⊎ Meets c.now.bits d.now.bits) }
{
    if a.meets(b) {
        return true;
    }
    c.meets(d)
}

/// Returns whether the lookaheads of two core items, `ai` and `aj` in one set and `bi` and `bj` in another, let the
/// sets be joined.
fn pair_fits(ai: &Vob, aj: &Vob, bi: &Vob, bj: &Vob) -> bool
    requires one { length ai.now.bits ≡ length bj.now.bits }
    requires other { length bi.now.bits ≡ length aj.now.bits }
    requires both { length ai.now.bits ≡ length aj.now.bits }
    ensures fits { result ≡ true → PairFits ai.now.bits aj.now.bits bi.now.bits bj.now.bits }
    ensures apart { result ≡ false → PairApart ai.now.bits aj.now.bits bi.now.bits bj.now.bits }
{
    if !either_meet(ai, bj, bi, aj) {
        return true;
    }
    either_meet(ai, aj, bi, bj)
}

fn fits_below<S: IndexStorage>(a: &[Vob], b: &[MovedItem<S>], rows: &Rows<'_>, j: usize) -> bool
    requires alike { AreAlike (rows_in a.now) (rows_from rows.now b.now) }
    requires wide { AreWide (rows_from rows.now b.now) }
    requires within { j < length a.now }
    ensures fits { result ≡ true → (i : ℕ) → i < j → PairFits (row (rows_in a.now) i) (row (rows_in a.now) j) (row (rows_from rows.now b.now) i) (row (rows_from rows.now b.now) j) }
    ensures apart { result ≡ false → (i : ℕ) × (i < j) × PairApart (row (rows_in a.now) i) (row (rows_in a.now) j) (row (rows_from rows.now b.now) i) (row (rows_from rows.now b.now) j) }
{
    'each: for i in 0..j {
        let bi = rows.row(b[i].source);
        let bj = rows.row(b[j].source);
        if !pair_fits(&a[i], &a[j], bi, bj) {
            return false;
        }
    }
    true
}

// Of so few items each pair is compared at once.
const FEW_ITEMS: usize = 4;

/// Returns whether a token is in a set.
fn is_in(looks: &Vob, token: usize) -> bool
    ensures { result ≡ true → IsTrue (slice_index_or looks.now.bits token false) }
{
    looks.get(token).unwrap_or(false)
}

/// Returns whether a token is in each set.
fn is_in_each(looks: &[Vob], token: usize) -> bool
    ensures { result ≡ true → IsInEach (rows_in looks.now) token }
{
    'each: for i in 0..looks.len() {
        if !is_in(&looks[i], token) {
            return false;
        }
    }
    true
}

/// Returns whether a token is found that is in each set.
fn share_token(looks: &[Vob]) -> bool
    ensures { result ≡ true → (t : ℕ) × IsInEach (rows_in looks.now) t }
{
    if looks.is_empty() {
        return false;
    }
    'tokens: for token in looks[0].iter_set_bits(..) {
        if is_in_each(looks, token) {
            return true;
        }
    }
    false
}

/// Returns whether two sets of one core are weakly compatible (Pager 1977), by their items' lookaheads. For each two
/// items `i` and `j`, those of `i` in one set and of `j` in the other share no token, both ways around; or those of
/// `i` and `j` share one within one of the sets.
pub(crate) fn weakly_compatible<S: IndexStorage>(
    a: &[Vob],
    b: &[MovedItem<S>],
    rows: &Rows<'_>,
) -> bool
    requires alike { AreAlike (rows_in a.now) (rows_from rows.now b.now) }
    requires wide { AreWide (rows_from rows.now b.now) }
    ensures fits { result ≡ true → RowsFit (rows_in a.now) (rows_from rows.now b.now) }
    ensures apart { result ≡ false → RowsApart (rows_in a.now) (rows_from rows.now b.now) }
{
    if a.len() > FEW_ITEMS && share_token(a) {
        return true;
    }
    'each: for j in 0..a.len() {
        if !fits_below(a, b, rows, j) {
            return false;
        }
    }
    true
}

/// Returns whether each set of the first list holds that of the second beside it.
pub(crate) fn hold_all<S: IndexStorage>(a: &[Vob], b: &[MovedItem<S>], rows: &Rows<'_>) -> bool
    requires alike { AreAlike (rows_in a.now) (rows_from rows.now b.now) }
    requires wide { AreWide (rows_from rows.now b.now) }
    ensures covered { result ≡ true → CoversRows (rows_in a.now) (rows_from rows.now b.now) }
    ensures lacked { result ≡ false → LacksRows (rows_in a.now) (rows_from rows.now b.now) }
{
    'each: for i in 0..a.len() {
        if !a[i].holds(rows.row(b[i].source)) {
            return false;
        }
    }
    true
}
