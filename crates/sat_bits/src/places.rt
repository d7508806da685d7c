//! Single places, and one row within another.
ghost use Rattle.std.specs.Prelude.{◌≡◌, ◌≢◌, ◌↔◌, ℕ, ◌+◌, ◌*◌, ◌<◌, IsTrue, length};
ghost use Rattle.sat_bits.specs.Places.{place, bit_in};

use crate::kernels::is_subset_of_and;

/// The truth value at place `i`.
#[inline]
pub fn get(row: &[u64], i: usize) -> bool
    requires { i < length row.now * 64 }
    ensures { result ≡ place row.now i }
{
    (row[i / 64] >> (i % 64)) & 1 == 1
}

/// A word with bit `j` set or cleared.
#[inline]
pub fn with_bit(word: u64, j: u32, bit: bool) -> u64
    requires { j < 64 }
    ensures same { bit_in result j ≡ bit }
    ensures others { (k : ℕ) → k < 64 → k ≢ j → bit_in result k ≡ bit_in word k }
{
    if bit {
        word | (1 << j)
    } else {
        word & !(1 << j)
    }
}

/// Changes place `i` alone.
#[inline]
pub fn set(row: &mut [u64], i: usize, bit: bool)
    requires { i < length row.old * 64 }
    ensures width { length row.new ≡ length row.old }
    ensures same { place row.new i ≡ bit }
    ensures others { (k : ℕ) → k ≢ i → place row.new k ≡ place row.old k }
{
    let word = i / 64;
    row[word] = with_bit(row[word], (i % 64) as u32, bit);
}

/// Whether each true place of `a` is true in `b`.
pub fn is_subset(a: &[u64], b: &[u64]) -> bool
    requires { length b.now ≡ length a.now }
    ensures { IsTrue result ↔ ((i : ℕ) → IsTrue (place a.now i) → IsTrue (place b.now i)) }
{
    is_subset_of_and(a, a, b)
}
