//! The kernels.
ghost use Rattle.std.specs.Prelude.{◌≡◌, ◌↔◌, ℕ, ◌+◌, ◌*◌, ◌^◌, ◌<◌, ◌≤◌, ◌&&◌, ◌||◌, IsTrue};
ghost use Rattle.std.specs.Prelude.{length, slice_index_or, bit_and};
ghost use Rattle.sat_bits.specs.Places.{place, IsSubsetOfAnd, IsNoneMissing, AreNoneMissing};
ghost use Rattle.sat_bits.specs.Places.{HasThirdWord};

use std::simd::u64x8;

/// Writes the conjunction of two rows over `dst`.
pub fn and_into(dst: &mut [u64], a: &[u64], b: &[u64])
    requires first { length a.now ≡ length dst.old }
    requires second { length b.now ≡ length dst.old }
    ensures width { length dst.new ≡ length dst.old }
    ensures places { (i : ℕ) → place dst.new i ≡ (place a.now i && place b.now i) }
{
    let (a_blocks, _rest) = a.as_chunks::<8>();
    let (b_blocks, _rest) = b.as_chunks::<8>();
    for block in 0..a_blocks.len() {
        and_block(dst, block * 8, &a_blocks[block], &b_blocks[block]);
    }
    for word in a_blocks.len() * 8..a.len() {
        dst[word] = a[word] & b[word];
    }
}

/// Writes over `dst` where it or the other row is true.
pub fn or_into(dst: &mut [u64], row: &[u64])
    requires { length row.now ≡ length dst.old }
    ensures width { length dst.new ≡ length dst.old }
    ensures places { (i : ℕ) → place dst.new i ≡ (place dst.old i || place row.now i) }
{
    for word in 0..row.len() {
        dst[word] |= row[word];
    }
}

/// Whether each place that is true in both `a` and `b` is true in `c`. Where the caller knows that
/// rows have a few words, it is compiled for these.
#[inline(always)]
pub fn is_subset_of_and(a: &[u64], b: &[u64], c: &[u64]) -> bool
    requires second { length b.now ≡ length a.now }
    requires third { length c.now ≡ length a.now }
    ensures { IsTrue result ↔ IsSubsetOfAnd a.now b.now c.now }
{
    if a.len() < 8 {
        return is_subset_by_words(a, b, c);
    }
    let (a_blocks, a_rest) = a.as_chunks::<8>();
    let (b_blocks, b_rest) = b.as_chunks::<8>();
    let (c_blocks, c_rest) = c.as_chunks::<8>();
    for block in 0..a_blocks.len() {
        if !is_block_covered(&a_blocks[block], &b_blocks[block], &c_blocks[block]) {
            return false;
        }
    }
    for word in 0..a_rest.len() {
        if !is_word_covered(a_rest[word], b_rest[word], c_rest[word]) {
            return false;
        }
    }
    true
}

/// Whether some word at another place than `i` and `j` has each bit that both of these have.
pub(crate) fn some_other_covers(words: &[u64], i: usize, j: usize) -> bool
    requires first { i < length words.now }
    requires second { j < length words.now }
    ensures fit { (k : ℕ) → slice_index_or words.now k 0 < 2 ^ 64 }
    ensures third { IsTrue result ↔ HasThirdWord words.now i j }
{
    let both = words[i] & words[j];
    for k in 0..words.len() {
        if both & !words[k] == 0 && k != i && k != j {
            return true;
        }
    }
    false
}

/// Whether each place that is true in both `a` and `b` is true in `c`, word by word.
#[inline(always)]
fn is_subset_by_words(a: &[u64], b: &[u64], c: &[u64]) -> bool
    requires second { length b.now ≡ length a.now }
    requires third { length c.now ≡ length a.now }
    ensures { IsTrue result ↔ IsSubsetOfAnd a.now b.now c.now }
{
    for word in 0..a.len() {
        if !is_word_covered(a[word], b[word], c[word]) {
            return false;
        }
    }
    true
}

/// Writes over `dst`, from word `at` on, the conjunction of two blocks of words.
#[inline]
fn and_block(dst: &mut [u64], at: usize, a: &[u64; 8], b: &[u64; 8])
    requires { at + 8 ≤ length dst.old }
    ensures width { length dst.new ≡ length dst.old }
    ensures inside { (k : ℕ) → k < 8 → slice_index_or dst.new (at + k) 0 ≡
        bit_and (slice_index_or a.now k 0) (slice_index_or b.now k 0) }
    ensures outside { (k : ℕ) → k < at → slice_index_or dst.new k 0 ≡ slice_index_or dst.old k 0 }
{
    let both = u64x8::from_array(*a) & u64x8::from_array(*b);
    both.copy_to_slice(&mut dst[at..]);
}

/// Whether in a block the third words have each bit that the first and the second both have.
#[inline]
fn is_block_covered(a: &[u64; 8], b: &[u64; 8], c: &[u64; 8]) -> bool
    ensures { IsTrue result ↔ AreNoneMissing a.now b.now c.now 8 }
{
    let missing = u64x8::from_array(*a) & u64x8::from_array(*b) & !u64x8::from_array(*c);
    missing.reduce_or() == 0
}

/// Whether the third word has each bit that the first and the second both have.
#[inline]
fn is_word_covered(a: u64, b: u64, c: u64) -> bool
    ensures { IsTrue result ↔ IsNoneMissing a b c }
{
    a & b & !c == 0
}
