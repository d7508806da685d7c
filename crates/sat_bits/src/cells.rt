//! Rows of as many words each, one after another in one list of cells.
ghost use Rattle.std.specs.Prelude.{◌≡◌, ℕ, ◌+◌, ◌*◌, ◌^◌, ◌<◌, ◌≤◌, false, IsTrue, length};
ghost use Rattle.sat_bits.specs.Places.{place};
ghost use Rattle.sat_bits.specs.Cells.{cell_place, IsBitOf, IsMarked, IsZeroColumn, IsFrontFilled};
ghost use Rattle.sat_bits.specs.Cells.{IsJoined, IsWrittenBehind};

use crate::places::with_bit;

/// Makes the places of a column true at the rows that the true places of a list of words number.
pub fn mark_column(cells: &mut [u64], width: usize, column: usize, words: &[u64])
    requires column { column < width * 64 }
    requires within { (i : ℕ) → IsTrue (place words.now i) → i * width + width ≤ length cells.old }
    ensures { IsMarked width column (λ i. IsTrue (place words.now i)) cells.old cells.new }
{
    for index in 0..words.len() {
        mark_word(cells, width, column, index, words[index]);
    }
}

/// The same for the bits of the word at an index.
#[inline]
fn mark_word(cells: &mut [u64], width: usize, column: usize, index: usize, word: u64)
    requires column { column < width * 64 }
    requires within { (i : ℕ) → IsBitOf index word i → i * width + width ≤ length cells.old }
    ensures { IsMarked width column (IsBitOf index word) cells.old cells.new }
{
    let mut rest = word;
    while rest != 0 {
        let bit = rest.trailing_zeros();
        let at = (index * 64 + bit as usize) * width + column / 64;
        cells[at] = with_bit(cells[at], (column % 64) as u32, true);
        rest &= !(1 << bit);
    }
}

/// Makes a column true at the rows whose values are 0, and false at the others.
pub fn mark_zeros(cells: &mut [u64], width: usize, column: usize, values: &[i128])
    requires column { column < width * 64 }
    requires rows { length values.now * width ≤ length cells.old }
    ensures { IsZeroColumn width column values.now (length values.now) cells.old cells.new }
{
    for row in 0..values.len() {
        let at = row * width + column / 64;
        cells[at] = with_bit(cells[at], (column % 64) as u32, values[row] == 0);
    }
}

/// Writes a list of words behind so many places that are true over a row that is false.
pub fn write_behind(cells: &mut [u64], width: usize, row: usize, front: usize, words: &[u64])
    requires row { row * width + width ≤ length cells.old }
    requires front { front ≤ width * 64 }
    requires none { (p : ℕ) → p < width * 64 → cell_place cells.old width row p ≡ false }
    requires within { (j : ℕ) → IsTrue (place words.now j) → front + j < width * 64 }
    requires fits { (j : ℕ) → IsTrue (place words.now j) → front + j < 2 ^ 64 }
    ensures { IsWrittenBehind width row front words.now cells.old cells.new }
{
    fill_front(cells, width, row, front);
    join_behind(cells, width, row, front, words);
}

/// Makes the places of a row behind so many true that are true in a list of words.
fn join_behind(cells: &mut [u64], width: usize, row: usize, front: usize, words: &[u64])
    requires row { row * width + width ≤ length cells.old }
    requires within { (j : ℕ) → IsTrue (place words.now j) → front + j < width * 64 }
    requires fits { (j : ℕ) → IsTrue (place words.now j) → front + j < 2 ^ 64 }
    ensures { IsJoined width row front (λ j. IsTrue (place words.now j)) cells.old cells.new }
{
    for index in 0..words.len() {
        join_word(cells, width, row, front, index, words[index]);
    }
}

/// The same for the bits of the word at an index.
#[inline]
fn join_word(cells: &mut [u64], width: usize, row: usize, front: usize, index: usize, word: u64)
    requires row { row * width + width ≤ length cells.old }
    requires within { (j : ℕ) → IsBitOf index word j → front + j < width * 64 }
    requires fits { (j : ℕ) → IsBitOf index word j → front + j < 2 ^ 64 }
    ensures { IsJoined width row front (IsBitOf index word) cells.old cells.new }
{
    let mut rest = word;
    while rest != 0 {
        let bit = rest.trailing_zeros();
        let place = front + (index * 64 + bit as usize);
        let at = row * width + place / 64;
        cells[at] = with_bit(cells[at], (place % 64) as u32, true);
        rest &= !(1 << bit);
    }
}

/// Makes the first places of a row true, so many.
pub fn fill_front(cells: &mut [u64], width: usize, row: usize, count: usize)
    requires row { row * width + width ≤ length cells.old }
    requires count { count ≤ width * 64 }
    ensures { IsFrontFilled width row count cells.old cells.new }
{
    let at = row * width;
    for word in 0..count / 64 {
        cells[at + word] = u64::MAX;
    }
    if count % 64 != 0 {
        cells[at + count / 64] |= (1 << (count % 64)) - 1;
    }
}
