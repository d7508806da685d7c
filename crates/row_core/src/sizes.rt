//! How many bits the numbers of rows have, and dots and combinations in which nothing is tested,
//! since all that is computed fits.
ghost use Rattle.std.specs.Prelude.{◌≡◌, ℕ, ◌+◌, ◌*◌, ◌^◌, ◌<◌, ◌≤◌, length};
ghost use Rattle.row_core.specs.Vectors.{dot, scale, add};
ghost use Rattle.row_core.specs.Range.{InRange, AllInRange, DotStays, AllStay};
ghost use Rattle.row_core.specs.Sizes.{HaveBits, AreBelow, DotIsOfWords, CombineIsOfWords};

/// How many bits the entries have at most. No smaller number would do.
#[inline]
pub fn bits(row: &[i128]) -> u32
    ensures within { HaveBits result row.now }
    ensures least { (n : ℕ) → AreBelow (2 ^ n) row.now → result ≤ n }
{
    let mut sizes = 0;
    for j in 0..row.len() {
        sizes |= row[j].unsigned_abs();
    }
    bits_of(sizes)
}

/// How many bits a number has.
#[inline]
pub(crate) fn bits_of(n: u128) -> u32
    ensures below { n < 2 ^ result }
    ensures least { 2 ^ result ≤ 2 * n + 1 }
{
    128 - n.leading_zeros()
}

/// The dot product of rows of one width, in one word, which holds all that is computed.
#[inline]
pub fn word_dot(u: &[i128], v: &[i128]) -> i128
    requires same_width { length u.now ≡ length v.now }
    requires words { AllStay (DotIsOfWords u.now v.now) (length u.now) }
    ensures value { result ≡ dot u.now v.now }
    ensures in_range { InRange result }
{
    let mut total: i64 = 0;
    for j in 0..u.len() {
        total += u[j] as i64 * v[j] as i64;
    }
    i128::from(total)
}

/// The dot product of rows of one width, without tests.
#[inline]
pub(crate) fn exact_dot(u: &[i128], v: &[i128]) -> i128
    requires same_width { length u.now ≡ length v.now }
    requires stays { AllStay (DotStays u.now v.now) (length u.now) }
    ensures value { result ≡ dot u.now v.now }
    ensures in_range { InRange result }
{
    let mut total = 0;
    for j in 0..u.len() {
        total += u[j] * v[j];
    }
    total
}

/// Writes `s * dst + t * v` over `dst`, each entry in one word, and tells how many bits they have.
#[inline]
pub(crate) fn words_onto(dst: &mut [i128], s: i64, v: &[i128], t: i64) -> u32
    requires same_width { length dst.old ≡ length v.now }
    requires words { AllStay (CombineIsOfWords dst.old s v.now t) (length dst.old) }
    ensures combined { dst.new ≡ add (scale s dst.old) (scale t v.now) }
    ensures in_range { AllInRange dst.new }
    ensures bits { HaveBits result dst.new }
{
    let mut sizes = 0;
    for j in 0..dst.len() {
        let entry = s * dst[j] as i64 + t * v[j] as i64;
        sizes |= entry.unsigned_abs();
        dst[j] = i128::from(entry);
    }
    64 - sizes.leading_zeros()
}
