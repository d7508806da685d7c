//! How many places are true.
ghost use Rattle.std.specs.Prelude.{◌≡◌, ◌↔◌, ◌+◌, ◌*◌, ◌^◌, ◌<◌, ◌&&◌, length, IsTrue};
ghost use Rattle.std.specs.Int.RustNames.{count_ones};
ghost use Rattle.std.specs.List.{range_with_len, count_by};
ghost use Rattle.sat_bits.specs.Places.{place};
ghost use Rattle.sat_bits.specs.Searches.{shared_places};

/// The number of true places.
#[inline]
pub fn count(a: &[u64]) -> usize
    requires { count_by (place a.now) (range_with_len 0 (length a.now * 64)) < 2 ^ 64 }
    ensures { result ≡ count_by (place a.now) (range_with_len 0 (length a.now * 64)) }
{
    if a.len() == 1 {
        return bits(a[0]);
    }
    let mut total = 0;
    for word in 0..a.len() {
        total += a[word].count_ones() as usize;
    }
    total
}

/// The number of places that are true in both rows. Where the caller knows how many words a row
/// has, the loop is compiled for these.
#[inline(always)]
pub fn count_and(a: &[u64], b: &[u64]) -> usize
    requires few { count_by (λ i. place a.now i && place b.now i)
        (range_with_len 0 (length a.now * 64)) < 2 ^ 64 }
    requires second { length b.now ≡ length a.now }
    ensures { result ≡
        count_by (λ i. place a.now i && place b.now i) (range_with_len 0 (length a.now * 64)) }
{
    if a.len() == 1 {
        return bits(a[0] & b[0]);
    }
    let mut total = 0;
    for word in 0..a.len() {
        total += (a[word] & b[word]).count_ones() as usize;
    }
    total
}

/// Whether the first row is true at one place more than the two share: at just one place at which
/// the second isn't.
#[inline(always)]
pub fn has_one_more(a: &[u64], b: &[u64]) -> bool
    requires { length b.now ≡ length a.now }
    ensures { IsTrue result ↔ (count_by (place a.now) (range_with_len 0 (length a.now * 64)) ≡
        shared_places a.now b.now + 1) }
{
    let mut apart = 0;
    for word in 0..a.len() {
        apart += (a[word] & !b[word]).count_ones();
        if apart > 1 {
            return false;
        }
    }
    apart == 1
}

/// The number of bits of a word.
#[inline]
fn bits(word: u64) -> usize
    ensures { result ≡ count_ones word }
{
    word.count_ones() as usize
}
