//! How many rays the search for adjacent pairs looks at.
ghost use Rattle.std.specs.Prelude.{◌≡◌, ℕ, ◌<◌, ◌≤◌, length};
ghost use Rattle.sat_matrix.specs.Pairs.{index_at};

use crate::matrix::SatMatrix;

/// Among so few rays a search isn't counted.
const FEW_RAYS: usize = 32;

/// Of fewer rays each one is seen to be crowded or not.
const SAMPLE: usize = 256;

/// Of how many rays a search for a third one is expected to see one.
const SEEN: u64 = 32;

/// How many rays are above a row and how many below it.
#[derive(Clone, Copy)]
struct SideCounts {
    above: u64,
    below: u64,
}

impl SideCounts {
    const NONE: SideCounts = SideCounts { above: 0, below: 0 };

    // Counts so many rays on the side of a value, if it isn't 0.
    fn count(&mut self, value: i128, rays: u64) {
        if value > 0 {
            self.above = self.above.saturating_add(rays);
        } else if value < 0 {
            self.below = self.below.saturating_add(rays);
        }
    }

    // How many pairs of a ray above and one below there are.
    fn pairs(self) -> u64 {
        self.above.saturating_mul(self.below)
    }
}

/// Whether a ray is 0 on more rows than rays of a simple cone: only between two of these a third
/// ray is looked for.
pub(crate) fn is_crowded(zeros: &SatMatrix, ray: usize, least: usize) -> bool
    requires { ray < length zeros.now.rows }
{
    zeros.ones(ray) > least.saturating_add(1)
}

/// Whether some ray of the list is crowded, of those from one position up to another.
pub(crate) fn has_crowded(
    zeros: &SatMatrix,
    rays: &[usize],
    from: usize,
    to: usize,
    least: usize,
) -> bool
    requires to { to ≤ length rays.now }
    requires rays { (q : ℕ) → q < length rays.now → index_at rays.now q < length zeros.now.rows }
{
    for position in from..to {
        if is_crowded(zeros, rays[position], least) {
            return true;
        }
    }
    false
}

/// How many rays the search for adjacent pairs is expected to look at: one for each pair of a ray
/// above the row and one below it, and part of all rays for each such pair of crowded ones.
pub fn expected_looks(values: &[i128], zeros: &SatMatrix, least: usize) -> u64
    requires { length values.now ≡ length zeros.now.rows }
{
    if values.len() <= FEW_RAYS {
        return 0;
    }
    // Of so many rays one is asked whether it is crowded: it stands for all of them.
    let stride = (values.len() / SAMPLE + 1).next_power_of_two();
    let pairs = counted(values).pairs();
    let searches = crowded(values, zeros, least, stride).pairs();
    pairs.saturating_add(searches.saturating_mul(values.len() as u64 / SEEN))
}

/// How many rays have values on each side.
fn counted(values: &[i128]) -> SideCounts {
    let mut sides = SideCounts::NONE;
    for ray in 0..values.len() {
        sides.count(values[ray], 1);
    }
    sides
}

/// About how many crowded rays have values on each side, by one ray of so many.
fn crowded(values: &[i128], zeros: &SatMatrix, least: usize, stride: usize) -> SideCounts
    requires as_many { length values.now ≡ length zeros.now.rows }
    requires stride { 0 < stride }
{
    let mut sides = SideCounts::NONE;
    for ray in (0..values.len()).step_by(stride) {
        if is_crowded(zeros, ray, least) {
            sides.count(values[ray], stride as u64);
        }
    }
    sides
}
