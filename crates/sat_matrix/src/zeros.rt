//! The table of the rows on which each ray is 0, brought up to date with a row.
ghost use Rattle.std.specs.Prelude.{◌≡◌, ℕ, ◌+◌, ◌-◌, ◌<◌, ◌≤◌, Bool, true, false, List, [], ◌∷◌};
ghost use Rattle.std.specs.Prelude.{◌++◌, length, map, replicate, pos, slice_set};
ghost use Rattle.std.specs.Ordering.{int_eq};
ghost use Rattle.sat_matrix.specs.Tables.{Table};
ghost use Rattle.sat_matrix.specs.TableSteps.{AreWithin, HasColumn, HasPairs, HasLineStep};
ghost use Rattle.sat_matrix.specs.TableSteps.{HasRayStep, HasFalseColumn, IsAsLarge};

use crate::matrix::SatMatrix;

/// Makes the last column true where the values are 0.
pub fn mark_zeros(zeros: &mut SatMatrix, values: &[i128])
    requires columns { 0 < zeros.old.columns }
    requires as_many { length values.now ≡ length zeros.old.rows }
    ensures column { let column = map (λ value. int_eq value (pos 0)) values.now in
        (before : Table) → HasFalseColumn before zeros.old → HasColumn column before zeros.new }
    ensures kept { IsAsLarge zeros.old zeros.new }
{
    let _columns = zeros.columns();
    zeros.mark_last(values);
}

/// Makes the last column true.
fn fill_column(zeros: &mut SatMatrix)
    requires { 0 < zeros.old.columns }
    ensures column { (before : Table) → HasFalseColumn before zeros.old →
        HasColumn (replicate (length before.rows) true) before zeros.new }
    ensures kept { IsAsLarge zeros.old zeros.new }
{
    let last = zeros.columns() - 1;
    for row in 0..zeros.len() {
        zeros.set(row, last, true);
    }
}

/// Appends a row that is true but for the last column.
fn push_upward(zeros: &mut SatMatrix)
    requires columns { 0 < zeros.old.columns }
    requires spare { 0 < zeros.old.spare }
    ensures columns { zeros.new.columns ≡ zeros.old.columns }
    ensures rows { let row = replicate zeros.old.columns true in
        zeros.new.rows ≡ zeros.old.rows ++ slice_set row (zeros.old.columns - 1) false ∷ [] }
{
    let row = zeros.len();
    let last = zeros.columns() - 1;
    zeros.push_reserved(true);
    zeros.set(row, last, false);
}

/// Brings the table up to date with a line step, for which it has a column and room.
pub fn after_line_step(zeros: &mut SatMatrix, eq: bool)
    requires columns { 0 < zeros.old.columns }
    requires spare { 0 < zeros.old.spare }
    ensures { (before : Table) → HasFalseColumn before zeros.old → HasLineStep eq before zeros.new }
{
    fill_column(zeros);
    if !eq {
        push_upward(zeros);
    }
}

/// Appends a row for each pair, true where both rows of the pair are, and at the last column.
fn push_pairs(zeros: &mut SatMatrix, pairs: &[(usize, usize)])
    requires columns { 0 < zeros.old.columns }
    requires spare { length pairs.now ≤ zeros.old.spare }
    requires pairs { AreWithin (length zeros.old.rows) pairs.now }
    ensures { HasPairs pairs.now zeros.old zeros.new }
{
    let last = zeros.columns() - 1;
    for &(above, below) in pairs {
        let row = zeros.len();
        zeros.push_and(above, below);
        zeros.set(row, last, true);
    }
}

/// Brings the table up to date with a ray step, for which it has a column and room: the marks are
/// those of the old rays, and true for each pair.
pub fn after_ray_step(
    zeros: &mut SatMatrix,
    values: &[i128],
    keep: &[bool],
    pairs: &[(usize, usize)],
)
    requires columns { 0 < zeros.old.columns }
    requires spare { length pairs.now ≤ zeros.old.spare }
    requires as_many { length values.now ≡ length zeros.old.rows }
    requires marks { length keep.now ≡ length zeros.old.rows + length pairs.now }
    requires pairs { AreWithin (length zeros.old.rows) pairs.now }
    ensures { (before : Table) (marks : List Bool) → HasFalseColumn before zeros.old →
        keep.now ≡ marks ++ replicate (length pairs.now) true →
        HasRayStep values.now marks pairs.now before zeros.new }
{
    mark_zeros(zeros, values);
    push_pairs(zeros, pairs);
    zeros.keep_rows(keep);
}
