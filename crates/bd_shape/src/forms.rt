//! What a row says of the difference of two places.
ghost use Rattle.std.specs.Prelude.{◌≡◌, ◌≢◌, ◌+◌, ◌<◌, ◌≤◌, ◌-◌, ◌^◌, ◌↔◌, ℕ, length, pos, neg_ℤ, IsTrue};
ghost use Rattle.row_core.specs.Vectors.{cell};
ghost use Rattle.row_core.specs.Range.{InRange, AllInRange};
ghost use Rattle.bd_shape.specs.Forms.{IsForm, signed_form};

/// The form of a row.
#[derive(Clone, Copy)]
pub(crate) enum Form {
    /// It has no variable.
    Constant,
    /// The factor, which is positive, times the value of place `plus` less that of place
    /// `minus`, and a constant.
    Difference {
        plus: usize,
        minus: usize,
        factor: i128,
    },
    /// It has three variables or more, or two whose coefficients aren't each other's negative.
    Other,
}

impl Form {
    /// Whether the row bounds no difference.
    pub(crate) fn is_other(self) -> bool
        ensures { IsTrue result ↔ (self ≡ Form.Other) }
    {
        match self {
            Form::Constant => false,
            Form::Difference {
                plus: _,
                minus: _,
                factor: _,
            } => false,
            Form::Other => true,
        }
    }
}

/// The first column from one on, and before the end, whose entry isn't 0; the end where
/// there is none.
fn next(row: &[i128], from: usize, end: usize) -> usize
    requires ordered { from ≤ end }
    requires within { end ≤ length row.now }
    ensures least { from ≤ result }
    ensures most { result ≤ end }
    ensures zeros { (k : ℕ) → from ≤ k → k < result → cell row.now k ≡ pos 0 }
    ensures found { result < end → cell row.now result ≢ pos 0 }
{
    for k in from..end {
        if row[k] != 0 {
            return k;
        }
    }
    end
}

/// The difference of two places with a coefficient that isn't 0.
fn signed(plus: usize, minus: usize, coefficient: i128) -> Form
    requires { InRange coefficient }
    ensures { result ≡ signed_form plus minus coefficient }
{
    if coefficient > 0 {
        return Form::Difference {
            plus,
            minus,
            factor: coefficient,
        };
    }
    Form::Difference {
        plus: minus,
        minus: plus,
        factor: -coefficient,
    }
}

/// Whether one number is the negative of the other.
fn are_opposite(x: i128, y: i128) -> bool
    requires { InRange y }
    ensures { IsTrue result ↔ (x ≡ neg_ℤ y) }
{
    x == -y
}

/// The form of a row, whose last entry is the constant.
pub(crate) fn form_of(row: &[i128], dim: usize) -> Form
    requires wide { length row.now ≡ dim + 1 }
    requires narrow { dim < 2 ^ 32 - 2 }
    requires in_range { AllInRange row.now }
    ensures { IsForm dim row.now result }
{
    let first = next(row, 0, dim);
    if first == dim {
        return Form::Constant;
    }
    let second = next(row, first + 1, dim);
    if second == dim {
        return signed(first + 1, 0, row[first]);
    }
    if !are_opposite(row[first], row[second]) {
        return Form::Other;
    }
    if next(row, second + 1, dim) != dim {
        return Form::Other;
    }
    signed(first + 1, second + 1, row[first])
}
