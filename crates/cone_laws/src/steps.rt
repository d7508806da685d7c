//! Laws of what lines and rays span, and of the steps of the double description method (Motzkin,
//! Raiffa, Thompson and Thrall, 1953; Chernikova, 1964).

ghost use Rattle.cone_laws.specs.StepLaws.{AtLeastZeroOnSpanned, DotOfMultiple, DotOfSum, LineStepGenerates, MultipleIsSpanned, SpansOfSpanned, SumIsSpanned, UnitsGenerate};

/// The value of a row is additive, and a multiple's value is the multiple.
pub fn dot_is_linear()
    ensures sum { DotOfSum }
    ensures multiple { DotOfMultiple }
{}

/// Sums, multiples and what spanned vectors span are spanned,
/// and a row that is at least 0 on the system is so on all that it spans.
pub fn spanning_is_closed()
    ensures sum { SumIsSpanned }
    ensures multiple { MultipleIsSpanned }
    ensures through { SpansOfSpanned }
    ensures at_least_zero { AtLeastZeroOnSpanned }
{}

/// The unit vectors as lines generate the cone of no row.
pub fn units_generate()
    ensures { UnitsGenerate }
{}

/// A step with a line that crosses the row generates the cone of one row more.
pub fn line_step_generates()
    ensures { LineStepGenerates }
{}
