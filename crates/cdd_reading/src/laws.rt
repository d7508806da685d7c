//! Laws of files.
ghost use Rattle.cdd_reading.specs.OneAnswer.{HasOneIne, HasOneExt, HasOneFault, PassesOrFails};
ghost use Rattle.cdd_reading.specs.Scaling.{RowsAreScaled};

/// A file is read as one list of constraints and one of generators at most, and is refused for one
/// fault at most; and a file that passes all tests isn't refused.
pub fn one_answer()
    ensures constraints { HasOneIne }
    ensures generators { HasOneExt }
    ensures fault { HasOneFault }
    ensures excludes { PassesOrFails }
{}

/// The integers of a row are its numbers times the least positive number by which all are integers.
pub fn rows_are_scaled()
    ensures { RowsAreScaled }
{}
