//! What must be answered.
ghost use Rattle.calc_state.specs.Runs.{RunsAreComplete};

use script_text::{one_command, reads_once};

/// In each run every line that must succeed is answered.
pub fn runs_are_complete()
    ensures { RunsAreComplete }
{
    one_command();
    reads_once();
}
