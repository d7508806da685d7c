//! That answers are true of points.
ghost use Rattle.polycalc.specs.Sound.{AnswersAreSound};

use expr_text::{constraints_are_read_back, generators_are_read_back};
use optimum::laws::generator_is_witness;
use poly_pair::laws::{kept_is_empty, kept_is_pair};
use powerset::laws::{join_is_union, pair_meet_is_intersection};
use ranking::laws::printed_function_ranks;
use script_text::variables_are_listed;
use widening::laws::widening_includes;

/// What is answered is true of the points for which the names stand.
pub fn answers_are_sound()
    ensures { AnswersAreSound }
{
    kept_is_pair();
    kept_is_empty();
    constraints_are_read_back();
    generators_are_read_back();
    generator_is_witness();
    widening_includes();
    join_is_union();
    pair_meet_is_intersection();
    printed_function_ranks();
    variables_are_listed();
}
