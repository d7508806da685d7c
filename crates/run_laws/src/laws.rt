//! Laws of runs.
ghost use Rattle.std.specs.Prelude.{◌≡◌, ℕ, List, [], false};
ghost use Rattle.name_table.specs.Table.{HasDistinctNames};
ghost use Rattle.calc_state.specs.State.{State, closed};
ghost use Rattle.line_values.specs.Replies.{Reply, is_answer};
ghost use Rattle.calc_state.specs.Line.{Step};
ghost use Rattle.calc_state.specs.Runs.{Run};
ghost use Rattle.run_laws.specs.Laws.{AcceptedDecide, AcceptedIsUnique, SetsAreAsCommanded, SetsAreUnique, AnswersAreTrue};

use calc_state::names_stay_distinct;
use expr_text::{constraints_are_read_back, generators_are_read_back, one_answer};
use fixpoint::laws::one_limit;
use hybrid::laws::one_reach;
use optimum::laws::{generator_is_witness, one_sup};
use poly_pair::laws::{kept_is_empty, kept_is_pair};
use ranking::laws::printed_function_ranks;
use script_text::one_command;
use set_laws::joined::joined_sets_are_same;
use stored_systems::stored_laws::stored_is_unique;
use widening::laws::one_widening;

/// After each run the table has under each name a polyhedron, a transition system, a powerset, a
/// shape or an automaton that the accepted commands and files give it, by the commands' definitions
/// in order; the constraints and the generators of a polyhedron hold the same points. And the table
/// has the names that they give, in the order in which these were made. They give a name one
/// transition system, one shape or one automaton, or one topology, one dimension and one set of
/// points, and where it is closed one pair of stored systems; of a powerset they give this of each
/// member, and the members' number and order.
pub fn sets_are_as_commanded()
    ensures sets { SetsAreAsCommanded }
    ensures unique { SetsAreUnique }
{
    names_stay_distinct();
    one_answer();
    cdd_reading::one_answer();
    stored_is_unique();
    kept_is_pair();
    kept_is_empty();
    joined_sets_are_same();
    one_widening();
    one_limit();
    one_reach();
}

/// In each run every answer is true of the sets that what was accepted before it gives: `has` says
/// whether the point is in the set, what `print` says is read back as the stored constraints or
/// generators, which hold at or generate exactly these points, `size` counts them, and `names` says
/// the names that there are. `isempty`, `contains`, `equal`, `disjoint` and `relation` say how the
/// sets lie, and `max` and `min` what the bound is, whether a point has it, and a generator that
/// shows it. `write` gives the file of the stored constraints or generators. `psize` says the
/// number of members, and `covers` that each point of the second powerset is in the first, or a
/// point of it that isn't; `ranking` a function that ranks the relation, or that no affine function
/// does; `scontains` whether each point of the second shape is in the first, and `sprint` the
/// greatest difference of each two places, which are read back as constraints that hold exactly at
/// the shape's points.
pub fn answers_are_true()
    ensures { AnswersAreTrue }
{
    names_stay_distinct();
    constraints_are_read_back();
    generators_are_read_back();
    kept_is_pair();
    generator_is_witness();
    printed_function_ranks();
}

/// Two runs that accept the same commands and files come to the same names and sets, and give the
/// same answers, byte for byte, whatever other lines they refuse. Only of a polyhedron that needn't
/// be closed the stored systems may differ, and with them the answers to `print` and `size` and the
/// generator that `max` and `min` show; and where `covers` says no, the point that it shows.
pub fn accepted_decide()
    ensures { AcceptedDecide }
{
    names_stay_distinct();
    one_command();
    one_answer();
    cdd_reading::one_answer();
    constraints_are_read_back();
    generators_are_read_back();
    stored_is_unique();
    kept_is_pair();
    kept_is_empty();
    joined_sets_are_same();
    one_widening();
    one_limit();
    one_reach();
    one_sup();
    generator_is_witness();
    printed_function_ranks();
}

/// A run accepts one list of commands and files.
pub fn accepted_is_unique()
    ensures { AcceptedIsUnique }
{
    one_command();
}

/// A line whose reply is a fault or an overflow leaves the names and their sets as they were, and
/// no file is open after it.
#[tactic(auto, using(crate::proofs::StepLaws::refused_unchanged))]
pub fn refusals_change_nothing()
    ensures { (old : State) (line : List ℕ) (reply : Reply) (new : State) → Step old line reply new
        → is_answer reply ≡ false → new ≡ closed old.names }
{}

/// In the table after a run no two entries have the same name.
pub fn names_are_distinct()
    ensures { (lines : List (List ℕ)) (replies : List Reply) (new : State)
        → Run (closed []) lines replies new → HasDistinctNames new.names }
{
    names_stay_distinct();
}
