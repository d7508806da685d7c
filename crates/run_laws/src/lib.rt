//! Laws of whole runs of the calculator, in words of points: what a run accepts decides which sets
//! the names stand for and what is answered, and every answer is true of these sets.
//! [`prints_tell_points`] is a law of what is printed. Those of `allowed.rt` say that what the
//! clause `sound` of `polycalc` allows is one result and one answer.
#![tactic(auto)]

mod allowed;
mod laws;
mod prints;

pub use allowed::{
    allowed_answers_are_one, allowed_results_are_one, allowed_runs_are_whole,
    lines_have_one_answer, only_ok_changes_names, questions_have_one_answer,
    scripts_have_one_answer,
};
pub use laws::{
    accepted_decide, accepted_is_unique, answers_are_true, names_are_distinct,
    refusals_change_nothing, sets_are_as_commanded,
};
pub use prints::prints_tell_points;
