//! Laws of what the clause `sound` of `polycalc` allows, by its definitions alone: no run of the
//! calculator is named.
ghost use Rattle.run_laws.specs.Allowed.{AnswersAreOne, CombinationsAreOne, ExtremesAreOne, FilesAreOne};
ghost use Rattle.run_laws.specs.Allowed.{FixpointsAreWhole, LinesHaveOneAnswer, OnlyOkChanges, PrintsSayOne};
ghost use Rattle.run_laws.specs.Allowed.{QuestionsHaveOneAnswer, ReachesAreWhole, ResultsAreOne, TextsMakeOne};
ghost use Rattle.run_laws.specs.Scripts.{ScriptsHaveOneAnswer, ScriptsHaveOneText};

use optimum::laws::one_bound;

/// What a command may make of the same sets, and of texts that say the same, is one set of
/// points, and so is what a file may stand for: a result with other points than a right one isn't
/// allowed.
pub fn allowed_results_are_one()
    ensures results { ResultsAreOne }
    ensures texts { TextsMakeOne }
    ensures unions { CombinationsAreOne }
    ensures files { FilesAreOne }
{}

/// What may be answered of the same sets, and of texts that say the same, is one answer; a bound
/// may be shown by different witnesses, and `no` of `covers` by different points. What is printed
/// may differ too, but says one set.
pub fn allowed_answers_are_one()
    ensures answers { AnswersAreOne }
    ensures extremes { ExtremesAreOne }
    ensures prints { PrintsSayOne }
{
    one_bound();
}

/// The sets of a `fixpoint` lack no initial state and no successor of their states. Those of a
/// `reach` lack no state that comes so, or as time passes, if it may stay at its location, and have
/// no state that may not.
pub fn allowed_runs_are_whole()
    ensures fixpoints { FixpointsAreWhole }
    ensures reaches { ReachesAreWhole }
{}

/// Only a line that is answered by `ok` changes what names stand for; a refused line isn't.
pub fn only_ok_changes_names()
    ensures { OnlyOkChanges }
{}

/// A line that asks for one thing by `isempty`, `contains`, `equal`, `disjoint` or `has` has one
/// answer, if it isn't refused.
pub fn lines_have_one_answer()
    ensures { LinesHaveOneAnswer }
{}

/// The questions of a stretch of a script, each for one thing and asked of the same names, have
/// one answer each, one after another, whatever is refused among them.
pub fn questions_have_one_answer()
    ensures { QuestionsHaveOneAnswer }
{}

/// Two texts that may be written to the same lines, from the same names, and that refuse the same
/// ones, answer the same to each question that points decide, whatever is made between: so a set
/// that was made wrongly shows at the first question that it turns. To a script of such questions
/// and makers alone only one text may be written without a refusal.
pub fn scripts_have_one_answer()
    ensures answers { ScriptsHaveOneAnswer }
    ensures texts { ScriptsHaveOneText }
{}
