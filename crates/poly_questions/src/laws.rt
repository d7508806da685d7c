//! Laws of the definitions that the contracts cite.
ghost use Rattle.poly_questions.specs.OneAnswer.{HasOneAnswer, HasOneComparison};

/// A question about one polyhedron has one answer or shows one overflow, and so has one how two lie
/// that converts nothing.
pub fn one_answer()
    ensures about { HasOneAnswer }
    ensures compared { HasOneComparison }
{
    expr_text::one_answer();
    cons_sys::one_answer();
    lattice_ops::laws::one_answer();
    optimum::laws::one_relation();
    optimum::laws::one_sup();
}
