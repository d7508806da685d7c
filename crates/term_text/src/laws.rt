//! Laws of the definitions that the contracts cite.
ghost use Rattle.grammar.specs.Cases.{expr_cases, frac_cases, con_cases, cons_cases, point_cases};
ghost use Rattle.term_text.specs.Values.{expr_by, frac_by, con_by, cons_by, point_by};
ghost use Rattle.term_text.specs.OneReading.{HasOneReading, ExprHasOneRow, FracHasOneRow, ConHasOneRow, PointHasOneRow};

#[tactic(auto, using(crate::proofs::Unique::one_expr, crate::proofs::Unique::one_frac, crate::proofs::Unique::one_con, crate::proofs::Unique::one_cons, crate::proofs::Unique::one_point))]
/// However the grammar takes a text apart, the text says the same.
pub fn one_reading()
    ensures expr { HasOneReading expr_cases expr_by }
    ensures frac { HasOneReading frac_cases frac_by }
    ensures con { HasOneReading con_cases con_by }
    ensures cons { HasOneReading cons_cases cons_by }
    ensures point { HasOneReading point_cases point_by }
{}

/// A text has one row.
pub fn one_row()
    ensures expr { ExprHasOneRow }
    ensures frac { FracHasOneRow }
    ensures con { ConHasOneRow }
    ensures point { PointHasOneRow }
{}
