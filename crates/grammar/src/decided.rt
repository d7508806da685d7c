//! The forms that are decided by a machine.
ghost use Rattle.grammar.specs.Grammar.{alone, expr, con, cons, frac, point, gens};
ghost use Rattle.grammar.specs.Verdict.{IsVerdict};

use crate::tables::{CON, CONS, EXPR, FRAC, GENS, POINT};
use crate::verdict::Verdict;

/// Whether the text is an expression with any blanks around it.
#[inline(never)]
pub fn expr_column(text: &[u8]) -> Verdict
    ensures { IsVerdict (alone expr) text.now result }
{
    EXPR.column(text)
}

/// Whether the text is an expression with or without a divisor with any blanks around it.
#[inline(never)]
pub fn frac_column(text: &[u8]) -> Verdict
    ensures { IsVerdict (alone frac) text.now result }
{
    FRAC.column(text)
}

/// Whether the text is a constraint with any blanks around it.
#[inline(never)]
pub fn con_column(text: &[u8]) -> Verdict
    ensures { IsVerdict (alone con) text.now result }
{
    CON.column(text)
}

/// Whether the text is a list of constraints with any blanks around it.
#[inline(never)]
pub fn cons_column(text: &[u8]) -> Verdict
    ensures { IsVerdict (alone cons) text.now result }
{
    CONS.column(text)
}

/// Whether the text is a point with any blanks around it.
#[inline(never)]
pub fn point_column(text: &[u8]) -> Verdict
    ensures { IsVerdict (alone point) text.now result }
{
    POINT.column(text)
}

/// Whether the text is a list of generators with any blanks around it.
#[inline(never)]
pub fn gens_column(text: &[u8]) -> Verdict
    ensures { IsVerdict (alone gens) text.now result }
{
    GENS.column(text)
}
