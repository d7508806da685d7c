//! The values of texts that have their form.
ghost use Rattle.std.specs.Prelude.{◌≡◌, ◌-◌, ◌^◌, ◌<◌, MatchResult};
ghost use Rattle.grammar.specs.Form.{Matches};
ghost use Rattle.row_core.specs.Range.{AllInRange};
ghost use Rattle.grammar.specs.Grammar.{alone};
ghost use Rattle.grammar.specs.Cases.{expr_cases, frac_cases, point_cases};
ghost use Rattle.term_text.specs.Reading.{start, terms_read, ratio_read};
ghost use Rattle.term_text.specs.Texts.{IsRowOf, IsRowOfFault, IsFracOf, IsPointOf, IsDivisor, IsDivisorFault, IsRatioFault, IsExpr, IsExprFault, IsFrac, IsFracFault, IsPoint, IsPointFault};

use crate::rows::RowSum;
use crate::scan::scan;
use crate::terms::ValueErr;
use row_core::RowBuf;
use std::alloc::Global;

/// An expression with a divisor.
#[derive(Debug, Drop)]
pub struct Frac {
    /// The row of the expression.
    pub expr: RowBuf,
    /// The divisor.
    pub den: i128,
}

fn expr_row(alloc: Global, dim: usize, text: &[u8]) -> Result<RowBuf, ValueErr>
    requires { dim < 2 ^ 32 - 2 }
    ensures { MatchResult result
        (IsRowOf dim (terms_read start text.now))
        (IsRowOfFault dim (terms_read start text.now)) }
{
    let mut sum = RowSum::new(alloc, dim)?;
    scan(text, &mut sum)?;
    match sum.into_cells() {
        Some(cells) => Ok(RowBuf::from_vec(cells)),
        None => Err(ValueErr::TooLarge),
    }
}

/// The row of an expression: in each column the sum of its variable's terms, and last the sum of
/// the terms without a variable.
///
/// # Errors
/// `OutOfRange` exactly where a variable isn't below `dim`, and otherwise `TooLarge` exactly where
/// a number, or a sum of the first terms of a column, leaves the range.
#[tactic(auto, using(crate::proofs::SaysLaws::expr_says))]
pub fn expr_of(alloc: Global, dim: usize, text: &[u8]) -> Result<RowBuf, ValueErr>
    requires narrow { dim < 2 ^ 32 - 2 }
    requires form { Matches (alone expr_cases) text.now }
    ensures { MatchResult result (IsExpr dim text.now) (IsExprFault dim text.now) }
{
    expr_row(alloc, dim, text)
}

fn divisor_of(number: u128) -> Result<i128, ValueErr>
    ensures { MatchResult result (λ d. IsDivisor number d) (IsDivisorFault number) }
{
    let Ok(divisor) = i128::try_from(number) else {
        return Err(ValueErr::TooLarge);
    };
    if divisor == 0 {
        return Err(ValueErr::ZeroDivisor);
    }
    Ok(divisor)
}

/// The row of a text, in each column the sum of its terms, in their order, and its divisor, which
/// is 1 without a division; 2^127 stands for all greater ones too.
///
/// # Errors
/// `OutOfRange` exactly where a variable isn't below `dim`, and otherwise `TooLarge` exactly where
/// a number, or a sum of the first terms of a column, leaves the range.
pub fn ratio_of(alloc: Global, dim: usize, text: &[u8]) -> Result<(Vec<i128>, u128), ValueErr>
    requires { dim < 2 ^ 32 - 2 }
    ensures { MatchResult result
        (λ r. IsRowOf dim (ratio_read text.now).terms r.0.items
        × AllInRange r.0.items
        × (r.1 ≡ (ratio_read text.now).divisor))
        (IsRowOfFault dim (ratio_read text.now).terms) }
{
    let mut sum = RowSum::new(alloc, dim)?;
    let state = scan(text, &mut sum)?;
    match sum.into_cells() {
        Some(cells) => Ok((cells, state.divisor())),
        None => Err(ValueErr::TooLarge),
    }
}

fn ratio_row(alloc: Global, dim: usize, text: &[u8]) -> Result<(Vec<i128>, i128), ValueErr>
    requires { dim < 2 ^ 32 - 2 }
    ensures { MatchResult result
        (λ r. IsFracOf dim (ratio_read text.now) r.0.items r.1 × AllInRange r.0.items)
        (IsRatioFault dim (ratio_read text.now)) }
{
    let (cells, number) = ratio_of(alloc, dim, text)?;
    let divisor = divisor_of(number)?;
    Ok((cells, divisor))
}

fn frac_row(alloc: Global, dim: usize, text: &[u8]) -> Result<Frac, ValueErr>
    requires { dim < 2 ^ 32 - 2 }
    ensures { MatchResult result
        (λ f. IsFracOf dim (ratio_read text.now) f.expr f.den)
        (IsRatioFault dim (ratio_read text.now)) }
{
    let (cells, den) = ratio_row(alloc, dim, text)?;
    Ok(Frac {
        expr: RowBuf::from_vec(cells),
        den,
    })
}

fn point_row(alloc: Global, dim: usize, text: &[u8]) -> Result<RowBuf, ValueErr>
    requires { dim < 2 ^ 32 - 2 }
    ensures { MatchResult result
        (IsPointOf dim (ratio_read text.now))
        (IsRatioFault dim (ratio_read text.now)) }
{
    let (mut cells, divisor) = ratio_row(alloc, dim, text)?;
    cells[dim] = divisor;
    Ok(RowBuf::from_vec(cells))
}

/// The row of an expression and its divisor, which is 1 without a division.
///
/// # Errors
/// `OutOfRange` exactly where a variable isn't below `dim`; otherwise `TooLarge` exactly where a
/// number, the divisor, or a sum of the first terms of a column leaves the range; otherwise
/// `ZeroDivisor` exactly where the divisor is 0.
#[tactic(auto, using(crate::proofs::SaysLaws::frac_says))]
pub fn frac_of(alloc: Global, dim: usize, text: &[u8]) -> Result<Frac, ValueErr>
    requires narrow { dim < 2 ^ 32 - 2 }
    requires form { Matches (alone frac_cases) text.now }
    ensures { MatchResult result
        (λ f. IsFrac dim text.now f.expr f.den)
        (IsFracFault dim text.now) }
{
    frac_row(alloc, dim, text)
}

/// The vector of a point: in each column but the last the sum of its coordinate's terms, and last
/// the divisor, which is 1 without a division. It is not made primitive.
///
/// # Errors
/// `OutOfRange` exactly where a variable isn't below `dim`; otherwise `TooLarge` exactly where a
/// number, the divisor, or a sum of the first terms of a column leaves the range; otherwise
/// `ZeroDivisor` exactly where the divisor is 0.
#[tactic(auto, using(crate::proofs::SaysLaws::point_says))]
pub fn point_of(alloc: Global, dim: usize, text: &[u8]) -> Result<RowBuf, ValueErr>
    requires narrow { dim < 2 ^ 32 - 2 }
    requires form { Matches (alone point_cases) text.now }
    ensures { MatchResult result (IsPoint dim text.now) (IsPointFault dim text.now) }
{
    point_row(alloc, dim, text)
}
