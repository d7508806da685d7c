//! The printed form of a sum of variables with coefficients.
ghost use Rattle.std.specs.Prelude.{◌≡◌, ◌++◌, if◌then◌else◌, OnOk, MatchBool, [], IsTrue, ◌↔◌};
ghost use Rattle.expr_text.specs.Printed.{variable_text, factor_text, product_text, leading_sign, joining_sign, monomials_from, expression_text, constant_text, affine_text};

use itoa::Buffer;
use reply_text::Text;
use row_core::Memory;

/// Appends the sum of the variables in order, each with its coefficient.
pub(crate) fn push_expression(text: &mut Text, coefficients: &[i128]) -> Result<(), Memory>
    ensures { OnOk result (text.new ≡ text.old ++ expression_text coefficients.now) }
{
    let mut is_first = true;
    for j in 0..coefficients.len() {
        let coefficient = coefficients[j];
        if coefficient != 0 {
            push_monomial(text, j, coefficient, is_first)?;
            is_first = false;
        }
    }
    if is_first {
        text.push(b"0")?;
    }
    Ok(())
}

/// Appends the sum of the variables in order and then the number, or the number alone where there
/// is no variable.
pub(crate) fn push_affine(
    text: &mut Text,
    coefficients: &[i128],
    constant: i128,
) -> Result<(), Memory>
    ensures { OnOk result
        (text.new ≡ text.old ++ affine_text (monomials_from 0 coefficients.now) constant) }
{
    if has_no_variable(coefficients) {
        return text.push_signed(constant);
    }
    push_expression(text, coefficients)?;
    push_constant(text, constant)
}

/// Appends the name of variable `j`: a letter, and behind it the number of the alphabet where that
/// isn't 0.
fn push_variable(text: &mut Text, j: usize) -> Result<(), Memory>
    ensures { OnOk result (text.new ≡ text.old ++ variable_text j) }
{
    text.push(&[b'A' + (j % 26) as u8])?;
    if j / 26 != 0 {
        text.push_unsigned((j / 26) as u64)?;
    }
    Ok(())
}

/// Appends the size of a coefficient and a star, or nothing where the size is 1.
fn push_factor(text: &mut Text, size: u128) -> Result<(), Memory>
    ensures { OnOk result (text.new ≡ text.old ++ factor_text size) }
{
    if size != 1 {
        text.push(Buffer::new().format(size).as_bytes())?;
        text.push(b"*")?;
    }
    Ok(())
}

/// What stands before a variable with the coefficient.
fn sign_before(coefficient: i128, is_first: bool) -> &'static [u8]
    ensures { result.now ≡
        (if is_first then leading_sign coefficient else joining_sign coefficient) }
{
    match (is_first, coefficient < 0) {
        (true, false) => b"",
        (true, true) => b"-",
        (false, false) => b" + ",
        (false, true) => b" - ",
    }
}

/// Appends variable `j` with its coefficient and what stands before it.
fn push_monomial(text: &mut Text, j: usize, coefficient: i128, is_first: bool) -> Result<(), Memory>
    ensures { OnOk result (text.new ≡ text.old ++
        ((if is_first then leading_sign coefficient else joining_sign coefficient)
        ++ product_text (record { variable = j; coefficient = coefficient }))) }
{
    text.push(sign_before(coefficient, is_first))?;
    push_factor(text, coefficient.unsigned_abs())?;
    push_variable(text, j)?;
    Ok(())
}

/// Appends a number behind variables, with its sign, unless it is 0.
fn push_constant(text: &mut Text, constant: i128) -> Result<(), Memory>
    ensures { OnOk result (text.new ≡ text.old ++ constant_text constant) }
{
    if constant != 0 {
        text.push(sign_before(constant, false))?;
        text.push(Buffer::new().format(constant.unsigned_abs()).as_bytes())?;
    }
    Ok(())
}

/// Whether no variable has a coefficient.
fn has_no_variable(coefficients: &[i128]) -> bool
    ensures { IsTrue result ↔ (monomials_from 0 coefficients.now ≡ []) }
{
    for j in 0..coefficients.len() {
        if coefficients[j] != 0 {
            return false;
        }
    }
    true
}
