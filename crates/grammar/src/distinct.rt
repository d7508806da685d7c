ghost use Rattle.std.specs.Prelude.{◌≡◌, map, Contains, OnOk, IsTrue};
ghost use Rattle.grammar.specs.Rows.{shapes_of};
ghost use Rattle.grammar.specs.SameRows.{SameRows};
ghost use Rattle.grammar.specs.Shape.{shape};

use crate::re::Re;
use crate::rest::Rest;
use crate::rows::Rows;
use std::alloc::AllocError;

// Makes `out` the rows, each of those that stand for the same forms once.
pub fn copy_distinct<'a>(rows: &Rows<'a>, out: &mut Rows<'a>) -> Result<(), AllocError>
    ensures { OnOk result (SameRows (shapes_of rows.now) (shapes_of out.new)) }
{
    out.clear();
    for index in 0..rows.len() {
        let row = rows.row(index);
        if !has_row(out, row) {
            out.push(&Rest::Row(row))?;
        }
    }
    Ok(())
}

// Whether one of the rows is seen to stand for the same forms.
fn has_row(rows: &Rows, row: &[Re]) -> bool
    ensures { IsTrue result → Contains (shapes_of rows.now) (map shape row.now) }
{
    for index in 0..rows.len() {
        if is_same_row(rows.row(index), row) {
            return true;
        }
    }
    false
}

// Whether the rows are seen to stand for the same forms.
fn is_same_row(one: &[Re], other: &[Re]) -> bool
    ensures { IsTrue result → map shape one.now ≡ map shape other.now }
{
    match (one, other) {
        ([], []) => true,
        ([first, rest @ ..], [other_first, other_rest @ ..]) => is_same(first, other_first)
            && is_same_row(rest, other_rest),
        _ => false,
    }
}

// Whether the two are seen to stand for the same form.
fn is_same(one: &Re, other: &Re) -> bool
    ensures { IsTrue result → shape one.now ≡ shape other.now }
{
    match (one, other) {
        (Re::Word(word), Re::Word(other_word)) => word == other_word,
        (Re::Byte(low, high), Re::Byte(other_low, other_high)) => low == other_low
            && high == other_high,
        (Re::Then(first, second), Re::Then(other_first, other_second)) => is_same(
            first,
            other_first,
        ) && is_same(second, other_second),
        (Re::Or(first, second), Re::Or(other_first, other_second)) => is_same(first, other_first)
            && is_same(second, other_second),
        (Re::Many(inner), Re::Many(other_inner)) => is_same(inner, other_inner),
        (Re::UpTo(most, inner), Re::UpTo(other_most, other_inner)) => most == other_most
            && is_same(inner, other_inner),
        (Re::Named(rule), Re::Named(other_rule)) => rule == other_rule,
        _ => false,
    }
}
