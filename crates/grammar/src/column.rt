ghost use Rattle.std.specs.Prelude.{◌≡◌, [], map, IfOk, OnOk};
ghost use Rattle.grammar.specs.Shape.{shape};
ghost use Rattle.grammar.specs.Derivative.{after_rows, row_ends as row_ends_form, some_ends as some_ends_form};
ghost use Rattle.grammar.specs.Rows.{rows_of, shapes_of};
ghost use Rattle.grammar.specs.SameRows.{SameRows};
ghost use Rattle.grammar.specs.Verdict.{IsVerdict};

use crate::derivative::{is_nullable, push_after_rows};
use crate::distinct::copy_distinct;
use crate::re::Re;
use crate::rest::Rest;
use crate::rows::Rows;
use crate::verdict::Verdict;
use std::alloc::{AllocError, Global};
use std::mem;

// So many rows are kept though some may be repeats.
const FEW: usize = 16;

/// Whether the text has the form.
///
/// The form is followed by its partial derivatives (Antimirov, 1996). Each byte costs a step for
/// each way in which the form may go on; where there are many, those that are repeats are dropped.
pub fn column_of(alloc: Global, form: &Re, text: &[u8]) -> Result<Verdict, AllocError>
    ensures { IfOk result (IsVerdict (shape form.now) text.now) }
{
    let mut rows = Rows::new(alloc);
    let mut spare = Rows::new(alloc);
    column_from(form, text, &mut rows, &mut spare)
}

// The verdict, by rows that follow the form. Both lend their memory.
fn column_from<'a>(
    form: &Re<'a>,
    text: &[u8],
    rows: &mut Rows<'a>,
    spare: &mut Rows<'a>,
) -> Result<Verdict, AllocError>
    requires { rows_of rows.old ≡ [] }
    ensures { IfOk result (IsVerdict (shape form.now) text.now) }
{
    rows.push(&Rest::Row(&[*form]))?;
    for (index, byte) in text.iter().enumerate() {
        advance(*byte, rows, spare)?;
        if rows.is_empty() {
            return Ok(Verdict::RefusedAt(index + 1));
        }
    }
    if some_ends(rows) {
        Ok(Verdict::Accepted)
    } else {
        Ok(Verdict::RefusedAt(text.len() + 1))
    }
}

// Takes the rows over the byte, and drops repeats where there are many. The other rows lend their
// memory.
fn advance<'a>(byte: u8, rows: &mut Rows<'a>, spare: &mut Rows<'a>) -> Result<(), AllocError>
    ensures { OnOk result (SameRows (after_rows byte (shapes_of rows.old)) (shapes_of rows.new)) }
{
    spare.clear();
    push_after_rows(byte, rows, spare)?;
    if spare.len() > FEW {
        return copy_distinct(spare, rows);
    }
    mem::swap(rows, spare);
    Ok(())
}

// Whether the empty text has each form of one of the rows.
fn some_ends(rows: &Rows) -> bool
    ensures { result ≡ some_ends_form (shapes_of rows.now) }
{
    for index in 0..rows.len() {
        if row_ends(rows.row(index)) {
            return true;
        }
    }
    false
}

// Whether the empty text has each form of the row.
fn row_ends(row: &[Re]) -> bool
    ensures { result ≡ row_ends_form (map shape row.now) }
{
    match row {
        [] => true,
        [first, rest @ ..] => is_nullable(first) && row_ends(rest),
    }
}
