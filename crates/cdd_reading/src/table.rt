//! The rows of a file, behind all tests but those of single rows.
ghost use Rattle.std.specs.Prelude.{◌≡◌, ◌+◌, ◌^◌, ◌<◌, ◌≤◌, Some, MatchBool, MatchResult, true, IfOk};
ghost use Rattle.std.specs.List.{list_all};
ghost use Rattle.std.specs.Str.Lines.{lines};
ghost use Rattle.cdd_reading.specs.Bodies.{is_number};
ghost use Rattle.cdd_reading.specs.Tokens.{texts};
ghost use Rattle.cdd_reading.specs.declared.table.TheConstants.{MAX_WIDTH};
ghost use Rattle.cdd_reading.specs.Tables.{IsOpened, IsFormRead, IsLimitFault, IsTable, fault_of};
ghost use Rattle.cdd_reading.specs.Refusals.{other, form_tests, table_tests, IsFirstOf, IsRefusal};

use crate::body::{BodyErr, read_body};
use crate::file::{Cut, are_short, cut_file};
use crate::format::{Format, NumberType};
use crate::head::read_head;
use crate::marks::{MarkErr, read_marks};
use crate::tokens::Tokens;
use crate::values::{IntegerErr, read_values};
use reply_text::{Fault, ReadErr};
use std::alloc::Global;

/// The greatest number of columns: one more than the greatest dimension.
pub const MAX_WIDTH: u128 = 64;

/// Rows of integers.
#[derive(Drop)]
pub struct Table {
    /// The number of columns.
    pub width: usize,
    /// For each row, whether the linearity line names it.
    pub marks: Vec<bool>,
    /// The integers of the rows, one row behind the other.
    pub values: Vec<i128>,
}

/// A file of which the form alone is known to be right.
#[derive(Drop)]
struct Form<'a> {
    kind: Option<Format>,
    // The linearity line; an empty line where there is none.
    linearity: &'a [u8],
    // d; 2^127 stands for each greater number.
    columns: u128,
    number_type: NumberType,
    numbers: Tokens<'a>,
}

/// Reads the rows of a file that is taken for one of this kind.
///
/// # Errors
/// The first fault of the file, but for those of its rows.
pub fn read_table(alloc: Global, bytes: &[u8], want: Format) -> Result<Table, ReadErr>
    ensures { MatchResult result
        (λ table. IsTable want bytes.now table.width table.marks.items table.values.items)
        (IsRefusal (table_tests want bytes.now)) }
{
    let form = match read_form(bytes) {
        Ok(form) => form,
        Err(fault) => return Err(ReadErr::Input(fault)),
    };
    let width = match check_limits(want, form.kind, form.columns) {
        Ok(width) => width,
        Err(fault) => return Err(ReadErr::Input(fault)),
    };
    let values = match read_values(alloc, form.numbers, width, form.number_type) {
        Ok(values) => values,
        Err(IntegerErr::ZeroDivisor) => return Err(ReadErr::Input(Fault::ZeroDivisor)),
        Err(IntegerErr::TooLarge) => return Err(ReadErr::Input(Fault::NumberTooLarge)),
        Err(IntegerErr::Memory) => return Err(ReadErr::Memory),
    };
    match read_marks(alloc, form.linearity, values.len() / width) {
        Ok(marks) => Ok(Table {
            width,
            marks,
            values,
        }),
        Err(MarkErr::OutOfBounds) => Err(ReadErr::Input(Fault::LinearityIndex)),
        Err(MarkErr::Memory) => Err(ReadErr::Memory),
    }
}

/// The fault that stands for why tokens are no body of integers or fractions.
fn fault_of(error: BodyErr) -> Fault
    ensures { result ≡ fault_of error }
{
    match error {
        BodyErr::Wrong(line) => Fault::CddSyntax(line as u64),
        BodyErr::OtherType => Fault::NumberType,
    }
}

/// Cuts bytes where a file ends, and tests the length of its lines.
fn open_file(bytes: &[u8]) -> Result<Cut<'_>, Fault>
    ensures { MatchResult result
        (λ cut. IsOpened bytes.now (lines cut.file.now) (lines cut.behind.now) cut.end)
        (IsFirstOf (form_tests bytes.now)) }
{
    let Some(cut) = cut_file(bytes) else {
        return Err(Fault::Truncated);
    };
    if !are_short(cut.file) {
        return Err(Fault::LineTooLong);
    }
    Ok(cut)
}

/// Reads the heading and tests the tokens behind it.
fn read_form(bytes: &[u8]) -> Result<Form<'_>, Fault>
    ensures read { MatchResult result
        (λ form. IsFormRead bytes.now form.kind form.linearity.now form.columns form.numbers)
        (IsFirstOf (form_tests bytes.now)) }
    ensures forms { IfOk result
        (λ form. list_all (is_number form.number_type) (texts form.numbers) ≡ true) }
{
    let cut = open_file(bytes)?;
    let head = match read_head(cut.file) {
        Ok(head) => head,
        Err(line) => return Err(Fault::CddSyntax(line as u64)),
    };
    match read_body(Tokens::behind_line(head.begin, head.behind), cut.end) {
        Ok(body) => Ok(Form {
            kind: head.said.kind,
            linearity: head.said.linearity,
            columns: body.columns,
            number_type: body.number_type,
            numbers: body.numbers,
        }),
        Err(error) => Err(fault_of(error)),
    }
}

/// Whether the file names the other kind.
fn names_other(kind: Option<Format>, want: Format) -> bool
    ensures { MatchBool result (kind ≡ Some (other want)) (¬ (kind ≡ Some (other want))) }
{
    match (kind, want) {
        (Some(Format::Ine), Format::Ext) | (Some(Format::Ext), Format::Ine) => true,
        (Some(Format::Ine), Format::Ine) | (Some(Format::Ext), Format::Ext) | (None, _) => false,
    }
}

/// The number of columns, where it is within the limit and the file doesn't name the other kind.
fn check_limits(want: Format, kind: Option<Format>, columns: u128) -> Result<usize, Fault>
    ensures { MatchResult result
        (λ width. (width ≡ columns) × (columns ≤ MAX_WIDTH) × ¬ (kind ≡ Some (other want)))
        (IsLimitFault want kind columns) }
{
    if names_other(kind, want) {
        return Err(Fault::WrongKind);
    }
    if columns > MAX_WIDTH {
        return Err(Fault::TooManyDims);
    }
    Ok(columns as usize)
}
