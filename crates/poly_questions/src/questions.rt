//! The commands that only say something of a polyhedron, or of the names.
ghost use Rattle.std.specs.Prelude.{◌≡◌, ◌<◌, ◌++◌, length, decimal, IfOk, OnOk};
ghost use Rattle.grammar.specs.Form.{Matches};
ghost use Rattle.grammar.specs.Grammar.{alone};
ghost use Rattle.grammar.specs.Cases.{point_cases};
ghost use Rattle.poly_questions.specs.Questions.{has as ask_point, names as tell_names, size_text, side_text, shown_at};
ghost use Rattle.line_values.specs.Meaning.{line};
ghost use Rattle.line_values.specs.Performed.{IsPerformed};

use cons_sys::ConsSys;
use expr_text::{print_cons, print_gens};
use line_values::{PolyEntry, StepErr, answer, as_line, point_of};
use name_table::Names;
use poly_pair::Poly;
use reply_text::Text;
use row_core::{Memory, Overflow, PairOver, RowBuf};
use script_text::Part;
use std::alloc::Global;

/// The dimension and the numbers of constraints and generators.
pub fn size(alloc: Global, p: &Poly) -> Result<Text, Memory>
    ensures { IfOk result (λ text. text ≡ line (size_text p.now)) }
{
    let mut text = Text::new(alloc);
    push_number(&mut text, b"dim ", p.dim())?;
    push_number(&mut text, b" constraints ", p.cons().len())?;
    push_number(&mut text, b" generators ", p.gens().len())?;
    as_line(text)
}

/// Appends a word and a number.
fn push_number(text: &mut Text, word: &[u8], number: usize) -> Result<(), Memory>
    ensures { OnOk result (text.new ≡ text.old ++ word.now ++ decimal number) }
{
    text.push(word)?;
    text.push_unsigned(number as u64)
}

/// The stored constraints, or the stored generators.
pub fn print(alloc: Global, side: bool, p: &Poly) -> Result<Text, Memory>
    ensures { IfOk result (λ text. text ≡ line (side_text side p.now)) }
{
    if side {
        as_line(print_gens(alloc, p.gens())?)
    } else {
        as_line(print_cons(alloc, p.cons())?)
    }
}

/// Whether the point of a text is in a polyhedron.
pub fn has(alloc: Global, p: &Poly, part: &Part) -> Result<Text, StepErr>
    requires { Matches (alone point_cases) part.now.text }
    ensures { IsPerformed (ask_point part.now p.now) result }
{
    let point = match point_of(alloc, part, p.dim()) {
        Ok(point) => point,
        Err(cause) => return Err(cause),
    };
    match p.cons().holds_at(point.cells()) {
        Ok(holds) => answer(alloc, holds),
        Err(pair) => Err(StepErr::Overflow(overflow(alloc, p.cons(), &point, pair)?)),
    }
}

/// The constraint and the point of a pair that leaves the range.
fn overflow(
    alloc: Global,
    cons: &ConsSys,
    point: &RowBuf,
    pair: PairOver,
) -> Result<Overflow, Memory>
    requires { pair.left < length cons.now.list }
    ensures { IfOk result (λ over. over ≡ shown_at cons.now point.now pair) }
{
    Overflow::of_rows(
        alloc,
        pair.kind,
        cons.row(pair.left),
        point.cells(),
        pair.column,
    )
}

/// The number of names, and the names in order.
pub fn name_list<E: PolyEntry>(names: &Names<E>) -> Result<Text, StepErr>
    ensures { IsPerformed (tell_names names.now) result }
{
    Ok(as_line(names.list()?)?)
}
