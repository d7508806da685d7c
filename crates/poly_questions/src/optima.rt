//! The commands that ask for a bound of an expression, or how a polyhedron lies to a constraint.
ghost use Rattle.std.specs.Prelude.{◌≡◌, ◌+◌, ◌<◌, ◌++◌, length, codes, IfOk, OnOk};
ghost use Rattle.std.specs.Fmt.{signed_decimal};
ghost use Rattle.grammar.specs.Form.{Matches};
ghost use Rattle.grammar.specs.Grammar.{alone};
ghost use Rattle.grammar.specs.Cases.{con_cases, expr_cases};
ghost use Rattle.gens_sys.specs.Generators.{generator_at};
ghost use Rattle.expr_text.specs.Printed.{generator_text};
ghost use Rattle.optimum.specs.Suprema.{SupAnswer, IsTrueSup};
ghost use Rattle.line_values.specs.Meaning.{line};
ghost use Rattle.poly_questions.specs.Optima.{relation as ask_relation, bound as ask_bound, relation_text, with_word, bound_text, attained_text, HasGenerator};
ghost use Rattle.line_values.specs.Performed.{IsPerformed};

use expr_text::print_gen;
use gens_sys::GensSys;
use line_values::{StepErr, as_line, constraint_of, expression_of};
use optimum::{Relation, Sup, inf, shown, sup};
use poly_pair::Poly;
use reply_text::Text;
use row_core::{Memory, PairOver};
use script_text::Part;
use std::alloc::Global;

/// How a polyhedron lies to the constraint of a text.
pub fn relation(alloc: Global, p: &Poly, part: &Part) -> Result<Text, StepErr>
    requires { Matches (alone con_cases) part.now.text }
    ensures { IsPerformed (ask_relation part.now p.now) result }
{
    let con = match constraint_of(alloc, part, p.dim()) {
        Ok(con) => con,
        Err(cause) => return Err(cause),
    };
    match optimum::relation(p, con.row.cells(), con.kind) {
        Ok(flags) => Ok(relation_line(alloc, flags)?),
        Err(pair) => Err(StepErr::Overflow(shown(alloc, con.row, p.gens(), pair)?)),
    }
}

/// The words that hold, with one space between.
fn relation_line(alloc: Global, flags: Relation) -> Result<Text, Memory>
    ensures { IfOk result (λ text. text ≡ line (relation_text flags)) }
{
    let mut text = Text::new(alloc);
    push_word(&mut text, b"disjoint", flags.disjoint)?;
    push_word(&mut text, b"intersects", flags.intersects)?;
    push_word(&mut text, b"included", flags.included)?;
    push_word(&mut text, b"saturates", flags.saturates)?;
    as_line(text)
}

/// Appends a word that holds, behind a space where it isn't the first.
fn push_word(text: &mut Text, word: &[u8], holds: bool) -> Result<(), Memory>
    ensures { OnOk result (text.new ≡ with_word text.old word.now holds) }
{
    if !holds {
        return Ok(());
    }
    if text.bytes().is_empty() {
        return text.push(word);
    }
    text.push(b" ")?;
    text.push(word)
}

/// The least upper or the greatest lower bound of the expression of a text.
pub fn bound(alloc: Global, up: bool, p: &Poly, part: &Part) -> Result<Text, StepErr>
    requires { Matches (alone expr_cases) part.now.text }
    ensures { IsPerformed (ask_bound up part.now p.now) result }
{
    let row = match expression_of(alloc, part, p.dim()) {
        Ok(row) => row,
        Err(cause) => return Err(cause),
    };
    let gens = p.gens();
    let _dim = gens.dim();
    match extremum(up, p, row.cells()) {
        Ok(bound) => Ok(bound_line(alloc, gens, bound)?),
        Err(pair) => Err(StepErr::Overflow(shown(alloc, row, gens, pair)?)),
    }
}

/// The bound in the one direction or the other.
fn extremum(up: bool, p: &Poly, row: &[i128]) -> Result<Sup, PairOver>
    requires { length row.now ≡ p.now.cons.dim + 1 }
    ensures answer { SupAnswer up row.now p.now.gens result }
    ensures holds { IfOk result (IsTrueSup up row.now p.now) }
{
    if up { sup(p, row) } else { inf(p, row) }
}

/// A bound, whether it is attained, and the generator that shows it.
fn bound_line(alloc: Global, gens: &GensSys, bound: Sup) -> Result<Text, Memory>
    requires { HasGenerator gens.now bound }
    ensures { IfOk result (λ text. text ≡ line (bound_text gens.now bound)) }
{
    let mut text = Text::new(alloc);
    push_bound(alloc, &mut text, gens, bound)?;
    as_line(text)
}

/// Appends a bound, whether it is attained, and the generator that shows it.
fn push_bound(alloc: Global, text: &mut Text, gens: &GensSys, bound: Sup) -> Result<(), Memory>
    requires { HasGenerator gens.now bound }
    ensures { OnOk result (text.new ≡ text.old ++ bound_text gens.now bound) }
{
    match bound {
        Sup::Empty => text.push(b"empty"),
        Sup::Unbounded => text.push(b"unbounded"),
        Sup::At {
            num,
            den,
            attained,
            index,
        } => {
            push_fraction(text, num, den)?;
            text.push(attained_word(attained))?;
            push_generator(alloc, text, gens, index)
        }
    }
}

/// Appends the generator with this number.
fn push_generator(
    alloc: Global,
    text: &mut Text,
    gens: &GensSys,
    index: usize,
) -> Result<(), Memory>
    requires { index < length gens.now.list }
    ensures { OnOk result
        (text.new ≡ text.old ++ generator_text gens.now.dim (generator_at gens.now.list index)) }
{
    let shown = print_gen(alloc, gens, index)?;
    text.push(shown.bytes())
}

/// Appends a fraction.
fn push_fraction(text: &mut Text, num: i128, den: i128) -> Result<(), Memory>
    ensures { OnOk result
        (text.new ≡ text.old ++ signed_decimal num ++ codes "/" ++ signed_decimal den) }
{
    text.push_signed(num)?;
    text.push(b"/")?;
    text.push_signed(den)
}

/// Whether a bound is attained, in words.
fn attained_word(attained: bool) -> &'static [u8]
    ensures { result.now ≡ attained_text attained }
{
    if attained {
        b" attained "
    } else {
        b" not attained "
    }
}
