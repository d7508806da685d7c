ghost use Rattle.std.specs.Prelude.{◌≡◌, ◌++◌, map, OnOk, min, max};
ghost use Rattle.grammar.specs.Form.{word, byte};
ghost use Rattle.grammar.specs.Shape.{shape};
ghost use Rattle.grammar.specs.Derivative.{nullable as nullable_form, after, after_row, after_rows};
ghost use Rattle.grammar.specs.Rest.{listed};
ghost use Rattle.grammar.specs.Rows.{shapes_of};

use crate::bodies::body_of;
use crate::re::Re;
use crate::rest::Rest;
use crate::rows::Rows;
use std::alloc::AllocError;

// Whether the empty text has the form.
#[tactic(auto, using(crate::proofs::Nullable::form_of_nullable))]
pub fn is_nullable(form: &Re) -> bool
    ensures { result ≡ nullable_form (shape form.now) }
{
    match form {
        Re::Word(word) => word.is_empty(),
        Re::Byte(_, _) => false,
        Re::Then(first, second) => is_nullable(first) && is_nullable(second),
        Re::Or(first, second) => is_nullable(first) || is_nullable(second),
        Re::Many(_) | Re::UpTo(_, _) => true,
        Re::Named(_) => false,
    }
}

// Adds what may come behind the byte, where a text of the form and then of the rest begins with it.
pub fn push_after<'a>(
    byte: u8,
    form: &Re<'a>,
    rest: &Rest<'_, 'a>,
    out: &mut Rows<'a>,
) -> Result<(), AllocError>
    ensures { OnOk result
        (shapes_of out.new
        ≡ shapes_of out.old ++ after byte (shape form.now) (map shape (listed rest.now))) }
{
    match *form {
        Re::Word(word) => push_after_word(byte, word, rest, out),
        Re::Byte(one, other) => push_after_byte(byte, one, other, rest, out),
        Re::Then(first, second) => {
            push_after(byte, first, &Rest::Then(second, &*rest), out)?;
            if is_nullable(first) {
                push_after(byte, second, rest, out)?;
            }
            Ok(())
        }
        Re::Or(first, second) => {
            push_after(byte, first, rest, out)?;
            push_after(byte, second, rest, out)
        }
        Re::Many(inner) => push_after(byte, inner, &Rest::Then(&*form, &*rest), out),
        Re::UpTo(0, _) => Ok(()),
        Re::UpTo(most, inner) => {
            push_after(
                byte,
                inner,
                &Rest::Then(&Re::UpTo(most - 1, inner), &*rest),
                out,
            )
        }
        Re::Named(rule) => push_after(byte, &body_of(rule), rest, out),
    }
}

fn push_after_word<'a>(
    byte: u8,
    text: &'a [u8],
    rest: &Rest<'_, 'a>,
    out: &mut Rows<'a>,
) -> Result<(), AllocError>
    ensures { OnOk result
        (shapes_of out.new
        ≡ shapes_of out.old ++ after byte (word text.now) (map shape (listed rest.now))) }
{
    if let [first, tail @ ..] = text {
        if *first == byte {
            out.push(&Rest::Then(&Re::Word(tail), &*rest))?;
        }
    }
    Ok(())
}

fn push_after_byte<'a>(
    letter: u8,
    one: u8,
    other: u8,
    rest: &Rest<'_, 'a>,
    out: &mut Rows<'a>,
) -> Result<(), AllocError>
    ensures { OnOk result
        (shapes_of out.new ≡ shapes_of out.old
        ++ after letter (byte (min one other) (max one other)) (map shape (listed rest.now))) }
{
    if one.min(other) <= letter && letter <= one.max(other) {
        out.push(rest)?;
    }
    Ok(())
}

// Adds what may come behind the byte, where a text of the row begins with it.
fn push_after_row<'a>(byte: u8, row: &[Re<'a>], out: &mut Rows<'a>) -> Result<(), AllocError>
    ensures { OnOk result
        (shapes_of out.new ≡ shapes_of out.old ++ after_row byte (map shape row.now)) }
{
    if let [first, rest @ ..] = row {
        push_after(byte, first, &Rest::Row(rest), out)?;
        if is_nullable(first) {
            push_after_row(byte, rest, out)?;
        }
    }
    Ok(())
}

// Adds what may come behind the byte, where a text of one of the rows begins with it.
pub fn push_after_rows<'a>(byte: u8, rows: &Rows<'a>, out: &mut Rows<'a>) -> Result<(), AllocError>
    ensures { OnOk result
        (shapes_of out.new ≡ shapes_of out.old ++ after_rows byte (shapes_of rows.now)) }
{
    for index in 0..rows.len() {
        push_after_row(byte, rows.row(index), out)?;
    }
    Ok(())
}
