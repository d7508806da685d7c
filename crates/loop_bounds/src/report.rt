//! Replies as text.
ghost use Rattle.std.specs.Prelude.{◌≡◌, IfOk};
ghost use Rattle.loop_bounds.specs.Replies.{report_text, IsRefusalText, overflow_line};

use crate::reading::LoopErr;
use expr_text::{ReadErr, Text, print_cons, print_fault, print_overflow};
use loop_analysis::Bounds;
use row_core::{Memory, Overflow};
use std::alloc::Global;

/// The lines of the bounds.
pub fn report(alloc: Global, bounds: &Bounds) -> Result<Text, Memory>
    ensures { IfOk result (λ text. text ≡ report_text bounds.now.head bounds.now.behind) }
{
    let mut text = Text::new(alloc);
    text.push(b"head ")?;
    text.push(print_cons(alloc, &bounds.head)?.bytes())?;
    text.push(b"\nbehind ")?;
    text.push(print_cons(alloc, &bounds.behind)?.bytes())?;
    text.push(b"\n")?;
    Ok(text)
}

/// The line of a refused line.
pub fn refusal(alloc: Global, refused: &LoopErr) -> Result<Text, Memory>
    ensures { IfOk result (λ text. IsRefusalText refused.now text) }
{
    let ReadErr::Input(fault) = &refused.cause else {
        return Err(Memory);
    };
    let mut text = Text::new(alloc);
    text.push(b"line ")?;
    text.push_unsigned(refused.line)?;
    text.push(b" ")?;
    text.push(print_fault(alloc, fault)?.bytes())?;
    text.push(b"\n")?;
    Ok(text)
}

/// The line of an overflow.
pub fn overflow(alloc: Global, over: &Overflow) -> Result<Text, Memory>
    ensures { IfOk result (λ text. text ≡ overflow_line over.now) }
{
    let mut text = print_overflow(alloc, over)?;
    text.push(b"\n")?;
    Ok(text)
}
