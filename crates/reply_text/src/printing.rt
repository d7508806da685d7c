//! The printed forms of faults and overflows.
ghost use Rattle.std.specs.Prelude.{◌≡◌, ◌++◌, codes, IfOk, OnOk};
ghost use Rattle.row_core.specs.declared.OverKind.{OverKind};
ghost use Rattle.reply_text.specs.Faults.{fault_text};
ghost use Rattle.reply_text.specs.Overflows.{kind_name, row_text, overflow_text};

use crate::bytes::Text;
use crate::faults::Fault;
use row_core::{Memory, OverKind, Overflow};
use std::alloc::Global;

/// The line `fault NUMBER NAME`, with the column or the line after it where the fault has one.
pub fn print_fault(alloc: Global, fault: &Fault) -> Result<Text, Memory>
    ensures { IfOk result (λ text. text ≡ fault_text fault.now) }
{
    let mut text = Text::new(alloc);
    text.push(b"fault ")?;
    text.push_unsigned(u64::from(fault.number()))?;
    text.push(b" ")?;
    text.push(fault.name().as_bytes())?;
    if let Some(place) = fault.place() {
        text.push(b" ")?;
        text.push_unsigned(place)?;
    }
    Ok(text)
}

/// What was computed, in one word.
fn word_of(kind: OverKind) -> &'static [u8]
    ensures { result.now ≡ kind_name kind }
{
    match kind {
        OverKind::Dot => b"dot",
        OverKind::Combine => b"combine",
        OverKind::Scale => b"scale",
        OverKind::Compare => b"compare",
    }
}

/// Appends the entries with one space between.
fn push_row(text: &mut Text, row: &[i128]) -> Result<(), Memory>
    ensures { OnOk result (text.new ≡ text.old ++ row_text row.now) }
{
    for j in 0..row.len() {
        if j > 0 {
            text.push(b" ")?;
        }
        text.push_signed(row[j])?;
    }
    Ok(())
}

/// The line `overflow KIND step S column J left U right V`, with the column counted from 1.
pub fn print_overflow(alloc: Global, over: &Overflow) -> Result<Text, Memory>
    ensures { IfOk result (λ text. text ≡ overflow_text over.now) }
{
    let mut text = Text::new(alloc);
    text.push(b"overflow ")?;
    text.push(word_of(over.kind))?;
    text.push(b" step ")?;
    text.push_unsigned(over.step)?;
    text.push(b" column ")?;
    text.push_unsigned(u64::from(over.column) + 1)?;
    text.push(b" left ")?;
    push_row(&mut text, over.left.cells())?;
    text.push(b" right ")?;
    push_row(&mut text, over.right.cells())?;
    Ok(text)
}
