//! What answers each question, from the table as it stands: its operands are looked up here, and
//! here alone.
ghost use Rattle.std.specs.Option.{option_copied};
ghost use Rattle.line_values.specs.Meaning.{on_one};
ghost use Rattle.line_values.specs.Performed.{IsPerformed};
ghost use Rattle.poly_questions.specs.Meanings.{said_of_one, said};
ghost use Rattle.command_tasks.specs.Parts.{AboutFits, QuestionFits};

use crate::files::write;
use crate::lattice::compare;
use crate::optima::{bound, relation};
use crate::questions::{has, name_list, print, size};
use command_tasks::{About, Question};
use line_values::{PolyEntry, StepErr, answer, is_max, poly_at};
use name_table::Names;
use poly_pair::Poly;
use reply_text::{Fault, Text};
use row_core::Steps;
use std::alloc::Global;
use std::sync::ledger::Ledger;

/// The line that answers the question, or why it is refused.
pub fn ask<E: PolyEntry, L: Ledger>(
    alloc: Global,
    names: &Names<E>,
    question: Question,
    steps: &mut Steps<L>,
) -> Result<Text, StepErr>
    requires { QuestionFits question }
    ensures { IsPerformed (said E.as_poly names.now question) result }
{
    match question {
        Question::OfOne { p, about } => ask_of_one(alloc, about, poly_at(names, &p)),
        Question::Compare { by, p, q } => {
            let one = poly_at(names, &p);
            compare(alloc, by, one, poly_at(names, &q), steps)
        }
        Question::Names => name_list(names),
    }
}

/// The line that answers a question about one polyhedron.
fn ask_of_one(alloc: Global, about: About, p: Option<&Poly>) -> Result<Text, StepErr>
    requires { AboutFits about }
    ensures { IsPerformed (on_one (option_copied p.entry) (said_of_one about)) result }
{
    let Some(p) = p else {
        return Err(StepErr::Input(Fault::UnknownName));
    };
    match about {
        About::Has(part) => has(alloc, p, &part),
        About::Size => Ok(size(alloc, p)?),
        About::Print(side) => Ok(print(alloc, side, p)?),
        About::Isempty => answer(alloc, p.is_empty()),
        About::Relation(part) => relation(alloc, p, &part),
        About::Bound(of, part) => bound(alloc, is_max(of), p, &part),
        About::Write(form) => write(alloc, form, p),
    }
}
