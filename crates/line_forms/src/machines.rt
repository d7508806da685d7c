//! What stands behind a command word, decided by a machine for each layout of lines.
ghost use Rattle.grammar.specs.Verdict.{IsVerdict};
ghost use Rattle.std.specs.Prelude.{ℕ, List};
ghost use Rattle.line_forms.specs.Layouts.{nothing_form, rest_form, layout_of};
ghost use Rattle.line_forms.specs.Machines.{DecidesRest};
ghost use Rattle.line_forms.specs.declared.form.LineForm.TheVariants as form;

use crate::form::{LineForm, NameAndPart, SpaceAndPart};
use crate::tables::{
    ADD, ADDGEN, BOUNDS, CONS, FILE, GENS, HAS, IMAGE, NAME_NAT_NAME, NAME_NAT_NAT,
    NAME_NAT_NAT_NAME, NAME_NAT_PREFIX, NO_WORDS, NOTHING, ONE_NAME, OPTIMUM, PRINT, RELATION,
    REMOVE, SPACE, THREE_NAMES, TWO_NAMES, TWO_NAMES_NAT,
};
use grammar::{Machine, Verdict};

/// The machine of a name and a part.
fn name_part_machine(kind: NameAndPart) -> Machine<'static>
    ensures { DecidesRest result (form.NameAndPart kind) }
{
    match kind {
        NameAndPart::Add => ADD,
        NameAndPart::Addgen => ADDGEN,
        NameAndPart::Has => HAS,
        NameAndPart::Relation => RELATION,
        NameAndPart::Max => OPTIMUM,
        NameAndPart::Min => OPTIMUM,
    }
}

/// The machine of a name, a topology, a number and a part.
fn space_part_machine(kind: SpaceAndPart) -> Machine<'static>
    ensures { DecidesRest result (form.SpaceAndPart kind) }
{
    match kind {
        SpaceAndPart::Cons => CONS,
        SpaceAndPart::Gens => GENS,
    }
}

/// The machine of what may stand behind the command word of a line of the form.
fn machine_of(form: LineForm) -> Machine<'static>
    ensures { DecidesRest result form }
{
    match form {
        LineForm::Nothing => NO_WORDS,
        LineForm::Names => NO_WORDS,
        LineForm::OneName(_) => ONE_NAME,
        LineForm::NameAndPart(kind) => name_part_machine(kind),
        LineForm::TwoNames(_) => TWO_NAMES,
        LineForm::ThreeNames(_) => THREE_NAMES,
        LineForm::SpaceAlone(_) => SPACE,
        LineForm::SpaceAndPart(kind) => space_part_machine(kind),
        LineForm::TwoNamesNumber(_) => TWO_NAMES_NAT,
        LineForm::TwoNamesMap(_) => IMAGE,
        LineForm::NameFormat(_) => FILE,
        LineForm::NameNumberName(_) => NAME_NAT_NAME,
        LineForm::NameNumberPrefix(_) => NAME_NAT_PREFIX,
        LineForm::Print => PRINT,
        LineForm::Remove => REMOVE,
        LineForm::System => NAME_NAT_NAT,
        LineForm::Trans => NAME_NAT_NAT_NAME,
        LineForm::Bounds => BOUNDS,
    }
}

/// Whether the text is what may stand behind the command word of a line of the form.
#[inline(never)]
pub fn rest_verdict(form: LineForm, rest: &[u8]) -> Verdict
    ensures { (command : List ℕ) → IsVerdict (rest_form (layout_of form command)) rest.now result }
{
    machine_of(form).column(rest)
}

/// Whether the line is blank, or a comment alone.
pub fn nothing_verdict(line: &[u8]) -> Verdict
    ensures { IsVerdict nothing_form line.now result }
{
    NOTHING.column(line)
}
