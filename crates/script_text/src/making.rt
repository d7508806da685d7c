//! The command of a form and its fields.
ghost use Rattle.std.specs.Prelude.{◌≡◌, ℕ, List, ◌∷◌, IfOk};
ghost use Rattle.plain_text.specs.Digits.{is_upper};
ghost use Rattle.script_text.specs.Commands.{number_of, is_strict, begins_strict, part_from};
ghost use Rattle.script_text.specs.Commands.{relation_of, IsMade};
ghost use Rattle.line_forms.specs.Words.{nth_word, part_of};
ghost use Rattle.line_forms.specs.declared.form.LineForm.TheVariants as form;
ghost use Rattle.script_text.specs.Variables.{variable_of, variables_of};
ghost use Rattle.script_text.specs.declared.command.Command.TheVariants as command;

use crate::command::{
    Command, Comparison, Extension, Extremum, LocationPart, Mapping, Operator, Part,
    PowersetOperator, Rel, ShapeOperator, Space,
};
use crate::variables::VarList;
use line_forms::{
    LineForm, NameAndPart, NameFormat, NameNumberName, NameNumberPrefix, OneName, SpaceAlone,
    SpaceAndPart, ThreeNames, TwoNames, TwoNamesMap, TwoNamesNumber, is_word, part_of, sign_of,
    split_word, three_words, two_words,
};
use plain_text::{digits_len, number_up_to};
use reply_text::{ReadErr, Text};
use row_core::Memory;
use std::alloc::Global;

/// The command of a line of the form, from what stands behind its word.
pub fn command_of(alloc: Global, form: LineForm, rest: &[u8]) -> Result<Command, ReadErr>
    ensures { IsMade form rest.now result }
{
    match form {
        LineForm::Nothing => Ok(Command::Nothing),
        LineForm::Names => Ok(Command::Names),
        LineForm::OneName(kind) => of_one_name(alloc, kind, rest),
        LineForm::NameAndPart(kind) => of_name_part(alloc, kind, rest),
        LineForm::TwoNames(kind) => of_two_names(alloc, kind, rest),
        LineForm::ThreeNames(kind) => of_three_names(alloc, kind, rest),
        LineForm::SpaceAlone(kind) => of_space(alloc, kind, rest),
        LineForm::SpaceAndPart(kind) => of_space_part(alloc, kind, rest),
        LineForm::TwoNamesNumber(kind) => of_two_names_number(alloc, kind, rest),
        LineForm::TwoNamesMap(kind) => of_map(alloc, kind, rest),
        LineForm::NameFormat(kind) => of_name_format(alloc, kind, rest),
        LineForm::NameNumberName(kind) => of_name_number_name(alloc, kind, rest),
        LineForm::NameNumberPrefix(kind) => of_name_number_prefix(alloc, kind, rest),
        LineForm::Print => print_command(alloc, rest),
        LineForm::Remove => remove_command(alloc, rest),
        LineForm::System => system_command(alloc, rest),
        LineForm::Trans => trans_command(alloc, rest),
        LineForm::Bounds => bounds_command(alloc, rest),
    }
}

/// A copy of the text.
fn text(alloc: Global, bytes: &[u8]) -> Result<Text, Memory>
    ensures { IfOk result (λ t. t ≡ bytes.now) }
{
    let mut text = Text::new(alloc);
    text.push(bytes)?;
    Ok(text)
}

/// Whether the two bytes are `>` or `<` with no `=` behind it, or `c(`.
fn begins_strict(byte: u8, next: u8) -> bool
    ensures { (behind : List ℕ) → result ≡ begins_strict byte (next ∷ behind) }
{
    ((byte == b'<') | (byte == b'>')) & (next != b'=') | (byte == b'c') & (next == b'(')
}

/// Whether `>` or `<` with no `=` behind it, or `c(`, stands in the text.
fn is_strict(text: &[u8]) -> bool
    ensures { result ≡ is_strict text.now }
{
    let mut found = false;
    for index in 1..text.len() {
        found |= begins_strict(text[index - 1], text[index]);
    }
    match text {
        [] => false,
        [.., last] => found | begins_strict(*last, 0),
    }
}

/// The part behind the colon.
fn part(alloc: Global, rest: &[u8]) -> Result<Part, Memory>
    ensures { IfOk result (λ p. p ≡ part_from (part_of rest.now)) }
{
    let bytes = part_of(rest);
    Ok(Part {
        text: text(alloc, bytes)?,
        strict: is_strict(bytes),
    })
}

/// Copies of two texts.
fn copies(alloc: Global, first: &[u8], second: &[u8]) -> Result<(Text, Text), Memory>
    ensures { IfOk result (λ t. (t.0 ≡ first.now) × (t.1 ≡ second.now)) }
{
    let first = text(alloc, first)?;
    let second = text(alloc, second)?;
    Ok((first, second))
}

/// Copies of the first two words, made where the caller keeps them.
#[inline(always)]
fn two_texts(alloc: Global, rest: &[u8]) -> Result<(Text, Text), Memory>
    ensures { IfOk result (λ t. (t.0 ≡ nth_word 0 rest.now) × (t.1 ≡ nth_word 1 rest.now)) }
{
    let (first, second) = two_words(rest);
    copies(alloc, first, second)
}

/// Copies of the first three words.
fn three_texts(alloc: Global, rest: &[u8]) -> Result<(Text, Text, Text), Memory>
    ensures first { IfOk result (λ t. t.0 ≡ nth_word 0 rest.now) }
    ensures second { IfOk result (λ t. t.1 ≡ nth_word 1 rest.now) }
    ensures third { IfOk result (λ t. t.2 ≡ nth_word 2 rest.now) }
{
    let (first, behind) = split_word(rest);
    let first = text(alloc, first)?;
    let (second, third) = two_texts(alloc, behind)?;
    Ok((first, second, third))
}

/// A copy of the first word, and the part behind the colon, made where the caller keeps them.
#[inline(always)]
fn text_and_part(alloc: Global, rest: &[u8]) -> Result<(Text, Part), Memory>
    ensures first { IfOk result (λ t. t.0 ≡ nth_word 0 rest.now) }
    ensures part { IfOk result (λ t. t.1 ≡ part_from (part_of rest.now)) }
{
    let (first, _) = split_word(rest);
    let first = text(alloc, first)?;
    let part = part(alloc, rest)?;
    Ok((first, part))
}

/// The number that digits spell; `u64::MAX` stands for all greater ones too.
fn number(digits: &[u8]) -> u64
    ensures { result ≡ number_of digits.now }
{
    match digits {
        [digit] => u64::from(digit.saturating_sub(b'0')),
        _ => number_up_to(digits, u64::MAX as u128) as u64,
    }
}

/// Whether the byte is an upper-case letter.
fn is_upper(byte: u8) -> bool
    ensures { result ≡ is_upper byte }
{
    byte.is_ascii_uppercase()
}

/// The number of the variable in front, from its letter and the digits behind it; `u64::MAX` stands
/// for all later ones too.
fn variable(text: &[u8]) -> u64
    ensures { result ≡ variable_of text.now }
{
    match text {
        [] => 0,
        [letter, behind @ ..] => {
            let place = u64::from(letter.saturating_sub(b'A'));
            number(&behind[..digits_len(behind)])
                .saturating_mul(26)
                .saturating_add(place)
        }
    }
}

/// The variables of a text, in order: one at each letter.
fn variables(alloc: Global, text: &[u8]) -> Result<VarList, Memory>
    ensures { IfOk result (λ v. v ≡ variables_of text.now) }
{
    let mut numbers = VarList::new(alloc);
    for index in 0..text.len() {
        if is_upper(text[index]) {
            numbers.push(variable(&text[index..]))?;
        }
    }
    Ok(numbers)
}

/// The relation that is spelled; a colon stands for `=`.
fn relation(sign: &[u8]) -> Rel
    ensures { result ≡ relation_of sign.now }
{
    match sign {
        b">=" => Rel::Ge,
        b"<=" => Rel::Le,
        b">" => Rel::Gt,
        b"<" => Rel::Lt,
        _ => Rel::Eq,
    }
}

/// A command with one name.
fn of_one_name(alloc: Global, kind: OneName, rest: &[u8]) -> Result<Command, ReadErr>
    ensures { IsMade (form.OneName kind) rest.now result }
{
    let (first, _) = split_word(rest);
    let p = text(alloc, first)?;
    Ok(match kind {
        OneName::Drop => Command::Drop { name: p },
        OneName::Size => Command::Size { p },
        OneName::Isempty => Command::Isempty { p },
        OneName::Psize => Command::Psize { s: p },
        OneName::Ranking => Command::Ranking { r: p },
        OneName::ShapePrint => Command::ShapePrint { s: p },
    })
}

/// A command with a name and a part.
fn of_name_part(alloc: Global, kind: NameAndPart, rest: &[u8]) -> Result<Command, ReadErr>
    ensures { IsMade (form.NameAndPart kind) rest.now result }
{
    let (p, part) = text_and_part(alloc, rest)?;
    Ok(match kind {
        NameAndPart::Add => Command::Add { p, cons: part },
        NameAndPart::Addgen => Command::Addgen { p, gens: part },
        NameAndPart::Has => Command::Has { p, point: part },
        NameAndPart::Relation => Command::Relation { p, con: part },
        NameAndPart::Max => Command::Bound {
            of: Extremum::Max,
            p,
            expr: part,
        },
        NameAndPart::Min => Command::Bound {
            of: Extremum::Min,
            p,
            expr: part,
        },
    })
}

/// A command with two names.
fn of_two_names(alloc: Global, kind: TwoNames, rest: &[u8]) -> Result<Command, ReadErr>
    ensures { IsMade (form.TwoNames kind) rest.now result }
{
    let (p, q) = two_texts(alloc, rest)?;
    Ok(match kind {
        TwoNames::Copy => Command::Copy { out: p, p: q },
        TwoNames::Closure => Command::Closure { out: p, p: q },
        TwoNames::Contains => Command::Compare {
            by: Comparison::Contains,
            p,
            q,
        },
        TwoNames::Equal => Command::Compare {
            by: Comparison::Equal,
            p,
            q,
        },
        TwoNames::Disjoint => Command::Compare {
            by: Comparison::Disjoint,
            p,
            q,
        },
        TwoNames::Pset => Command::Pset { out: p, p: q },
        TwoNames::Covers => Command::Covers { s: p, t: q },
        TwoNames::Rank => Command::Rank { out: p, r: q },
        TwoNames::ShapeOf => Command::ShapeOf { out: p, p: q },
        TwoNames::ShapeContains => Command::ShapeContains { s: p, t: q },
        TwoNames::ShapePoly => Command::ShapePoly { out: p, s: q },
        TwoNames::Hybrid => Command::Hybrid { out: p, s: q },
    })
}

/// What is made of two polyhedra.
fn of_two(op: Operator, out: Text, p: Text, q: Text) -> Command
    ensures { result ≡ command.OfTwo op out p q }
{
    Command::OfTwo { op, out, p, q }
}

/// What is made of two powersets.
fn of_two_powersets(op: PowersetOperator, out: Text, s: Text, t: Text) -> Command
    ensures { result ≡ command.OfTwoPowersets op out s t }
{
    Command::OfTwoPowersets { op, out, s, t }
}

/// What is made of two shapes.
fn of_two_shapes(op: ShapeOperator, out: Text, s: Text, t: Text) -> Command
    ensures { result ≡ command.OfTwoShapes op out s t }
{
    Command::OfTwoShapes { op, out, s, t }
}

/// A command with three names.
fn of_three_names(alloc: Global, kind: ThreeNames, rest: &[u8]) -> Result<Command, ReadErr>
    ensures { IsMade (form.ThreeNames kind) rest.now result }
{
    let (out, p, q) = three_texts(alloc, rest)?;
    Ok(match kind {
        ThreeNames::Meet => of_two(Operator::Meet, out, p, q),
        ThreeNames::Hull => of_two(Operator::Hull, out, p, q),
        ThreeNames::Concat => of_two(Operator::Concat, out, p, q),
        ThreeNames::Elapse => of_two(Operator::Elapse, out, p, q),
        ThreeNames::Widen => Command::Widen { out, p, q },
        ThreeNames::Join => of_two_powersets(PowersetOperator::Join, out, p, q),
        ThreeNames::PowersetMeet => of_two_powersets(PowersetOperator::Meet, out, p, q),
        ThreeNames::ShapeMeet => of_two_shapes(ShapeOperator::Meet, out, p, q),
        ThreeNames::ShapeHull => of_two_shapes(ShapeOperator::Hull, out, p, q),
    })
}

/// A command with a name, a topology and a number.
fn of_space(alloc: Global, kind: SpaceAlone, rest: &[u8]) -> Result<Command, ReadErr>
    ensures { IsMade (form.SpaceAlone kind) rest.now result }
{
    let (first, second, third) = three_words(rest);
    let out = text(alloc, first)?;
    let top = is_word(second, b"nnc");
    let n = number(third);
    Ok(match kind {
        SpaceAlone::Universe => Command::Space {
            space: Space::Universe,
            out,
            top,
            n,
        },
        SpaceAlone::Empty => Command::Space {
            space: Space::Empty,
            out,
            top,
            n,
        },
    })
}

/// A command with a name, a topology, a number and a part.
fn of_space_part(alloc: Global, kind: SpaceAndPart, rest: &[u8]) -> Result<Command, ReadErr>
    ensures { IsMade (form.SpaceAndPart kind) rest.now result }
{
    let (first, second, third) = three_words(rest);
    let out = text(alloc, first)?;
    let part = part(alloc, rest)?;
    let top = is_word(second, b"nnc");
    let n = number(third);
    Ok(match kind {
        SpaceAndPart::Cons => Command::Cons {
            out,
            top,
            n,
            cons: part,
        },
        SpaceAndPart::Gens => Command::Gens {
            out,
            top,
            n,
            gens: part,
        },
    })
}

/// A command with two names and a number.
fn of_two_names_number(alloc: Global, kind: TwoNamesNumber, rest: &[u8]) -> Result<Command, ReadErr>
    ensures { IsMade (form.TwoNamesNumber kind) rest.now result }
{
    let (first, second, third) = three_words(rest);
    let (out, p) = copies(alloc, first, second)?;
    let n = number(third);
    Ok(match kind {
        TwoNamesNumber::Embed => Command::Extend {
            by: Extension::Embed,
            out,
            p,
            n,
        },
        TwoNamesNumber::Project => Command::Extend {
            by: Extension::Project,
            out,
            p,
            n,
        },
        TwoNamesNumber::Member => Command::Member { out, s: p, i: n },
    })
}

/// A command with two names, a variable, a relation and a part.
fn of_map(alloc: Global, kind: TwoNamesMap, rest: &[u8]) -> Result<Command, ReadErr>
    ensures { IsMade (form.TwoNamesMap kind) rest.now result }
{
    let frac = part(alloc, rest)?;
    let (first, second, third) = three_words(rest);
    let (out, p) = copies(alloc, first, second)?;
    let v = variable(third);
    let rel = relation(sign_of(rest));
    Ok(match kind {
        TwoNamesMap::Image => Command::Map {
            by: Mapping::Image,
            out,
            p,
            v,
            rel,
            frac,
        },
        TwoNamesMap::Preimage => Command::Map {
            by: Mapping::Preimage,
            out,
            p,
            v,
            rel,
            frac,
        },
    })
}

/// A command with a name and the kind of a file.
fn of_name_format(alloc: Global, kind: NameFormat, rest: &[u8]) -> Result<Command, ReadErr>
    ensures { IsMade (form.NameFormat kind) rest.now result }
{
    let (first, second) = two_words(rest);
    let name = text(alloc, first)?;
    let form = is_word(second, b"ext");
    Ok(match kind {
        NameFormat::Read => Command::Read { out: name, form },
        NameFormat::Write => Command::Write { p: name, form },
    })
}

/// A command with a name, a number and a name.
fn of_name_number_name(alloc: Global, kind: NameNumberName, rest: &[u8]) -> Result<Command, ReadErr>
    ensures { IsMade (form.NameNumberName kind) rest.now result }
{
    let (first, second, third) = three_words(rest);
    let (s, p) = copies(alloc, first, third)?;
    let loc = number(second);
    Ok(match kind {
        NameNumberName::Init => Command::Init { s, loc, p },
        NameNumberName::Invariant => Command::SetPart {
            part: LocationPart::Invariant,
            h: s,
            loc,
            p,
        },
        NameNumberName::Flow => Command::SetPart {
            part: LocationPart::Flow,
            h: s,
            loc,
            p,
        },
    })
}

/// A command with a name, a number and the prefix of names.
fn of_name_number_prefix(
    alloc: Global,
    kind: NameNumberPrefix,
    rest: &[u8],
) -> Result<Command, ReadErr>
    ensures { IsMade (form.NameNumberPrefix kind) rest.now result }
{
    let (first, second, third) = three_words(rest);
    let (s, prefix) = copies(alloc, first, third)?;
    let delay = number(second);
    Ok(match kind {
        NameNumberPrefix::Fixpoint => Command::Fixpoint { s, delay, prefix },
        NameNumberPrefix::Reach => Command::Reach {
            h: s,
            delay,
            prefix,
        },
    })
}

/// `print`, with a side and a name.
fn print_command(alloc: Global, rest: &[u8]) -> Result<Command, ReadErr>
    ensures { IsMade form.Print rest.now result }
{
    let (first, second) = two_words(rest);
    Ok(Command::Print {
        side: is_word(first, b"gens"),
        p: text(alloc, second)?,
    })
}

/// `remove`, with two names and the variables of its part.
fn remove_command(alloc: Global, rest: &[u8]) -> Result<Command, ReadErr>
    ensures { IsMade form.Remove rest.now result }
{
    let vars = variables(alloc, part_of(rest))?;
    let (out, p) = two_texts(alloc, rest)?;
    Ok(Command::Remove { out, p, vars })
}

/// `system`, with a name and two numbers.
fn system_command(alloc: Global, rest: &[u8]) -> Result<Command, ReadErr>
    ensures { IsMade form.System rest.now result }
{
    let (first, second, third) = three_words(rest);
    Ok(Command::System {
        out: text(alloc, first)?,
        n: number(second),
        l: number(third),
    })
}

/// `bounds`, with a name, a number and a part.
fn bounds_command(alloc: Global, rest: &[u8]) -> Result<Command, ReadErr>
    ensures { IsMade form.Bounds rest.now result }
{
    let (first, second) = two_words(rest);
    Ok(Command::Bounds {
        out: text(alloc, first)?,
        n: number(second),
        cons: part(alloc, rest)?,
    })
}

/// `trans`, with a name, two numbers and a name.
fn trans_command(alloc: Global, rest: &[u8]) -> Result<Command, ReadErr>
    ensures { IsMade form.Trans rest.now result }
{
    let (first, behind) = split_word(rest);
    let (second, third, fourth) = three_words(behind);
    let (s, r) = copies(alloc, first, fourth)?;
    Ok(Command::Trans {
        s,
        loc: number(second),
        loc2: number(third),
        r,
    })
}
