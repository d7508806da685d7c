//! The form of a line.
ghost use Rattle.std.specs.Prelude.{◌≡◌, ◌<◌, Contains, MatchOption, MatchResult, eqb, map};
ghost use Rattle.std.specs.List.{common_prefix_len};
ghost use Rattle.grammar.specs.Form.{IsColumn, IsColumnOfAny};
ghost use Rattle.line_forms.specs.CommandWords.{command_words, IsCommandWord, IsNoCommandWord};
ghost use Rattle.line_forms.specs.CommandWords.{line_forms, HasForm};
ghost use Rattle.line_forms.specs.Layouts.{nothing_form, line_form};
ghost use Rattle.line_forms.specs.Slots.{slot, row_at, candidate};
ghost use Rattle.line_forms.specs.Words.{past_blanks, word_of, behind_word};

use crate::form::{
    LineForm, NameAndPart, NameFormat, NameNumberName, NameNumberPrefix, OneName, SpaceAlone,
    SpaceAndPart, ThreeNames, TwoNames, TwoNamesMap, TwoNamesNumber,
};
use crate::machines::{nothing_verdict, rest_verdict};
use crate::places::PLACES;
use crate::words::{is_word, past_blanks};
use grammar::Verdict;

/// A form of lines with its command word; a blank line has none.
type CommandWord = (LineForm, &'static [u8]);

/// Each form with its command word.
const COMMAND_WORDS: [CommandWord; 56] = [
    (LineForm::Nothing, b""),
    (LineForm::SpaceAndPart(SpaceAndPart::Cons), b"cons"),
    (LineForm::SpaceAndPart(SpaceAndPart::Gens), b"gens"),
    (LineForm::SpaceAlone(SpaceAlone::Universe), b"universe"),
    (LineForm::SpaceAlone(SpaceAlone::Empty), b"empty"),
    (LineForm::TwoNames(TwoNames::Copy), b"copy"),
    (LineForm::OneName(OneName::Drop), b"drop"),
    (LineForm::NameAndPart(NameAndPart::Add), b"add"),
    (LineForm::NameAndPart(NameAndPart::Addgen), b"addgen"),
    (LineForm::NameAndPart(NameAndPart::Has), b"has"),
    (LineForm::OneName(OneName::Size), b"size"),
    (LineForm::Print, b"print"),
    (LineForm::Names, b"names"),
    (LineForm::ThreeNames(ThreeNames::Meet), b"meet"),
    (LineForm::ThreeNames(ThreeNames::Hull), b"hull"),
    (LineForm::TwoNames(TwoNames::Closure), b"closure"),
    (LineForm::TwoNames(TwoNames::Contains), b"contains"),
    (LineForm::TwoNames(TwoNames::Equal), b"equal"),
    (LineForm::TwoNames(TwoNames::Disjoint), b"disjoint"),
    (LineForm::OneName(OneName::Isempty), b"isempty"),
    (LineForm::NameAndPart(NameAndPart::Relation), b"relation"),
    (LineForm::NameAndPart(NameAndPart::Max), b"max"),
    (LineForm::NameAndPart(NameAndPart::Min), b"min"),
    (LineForm::TwoNamesMap(TwoNamesMap::Image), b"image"),
    (LineForm::TwoNamesMap(TwoNamesMap::Preimage), b"preimage"),
    (LineForm::TwoNamesNumber(TwoNamesNumber::Embed), b"embed"),
    (
        LineForm::TwoNamesNumber(TwoNamesNumber::Project),
        b"project",
    ),
    (LineForm::Remove, b"remove"),
    (LineForm::ThreeNames(ThreeNames::Concat), b"concat"),
    (LineForm::ThreeNames(ThreeNames::Elapse), b"elapse"),
    (LineForm::ThreeNames(ThreeNames::Widen), b"widen"),
    (LineForm::NameFormat(NameFormat::Read), b"read"),
    (LineForm::NameFormat(NameFormat::Write), b"write"),
    (LineForm::System, b"system"),
    (LineForm::NameNumberName(NameNumberName::Init), b"init"),
    (LineForm::Trans, b"trans"),
    (
        LineForm::NameNumberPrefix(NameNumberPrefix::Fixpoint),
        b"fixpoint",
    ),
    (LineForm::TwoNames(TwoNames::Pset), b"pset"),
    (LineForm::ThreeNames(ThreeNames::Join), b"join"),
    (LineForm::ThreeNames(ThreeNames::PowersetMeet), b"pmeet"),
    (LineForm::TwoNamesNumber(TwoNamesNumber::Member), b"member"),
    (LineForm::OneName(OneName::Psize), b"psize"),
    (LineForm::TwoNames(TwoNames::Covers), b"covers"),
    (LineForm::TwoNames(TwoNames::Rank), b"rank"),
    (LineForm::OneName(OneName::Ranking), b"ranking"),
    (LineForm::TwoNames(TwoNames::ShapeOf), b"shape"),
    (LineForm::Bounds, b"bounds"),
    (LineForm::ThreeNames(ThreeNames::ShapeMeet), b"smeet"),
    (LineForm::ThreeNames(ThreeNames::ShapeHull), b"shull"),
    (LineForm::TwoNames(TwoNames::ShapeContains), b"scontains"),
    (LineForm::OneName(OneName::ShapePrint), b"sprint"),
    (LineForm::TwoNames(TwoNames::ShapePoly), b"spoly"),
    (LineForm::TwoNames(TwoNames::Hybrid), b"hybrid"),
    (LineForm::NameNumberName(NameNumberName::Invariant), b"inv"),
    (LineForm::NameNumberName(NameNumberName::Flow), b"flow"),
    (
        LineForm::NameNumberPrefix(NameNumberPrefix::Reach),
        b"reach",
    ),
];

/// The form of the line, from its first word and what stands behind that, and else the column of
/// the fault over all forms.
pub fn form_of(line: &[u8], word: &[u8], rest: &[u8]) -> Result<LineForm, usize>
    requires word { word.now ≡ word_of line.now }
    requires behind { rest.now ≡ behind_word line.now }
    ensures { MatchResult result (λ f. HasForm f line.now) (IsColumnOfAny line_forms line.now) }
{
    if let Some(form) = named(word) {
        return by_word(form, line, rest);
    }
    match nothing_verdict(line) {
        Verdict::Accepted => Ok(LineForm::Nothing),
        Verdict::RefusedAt(column) => Err(column_of_forms(
            &COMMAND_WORDS,
            line,
            past_blanks(line),
            column,
        )),
    }
}

/// The slot of a word, by its length, its first two letters and its last: a perfect hash
/// (Sprugnoli, 1977), so no two command words have the same.
fn slot(word: &[u8]) -> usize
    ensures value { result ≡ slot word.now }
    ensures within { result < 256 }
{
    if word.len() < 3 {
        return 0;
    }
    let last = word[word.len() - 1];
    (word.len() + 4 * usize::from(word[0]) + 15 * usize::from(word[1]) + 8 * usize::from(last))
        % 256
}

/// The row at a place; that of a blank line where there is none.
fn row_at(rows: &[CommandWord], place: usize) -> CommandWord
    ensures form { result.0 ≡ (row_at (map (λ row. (row.0, row.1.now)) rows.now) place).0 }
    ensures word { result.1.now ≡ (row_at (map (λ row. (row.0, row.1.now)) rows.now) place).1 }
{
    match rows.get(place) {
        Some(row) => *row,
        None => (LineForm::Nothing, b""),
    }
}

/// The only form whose command word the word may be, with its command word.
fn candidate(word: &[u8]) -> CommandWord
    ensures form { result.0 ≡ (candidate word.now).0 }
    ensures word { result.1.now ≡ (candidate word.now).1 }
{
    row_at(&COMMAND_WORDS, usize::from(PLACES[slot(word)]))
}

/// The form whose command word it is.
fn named(word: &[u8]) -> Option<LineForm>
    ensures { MatchOption result (IsNoCommandWord word.now) (λ f. IsCommandWord f word.now) }
{
    if word.is_empty() {
        return None;
    }
    let (form, command) = candidate(word);
    if is_word(word, command) {
        Some(form)
    } else {
        None
    }
}

/// How many bytes stand at the front of both texts.
fn common_len(text: &[u8], word: &[u8]) -> usize
    ensures { result ≡ common_prefix_len eqb text.now word.now }
{
    let mut count = 0;
    while count < text.len() && count < word.len() && text[count] == word[count] {
        count += 1;
    }
    count
}

/// The column of the fault over the lines of one form, where the line begins with no command word.
fn column_of_form(row: &CommandWord, line: &[u8], text: &[u8], blank_column: usize) -> usize
    requires listed { Contains command_words (row.now.0, row.now.1.now) }
    requires text { text.now ≡ past_blanks line.now }
    requires other { IsNoCommandWord (word_of line.now) }
    requires written { IsColumn nothing_form line.now blank_column }
    ensures { IsColumn (line_form row.now.0 row.now.1.now) line.now result }
{
    let (form, command) = row;
    match *form {
        LineForm::Nothing => blank_column,
        _ => line.len() - text.len() + common_len(text, command) + 1,
    }
}

/// The column of the fault over all forms, where the line begins with no command word.
fn column_of_forms(rows: &[CommandWord], line: &[u8], text: &[u8], blank_column: usize) -> usize
    requires all { map (λ row. (row.0, row.1.now)) rows.now ≡ command_words }
    requires text { text.now ≡ past_blanks line.now }
    requires other { IsNoCommandWord (word_of line.now) }
    requires written { IsColumn nothing_form line.now blank_column }
    ensures { IsColumnOfAny line_forms line.now result }
{
    let mut column = 0;
    for row in rows {
        column = column.max(column_of_form(row, line, text, blank_column));
    }
    column
}

/// The form whose command word begins the line if the line is one of its lines, and else the column
/// of the fault over all forms: no other form goes on behind the word.
fn by_word(form: LineForm, line: &[u8], rest: &[u8]) -> Result<LineForm, usize>
    requires named { IsCommandWord form (word_of line.now) }
    requires behind { rest.now ≡ behind_word line.now }
    ensures { MatchResult result (λ f. HasForm f line.now) (IsColumnOfAny line_forms line.now) }
{
    match rest_verdict(form, rest) {
        Verdict::Accepted => Ok(form),
        Verdict::RefusedAt(column) => Err(line.len() - rest.len() + column),
    }
}
