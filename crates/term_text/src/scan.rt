//! One pass over the bytes of a text.
ghost use Rattle.std.specs.Prelude.{◌≡◌, ◌+◌, ◌*◌, ◌^◌, [], min, option_to_list, MatchResult, OnOk};
ghost use Rattle.term_text.specs.Sums.{HasSummed, AreOutOfRange, Gains};
ghost use Rattle.term_text.specs.Reading.{next_number, with_digit, with_letter, with_equals, ended, after, part_term, term_of, begun, start, terms_read, final, relation_at, divisor_at};

use crate::rows::RowSum;
use crate::terms::{Relation, Term, ValueErr};

/// Stands for all greater sizes.
const MOST_SIZE: u128 = 1 << 127;

/// Stands for all later variables.
const MOST_INDEX: u64 = 1 << 32;

/// What has been read of a term.
#[derive(Clone, Copy)]
pub enum Part {
    Nothing,
    /// A number.
    Number(u128),
    /// A variable: its factor, its letter's place in the alphabet, and the number behind the
    /// letter.
    Letter(u128, u64, u64),
}

impl Part {
    fn push_digit(&mut self, digit: u8)
        ensures { self.new ≡ with_digit self.old digit }
    {
        match self {
            Part::Nothing => *self = Part::Number(digit as u128),
            Part::Number(size) => *size = next_size(*size, digit),
            Part::Letter(_, _, number) => *number = next_index(*number, digit),
        }
    }

    fn push_letter(&mut self, place: u8)
        ensures { self.new ≡ with_letter self.old place }
    {
        *self = match *self {
            Part::Number(factor) => Part::Letter(factor, place as u64, 0),
            Part::Nothing | Part::Letter(_, _, _) => Part::Letter(1, place as u64, 0),
        };
    }

    fn term(self, negative: bool) -> Option<Term>
        ensures { result ≡ part_term negative self }
    {
        match self {
            Part::Nothing => None,
            Part::Number(size) => Some(Term {
                negative,
                size,
                variable: None,
            }),
            Part::Letter(size, place, number) => Some(Term {
                negative,
                size,
                variable: Some(index_of(place, number)),
            }),
        }
    }
}

/// No digit behind a lesser size leaves the range.
const SMALL_SIZE: u128 = 1 << 120;

fn next_size(size: u128, digit: u8) -> u128
    ensures { result ≡ next_number (2 ^ 127) size digit }
{
    if size < SMALL_SIZE {
        size * 10 + digit as u128
    } else {
        size.saturating_mul(10)
            .saturating_add(digit as u128)
            .min(MOST_SIZE)
    }
}

fn next_index(number: u64, digit: u8) -> u64
    ensures { result ≡ next_number (2 ^ 32) number digit }
{
    number
        .saturating_mul(10)
        .saturating_add(digit as u64)
        .min(MOST_INDEX)
}

fn index_of(place: u64, number: u64) -> u64
    ensures { result ≡ min (26 * number + place) (2 ^ 32) }
{
    number
        .saturating_mul(26)
        .saturating_add(place)
        .min(MOST_INDEX)
}

/// Which part of the text is read.
#[derive(Clone, Copy)]
pub enum Place {
    /// What stands before a relation or a division.
    Left,
    /// What stands behind the relation.
    Right(Relation),
    /// What stands behind the division.
    Divisor,
}

impl Place {
    fn with_equals(self) -> Place
        ensures { result ≡ with_equals self }
    {
        match self {
            Place::Right(Relation::Above) => Place::Right(Relation::AtLeast),
            Place::Right(Relation::Below) => Place::Right(Relation::AtMost),
            _ => Place::Right(Relation::Equal),
        }
    }
}

/// What is known after some bytes of a text, besides the terms that have ended.
#[derive(Clone, Copy)]
pub struct State {
    pub negative: bool,
    pub part: Part,
    pub place: Place,
}

impl State {
    fn begun(place: Place, negative: bool) -> State
        ensures { result ≡ begun place negative }
    {
        State {
            negative,
            part: Part::Nothing,
            place,
        }
    }

    fn begin(&mut self, place: Place, negative: bool)
        ensures { self.new ≡ begun place negative }
    {
        self.negative = negative;
        self.part = Part::Nothing;
        self.place = place;
    }

    fn term(self) -> Option<Term>
        ensures { result ≡ term_of self }
    {
        match self.place {
            Place::Left => self.part.term(self.negative),
            Place::Right(_) => self.part.term(!self.negative),
            Place::Divisor => None,
        }
    }

    /// The relation that was read. A text with none has that of `=`.
    pub fn relation(self) -> Relation
        ensures { result ≡ relation_at self.place }
    {
        match self.place {
            Place::Right(relation) => relation,
            Place::Left | Place::Divisor => Relation::Equal,
        }
    }

    /// The divisor that was read, and 1 without a division.
    pub fn divisor(self) -> u128
        ensures { result ≡ divisor_at self.place self.part }
    {
        match (self.place, self.part) {
            (Place::Divisor, Part::Number(divisor)) => divisor,
            _ => 1,
        }
    }

    fn end_term(&self, sum: &mut RowSum) -> Result<(), ValueErr>
        ensures { MatchResult result
            (λ _. Gains (option_to_list (term_of self.now)) sum.old sum.new)
            (AreOutOfRange sum.old.dim (option_to_list (term_of self.now))) }
    {
        match self.term() {
            Some(term) => sum.add(term),
            None => Ok(()),
        }
    }

    /// Ends the term that is read, and begins the next one.
    fn turn(&mut self, sum: &mut RowSum, place: Place, negative: bool) -> Result<(), ValueErr>
        ensures state { OnOk result (self.new ≡ begun place negative) }
        ensures sum { MatchResult result
            (λ _. Gains (option_to_list (term_of self.old)) sum.old sum.new)
            (AreOutOfRange sum.old.dim (option_to_list (term_of self.old))) }
    {
        self.end_term(sum)?;
        self.begin(place, negative);
        Ok(())
    }

    fn push(&mut self, byte: u8, sum: &mut RowSum) -> Result<(), ValueErr>
        ensures state { OnOk result (self.new ≡ after self.old byte) }
        ensures sum { MatchResult result
            (λ _. Gains (ended self.old byte) sum.old sum.new)
            (AreOutOfRange sum.old.dim (ended self.old byte)) }
    {
        match byte {
            b'0'..=b'9' => self.part.push_digit(byte - b'0'),
            b'A'..=b'Z' => self.part.push_letter(byte - b'A'),
            b'+' => self.turn(sum, self.place, false)?,
            b'-' => self.turn(sum, self.place, true)?,
            b'=' => self.turn(sum, self.place.with_equals(), false)?,
            b'>' => self.turn(sum, Place::Right(Relation::Above), false)?,
            b'<' => self.turn(sum, Place::Right(Relation::Below), false)?,
            b'/' => self.turn(sum, Place::Divisor, false)?,
            _ => {}
        }
        Ok(())
    }
}

/// Adds the terms of a text, and returns what stands behind its last byte.
pub fn scan(text: &[u8], sum: &mut RowSum) -> Result<State, ValueErr>
    requires { HasSummed [] sum.old }
    ensures { MatchResult result
        (λ state. HasSummed (terms_read start text.now) sum.new
        × (sum.new.dim ≡ sum.old.dim)
        × (state ≡ final start text.now))
        (AreOutOfRange sum.old.dim (terms_read start text.now)) }
{
    let mut state = State::begun(Place::Left, false);
    for byte in text {
        state.push(*byte, sum)?;
    }
    state.end_term(sum)?;
    Ok(state)
}
