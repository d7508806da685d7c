use crate::re::Re;
use crate::rule::Rule;

macro_rules! seq {
    ($last:expr) => { $last };
    ($first:expr, $($rest:expr),+) => { Re::Then(&$first, &seq!($($rest),+)) };
}

macro_rules! alt {
    ($last:expr) => { $last };
    ($first:expr, $($rest:expr),+) => { Re::Or(&$first, &alt!($($rest),+)) };
}

// The forms one behind the other, with blanks between.
macro_rules! spaced {
    ($last:expr) => { $last };
    ($first:expr, $($rest:expr),+) => { seq!($first, BLANKS, spaced!($($rest),+)) };
}

macro_rules! symbol {
    ($byte:expr) => { Re::Byte($byte, $byte) };
}

macro_rules! list_of {
    ($form:expr) => { seq!($form, Re::Many(&seq!(BLANKS, spaced!(symbol!(b','), $form)))) };
}

macro_rules! sum_of {
    ($term:expr) => {
        seq!(
            alt!($term, spaced!(symbol!(b'-'), $term)),
            Re::Many(&seq!(
                BLANKS,
                alt!(spaced!(symbol!(b'+'), $term), spaced!(symbol!(b'-'), $term))
            ))
        )
    };
}

macro_rules! over_nat {
    ($form:expr) => {
        alt!($form, spaced!(symbol!(b'('), $form, symbol!(b')'), symbol!(b'/'), NAT))
    };
}

macro_rules! in_brackets {
    ($word:expr, $form:expr) => { spaced!(Re::Word($word), $form, symbol!(b')')) };
}

/// A space or a tab.
pub const BLANK: Re<'static> = alt!(symbol!(b' '), symbol!(b'\t'));
/// Any number of blanks.
pub const BLANKS: Re<'static> = Re::Many(&BLANK);
/// One or more blanks.
pub const GAP: Re<'static> = seq!(BLANK, BLANKS);

const DIGIT: Re<'static> = Re::Byte(b'0', b'9');

const LOWER: Re<'static> = Re::Byte(b'a', b'z');

const UPPER: Re<'static> = Re::Byte(b'A', b'Z');

pub const NAT: Re<'static> = seq!(DIGIT, Re::Many(&DIGIT));

pub const NAME: Re<'static> = seq!(LOWER, Re::UpTo(31, &alt!(LOWER, DIGIT, symbol!(b'_'))));

pub const VAR: Re<'static> = alt!(UPPER, seq!(UPPER, Re::Byte(b'1', b'9'), Re::Many(&DIGIT)));

pub const TERM: Re<'static> = alt!(spaced!(NAT, symbol!(b'*'), VAR), VAR, NAT);

pub const EXPR: Re<'static> = sum_of!(Re::Named(Rule::Term));

pub const FRAC: Re<'static> = over_nat!(Re::Named(Rule::Expr));

pub const VTERM: Re<'static> = alt!(spaced!(NAT, symbol!(b'*'), VAR), VAR);

pub const VEXPR: Re<'static> = alt!(symbol!(b'0'), sum_of!(Re::Named(Rule::Vterm)));

pub const VFRAC: Re<'static> = over_nat!(Re::Named(Rule::Vexpr));

const REL: Re<'static> = alt!(
    symbol!(b'='),
    Re::Word(b">="),
    Re::Word(b"<="),
    symbol!(b'>'),
    symbol!(b'<')
);

pub const CON: Re<'static> = spaced!(Re::Named(Rule::Expr), REL, Re::Named(Rule::Expr));

pub const CONS: Re<'static> = alt!(
    Re::Word(b"true"),
    Re::Word(b"false"),
    list_of!(Re::Named(Rule::Con))
);

pub const POINT: Re<'static> = in_brackets!(b"p(", Re::Named(Rule::Vfrac));

pub const GEN: Re<'static> = alt!(
    Re::Named(Rule::Point),
    in_brackets!(b"c(", Re::Named(Rule::Vfrac)),
    in_brackets!(b"r(", Re::Named(Rule::Vexpr)),
    in_brackets!(b"l(", Re::Named(Rule::Vexpr))
);

pub const GENS: Re<'static> = alt!(Re::Word(b"none"), list_of!(Re::Named(Rule::Gen)));

pub const VARS: Re<'static> = list_of!(Re::Named(Rule::Var));

pub const COMMENT: Re<'static> = seq!(symbol!(b'#'), Re::Many(&Re::Byte(0, 255)));
