//! The forms of the calculator's lines.
//!
//! - [`form_of`] gives the form that a line has, or the column of its first fault. [`LineForm`]
//!   tells what stands behind the command's word, and its value, as [`ThreeNames`], which command
//!   it is.
//! - [`split_word`], [`two_words`] and [`three_words`] give the words of a text, [`sign_of`] and
//!   [`part_of`] its first colon or relation and the part behind it; [`is_word`] compares words.
//! - [`fields_are_words`] is a law of the definitions that the contracts cite.
#![tactic(auto)]

mod choice;
mod form;
mod laws;
mod machines;
mod places;
mod tables;
mod words;

pub use choice::form_of;
pub use form::{
    LineForm, NameAndPart, NameFormat, NameNumberName, NameNumberPrefix, OneName, SpaceAlone,
    SpaceAndPart, ThreeNames, TwoNames, TwoNamesMap, TwoNamesNumber,
};
pub use laws::fields_are_words;
pub use words::{is_word, part_of, sign_of, split_word, three_words, two_words};
