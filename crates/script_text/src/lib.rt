//! The lines of the calculator, as commands.
//!
//! - [`read_command`] gives the command that a line spells, or the fault for which it is refused.
//! - [`Command`] has a variant for each command or each family of commands with the same fields:
//!   then its first field tells which, as [`Operator`]. [`Part`] is the text behind a colon,
//!   [`Rel`] the relation that may stand in the colon's place, and [`VarList`] the variables of a
//!   list.
//! - [`one_command`], [`reads_once`], [`fields_are_words`] and [`variables_are_listed`] are laws of
//!   the definitions that the contracts cite.
#![tactic(auto)]

mod command;
mod laws;
mod making;
mod read;
mod variables;

pub use command::{
    Command, Comparison, Extension, Extremum, LocationPart, Mapping, Operator, Part,
    PowersetOperator, Rel, ShapeOperator, Space,
};
pub use laws::{one_command, reads_once, variables_are_listed};
pub use line_forms::fields_are_words;
pub use read::read_command;
pub use variables::VarList;
