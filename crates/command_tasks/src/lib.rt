//! What each command asks of the calculator: [`task_of`] takes a command apart, into a [`Task`]
//! whose nesting is the families of commands.
//!
//! - [`TableTask`] is what is done with the table as a whole: something is asked ([`Asked`]), put
//!   ([`Made`]), added or run.
//! - [`Maker`], [`Addition`] and [`Question`] are about polyhedra alone.
//! - [`PartTask`] changes a part of an entry.
#![tactic(auto)]

mod laws;
mod on_polyhedra;
mod taking_apart;
mod tasks;

pub use laws::each_command_asks;
pub use on_polyhedra::{About, Addition, Given, Maker, OfOne, OfTwo, Question};
pub use taking_apart::task_of;
pub use tasks::{
    Asked, Made, PartTask, PolyMaker, PowersetMaker, Running, ShapeMaker, TableTask, Task,
};
