//! Expressions, constraints and generators as text.
//!
//! - [`read_expr`], [`read_frac`], [`read_con`], [`read_cons`], [`read_gens`] and [`read_point`]
//!   give the value of a text, or the fault for which it is refused. [`one_answer`] is the law that
//!   no text has two. [`gens_of`] is `read_gens` for a text that is known to have its form.
//! - [`print_cons`], [`print_gens`] and [`print_gen`] give the printed form of a system of
//!   constraints, of a system of generators, and of one generator.
//! - [`constraints_are_read_back`] and [`generators_are_read_back`] are the laws that what is
//!   printed is read as the same system and as no other.
#![tactic(auto)]

mod print_constraints;
mod print_fractions;
mod print_generators;
mod print_laws;
mod print_sums;
mod read_generators;
mod read_laws;
mod read_refusals;
mod read_texts;

pub use print_constraints::print_cons;
pub use print_fractions::print_frac;
pub use print_generators::{print_gen, print_gens};
pub use print_laws::{
    constraints_are_read_back, fractions_are_read_back, generators_are_read_back,
};
pub use read_generators::{gens_of, read_gens};
pub use read_laws::one_answer;
pub use read_texts::{read_con, read_cons, read_expr, read_frac, read_point};
pub use reply_text::{Fault, ReadErr, Text, print_fault, print_overflow};
pub use term_text::{Frac, OneCon};
