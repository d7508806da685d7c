//! Regular forms of text, the grammar of the calculator's texts as such forms, and one recognizer
//! for all of them.
#![tactic(auto)]

mod bodies;
mod column;
mod decided;
mod derivative;
mod distinct;
mod forms;
mod laws;
mod machine;
mod re;
mod rest;
mod rows;
mod rule;
mod span;
mod tables;
mod verdict;

pub use column::column_of;
pub use decided::{con_column, cons_column, expr_column, frac_column, gens_column, point_column};
pub use forms::{BLANKS, GAP};
pub use laws::{avoided_bytes, decided_matches};
pub use machine::Machine;
pub use re::Re;
pub use rule::Rule;
pub use verdict::Verdict;
