//! Worked cases of the lower crates, through their public calls: what is read and refused, what is
//! printed, what is kept.
//!
//! Nothing stands here but tests. They stand in a crate of their own so that no crate is proved a
//! second time for its tests; cases that reach the program stand in its stored run.
#![tactic(auto)]

#[cfg(test)]
mod bits;
#[cfg(test)]
mod constraint_systems;
#[cfg(test)]
mod conversions;
#[cfg(test)]
mod decoded_systems;
#[cfg(test)]
mod forms;
#[cfg(test)]
mod generator_systems;
#[cfg(test)]
mod large_steps;
#[cfg(test)]
mod printed_texts;
#[cfg(test)]
mod read_texts;
#[cfg(test)]
mod replies;
#[cfg(test)]
mod rows;
#[cfg(test)]
mod samples;
#[cfg(test)]
mod script_lines;
#[cfg(test)]
mod stored_rows;
#[cfg(test)]
mod streams;
#[cfg(test)]
mod tables;
#[cfg(test)]
mod usage_words;
