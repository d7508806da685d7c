//! Replies as text: bytes on the heap, the faults of what is read, and the printed forms of faults
//! and overflows.
//!
//! - [`Text`] is a list of bytes that grows at its end.
//! - [`Fault`] and [`ReadErr`] say why something that was read is refused.
//! - [`print_fault`] and [`print_overflow`] give one line without its line end.
#![tactic(auto)]

mod bytes;
mod faults;
mod printing;

pub use bytes::Text;
pub use faults::{Fault, ReadErr};
pub use printing::{print_fault, print_overflow};
