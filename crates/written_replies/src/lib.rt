//! Replies that are gathered before they are written, and how a call of the program ended.
//!
//! - [`Replies`] are the bytes of replies in order, and whether one of them is a fault or an
//!   overflow. [`Replies::write`] writes them, and tells by its [`Status`] what came of it.
//! - [`exit_code`] is the program's end with a status.
#![tactic(auto)]

mod replies;
mod status;

pub use replies::Replies;
pub use status::{Status, exit_code};
