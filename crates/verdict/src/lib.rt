//! From the bytes of the files to the line that is printed.
#![tactic(auto)]

pub mod check;
mod counter;
pub mod counts;
pub mod fault;
mod indicators;
pub mod lawful;
mod layer;
mod layout;
pub mod line;
mod names;
pub mod opening;
pub mod opening_clauses;
pub mod outcome;
pub mod reply;
pub mod room;
pub mod session;
pub mod trying;
pub mod whole;
