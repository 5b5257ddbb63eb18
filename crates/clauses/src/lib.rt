//! Clause bases: whether a clause follows from the clauses held, by unit propagation.
#![tactic(auto)]

pub mod base;
mod common;
mod counters;
pub mod counting;
pub mod fault;
mod form;
mod index;
mod indexing;
mod lent;
mod literal;
mod look;
pub mod mark;
mod phase;
mod propagator;
pub mod room;
pub mod row;
mod scan;
mod store;
mod trail;
pub mod watched;
mod watches;
