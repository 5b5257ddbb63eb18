//! Certificates: what a solver hands over, as steps.
#![tactic(auto)]

pub mod fault;
pub mod form;
pub mod found;
pub mod hinted;
mod line;
mod memory;
mod record;
pub mod source;
pub mod textual;
mod words;
