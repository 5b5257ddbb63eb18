//! Problems and answers: reading them, what a plan is, and its counts.
#![tactic(auto)]

pub mod answer;
mod answer_lines;
mod constraint;
pub mod counts;
mod draft;
pub mod fault;
mod head;
mod keys;
mod lines;
mod lists;
pub mod plan_check;
pub mod plan_clauses;
mod property_line;
pub mod read;
mod repeats;
pub mod rows;
mod satisfy;
mod section;
pub mod sink;
pub mod standing;
pub mod stanzas;
pub mod variable;
pub mod view;
mod wanted;
