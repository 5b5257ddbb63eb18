//! How much a base can hold.

/// The most variables, live clauses and live literals.
#[derive(Clone, Copy, PartialEq, Eq, Debug)]
pub struct Room {
    pub variables: usize,
    pub clauses: usize,
    pub literals: usize,
}
