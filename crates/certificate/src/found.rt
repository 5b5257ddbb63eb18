//! A step as it was read.

/// How many literals and hints stand first in the memory lent, or the number of the clause to delete.
#[derive(Clone, Copy, PartialEq, Eq, Debug)]
pub enum Shape {
    Add(usize),
    AddHinted(usize, usize),
    Delete(u32),
}

/// A step and its place.
#[derive(Clone, Copy, PartialEq, Eq, Debug)]
pub struct Found {
    pub place: u32,
    pub shape: Shape,
}
