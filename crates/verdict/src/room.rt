//! The room that the program gives a base, and the memory that it reads steps into.

/// The most variables.
pub const VARIABLES: usize = 4096;

/// The most live clauses.
pub const CLAUSES: usize = 8192;

/// The most literals of the live clauses.
pub const LITERALS: usize = 16_384;

/// The most literals of a step.
pub const STEP_LITERALS: usize = 512;

/// The most hints of a step.
pub const STEP_HINTS: usize = 16_384;
