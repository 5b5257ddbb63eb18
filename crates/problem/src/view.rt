//! A problem: a view of its document and of the rows that it was read into.
ghost use Rattle.std.specs.Prelude.{◌≡◌, ℕ, ◌+◌, ◌-◌, ◌<◌, ◌≤◌, false, length, take, drop, replicate, slice_index_or};
ghost use Rattle.problem.specs.Rows.{no_package, no_constraint, stands_twice};

use crate::rows::{ConstraintRow, PackageRow, Span};

pub mod parts;
pub mod reads;

/// The most package stanzas of a problem.
pub const PACKAGES_MOST: usize = 256;

/// The most constraints of a problem.
pub const CONSTRAINTS_MOST: usize = 1024;

// Each count stands beside the whole of its memory, since the promise is that zeros stand in the places past it.

/// A problem. The first `count` rows of `packages` and the first `asked` of `constraints` are its own, and zeros
/// stand after them.
#[derive(Clone, Copy)]
pub struct Problem<'t, 'p, 'c> {
    text: &'t [u8],
    packages: &'p [PackageRow],
    count: usize,
    constraints: &'c [ConstraintRow],
    asked: usize,
    install: Span,
    remove: Span,
    ghost packages_held: { count ≤ length packages.now },
    ghost packages_few: { count ≤ 256 },
    ghost packages_blank: { drop count packages.now ≡ replicate (length packages.now - count) no_package },
    ghost constraints_held: { asked ≤ length constraints.now },
    ghost constraints_few: { asked ≤ 1024 },
    ghost constraints_blank: { drop asked constraints.now ≡ replicate (length constraints.now - asked) no_constraint },
    ghost names: { (k : ℕ) → k < count → (slice_index_or packages.now k no_package).name.start + (slice_index_or packages.now k no_package).name.len ≤ length text.now },
    ghost versions_least: { (k : ℕ) → k < count → 1 ≤ (slice_index_or packages.now k no_package).version },
    ghost versions_most: { (k : ℕ) → k < count → (slice_index_or packages.now k no_package).version ≤ 999999 },
    ghost depends: { (k : ℕ) → k < count → (slice_index_or packages.now k no_package).depends.first + (slice_index_or packages.now k no_package).depends.len ≤ asked },
    ghost conflicts: { (k : ℕ) → k < count → (slice_index_or packages.now k no_package).conflicts.first + (slice_index_or packages.now k no_package).conflicts.len ≤ asked },
    ghost constraint_names: { (k : ℕ) → k < asked → (slice_index_or constraints.now k no_constraint).name.start + (slice_index_or constraints.now k no_constraint).name.len ≤ length text.now },
    ghost constraint_versions: { (k : ℕ) → k < asked → (slice_index_or constraints.now k no_constraint).version ≤ 999999 },
    ghost install_held: { install.first + install.len ≤ asked },
    ghost remove_held: { remove.first + remove.len ≤ asked },
    ghost distinct: { stands_twice text.now (take count packages.now) ≡ false },
}
