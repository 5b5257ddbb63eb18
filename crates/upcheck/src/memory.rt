//! The memory that a run is lent.
use clauses::row::Row;
use clauses::watched::Watched;
use problem::rows::{ConstraintRow, NO_CONSTRAINT, NO_PACKAGE, PackageRow};
use problem::standing::Standing;
use problem::view::{CONSTRAINTS_MOST, PACKAGES_MOST};
use std::alloc::{AllocError, Global};
use verdict::check::check;
use verdict::line::Line;
use verdict::room::{CLAUSES, LITERALS, STEP_HINTS, STEP_LITERALS, VARIABLES};

/// Rows of the documents, the memory of a clause base, and that of one step.
#[derive(Drop)]
pub struct Memory {
    packages: Vec<PackageRow>,
    constraints: Vec<ConstraintRow>,
    table: Vec<Standing>,
    rows: Vec<Row>,
    held: Vec<i32>,
    values: Vec<Option<bool>>,
    trail: Vec<i32>,
    heads: Vec<u32>,
    next: Vec<u32>,
    owners: Vec<u32>,
    places: Vec<u32>,
    literals: Vec<i32>,
    hints: Vec<u32>,
}

impl Memory {
    pub fn new(heap: Global) -> Result<Memory, AllocError> {
        Ok(Memory {
            packages: vec![in heap; NO_PACKAGE; PACKAGES_MOST]?,
            constraints: vec![in heap; NO_CONSTRAINT; CONSTRAINTS_MOST]?,
            table: vec![in heap; Standing::Unnamed; PACKAGES_MOST]?,
            rows: vec![in heap; Row::NONE; CLAUSES]?,
            held: vec![in heap; 0i32; LITERALS]?,
            values: vec![in heap; None; VARIABLES + 1]?,
            trail: vec![in heap; 0i32; VARIABLES + 1]?,
            heads: vec![in heap; 0u32; 2 * (VARIABLES + 1)]?,
            next: vec![in heap; 0u32; LITERALS]?,
            owners: vec![in heap; 0u32; LITERALS]?,
            places: vec![in heap; 0u32; 2 * CLAUSES]?,
            literals: vec![in heap; 0i32; STEP_LITERALS]?,
            hints: vec![in heap; 0u32; STEP_HINTS]?,
        })
    }

    /// The line that three files come to.
    pub fn line(&mut self, problem: &[u8], answer: &[u8], certificate: &[u8]) -> Line {
        let mut base = Watched::new(
            &mut self.rows,
            &mut self.held,
            &mut self.values,
            &mut self.trail,
            &mut self.heads,
            &mut self.next,
            &mut self.owners,
            &mut self.places,
        );
        check(
            problem,
            answer,
            certificate,
            &mut self.packages,
            &mut self.constraints,
            &mut self.table,
            &mut base,
            &mut self.literals,
            &mut self.hints,
        )
    }
}
