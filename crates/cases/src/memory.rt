//! The memory that a run is lent, on either base.
use crate::table::Case;
use clauses::base::ClauseBase;
use clauses::counting::Counting;
use clauses::row::Row;
use clauses::watched::Watched;
use problem::rows::{ConstraintRow, NO_CONSTRAINT, NO_PACKAGE, PackageRow};
use problem::standing::Standing;
use problem::view::{CONSTRAINTS_MOST, PACKAGES_MOST};
use std::alloc::{AllocError, Global};
use verdict::check::check;
use verdict::line::Line;
use verdict::room::{CLAUSES, LITERALS, STEP_HINTS, STEP_LITERALS, VARIABLES};

/// Rows of the documents, and memory for one step.
#[derive(Drop)]
pub struct Rows {
    packages: Vec<PackageRow>,
    constraints: Vec<ConstraintRow>,
    table: Vec<Standing>,
    literals: Vec<i32>,
    hints: Vec<u32>,
}

impl Rows {
    pub fn new(heap: Global) -> Result<Rows, AllocError> {
        Ok(Rows {
            packages: vec![in heap; NO_PACKAGE; PACKAGES_MOST]?,
            constraints: vec![in heap; NO_CONSTRAINT; CONSTRAINTS_MOST]?,
            table: vec![in heap; Standing::Unnamed; PACKAGES_MOST]?,
            literals: vec![in heap; 0i32; STEP_LITERALS]?,
            hints: vec![in heap; 0u32; STEP_HINTS]?,
        })
    }

    /// The line of a case on a base.
    pub fn line<B: ClauseBase>(&mut self, case: &Case<'_>, base: &mut B) -> Line {
        check(
            case.problem,
            case.answer,
            case.certificate,
            &mut self.packages,
            &mut self.constraints,
            &mut self.table,
            base,
            &mut self.literals,
            &mut self.hints,
        )
    }
}

/// The memory of a clause base.
#[derive(Drop)]
pub struct Clauses {
    rows: Vec<Row>,
    literals: Vec<i32>,
    values: Vec<Option<bool>>,
    trail: Vec<i32>,
    heads: Vec<u32>,
    next: Vec<u32>,
    owners: Vec<u32>,
    scratch: Vec<u32>,
}

impl Clauses {
    pub fn new(heap: Global) -> Result<Clauses, AllocError> {
        Ok(Clauses {
            rows: vec![in heap; Row::NONE; CLAUSES]?,
            literals: vec![in heap; 0i32; LITERALS]?,
            values: vec![in heap; None; VARIABLES + 1]?,
            trail: vec![in heap; 0i32; VARIABLES + 1]?,
            heads: vec![in heap; 0u32; 2 * (VARIABLES + 1)]?,
            next: vec![in heap; 0u32; LITERALS]?,
            owners: vec![in heap; 0u32; LITERALS]?,
            scratch: vec![in heap; 0u32; 2 * CLAUSES]?,
        })
    }

    // Two methods: the kind of scratch memory names the base.
    pub fn counting(&mut self) -> Counting<'_> {
        Counting::new(
            &mut self.rows,
            &mut self.literals,
            &mut self.values,
            &mut self.trail,
            &mut self.heads,
            &mut self.next,
            &mut self.owners,
            &mut self.scratch,
        )
    }

    pub fn watched(&mut self) -> Watched<'_> {
        Watched::new(
            &mut self.rows,
            &mut self.literals,
            &mut self.values,
            &mut self.trail,
            &mut self.heads,
            &mut self.next,
            &mut self.owners,
            &mut self.scratch,
        )
    }
}
