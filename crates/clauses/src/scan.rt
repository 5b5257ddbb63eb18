//! What the values say of a clause.
ghost use Rattle.clauses.specs.Cells.{values_of, Placed};
ghost use Rattle.clauses.specs.Status.{status_from};
ghost use Rattle.std.specs.Prelude.{◌≡◌, length, None};

use crate::literal::read;

#[derive(Clone, Copy)]
pub enum Status {
    /// every literal is false
    Conflict,
    /// this literal is unset, and the others are false
    Forced(i32),
    /// a literal is true, or two are unset
    Other,
}

/// A scan of the clause, as far as a literal is true or a second one unset.
pub(crate) fn status_of(clause: &[i32], values: &[Option<bool>]) -> Status
    requires { Placed clause.now (length values.now) }
    ensures { result ≡ status_from (values_of values.now) None clause.now }
{
    let mut found = None;
    for literal in clause {
        match read(values, *literal) {
            Some(true) => return Status::Other,
            Some(false) => {}
            None if found.is_none() => found = Some(*literal),
            None => return Status::Other,
        }
    }
    match found {
        Some(literal) => Status::Forced(literal),
        None => Status::Conflict,
    }
}
