//! One clause under the values.
ghost use Rattle.std.specs.Prelude.{◌≡◌, ◌<◌, is_err, length, OnOk};
ghost use Rattle.clauses.specs.Engine.{Advanced, Ready};
ghost use Rattle.clauses.specs.Events.{Examined};
ghost use Rattle.clauses.specs.Stored.{held};

use crate::literal::assign;
use crate::scan::{Status, status_of};
use crate::store::Store;
use crate::trail::Trail;

/// A clause whose literals are all false.
#[derive(Clone, Copy, PartialEq, Eq, Debug)]
pub struct Conflict;

/// Sets the literal that the clause in row k forces, if any.
pub(crate) fn examine(
    store: &Store,
    k: usize,
    values: &mut [Option<bool>],
    trail: &mut Trail,
) -> Result<(), Conflict>
    requires k { k < store.now.count }
    requires ready { Ready store.now values.old trail.old }
    ensures goes { Advanced (held store.now) values.old values.new (is_err result) }
    ensures ready { Ready store.now values.new trail.new }
    ensures examined { OnOk result (Examined store.now k values.old values.new trail.old trail.new) }
    ensures room { length trail.new.literals.now ≡ length trail.old.literals.now }
{
    match status_of(store.clause(k), values) {
        Status::Conflict => return Err(Conflict),
        Status::Forced(literal) => {
            assign(values, literal);
            trail.push(literal);
        }
        Status::Other => {}
    }
    Ok(())
}
