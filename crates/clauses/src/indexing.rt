//! An index of a store's rows.
ghost use Rattle.std.specs.Prelude.{◌≡◌, ◌+◌, ◌-◌, ◌*◌, ◌^◌, ◌<◌, ◌≤◌, length};
ghost use Rattle.clauses.specs.Events.{Fit, Indexed, Same};

use crate::index::Index;
use crate::literal::code_of;
use crate::store::Store;

/// Puts row k on the list of each of its literals.
fn index_row(store: &Store, k: usize, index: &mut Index)
    requires k { k < store.now.count }
    requires fit { Fit store.now index.old }
    requires indexed { Indexed store.now index.old k }
    ensures fit { Fit store.now index.new }
    ensures indexed { Indexed store.now index.new (k + 1) }
    ensures same { Same index.old index.new }
{
    let literals = store.clause(k);
    for literal in literals {
        index.enter(code_of(*literal), k as u32);
    }
}

/// Puts every row on the lists of its literals.
pub(crate) fn index_all(store: &Store, index: &mut Index)
    requires next { store.now.filled ≤ length index.old.next.now }
    requires owners { store.now.filled ≤ length index.old.owners.now }
    requires heads { 2 * store.now.variables ≤ length index.old.heads.now - 2 }
    ensures fit { Fit store.now index.new }
    ensures indexed { Indexed store.now index.new store.now.count }
    ensures same { Same index.old index.new }
{
    let wanted = 2 * store.variables as usize + 2;
    index.clear(wanted.min(index.heads.len()));
    for k in 0..store.count {
        index_row(store, k, index);
    }
}
