//! How many names a set removes, and how many it changes.
ghost use Rattle.std.specs.Prelude.{◌≡◌, []};
ghost use Rattle.text.specs.Lists.{how_many};
ghost use Rattle.problem.specs.Cudf.{removed_count, changed_count};
ghost use Rattle.problem.specs.Meaning.{problem_of};
ghost use Rattle.problem.specs.Naming.{TestsNames, Marks, some_version, removes, changes, counted, row_names};
ghost use Rattle.problem.specs.Sets.{set_of};

use crate::rows::PackageRow;
use crate::standing::{Standing, is_chosen};
use crate::stanzas::Stanzas;
use crate::view::Problem;
use text::word::bytes_of;

/// How many names had an installed version and have none in the set.
pub fn removed_names(problem: &Problem<'_, '_, '_>, set: &[Standing]) -> u32
    ensures { result ≡ removed_count (problem_of problem.now) (set_of set.now) }
{
    let stanzas = problem.stanzas();
    count_names(&stanzas, |name| is_removed(&stanzas, set, name))
}

// A question of its own, as `removed_names` is, over one count.
/// How many names have other versions in the set than were installed.
pub fn changed_names(problem: &Problem<'_, '_, '_>, set: &[Standing]) -> u32
    ensures { result ≡ changed_count (problem_of problem.now) (set_of set.now) }
{
    let stanzas = problem.stanzas();
    count_names(&stanzas, |name| is_changed(&stanzas, set, name))
}

/// How many names pass a test; each counts at its first stanza.
fn count_names<F: Fn(&[u8]) -> bool>(stanzas: &Stanzas<'_>, test: F) -> u32
    requires { F.IsAlwaysCallable test }
    ensures { (t : _) → TestsNames F.Fn test t → result ≡ how_many t (row_names stanzas.now.text.now [] stanzas.now.rows.now) }
{
    let rows = stanzas.rows.iter().enumerate();
    rows.filter(|(place, row)| is_counted(stanzas, *place, row, &test))
        .count() as u32
}

/// Whether the name of the row at a place passes a test, and no row before it has that name.
fn is_counted<F: Fn(&[u8]) -> bool>(
    stanzas: &Stanzas<'_>,
    place: usize,
    row: &PackageRow,
    test: &F,
) -> bool
    requires { F.IsAlwaysCallable test.now }
    ensures { (t : _) → TestsNames F.Fn test.now t → result ≡ counted stanzas.now.text.now t stanzas.now.rows.now place row.now }
{
    let name = bytes_of(stanzas.text, row.name);
    stanzas.is_new(place, name) && test(name)
}

/// Whether a name had an installed version, and has none in the set.
fn is_removed(stanzas: &Stanzas<'_>, set: &[Standing], name: &[u8]) -> bool
    ensures { result ≡ removes stanzas.now.text.now set.now stanzas.now.rows.now name.now }
{
    has_version(stanzas, set, name, |_, installed| installed)
        && !has_version(stanzas, set, name, |chosen, _| chosen)
}

/// Whether a name has other versions in the set than were installed.
fn is_changed(stanzas: &Stanzas<'_>, set: &[Standing], name: &[u8]) -> bool
    ensures { result ≡ changes stanzas.now.text.now set.now stanzas.now.rows.now name.now }
{
    has_version(stanzas, set, name, |chosen, installed| chosen != installed)
}

/// Whether a name has a version with a mark, by whether the version is in the set and whether it was installed.
fn has_version<F: Fn(bool, bool) -> bool>(
    stanzas: &Stanzas<'_>,
    set: &[Standing],
    name: &[u8],
    mark: F,
) -> bool
    requires { F.IsAlwaysCallable mark }
    ensures { (m : _) → Marks (F.post mark) m → result ≡ some_version stanzas.now.text.now set.now m name.now 0 stanzas.now.rows.now }
{
    let mut rows = stanzas.rows.iter().enumerate();
    rows.any(|(i, row)| {
        row.is_named(stanzas.text, name) && mark(is_chosen(set, i), row.installed)
    })
}
