//! The names that have an indicator variable.
ghost use Rattle.std.specs.Prelude.{◌≡◌, ◌≤◌, length};
ghost use Rattle.verdict.specs.Indicators.{listed, listed_at, listed_from};

use problem::rows::PackageRow;
use problem::stanzas::Stanzas;
use text::word::bytes_of;

/// What a variable says of a name: that none of its versions is left, of those installed at the start; that other
/// versions are, of all.
// One value and not two closures, since it decides both which names have a variable and which clauses they get.
#[derive(Clone, Copy)]
pub(crate) enum Indicator {
    Removed,
    Changed,
}

/// Whether a name has an indicator.
fn has_indicator(stanzas: &Stanzas<'_>, indicator: Indicator, name: &[u8]) -> bool
    ensures { result ≡ listed indicator stanzas.now.text.now stanzas.now.rows.now name.now }
{
    match indicator {
        Indicator::Removed => {
            let mut rows = stanzas.rows.iter();
            rows.any(|row| row.is_named(stanzas.text, name) && row.installed)
        }
        Indicator::Changed => true,
    }
}

/// Whether the name of a row has an indicator, and no row before its place has that name.
pub(crate) fn is_listed(
    stanzas: &Stanzas<'_>,
    indicator: Indicator,
    place: usize,
    row: &PackageRow,
) -> bool
    ensures { result ≡ listed_at indicator stanzas.now.text.now stanzas.now.rows.now place row.now }
{
    let name = bytes_of(stanzas.text, row.name);
    stanzas.is_new(place, name) && has_indicator(stanzas, indicator, name)
}

// As `count_names` of problem counts; that takes a closure under a `requires`, which a public function has not.
/// How many names have an indicator.
pub(crate) fn count_listed(stanzas: &Stanzas<'_>, indicator: Indicator) -> u32
    ensures count { result ≡ length (listed_from indicator stanzas.now.text.now stanzas.now.rows.now 0) }
    ensures few { result ≤ length stanzas.now.rows.now }
{
    let rows = stanzas.rows.iter().enumerate();
    rows.filter(|(place, row)| is_listed(stanzas, indicator, *place, row))
        .count() as u32
}
