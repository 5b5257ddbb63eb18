//! The clauses that make the indicator variables of names true.
ghost use Rattle.std.specs.Prelude.{◌≡◌, suc, ◌+◌, ◌<◌, ◌≤◌, [], ◌∷◌, ◌++◌, length, if◌then◌else◌};
ghost use Rattle.std.specs.Str.{bytes_eq};
ghost use Rattle.text.specs.Lists.{each};
ghost use Rattle.text.specs.Literals.{lit, neg};
ghost use Rattle.text.specs.Rows.{items, room};
ghost use Rattle.text.specs.Word.{word_in};
ghost use Rattle.problem.specs.Feeding.{Fed};
ghost use Rattle.problem.specs.Stanzas.{passing};
ghost use Rattle.verdict.specs.Indicators.{changed_rows, of_name, of_names, listed_from};
ghost use Rattle.verdict.specs.declared.names.Indicator.TheVariants.{Removed, Changed};

use crate::names::{Indicator, is_listed};
use problem::sink::{ClauseSink, Stopped};
use problem::stanzas::Stanzas;
use problem::variable::Variable;
use problem::view::PACKAGES_MOST;
use text::rows::Rows;
use text::word::bytes_of;

/// The most literals of a clause: all package stanzas, and a name's own variable.
const CLAUSE_MOST: usize = PACKAGES_MOST + 1;

/// That a name is changed if its version at a place does not stand as it did.
fn feed_change<S: ClauseSink>(
    installed: bool,
    place: usize,
    changed: Variable,
    sink: &mut S,
) -> Result<(), Stopped>
    requires { place < 256 }
    ensures { Fed S.goes S.stops (((if installed then lit (suc place) else neg (suc place)) ∷ lit changed.number ∷ []) ∷ []) result sink.old sink.new }
{
    let version = Variable {
        number: place as u32 + 1,
    };
    if installed {
        sink.take(&[version.yes(), changed.yes()])
    } else {
        sink.take(&[version.no(), changed.yes()])
    }
}

/// The same for each version of a name.
fn feed_changed<S: ClauseSink>(
    stanzas: &Stanzas<'_>,
    name: &[u8],
    changed: Variable,
    sink: &mut S,
) -> Result<(), Stopped>
    ensures { Fed S.goes S.stops (changed_rows stanzas.now.text.now name.now changed.number 0 stanzas.now.rows.now) result sink.old sink.new }
{
    for (i, row) in stanzas.rows.iter().enumerate() {
        if row.is_named(stanzas.text, name) {
            feed_change(row.installed, i, changed, sink)?;
        }
    }
    Ok(())
}

/// Puts a variable at the end of a clause.
fn write_variable(clause: &mut Rows<'_, i32>, variable: Variable)
    requires { length (items clause.old) < room clause.old }
    ensures items { items clause.new ≡ items clause.old ++ lit variable.number ∷ [] }
    ensures room { room clause.new ≡ room clause.old }
{
    let _ = clause.push(variable.yes());
}

// `write_met` of problem does the same by another test. One function for both would take the test, and its contract would be
// no shorter; and a public function has no `requires`, so `put` and `variable_at` stay inside problem.

/// Puts the versions of a name at the end of a clause.
fn write_versions(stanzas: &Stanzas<'_>, name: &[u8], clause: &mut Rows<'_, i32>)
    requires { length (items clause.old) + length stanzas.now.rows.now ≤ room clause.old }
    ensures items { items clause.new ≡ items clause.old ++ each lit (passing (λ p. bytes_eq name.now (word_in stanzas.now.text.now p.name)) 0 stanzas.now.rows.now) }
    ensures len { length (items clause.new) ≤ length (items clause.old) + length stanzas.now.rows.now }
    ensures room { room clause.new ≡ room clause.old }
{
    for (i, row) in stanzas.rows.iter().enumerate() {
        if row.is_named(stanzas.text, name) {
            let version = Variable {
                number: i as u32 + 1,
            };
            write_variable(clause, version);
        }
    }
}

/// That a name is removed if none of its versions is left.
fn feed_removed<S: ClauseSink>(
    stanzas: &Stanzas<'_>,
    name: &[u8],
    removed: Variable,
    memory: &mut [i32; CLAUSE_MOST],
    sink: &mut S,
) -> Result<(), Stopped>
    ensures { Fed S.goes S.stops (of_name Removed stanzas.now.text.now stanzas.now.rows.now removed.number name.now) result sink.old sink.new }
{
    let mut clause = Rows::new(&mut memory[..stanzas.rows.len() + 1], 0);
    write_versions(stanzas, name, &mut clause);
    write_variable(&mut clause, removed);
    sink.take(clause.as_slice())
}

/// The clauses of a name's indicator.
fn feed_indicator<S: ClauseSink>(
    stanzas: &Stanzas<'_>,
    indicator: Indicator,
    name: &[u8],
    variable: Variable,
    memory: &mut [i32; CLAUSE_MOST],
    sink: &mut S,
) -> Result<(), Stopped>
    ensures { Fed S.goes S.stops (of_name indicator stanzas.now.text.now stanzas.now.rows.now variable.number name.now) result sink.old sink.new }
{
    match indicator {
        Indicator::Removed => feed_removed(stanzas, name, variable, memory, sink),
        Indicator::Changed => feed_changed(stanzas, name, variable, sink),
    }
}

/// The clauses of an indicator for each name that has it, the variables from `first` on.
pub(crate) fn feed_indicators<S: ClauseSink>(
    stanzas: &Stanzas<'_>,
    indicator: Indicator,
    first: u32,
    sink: &mut S,
) -> Result<(), Stopped>
    requires least { 1 ≤ first }
    requires small { first ≤ 10000 }
    ensures { Fed S.goes S.stops (of_names indicator stanzas.now.text.now stanzas.now.rows.now first (listed_from indicator stanzas.now.text.now stanzas.now.rows.now 0)) result sink.old sink.new }
{
    // Tried: a `for` over the filtered rows. No proof is made of one over an iterator with a closure where there is a type
    // parameter.
    let mut memory = [0; CLAUSE_MOST];
    let mut number = first;
    for (place, row) in stanzas.rows.iter().enumerate() {
        if is_listed(stanzas, indicator, place, row) {
            let name = bytes_of(stanzas.text, row.name);
            let variable = Variable { number };
            feed_indicator(stanzas, indicator, name, variable, &mut memory, sink)?;
            number += 1;
        }
    }
    Ok(())
}
