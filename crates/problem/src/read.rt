//! Reads a problem.
ghost use Rattle.std.specs.Prelude.{◌≡◌, [], length, IfOk, OnErr};
ghost use Rattle.text.specs.Doc.{doc};
ghost use Rattle.text.specs.Rows.{items, Same};
ghost use Rattle.problem.specs.Growth.{ok_mapped};
ghost use Rattle.problem.specs.Reading.{read_doc};
ghost use Rattle.problem.specs.Reads.{problem_in, RowsOk, Read};
ghost use Rattle.problem.specs.Sections.{limits_of};

use crate::fault::ProblemFault;
use crate::lines::read_lines;
use crate::repeats::first_repeat;
use crate::rows::{ConstraintRow, NO_CONSTRAINT, NO_PACKAGE, PackageRow};
use crate::section::close;
use crate::view::Problem;
use crate::wanted::{NOTHING_WANTED, Wanted};
use text::rows::Rows;

/// Reads a document into rows, of which there are none yet.
fn read_rows(
    text: &[u8],
    packages: &mut Rows<'_, PackageRow>,
    constraints: &mut Rows<'_, ConstraintRow>,
) -> Result<Wanted, ProblemFault>
    requires packages { items packages.old ≡ [] }
    requires constraints { items constraints.old ≡ [] }
    ensures problem { ok_mapped (problem_in text.now (items packages.new) (items constraints.new)) result ≡ read_doc (limits_of packages.old constraints.old) (doc text.now) }
    ensures good { IfOk result (RowsOk text.now (items packages.new) (items constraints.new)) }
    ensures same { Same packages.old packages.new }
    ensures others { Same constraints.old constraints.new }
{
    let (progress, lines) = read_lines(text, packages, constraints)?;
    let last = close(progress, packages)?;
    let Some(wanted) = last.request else {
        return Err(ProblemFault::Property(lines + 1));
    };
    if let Some(line) = first_repeat(text, packages.as_slice()) {
        return Err(ProblemFault::Twice(line));
    }
    Ok(wanted)
}

/// The same; where it is refused there are no rows.
fn fill(
    text: &[u8],
    packages: &mut Rows<'_, PackageRow>,
    constraints: &mut Rows<'_, ConstraintRow>,
) -> Result<Wanted, ProblemFault>
    requires packages { items packages.old ≡ [] }
    requires constraints { items constraints.old ≡ [] }
    ensures problem { ok_mapped (problem_in text.now (items packages.new) (items constraints.new)) result ≡ read_doc (limits_of packages.old constraints.old) (doc text.now) }
    ensures good { IfOk result (RowsOk text.now (items packages.new) (items constraints.new)) }
    ensures refused { OnErr result ((items packages.new ≡ []) × (items constraints.new ≡ [])) }
    ensures same { Same packages.old packages.new }
    ensures others { Same constraints.old constraints.new }
{
    let read = read_rows(text, packages, constraints);
    if read.is_err() {
        packages.clear();
        constraints.clear();
    }
    read
}

/// Reads a problem into lent rows, and shows it in `out`. Where it is refused, `out` is a problem without packages, and
/// the rows are all zero.
pub fn read_problem<'t, 'p, 'c>(
    text: &'t [u8],
    packages: &'p mut [PackageRow],
    constraints: &'c mut [ConstraintRow],
    out: &mut Problem<'t, 'p, 'c>,
) -> Result<(), ProblemFault>
    ensures { Read text.now (length packages.old) (length constraints.old) result out.new }
{
    let mut package_rows = Rows::new(packages, NO_PACKAGE);
    let mut constraint_rows = Rows::new(constraints, NO_CONSTRAINT);
    let read = fill(text, &mut package_rows, &mut constraint_rows);
    let count = package_rows.len();
    let asked = constraint_rows.len();
    let wanted = read.unwrap_or(NOTHING_WANTED);
    *out = Problem::make(text, packages, count, constraints, asked, wanted);
    read.map(|_| ())
}
