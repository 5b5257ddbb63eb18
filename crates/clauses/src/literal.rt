//! Literals, and what they are worth.
ghost use Rattle.std.specs.Prelude.{◌≡◌, ◌+◌, ◌*◌, ◌<◌, ◌≤◌, cond, not, length, Some, slice_set};
ghost use Rattle.clauses.specs.Cells.{values_of};
ghost use Rattle.clauses.specs.Codes.{code_against, code_of};
ghost use Rattle.clauses.specs.Propagation.{is_false, value};
ghost use Rattle.text.specs.Literals.{positive, variable_of};

/// The variable that a literal speaks of.
pub fn variable(literal: i32) -> usize
    ensures { result ≡ variable_of literal }
{
    literal.unsigned_abs() as usize
}

/// The number of a literal's list.
pub fn code_of(literal: i32) -> usize
    ensures value { result ≡ code_of literal }
    ensures bound { result ≤ 2 * variable_of literal + 1 }
{
    2 * variable(literal) + usize::from(literal < 0)
}

/// The number of the list of the literal's opposite.
pub fn code_against(literal: i32) -> usize
    ensures value { result ≡ code_against literal }
    ensures bound { result ≤ 2 * variable_of literal + 1 }
{
    code_of(literal) ^ 1
}

/// What a literal is worth.
pub(crate) fn read(values: &[Option<bool>], literal: i32) -> Option<bool>
    requires { variable_of literal < length values.now }
    ensures { result ≡ value (values_of values.now) literal }
{
    let found = values[variable(literal)];
    if literal >= 0 {
        found
    } else {
        found.map(|b| !b)
    }
}

/// Whether a literal is not false.
pub(crate) fn is_open(values: &[Option<bool>], literal: i32) -> bool
    requires { variable_of literal < length values.now }
    ensures { result ≡ not (is_false (value (values_of values.now) literal)) }
{
    read(values, literal).unwrap_or(true)
}

/// Gives the literal this truth.
pub(crate) fn give(values: &mut [Option<bool>], literal: i32, truth: bool)
    requires { variable_of literal < length values.old }
    ensures { values.new ≡ slice_set values.old (variable_of literal) (Some (cond truth (positive literal) (not (positive literal)))) }
{
    values[variable(literal)] = Some((literal >= 0) == truth);
}

/// Makes the literal true.
pub(crate) fn assign(values: &mut [Option<bool>], literal: i32)
    requires { variable_of literal < length values.old }
    ensures { values.new ≡ slice_set values.old (variable_of literal) (Some (positive literal)) }
{
    give(values, literal, true);
}
