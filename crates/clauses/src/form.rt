//! Whether literals are a clause.
ghost use Rattle.clauses.specs.ClauseBase.{well_formed};
ghost use Rattle.text.specs.Lists.{some};
ghost use Rattle.text.specs.Literals.{variable_of};
ghost use Rattle.std.specs.Prelude.{◌≡◌, nat_eq};

use crate::literal::variable;

/// Whether a literal speaks of this variable.
fn mentions(literals: &[i32], sought: usize) -> bool
    ensures { result ≡ some (λ l. nat_eq (variable_of l) sought) literals.now }
{
    literals.iter().any(|literal| variable(*literal) == sought)
}

/// Whether each literal speaks of a variable from 1 to `variables`, and no two of the same.
pub fn well_formed(clause: &[i32], variables: u32) -> bool
    ensures { result ≡ well_formed variables clause.now }
{
    let mut rest = clause;
    while let [literal, after @ ..] = rest {
        let found = variable(*literal);
        if found == 0 || found > variables as usize || mentions(after, found) {
            return false;
        }
        rest = after;
    }
    true
}
