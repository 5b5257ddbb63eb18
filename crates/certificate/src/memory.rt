//! The memory that steps are read into.
ghost use Rattle.std.specs.Prelude.{[]};
ghost use Rattle.certificate.specs.Reading.{Leaves, memory_of};

/// Makes the memory all zero.
pub fn blank(literals: &mut [i32], hints: &mut [u32])
    ensures { Leaves (memory_of literals.old hints.old) [] literals.new hints.new }
{
    literals.fill(0);
    hints.fill(0);
}
