//! Variables, by their numbers.
ghost use Rattle.std.specs.Prelude.{◌≡◌, ◌≤◌};
ghost use Rattle.text.specs.Literals.{lit, neg};

/// A variable of the clauses.
#[derive(Clone, Copy)]
pub struct Variable {
    pub number: u32,
    ghost least: { 1 ≤ number },
    ghost most: { number ≤ 1000000 },
}

impl Variable {
    /// The literal that it is true.
    pub fn yes(self) -> i32
        ensures { result ≡ lit self.number }
    {
        self.number as i32
    }

    /// The literal that it is false.
    pub fn no(self) -> i32
        ensures { result ≡ neg self.number }
    {
        -(self.number as i32)
    }
}
