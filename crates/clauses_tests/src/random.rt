//! Numbers that look random, the same in each run.
ghost use Rattle.std.specs.Prelude.{◌<◌, ◌≤◌};

#[derive(Drop)]
pub struct Random {
    state: u32,
}

impl Random {
    pub fn new(seed: u32) -> Random {
        Random {
            state: seed.wrapping_mul(2_654_435_761).wrapping_add(12_345),
        }
    }

    pub fn next(&mut self) -> u32 {
        let mut x = self
            .state
            .wrapping_mul(1_664_525)
            .wrapping_add(1_013_904_223);
        self.state = x;
        x ^= x >> 15;
        x = x.wrapping_mul(2_246_822_519);
        x ^ (x >> 13)
    }

    /// A number below n, or 0.
    pub fn below(&mut self, n: u32) -> u32
        ensures most { result ≤ n }
        ensures below { 0 < n → result < n }
    {
        let x = self.next();
        if n == 0 { 0 } else { x % n }
    }
}
