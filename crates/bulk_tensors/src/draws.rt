ghost use Rattle.std.specs.Prelude.{◌≡◌, ◌+◌, ◌^◌, ◌<◌, ℕ};
ghost use Rattle.bulk_tensors.specs.Draws.{state, draw};

/// The numbers that a seed below 2^31 gives: a linear congruential generator.
#[derive(Drop)]
pub(crate) struct Draws {
    pub state: u32,
}

impl Draws {
    /// The next draw, which is below 2^15.
    pub fn draw(&mut self) -> u32
        ensures drawn { (seed k : ℕ) → self.old.state ≡ state seed k → (result ≡ draw seed k) × (self.new.state ≡ state seed (k + 1)) }
        ensures within { result < 2 ^ 15 }
    {
        let next = (1103515245 * self.state as u64 + 12345) % (1 << 31);
        self.state = next as u32;
        self.state / 65536
    }
}
