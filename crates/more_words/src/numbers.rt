ghost use Rattle.std.specs.Prelude.{◌≡◌, ◌==◌, ◌≤◌, ◌<◌, ◌++◌, ◌∷◌, [], length};

use frac128::Frac;
use std::marker::Model;

/// The numbers u_1, u_2, ... of a curve, at most 24 of them. Contracts see their list.
#[derive(Drop)]
pub struct CurveNumbers {
    room: [Frac; 24],
    count: usize,
}

impl Model for CurveNumbers {
    ghost use Rattle.std.specs.Prelude.{◌≡◌, ◌≤◌, List, length, take};
    ghost use Rattle.std.specs.Coded.{coded_list};
    ghost use Rattle.airy_math.specs.Rational.{ℚ, rational_code};

    ghost Value = { List ℚ };

    ghost coded = { coded_list rational_code };

    ghost view = { λ s. take s.count s.room };

    ghost invariant = { λ s. (s.count ≤ 24) × (length s.room ≡ 24) };
}

impl CurveNumbers {
    /// No number.
    pub(crate) fn new() -> CurveNumbers
        ensures { result ≡ [] }
    {
        CurveNumbers {
            room: [Frac::whole(0); 24],
            count: 0,
        }
    }

    /// Whether there are 24 numbers.
    pub(crate) fn is_full(&self) -> bool
        ensures { result ≡ (length self.now == 24) }
    {
        self.count == 24
    }

    /// Puts a number behind the others.
    pub(crate) fn push(&mut self, u: Frac)
        requires { length self.old < 24 }
        ensures { self.new ≡ self.old ++ u ∷ [] }
    {
        self.room[self.count] = u;
        self.count += 1;
    }

    /// The numbers, in order.
    pub fn as_slice(&self) -> &[Frac]
        ensures numbers { result.now ≡ self.now }
        ensures most { length self.now ≤ 24 }
    {
        &self.room[..self.count]
    }
}
