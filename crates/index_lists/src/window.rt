ghost use Rattle.std.specs.Prelude.{◌≡◌, ◌≤◌, ◌<◌, ◌^◌, ◌*ℤ◌, ℕ, List, length, pos};
ghost use Rattle.std.specs.Int.RustNames.{unsigned_abs};
ghost use lib.Signed.{le_z};
ghost use Rattle.airy_math.specs.Keys.{key_of, total};
ghost use Rattle.airy_math.specs.Shapes.{covers, law_number, eq_z};
ghost use Rattle.index_lists.specs.Listing.{is_in};

use airy_index::{Law, Shape};

/// The sums of indices from `low` to `high`; none where `high` is below `low`.
#[derive(Clone, Copy)]
pub(crate) struct Window {
    pub(crate) low: u16,
    pub(crate) high: u16,
}

impl Window {
    /// The sums that the shape covers at a genus and a number of indices.
    pub(crate) fn of(shape: Shape, g: u8, n: u8) -> Window
        ensures { (xs : List ℕ) → length xs ≡ n → total xs < 2 ^ 16 → covers shape (key_of g xs) ≡ is_in result (total xs) }
    {
        match shape {
            Shape::All => Window {
                low: 0,
                high: u16::MAX,
            },
            Shape::Exact(law) => Window::only(number_of(law, g, n)),
            Shape::AtMost(law) => Window::up_to(number_of(law, g, n)),
        }
    }

    /// The one sum, where it is one.
    fn only(sum: i64) -> Window
        ensures { (s : ℕ) → s < 2 ^ 16 → eq_z (pos s) sum ≡ is_in result s }
    {
        if sum < 0 {
            return Window { low: 1, high: 0 };
        }
        if sum > 65535 {
            return Window { low: 1, high: 0 };
        }
        let sum = sum as u16;
        Window {
            low: sum,
            high: sum,
        }
    }

    /// The sums up to a number.
    fn up_to(sum: i64) -> Window
        ensures { (s : ℕ) → s < 2 ^ 16 → le_z (pos s) sum ≡ is_in result s }
    {
        if sum < 0 {
            return Window { low: 1, high: 0 };
        }
        if sum > 65535 {
            return Window {
                low: 0,
                high: u16::MAX,
            };
        }
        Window {
            low: 0,
            high: sum as u16,
        }
    }

    /// Whether the sum is one of them.
    #[tactic(auto, unfolding(crate::specs::Listing::is_in))]
    pub(crate) fn has(self, sum: u16) -> bool
        ensures { result ≡ is_in self sum }
    {
        self.low <= sum && sum <= self.high
    }
}

/// The law's number for a genus and a number of places.
#[tactic(auto, unfolding(airy_math::specs::Shapes::law_number))]
pub(crate) fn number_of(law: Law, g: u8, n: u8) -> i64
    ensures value { result ≡ law_number law g n }
    ensures small { unsigned_abs result ≤ 2 ^ 47 }
{
    times(law.per_g, i16::from(g) - 1) + times(law.per_n, i16::from(n))
}

/// The product of a law's factor and a count.
#[inline]
pub(crate) fn times(factor: i32, count: i16) -> i64
    ensures value { result ≡ factor *ℤ count }
    ensures small { unsigned_abs result ≤ 2 ^ 46 }
{
    i64::from(factor) * i64::from(count)
}
