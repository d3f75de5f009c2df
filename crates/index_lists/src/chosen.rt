ghost use Rattle.std.specs.Prelude.{◌≡◌, ◌≤◌, ◌+◌, ◌-◌, ◌*◌, ◌/◌, ◌^◌, ◌+ℤ◌, ◌-ℤ◌, pos};
ghost use Rattle.airy_math.specs.Cuts.{natural};
ghost use Rattle.index_lists.specs.Measures.{IsLight, both_measured};

use crate::measure::{Measure, above_zero};

/// A part that was chosen from the first runs: its measure, the number of ways, and how far its excess can still rise
/// and fall.
#[derive(Clone, Copy, Default)]
pub struct Chosen {
    pub part: Measure,
    pub ways: u64,
    pub gain: u32,
    pub loss: u32,
}

impl Chosen {
    /// Nothing is chosen, and nothing is to come.
    #[inline]
    pub(crate) fn nothing() -> Chosen
        ensures { result ≡ record { part = record { places = 0; excess = pos 0; code = 0 }; ways = 1; gain = 0; loss = 0 } }
    {
        Chosen {
            part: Measure {
                places: 0,
                excess: 0,
                code: 0,
            },
            ways: 1,
            gain: 0,
            loss: 0,
        }
    }

    /// The same before a run is chosen from, whose index has this measure: what the run can change is no longer to come.
    #[inline]
    pub fn before(&self, item: &Measure, count: u8) -> Chosen
        requires item { IsLight item.now }
        requires gain { count * natural item.now.excess ≤ self.now.gain }
        requires loss { count * natural (pos 0 -ℤ item.now.excess) ≤ self.now.loss }
        ensures { result ≡ record {
          part = self.now.part;
          ways = self.now.ways;
          gain = self.now.gain - count * natural item.now.excess;
          loss = self.now.loss - count * natural (pos 0 -ℤ item.now.excess);
        } }
    {
        let count = u32::from(count);
        Chosen {
            gain: self.gain - count * above_zero(item.excess),
            loss: self.loss - count * above_zero(-item.excess),
            ..*self
        }
    }

    /// The part with one more of the index of a run, of which so many are taken.
    #[inline]
    pub fn one_more(&self, item: &Measure, count: u8, taken: u8) -> Chosen
        requires part { IsLight self.now.part }
        requires item { IsLight item.now }
        requires taken { taken ≤ count }
        requires short { count ≤ 25 }
        requires ways { self.now.ways ≤ 2 ^ 25 }
        ensures { result ≡ record self.now {
          part = both_measured self.now.part item.now;
          ways = self.now.ways * (count - taken) / (taken + 1);
        } }
    {
        let ways = self.ways * u64::from(count - taken);
        Chosen {
            part: self.part.plus(*item),
            // most runs are short, and a division by a constant is fast
            ways: match taken {
                0 => ways,
                1 => ways / 2,
                2 => ways / 3,
                _ => ways / (u64::from(taken) + 1),
            },
            ..*self
        }
    }
}
