ghost use Rattle.std.specs.Prelude.{◌≡◌, ◌≤◌, ◌<◌, ◌∷◌, length, drop};
ghost use Rattle.airy_math.specs.Keys.{head_or, remove};
ghost use Rattle.airy_math.specs.Shapes.{per_n as shape_per_n};
ghost use Rattle.airy_math.specs.Splits.{runs};
ghost use Rattle.sparse_tensor.specs.Grades.{IsSmallLaw};
ghost use Rattle.index_lists.specs.Rests.{IsRest};

use crate::measure::{Measure, above_zero, per_n};
use airy_index::Shape;
use arrayvec::ArrayVec;
use key_index::KeyIndex;

/// What is left of a key's indices without the pivot: the list, its distinct indices with their counts, its measure, and
/// how far the excess of a part of it can rise and fall.
#[derive(Drop)]
pub struct Rest {
    pub list: ArrayVec<u8, 26>,
    pub runs: ArrayVec<(u8, u8), 26>,
    pub whole: Measure,
    pub gain: u32,
    pub loss: u32,
}

impl Rest {
    /// Of a list of at most 25 indices.
    pub fn of(index: &KeyIndex, shape: Shape, list: &[u8]) -> Rest
        requires law { IsSmallLaw shape }
        requires few { length list.now ≤ 25 }
        ensures list { result.list.items ≡ list.now }
        ensures rest { IsRest (shape_per_n shape) result }
    {
        let per_n = per_n(shape);
        let mut rest = Rest {
            list: ArrayVec::new(),
            runs: runs_of(list),
            whole: Measure {
                places: 0,
                excess: 0,
                code: 0,
            },
            gain: 0,
            loss: 0,
        };
        for x in list {
            let item = Measure::of(index, per_n, *x);
            rest.list.push(*x);
            rest.whole = rest.whole.plus(item);
            rest.gain += above_zero(item.excess);
            rest.loss += above_zero(-item.excess);
        }
        rest
    }
}

/// The list without its first x.
pub fn without(list: &[u8], x: u8) -> ArrayVec<u8, 26>
    requires { length list.now ≤ 26 }
    ensures { result.items ≡ remove x list.now }
{
    let mut left = ArrayVec::new();
    let mut found = false;
    for y in list {
        if !found && *y == x {
            found = true;
        } else {
            left.push(*y);
        }
    }
    left
}

/// How often the first index of a list stands at its beginning.
fn run_length(list: &[u8]) -> u8
    requires some { 0 < length list.now }
    requires few { length list.now ≤ 26 }
    ensures run { runs list.now ≡ (head_or 0 list.now, result) ∷ runs (drop result list.now) }
    ensures some { 0 < result }
    ensures within { result ≤ length list.now }
{
    let first = list[0];
    let mut length: u8 = 0;
    for x in list {
        if *x != first {
            return length;
        }
        length += 1;
    }
    length
}

/// The distinct indices of a list, each with how often it stands there.
fn runs_of(list: &[u8]) -> ArrayVec<(u8, u8), 26>
    requires { length list.now ≤ 26 }
    ensures { result.items ≡ runs list.now }
{
    let mut found = ArrayVec::new();
    let mut from = 0;
    while from < list.len() {
        let count = run_length(&list[from..]);
        found.push((list[from], count));
        from += count as usize;
    }
    found
}
