ghost use Rattle.std.specs.Prelude.{◌≡◌, ◌≤◌, ◌∷◌, [], length};
ghost use Rattle.std.specs.Bool.{OnTrue, OnFalse};
ghost use Rattle.airy_math.specs.Splits.{runs};
ghost use Rattle.airy_index.specs.Choices.{counts_of, chosen_split, splits_after, IsChoice, TakesNone};

use arrayvec::ArrayVec;

/// A distinct index of a list, how often it stands there, and how many of these a part takes.
#[derive(Clone, Copy, Default)]
pub(crate) struct Run {
    pub(crate) index: u8,
    pub(crate) count: u8,
    pub(crate) taken: u8,
}

/// The runs of a nondecreasing list, with nothing taken.
pub(crate) fn runs_of(idx: &[u8]) -> ArrayVec<Run, 25>
    requires { length idx.now ≤ 25 }
    ensures counts { counts_of result.items ≡ runs idx.now }
    ensures none { TakesNone result.items }
{
    let mut found = ArrayVec::new();
    let Some((first, others)) = idx.split_first() else {
        return found;
    };
    let mut run = single(*first);
    for x in others {
        if *x == run.index {
            run.count += 1;
        } else {
            found.push(run);
            run = single(*x);
        }
    }
    found.push(run);
    found
}

/// The run of one index.
fn single(index: u8) -> Run
    ensures { result ≡ record { index = index; count = 1; taken = 0 } }
{
    Run {
        index,
        count: 1,
        taken: 0,
    }
}

/// Goes on to the next choice in the order of a dictionary, and answers whether there is one.
pub(crate) fn advance(runs: &mut [Run]) -> bool
    requires { IsChoice runs.old }
    ensures choice { IsChoice runs.new }
    ensures counts { counts_of runs.new ≡ counts_of runs.old }
    ensures more { OnTrue result (splits_after runs.old ≡ chosen_split runs.new ∷ splits_after runs.new) }
    ensures last { OnFalse result (splits_after runs.old ≡ []) }
    ensures none { OnFalse result (TakesNone runs.new) }
{
    let Some((first, others)) = runs.split_first_mut() else {
        return false;
    };
    if advance(others) {
        return true;
    }
    if first.taken == first.count {
        first.taken = 0;
        return false;
    }
    first.taken += 1;
    true
}
