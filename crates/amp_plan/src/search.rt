ghost use Rattle.std.specs.Prelude.{◌≡◌, ◌<◌, ◌^◌, length};
ghost use Rattle.airy_math.specs.Ranks.{place_of};
ghost use Rattle.amp_plan.specs.Places.{are_below as all_below, AreInOrder};

use airy_index::Key;

/// Whether each index is below dim.
pub(crate) fn are_below(dim: u8, indices: &[u8]) -> bool
    ensures { result ≡ all_below dim indices.now }
{
    for index in indices {
        if *index >= dim {
            return false;
        }
    }
    true
}

/// The place of a key among keys in order, one of which it is.
pub(crate) fn place_among(keys: &[Key], key: &Key) -> u32
    requires few { length keys.now < 2 ^ 32 }
    requires order { AreInOrder keys.now }
    requires there { place_of key.now keys.now < length keys.now }
    ensures { result ≡ place_of key.now keys.now }
{
    let mut low = 0;
    let mut high = keys.len();
    while low < high {
        let middle = low + (high - low) / 2;
        if keys[middle].before(key) {
            low = middle + 1;
        } else {
            high = middle;
        }
    }
    low as u32
}
