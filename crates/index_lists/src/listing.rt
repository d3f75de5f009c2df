ghost use Rattle.std.specs.Prelude.{◌≡◌, ◌≤◌, ◌<◌, ◌+◌, ◌*◌, ◌-◌, ◌/◌, ◌++◌, ◌∷◌, [], length, OnOk, IsErrOf};
ghost use Rattle.airy_math.specs.Keys.{IsSortedFrom, key_of};
ghost use Rattle.sparse_tensor.specs.Entries.{looked_up};
ghost use Rattle.index_lists.specs.Listing.{found, can_reach, level_keys, keys_at};

use crate::window::Window;
use airy_index::Key;
use arrayvec::ArrayVec;
use sparse_tensor::Tensors;

/// The most keys that a plan may have.
const MOST_KEYS: usize = 200_000;

/// Why keys are no longer added.
#[derive(Clone, Copy)]
pub enum Stop {
    /// There are more than a plan may have.
    Full,
    /// Want of memory.
    NoMemory,
}

/// What the keys have that are listed: their genus, the number above their indices, and the sums that the shape covers.
#[derive(Clone, Copy)]
pub(crate) struct Listing {
    pub(crate) genus: u8,
    pub(crate) dim: u8,
    pub(crate) window: Window,
}

impl Listing {
    #[tactic(auto, unfolding(crate::specs::Listing::can_reach))]
    /// Whether some sum of the window can be reached from `sum` by `places` more indices, each at least `least`.
    fn can_reach(&self, sum: u16, places: u8, least: u8) -> bool
        requires places { places ≤ 26 }
        requires sum { sum ≤ 72 * 26 }
        requires dim { self.now.dim ≤ 72 }
        requires least { least < self.now.dim }
        ensures { result ≡ can_reach self.now sum places least }
    {
        let places = places as u16;
        sum + places * least as u16 <= self.window.high
            && self.window.low <= sum + places * (self.dim as u16 - 1)
    }
}

/// Adds a key at the end.
fn add_key(keys: &mut Vec<Key>, genus: u8, indices: &[u8]) -> Result<(), Stop>
    requires few { length keys.old.items ≤ 200000 }
    requires some { 0 < length indices.now }
    requires room { length indices.now ≤ 26 }
    requires stable { 2 < 2 * genus + length indices.now }
    requires sorted { IsSortedFrom 0 256 indices.now }
    ensures added { OnOk result (keys.new.items ≡ keys.old.items ++ key_of genus indices.now ∷ []) }
    ensures few { OnOk result (length keys.new.items ≤ 200000) }
    ensures full { IsErrOf result Stop.Full → length keys.old.items ≡ 200000 }
{
    if keys.len() >= MOST_KEYS {
        return Err(Stop::Full);
    }
    let Ok(key) = Key::of(genus, indices) else {
        unreachable!()
    };
    keys.push(key).map_err(|_| Stop::NoMemory)
}

/// Adds the keys whose indices are the prefix and then `places` more, each at least `least`, where the sum of all is
/// one that the shape covers; `sum` is that of the prefix.
fn add_lists(
    keys: &mut Vec<Key>,
    prefix: &mut ArrayVec<u8, 26>,
    listing: &Listing,
    places: u8,
    least: u8,
    sum: u16,
) -> Result<(), Stop>
    requires few { length keys.old.items ≤ 200000 }
    requires some { 0 < length prefix.old.items + places }
    requires room { length prefix.old.items + places ≤ 26 }
    requires stable { 2 < 2 * listing.now.genus + (length prefix.old.items + places) }
    requires sorted { IsSortedFrom 0 256 (prefix.old.items ++ least ∷ []) }
    requires dim { listing.now.dim ≤ 72 }
    requires sum { sum + 72 * places ≤ 72 * 26 }
    ensures prefix { prefix.new ≡ prefix.old }
    ensures listed { OnOk result (keys.new.items ≡ keys.old.items ++ found listing.now prefix.old.items places least sum) }
    ensures few { OnOk result (length keys.new.items ≤ 200000) }
    ensures full { IsErrOf result Stop.Full →
        200000 < length keys.old.items + length (found listing.now prefix.old.items places least sum) }
{
    if places == 0 {
        if !listing.window.has(sum) {
            return Ok(());
        }
        return add_key(keys, listing.genus, prefix.as_slice());
    }
    for index in least..listing.dim {
        if listing.can_reach(sum, places, index) {
            prefix.push(index);
            let done = add_lists(keys, prefix, listing, places - 1, index, sum + index as u16);
            prefix.pop();
            done?;
        }
    }
    Ok(())
}

/// Adds the planned keys of an Euler number and a genus.
fn add_genus(keys: &mut Vec<Key>, tensors: &Tensors, level: u8, genus: u8) -> Result<(), Stop>
    requires few { length keys.old.items ≤ 200000 }
    requires some { 0 < level }
    requires most { level ≤ 24 }
    requires genus { genus ≤ level / 2 + 1 }
    ensures listed { OnOk result (keys.new.items ≡ keys.old.items ++ keys_at (looked_up tensors.now) level genus) }
    ensures few { OnOk result (length keys.new.items ≤ 200000) }
    ensures full { IsErrOf result Stop.Full → 200000 < length keys.old.items + length (keys_at (looked_up tensors.now) level genus) }
{
    tensors.soundness_fact();
    let places = level + 2 - 2 * genus;
    if places == 0 {
        return Ok(());
    }
    let listing = Listing {
        genus,
        dim: tensors.dim(),
        window: Window::of(tensors.shape(), genus, places),
    };
    let mut prefix = ArrayVec::new();
    add_lists(keys, &mut prefix, &listing, places, 0, 0)
}

/// Adds the planned keys of an Euler number.
pub fn add_level(keys: &mut Vec<Key>, tensors: &Tensors, level: u8) -> Result<(), Stop>
    requires few { length keys.old.items ≤ 200000 }
    requires some { 0 < level }
    requires most { level ≤ 24 }
    ensures listed { OnOk result (keys.new.items ≡ keys.old.items ++ level_keys (looked_up tensors.now) level) }
    ensures few { OnOk result (length keys.new.items ≤ 200000) }
    ensures full { IsErrOf result Stop.Full → 200000 < length keys.old.items + length (level_keys (looked_up tensors.now) level) }
{
    for genus in 0..level / 2 + 2 {
        add_genus(keys, tensors, level, genus)?;
    }
    Ok(())
}
