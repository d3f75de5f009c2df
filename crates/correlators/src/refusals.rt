use airy_index::Key;

/// Why a table gives no number, or no volume.
#[derive(Drop)]
pub enum CorrErr {
    /// Of a number: the tensors carry the letter. Of a volume: they carry none.
    Kind,
    /// The Euler number is above the plan's bound.
    Beyond,
    /// The volume has more than 100,000 lists of indices: how many there are.
    Terms { counted: u64 },
    /// An index isn't below dim: of a number, one of the key's; of a volume, one of some key that the shape covers.
    Index,
    /// The key has no Value. Of a volume it is the first in plan order.
    NotValue { key: Key },
    /// A step of the key's division leaves the range. Of a volume it is the first key in plan order.
    Over { key: Key },
    /// Want of memory, of a volume alone.
    NoMemory,
}
