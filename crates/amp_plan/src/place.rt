/// Where a key stands in a plan, or why it stands nowhere.
#[derive(Clone, Copy, Debug, PartialEq, Eq)]
pub enum Place {
    /// Its rank.
    At(u32),
    /// The shape doesn't cover it: every solution has 0 there.
    Zero,
    /// Its Euler number is above the bound.
    Beyond,
    /// An index isn't below dim.
    BadIndex,
}
