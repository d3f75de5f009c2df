ghost use Rattle.std.specs.Prelude.{◌≡◌, ◌<◌, ◌≤◌, length};
ghost use Rattle.airy_math.specs.Keys.{euler};
ghost use Rattle.correlators.specs.Volumes.{counted as lists_counted, greatest_sum, lists_up_to};

/// How many lists of n indices have a sum of at most 3g - 3 + n, the greatest of a volume V(g,n): the binomial of 3g - 3 + 2n over n, by
/// the product of (3g - 3 + 2n - i) / (i + 1) over all i below n.
#[tactic(auto, unfolding(airy_math::specs::Keys::euler, crate::specs::Volumes::counted))]
pub fn counted(g: u8, n: u8) -> u64
    requires stable { 0 < euler g n }
    requires some { 1 ≤ n }
    requires most { n ≤ 26 }
    requires bound { euler g n ≤ 24 }
    ensures value { result ≡ lists_counted g n }
    ensures lists { result ≡ length (lists_up_to n (greatest_sum g n)) }
{
    let all = 3 * u64::from(g) + 2 * u64::from(n) - 3;
    let mut lists: u64 = 1;
    for i in 0..n {
        lists = lists * (all - u64::from(i)) / (u64::from(i) + 1);
    }
    lists
}
