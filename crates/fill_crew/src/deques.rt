// Deques whose items are ranks below a limit.
ghost use Rattle.std.specs.Prelude.{◌≡◌, ◌<◌, All, IfSome};

use crossbeam_deque::protocol::{Outcome, Protocol};
use crossbeam_deque::{Steal, Stealer, Worker};
use std::alloc::Global;
use std::marker::{Brand, PhantomData};

/// A number that the items of a deque are below. Each call of a crew picks it.
pub(crate) trait Limit {
    ghost use Rattle.std.specs.Prelude.{ℕ};

    ghost limit: { ℕ };
}

impl Limit for Brand {
    ghost limit = { 0 };
}

/// The protocol: each item is below the limit.
pub(crate) struct Low<L> {
    of: PhantomData<L>,
}

impl<L: Limit> Protocol<u32, ()> for Low<L> {
    ghost use Rattle.std.specs.Prelude.{◌<◌, All};

    ghost holds = { λ items _. All (λ x. x < L.limit) items };

    ghost first = { tt };

    ghost guest = { tt };
}

impl<L: Limit> Outcome<u32, ()> for Low<L> {
    ghost use Rattle.std.specs.Prelude.{◌<◌, All};

    ghost then = { λ _ xs _. All (λ x. x < L.limit) xs };
}

pub(crate) type Deque<L> = Worker<u32, Global, (), Low<L>>;

pub(crate) type Thief<L> = Stealer<u32, Global, (), Low<L>>;

/// A rank is dropped where the deque can't grow.
pub(crate) fn give<L: Limit>(own: &mut Deque<L>, rank: u32)
    requires { rank < L.limit }
{
    let _ = own.push_as::<Low<L>>(rank);
}

/// A round: one try at the own deque, whose place is `at`, and then one at each other.
fn find<L: Limit>(own: &mut Deque<L>, at: usize, thieves: &[Thief<L>]) -> Option<u32>
    ensures { IfSome result (λ x. x < L.limit) }
{
    if let Some(rank) = own.pop_as::<Low<L>>() {
        return Some(rank);
    }
    for k in 0..thieves.len() {
        if k != at {
            let mut pass = thieves[k].pass();
            if let Steal::Success(rank) = thieves[k].steal_as::<Low<L>>(&mut pass) {
                return Some(rank);
            }
        }
    }
    None
}

/// So many rounds in a row that find nothing end a worker.
const IDLE_ROUNDS: u32 = 10_000;

/// What a round finds, unless too many in a row find nothing.
pub(crate) fn find_in_time<L: Limit>(
    own: &mut Deque<L>,
    at: usize,
    thieves: &[Thief<L>],
) -> Option<u32>
    ensures { IfSome result (λ x. x < L.limit) }
{
    for _ in 0..IDLE_ROUNDS {
        if let Some(rank) = find(own, at, thieves) {
            return Some(rank);
        }
    }
    None
}
