ghost use Rattle.std.specs.Prelude.{◌≡◌, ◌≤◌, ◌<◌, ◌+◌, ◌^◌, length, vec_len};
ghost use Rattle.key_index.specs.Found.{first_rank};

use std::alloc::{AllocError, Global};

/// How many slots, from its start on, a code may stand in.
const MOST_STEPS: usize = 128;

/// A code, and the rank that was put here with it, if any.
#[derive(Clone, Copy)]
pub(crate) struct Slot {
    pub(crate) code: u64,
    pub(crate) rank: Option<u32>,
}

/// A row of slots, twice as many as there are ranks, and then some so that none is looked for beyond the end.
#[derive(Drop)]
pub(crate) struct Slots {
    pub(crate) slots: Vec<Slot>,
    pub(crate) width: u64,
    pub(crate) ghost room: { width + 128 ≤ vec_len slots },
    pub(crate) ghost small: { width ≤ 2 ^ 32 },
}

impl Slots {
    ghost use Rattle.key_index.specs.Found.{start_of, found};

    /// Free slots for some ranks.
    pub(crate) fn of(alloc: Global, ranks: usize) -> Result<Slots, AllocError>
        requires { ranks < 2 ^ 31 }
    {
        let free = Slot {
            code: 0,
            rank: None,
        };
        let width = 2 * ranks;
        let slots = vec![in alloc; free; width + MOST_STEPS]?;
        Ok(Slots {
            slots,
            width: width as u64,
        })
    }

    /// The slot from which on a code is looked for.
    #[tactic(auto, unfolding(crate::specs::Found::start_of))]
    fn start(&self, code: u64) -> usize
        ensures start { result ≡ start_of self.now.width code }
        ensures below { result ≤ self.now.width }
    {
        (code % (1 << 32) * self.width / (1 << 32)) as usize
    }

    /// Puts a rank in the first free slot, where there is one.
    pub(crate) fn put(&mut self, code: u64, rank: u32) {
        let start = self.start(code);
        for slot in &mut self.slots[start..start + MOST_STEPS] {
            if slot.rank.is_none() {
                *slot = Slot {
                    code,
                    rank: Some(rank),
                };
                return;
            }
        }
    }

    /// What is found for a code. Nearly every code stands at its start.
    #[tactic(auto, unfolding(crate::specs::Found::found, crate::specs::Found::first_rank))]
    pub(crate) fn find(&self, code: u64) -> Option<u32>
        ensures { result ≡ found self.now.slots.items self.now.width code }
    {
        let start = self.start(code);
        let first = &self.slots[start];
        if first.code == code {
            return first.rank;
        }
        find_behind(&self.slots[start + 1..start + MOST_STEPS], code)
    }
}

/// What stands at the first slot with the code.
#[tactic(auto, unfolding(crate::specs::Found::first_rank))]
#[inline(never)]
fn find_behind(slots: &[Slot], code: u64) -> Option<u32>
    ensures { result ≡ first_rank code slots.now }
{
    for slot in slots {
        if slot.code == code {
            return slot.rank;
        }
    }
    None
}
