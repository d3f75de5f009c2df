ghost use Rattle.std.specs.Prelude.{◌≡◌, ℕ, ◌+◌, ◌*◌, ◌<◌, ◌≤◌, [], length, replicate, vec_len, vec_capacity, All, IfOk, IfErr, None};
ghost use Rattle.amp_plan.specs.Plans.{Planning};
ghost use Rattle.cell_words.specs.Layout.{cells};
ghost use Rattle.cell_words.specs.Levels.{cells_to, table_to};
ghost use Rattle.cell_words.specs.LevelSeats.{plan_of, published_of, outcomes_of, looks_of, latest_of, IsAsker, IsFiller, IsUnseen, Knows};

use crate::closed::BoardErr;
use crate::frontier::{FillSeat, Frontier, LevelSeat};
use crate::level_view::View;
use amp_plan::Plan;
use amp_terms::Outcome;
use atomic_table::{Seat, Table};
use std::alloc::{AllocError, Global};

/// All memory of a board of `count` cells.
#[derive(Drop)]
struct Room {
    words: Vec<u64>,
    outcomes: Vec<Outcome>,
    closing: amp_terms::Table,
    seats: Vec<LevelSeat>,
}

impl Room {
    fn make(alloc: Global, count: u32, askers: u8) -> Result<Room, AllocError>
        requires { count ≤ 200000 }
        ensures words { IfOk result (λ r. r.words.items ≡ replicate (4 * count + 1) 0) }
        ensures outcomes { IfOk result (λ r. (vec_len r.outcomes ≡ 0) × (count ≤ vec_capacity r.outcomes)) }
        ensures closing { IfOk result (λ r. r.closing ≡ replicate count None) }
        ensures seats { IfOk result (λ r. (vec_len r.seats ≡ 0) × (askers ≤ vec_capacity r.seats)) }
    {
        let words = Vec::from_elem(alloc, 0u64, 4 * count as usize + 1)?;
        let outcomes = Vec::with_capacity(alloc, count as usize)?;
        let closing = amp_terms::Table::empty(alloc, count)?;
        let seats = Vec::with_capacity(alloc, askers as usize)?;
        Ok(Room {
            words,
            outcomes,
            closing,
            seats,
        })
    }
}

impl Frontier {
    ghost use Rattle.cell_words.specs.LevelSeats.{IsPlaceOf};
    ghost use Rattle.cell_words.specs.declared.level_view.Role.TheVariants.{Filler};

    /// A board with no published level, its filler's seat, and so many askers' seats. The plan comes back where memory is wanting.
    pub fn make(
        alloc: Global,
        plan: Plan,
        askers: u8,
    ) -> Result<(Frontier, FillSeat, Vec<LevelSeat>), BoardErr>
        requires { (1 ≤ askers) × (askers ≤ 32) }
        ensures plan { IfOk result (λ t. plan_of t.0 ≡ plan) }
        ensures filler { IfOk result (λ t. IsFiller t.0 t.1 × (published_of t.1 ≡ 0)) }
        ensures askers { IfOk result (λ t. All (λ s. IsAsker t.0 s × IsUnseen s) t.2.items) }
        ensures count { IfOk result (λ t. vec_len t.2 ≡ askers) }
        ensures back { IfErr result (λ e. e.plan ≡ plan) }
    {
        plan.limits_fact();
        let Ok(room) = Room::make(alloc, plan.len(), askers) else {
            return Err(BoardErr { plan });
        };
        let Room {
            words,
            outcomes,
            closing,
            seats,
        } = room;
        let Ok((table, mut place)) = Table::of_words(alloc, words.as_slice(), &plan) else {
            return Err(BoardErr { plan });
        };
        let board = Frontier {
            table,
            plan,
            closing,
        };
        let seats = board.askers(&mut place, askers, seats);
        let filler = FillSeat {
            place,
            published: 0,
            outcomes,
        };
        Ok((board, filler, seats))
    }

    /// So many askers, who know what the filler knows. There is room for them.
    fn askers(
        &self,
        filler: &mut Seat<(), View>,
        count: u8,
        mut seats: Vec<LevelSeat>,
    ) -> Vec<LevelSeat>
        requires filler { IsPlaceOf self.now filler.old × (filler.old.me.0.role ≡ Filler) }
        requires room { (vec_len seats ≡ 0) × (count ≤ vec_capacity seats) }
        ensures filler { IsPlaceOf self.now filler.new × (filler.new.me.0 ≡ filler.old.me.0) }
        ensures seats { All (λ s. IsAsker self.now s × IsUnseen s) result.items }
        ensures count { vec_len result ≡ count }
    {
        for _ in 0..count {
            let seat = self.asker(filler);
            let Ok(()) = seats.push(seat) else {
                unreachable!()
            };
        }
        seats
    }

    /// Afterwards the asker knows each rank of a published level.
    pub fn meet(&self, filler: &mut FillSeat, seat: &mut LevelSeat)
        requires filler { IsFiller self.now filler.old }
        requires seat { IsAsker self.now seat.old }
        ensures filler { IsFiller self.now filler.new }
        ensures same { (published_of filler.new ≡ published_of filler.old) × (outcomes_of filler.new ≡ outcomes_of filler.old) }
        ensures seat { IsAsker self.now seat.new }
        ensures looks { (looks_of seat.new ≡ looks_of seat.old) × (latest_of seat.new ≡ latest_of seat.old) }
        ensures knows { (r : ℕ) → r < cells_to (plan_of self.now) (published_of filler.old) → Knows seat.new r }
        ensures keeps { (r : ℕ) → Knows seat.old r → Knows seat.new r }
    {
        let told = self.asker(&mut filler.place);
        self.join(&mut seat.place, told);
    }

    /// The plan, and the table with the outcome of each rank of a published level and nothing else.
    pub fn close(self, filler: FillSeat, _askers: Vec<LevelSeat>) -> (Plan, amp_terms::Table)
        requires { IsFiller self filler }
        ensures plan { result.0 ≡ plan_of self }
        ensures table { result.1 ≡ table_to (plan_of self) (published_of filler) }
    {
        let Frontier {
            table: _,
            plan,
            mut closing,
        } = self;
        for (rank, outcome) in filler.outcomes.iter().enumerate() {
            closing.set(rank as u32, *outcome);
        }
        (plan, closing)
    }
}
