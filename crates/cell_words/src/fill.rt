// Filling a cell that the seat has claimed.
ghost use Rattle.std.specs.Prelude.{◌≡◌, ℕ, ◌+◌, ◌*◌, ◌<◌, ◌≤◌, ◌++◌, List, [], ◌∷◌, length, false, true, slice_index, Some, None, All};
ghost use Rattle.std.specs.List.{FoldsTo};
ghost use Rattle.amp_plan.specs.Needs.{has, dependents_at};
ghost use Rattle.cell_words.specs.Layout.{cells, outcome_at};
ghost use Rattle.cell_words.specs.Acts.{act_of, done_act, freed_by};
ghost use Rattle.cell_words.specs.Countdown.{tail_of};

use crate::countdown::{CountSeat, Countdown};
use crate::reader::Reader;
use crate::words::{encode, is_sized};
use amp_terms::{Outcome, pivot_value};

impl Countdown {
    ghost use Rattle.cell_words.specs.Countdown.{Known, act_in};
    ghost use Rattle.cell_words.specs.Seats.{IsAtAct, IsResting, IsSeatOf, view_of, plan_of, number_of, held_of, done_of};

    /// The outcome of a rank that the seat has claimed, by the pivot sum at the least index of its key.
    pub(crate) fn computed(&self, seat: &mut CountSeat, rank: u32) -> Outcome
        requires act { IsAtAct self.now seat.old (act_of rank 0 false 0 []) }
        ensures seat { seat.new ≡ seat.old }
        ensures outcome { result ≡ outcome_at (plan_of self.now) rank }
    {
        let plan = &self.base.plan;
        plan.planned_fact();
        plan.needs_fact();
        let key = plan.key(rank);
        key.validity_fact();
        let pivot = key.idx()[0];
        pivot_value(
            plan,
            &key,
            pivot,
            &mut Reader {
                board: self,
                seat,
                rank,
            },
        )
    }

    /// Fills the cell of the act that the seat is at, and calls `ready` with each dependent whose word went from 1 to 0.
    #[tactic(auto, unfolding(crate::specs::Layout::code_of), using(crate::proofs::PlanFacts::dependent_low))]
    pub(crate) fn fill_at<R: FnMut(u32)>(&self, seat: &mut CountSeat, rank: u32, mut ready: R)
        requires act { IsAtAct self.now seat.old (act_of rank 0 false 0 []) }
        requires calls { (state : R) (t : ℕ) → t < cells (plan_of self.now) → R.pre state t }
        ensures act { IsAtAct self.now seat.new (done_act (plan_of self.now) rank (freed_by (view_of seat.new) rank)) }
        ensures seen { (view_of seat.new).seen ≡ (view_of seat.old).seen ++ rank ∷ [] }
        ensures others { tail_of (view_of seat.new).portions ≡ tail_of (view_of seat.old).portions }
        ensures kept { (seat.new.number ≡ seat.old.number) × (seat.new.held ≡ seat.old.held) × (seat.new.done ≡ seat.old.done) }
        ensures freed { All (λ t. has t (dependents_at (plan_of self.now) rank) ≡ true) (freed_by (view_of seat.new) rank) }
        ensures told { (last : R) × FoldsTo (λ p x q. R.step p x tt q) ready (freed_by (view_of seat.new) rank) last }
    {
        let outcome = self.computed(seat, rank);
        is_sized(&outcome);
        let (a, b, c, d) = encode(outcome);
        self.write(seat, rank, 0, a);
        self.write(seat, rank, 1, b);
        self.write(seat, rank, 2, c);
        self.write(seat, rank, 3, d);
        self.mark(seat, rank);
        let next = self.base.plan.dependents(rank);
        for i in 0..next.len() {
            if self.sign(seat, rank, i, next[i]) == 1 {
                ready(next[i]);
            }
        }
    }

    /// Fills the cell that the seat holds, and calls `ready` with each dependent whose word went from 1 to 0.
    pub fn fill<R: FnMut(u32)>(&self, seat: &mut CountSeat, rank: u32, ready: R)
        requires seat { IsSeatOf self.now seat.old }
        requires held { held_of seat.old ≡ Some rank }
        requires calls { (state : R) (t : ℕ) → t < cells (plan_of self.now) → R.pre state t }
        ensures seat { IsSeatOf self.now seat.new }
        ensures held { held_of seat.new ≡ None }
        ensures number { number_of seat.new ≡ number_of seat.old }
        ensures done { done_of seat.new ≡ done_of seat.old ++ rank ∷ [] }
        ensures filled { act_in (view_of seat.new) rank ≡ Some (done_act (plan_of self.now) rank (freed_by (view_of seat.new) rank)) }
        ensures knows { Known (view_of seat.new) rank }
        ensures keeps { (r : ℕ) → Known (view_of seat.old) r → Known (view_of seat.new) r }
        ensures freed { All (λ t. has t (dependents_at (plan_of self.now) rank) ≡ true) (freed_by (view_of seat.new) rank) }
        ensures told { (last : R) × FoldsTo (λ p x q. R.step p x tt q) ready (freed_by (view_of seat.new) rank) last }
    {
        self.fill_at(seat, rank, ready);
        self.receipt(seat, rank);
    }

    /// Writes down that the seat's act is done.
    pub(crate) fn receipt(&self, seat: &mut CountSeat, rank: u32)
        requires act { (freed : List ℕ) × IsAtAct self.now seat.old (done_act (plan_of self.now) rank freed) }
        ensures rests { IsResting self.now seat.new }
        ensures held { held_of seat.new ≡ None }
        ensures place { seat.new.place ≡ seat.old.place }
        ensures number { number_of seat.new ≡ number_of seat.old }
        ensures done { done_of seat.new ≡ done_of seat.old ++ rank ∷ [] }
    {
        seat.held = None;
        let Ok(()) = seat.done.push(rank) else {
            unreachable!()
        };
    }
}
