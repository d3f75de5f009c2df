// The countdown board's single steps.
ghost use Rattle.std.specs.Prelude.{◌≡◌, ℕ, None, ◌+◌, ◌*◌, ◌<◌, ◌++◌, List, [], ◌∷◌, length, cond, nat_eq, false, true};
ghost use Rattle.cell_words.specs.Layout.{cells, code_of, outcome_at};
ghost use Rattle.cell_words.specs.Words.{IsSized};
ghost use Rattle.cell_words.specs.Countdown.{FILLED, Known, looked, claimed, freed_with, tail_of};
ghost use Rattle.cell_words.specs.Acts.{act_of, IsDependent};

use crate::countdown::{CLAIMED_WORD, CountSeat, Countdown, FILLED_WORD};
use crate::plays::{Exchange, Load, Mark, Sign, Word, Write};

impl Countdown {
    ghost use Rattle.cell_words.specs.Seats.{HasToken, IsAtAct, IsResting, IsSameSeat, view_of, plan_of};
    ghost use Rattle.cell_words.specs.Countdown.{act_in, acts_of, state_in, IsState, IsWhole, IsFilled};

    /// One load of the state word.
    pub(crate) fn load(&self, seat: &mut CountSeat, rank: u32) -> u64
        requires token { HasToken self.now seat.old.place }
        requires rank { rank < cells (plan_of self.now) }
        ensures token { HasToken self.now seat.new.place }
        ensures view { view_of seat.new ≡ looked rank result (view_of seat.old) }
        ensures honest { Known (view_of seat.old) rank → result ≡ FILLED }
        ensures kept { IsSameSeat seat.old seat.new }
    {
        let Some(place) = &mut seat.place else {
            unreachable!()
        };
        self.table.shared.load::<Load>(place, 5 * rank as usize)
    }

    /// One compare and exchange of the state word, from 0 to CLAIMED.
    pub(crate) fn exchange(&self, seat: &mut CountSeat, rank: u32) -> u64
        requires seat { IsResting self.now seat.old }
        requires rank { rank < cells (plan_of self.now) }
        ensures token { HasToken self.now seat.new.place }
        ensures view { view_of seat.new ≡ cond (nat_eq result 0) (claimed rank (view_of seat.old)) (looked rank result (view_of seat.old)) }
        ensures state { IsState result }
        ensures free { result ≡ 0 → act_in (view_of seat.old) rank ≡ None }
        ensures whole { IsWhole (view_of seat.old) → result ≡ state_in (plan_of self.now) (view_of seat.old) rank }
        ensures filled { IsWhole (view_of seat.old) → (q : ℕ) → Known (view_of seat.old) q → IsFilled (act_in (view_of seat.old) q) }
        ensures few { result ≡ 0 → length (acts_of (view_of seat.old).portions) < cells (plan_of self.now) }
        ensures kept { IsSameSeat seat.old seat.new }
    {
        let Some(place) = &mut seat.place else {
            unreachable!()
        };
        self.table
            .shared
            .compare_exchange::<Exchange>(place, 5 * rank as usize, 0, CLAIMED_WORD)
    }

    /// A store of the next value word.
    pub(crate) fn write(&self, seat: &mut CountSeat, rank: u32, at: u8, word: u64)
        requires act { IsAtAct self.now seat.old (act_of rank at false 0 []) }
        requires more { at < 4 }
        requires sized { IsSized (outcome_at (plan_of self.now) rank) }
        requires word { word ≡ code_of (plan_of self.now) rank at }
        ensures act { IsAtAct self.now seat.new (act_of rank (at + 1) false 0 []) }
        ensures seen { (view_of seat.new).seen ≡ (view_of seat.old).seen }
        ensures others { tail_of (view_of seat.new).portions ≡ tail_of (view_of seat.old).portions }
        ensures kept { IsSameSeat seat.old seat.new }
    {
        let Some(place) = &mut seat.place else {
            unreachable!()
        };
        self.table
            .shared
            .store::<Write>(place, 5 * rank as usize + at as usize + 1, word);
    }

    /// A store of FILLED.
    pub(crate) fn mark(&self, seat: &mut CountSeat, rank: u32)
        requires act { IsAtAct self.now seat.old (act_of rank 4 false 0 []) }
        ensures act { IsAtAct self.now seat.new (act_of rank 4 true 0 []) }
        ensures seen { (view_of seat.new).seen ≡ (view_of seat.old).seen ++ rank ∷ [] }
        ensures others { tail_of (view_of seat.new).portions ≡ tail_of (view_of seat.old).portions }
        ensures kept { IsSameSeat seat.old seat.new }
    {
        let Some(place) = &mut seat.place else {
            unreachable!()
        };
        self.table
            .shared
            .store::<Mark>(place, 5 * rank as usize, FILLED_WORD);
    }

    /// The state word of the next dependent is lowered by 1. The answer is what it was.
    pub(crate) fn sign(&self, seat: &mut CountSeat, rank: u32, at: usize, next: u32) -> u64
        requires act { (freed : List ℕ) × IsAtAct self.now seat.old (act_of rank 4 true at freed) }
        requires next { IsDependent (plan_of self.now) rank at next }
        ensures act { (freed : List ℕ) → IsAtAct self.now seat.old (act_of rank 4 true at freed)
            → IsAtAct self.now seat.new (act_of rank 4 true (at + 1) (freed_with result next freed)) }
        ensures seen { (view_of seat.new).seen ≡ (view_of seat.old).seen }
        ensures others { tail_of (view_of seat.new).portions ≡ tail_of (view_of seat.old).portions }
        ensures kept { IsSameSeat seat.old seat.new }
    {
        let Some(place) = &mut seat.place else {
            unreachable!()
        };
        self.table
            .shared
            .fetch_sub::<Sign>(place, 5 * next as usize, 1)
    }

    /// One load of a value word of a rank that the seat knows.
    pub(crate) fn word(&self, seat: &mut CountSeat, rank: u32, at: u8) -> u64
        requires token { HasToken self.now seat.old.place }
        requires known { Known (view_of seat.old) rank }
        requires rank { rank < cells (plan_of self.now) }
        requires at { at < 4 }
        ensures seat { seat.new ≡ seat.old }
        ensures value { result ≡ code_of (plan_of self.now) rank at }
        ensures sized { IsSized (outcome_at (plan_of self.now) rank) }
    {
        let Some(place) = &mut seat.place else {
            unreachable!()
        };
        self.table
            .shared
            .load::<Word>(place, 5 * rank as usize + at as usize + 1)
    }
}
