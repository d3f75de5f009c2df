ghost use Rattle.std.specs.Prelude.{◌≡◌, ℕ, ◌+◌, ◌<◌, ◌≤◌, length, slice_index_or, IfOk};
ghost use Rattle.std.specs.Thread.{IsSync};
ghost use Rattle.amp_terms.specs.declared.Outcome.{Outcome};
ghost use Rattle.cell_words.specs.Layout.{outcome_at};
ghost use Rattle.cell_words.specs.Levels.{cells_to, level_after};
ghost use Rattle.cell_words.specs.LevelSeats.{plan_of, published_of, IsFiller};
ghost use Rattle.fill_crew.specs.Levels.{IsPublished, IsInNext, AreOutcomes};

use amp_terms::Outcome;
use cell_words::{Cells, FillSeat, Frontier, level_alone, level_end, level_outcome};
use std::alloc::{AllocError, Global};
use std::thread;
use std::thread::Threads;

/// Computes the outcome of one rank of the next level, over the outcomes of the published levels.
fn fill_rank(board: &Frontier, published: u8, done: &[Outcome], i: usize, outcome: &mut Outcome)
    requires done { IsPublished board.now published done.now }
    requires within { IsInNext (plan_of board.now) published i }
    ensures { outcome.new ≡ outcome_at (plan_of board.now) (cells_to (plan_of board.now) published + i) }
{
    let rank = (done.len() + i) as u32;
    *outcome = level_outcome(board.plan(), published, rank, done);
}

/// Computes the outcomes of the next level by so many threads.
fn fill_level<R: Threads + Sync>(
    rt: &R,
    board: &Frontier,
    published: u8,
    done: &[Outcome],
    level: &mut [Outcome],
    crew: u8,
)
    requires done { IsPublished board.now published done.now }
    requires room { cells_to (plan_of board.now) published + length level.old ≡ cells_to (plan_of board.now) (published + 1) }
    requires crew { 0 < crew }
    ensures len { length level.new ≡ length level.old }
    ensures outcomes { AreOutcomes (plan_of board.now) (cells_to (plan_of board.now) published) (length level.old) level.new }
{
    thread::for_each_mut(
        rt,
        level,
        crew as usize,
        &|i, outcome|
            requires { IsPublished board.now published done.now × IsInNext (plan_of board.now) published i }
        { fill_rank(board, published, done, i, outcome) },
    );
}

/// The outcomes of the next level, computed by so many threads.
fn next_level<R: Threads + Sync>(
    rt: &R,
    alloc: Global,
    board: &Frontier,
    filler: &FillSeat,
    crew: u8,
) -> Result<Vec<Outcome>, AllocError>
    requires filler { IsFiller board.now filler.now }
    requires next { published_of filler.now < (plan_of board.now).bound }
    requires crew { 0 < crew }
    ensures { IfOk result (λ v. v.items ≡ level_after (plan_of board.now) (published_of filler.now)) }
{
    let _bound = board.plan().bound();
    let start = filler.outcomes().len() as u32;
    let end = level_end(board.plan(), start, filler.published() + 1);
    let mut level = vec![in alloc; Outcome::Over; (end - start) as usize]?;
    fill_level(
        rt,
        board,
        filler.published(),
        filler.outcomes(),
        level.as_mut_slice(),
        crew,
    );
    Ok(level)
}

/// Publishes every level that is left.
fn fill_levels<R: Threads + Sync>(
    rt: &R,
    alloc: Global,
    board: &Frontier,
    filler: &mut FillSeat,
    crew: u8,
)
    requires filler { IsFiller board.now filler.old }
    requires crew { 0 < crew }
    ensures filler { IsFiller board.now filler.new }
    ensures all { published_of filler.new ≡ (plan_of board.now).bound }
{
    for _ in filler.published()..board.plan().bound() {
        match next_level(rt, alloc, board, filler, crew) {
            Ok(level) => board.publish(filler, level.as_slice()),
            Err(_) => level_alone(board, filler),
        }
    }
}

/// Publishes every level that is left, next to a call of `beside`.
fn levels_beside<R: Threads + Sync, T, J: FnMut() -> T>(
    rt: &R,
    alloc: Global,
    board: &Frontier,
    filler: &mut FillSeat,
    crew: u8,
    beside: &mut J,
) -> T
    requires filler { IsFiller board.now filler.old }
    requires crew { 0 < crew }
    requires beside { J.pre beside.old }
    ensures filler { IsFiller board.now filler.new }
    ensures all { published_of filler.new ≡ (plan_of board.now).bound }
    ensures beside { J.step beside.old result beside.new }
{
    let (_, answer) = thread::join_mut(
        rt,
        &mut ||
            requires { IsSync R.row × IsFiller board.now filler.now × (0 < crew) }
            ensures filler { IsFiller board.entry.now filler.exit.now }
            ensures all { published_of filler.exit.now ≡ (plan_of board.entry.now).bound }
        { fill_levels(rt, alloc, board, filler, crew) },
        beside,
    );
    answer
}

/// Fills the board level by level, next to a call of `beside`. Without a crew it only calls `beside`.
pub fn level_beside<R: Threads + Sync, T, J: FnMut() -> T>(
    rt: &R,
    alloc: Global,
    board: &Frontier,
    mut filler: FillSeat,
    crew: u8,
    beside: &mut J,
) -> (FillSeat, T)
    requires filler { IsFiller board.now filler }
    requires crew { crew ≤ 16 }
    requires beside { J.pre beside.old }
    ensures filler { IsFiller board.now result.0 }
    ensures none { crew ≡ 0 → published_of result.0 ≡ published_of filler }
    ensures all { 0 < crew → published_of result.0 ≡ (plan_of board.now).bound }
    ensures beside { J.step beside.old result.1 beside.new }
{
    if crew == 0 {
        return (filler, beside());
    }
    let answer = levels_beside(rt, alloc, board, &mut filler, crew, beside);
    (filler, answer)
}
