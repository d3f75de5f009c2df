ghost use Rattle.std.specs.Prelude.{◌≡◌, ◌<◌, ◌≤◌, ◌+◌, length, OnOk, IfOk, IfErr};
ghost use Rattle.amp_plan.specs.Plans.{keys_of};
ghost use Rattle.amp_plan.specs.Kept.{IsGraph, AreDependents, AreCollected, AreKnown, IsNamedNext};
ghost use Rattle.amp_plan.specs.Limits.{Tells};

use crate::cause::PlanCause;
use crate::marker::Marker;
use crate::ranking::Ranking;
use crate::rows::{Rows, turn};
use std::alloc::{AllocError, Global};

/// The most needs that a plan may have.
const MOST_NEEDS: usize = 4_000_000;

/// The needs and the dependents of each rank, and the number of needs.
#[derive(Drop)]
pub(crate) struct Graph {
    pub(crate) needs: Rows,
    pub(crate) dependents: Rows,
    pub(crate) edges: u32,
}

impl Graph {
    /// The graph of a ranking whose first ranks have the known needs; the refusal where the needs pass 4,000,000, or for
    /// want of memory.
    pub(crate) fn of(alloc: Global, ranking: &Ranking, known: &Rows) -> Result<Graph, PlanCause>
        requires { AreKnown ranking.now known.now }
        ensures graph { IfOk result (λ g. IsGraph ranking.now g.needs g.dependents g.edges) }
        ensures cause { IfErr result (λ cause. Tells ranking.now cause) }
    {
        ranking.is_small();
        let dependents = match Dependents::of(alloc, ranking, known) {
            Ok(dependents) => dependents,
            Err(cause) => return Err(cause),
        };
        let Ok(needs) = turn(alloc, &dependents.rows, ranking.len()) else {
            return Err(PlanCause::NoMemory);
        };
        Ok(Graph {
            needs,
            dependents: dependents.rows,
            edges: dependents.edges,
        })
    }
}

/// The dependents of each rank, and the number of needs.
#[derive(Drop)]
struct Dependents {
    rows: Rows,
    edges: u32,
}

impl Dependents {
    /// The dependents of the ranks of a ranking. What was collected goes before its needs are made of them.
    fn of(alloc: Global, ranking: &Ranking, known: &Rows) -> Result<Dependents, PlanCause>
        requires { AreKnown ranking.now known.now }
        ensures dependents { IfOk result (λ d. AreDependents ranking.now d.rows d.edges) }
        ensures cause { IfErr result (λ cause. Tells ranking.now cause) }
    {
        ranking.is_small();
        let collected = match Collected::of(alloc, ranking, known) {
            Ok(collected) => collected,
            Err(cause) => return Err(cause),
        };
        let Ok(rows) = turn(alloc, &collected.rows, ranking.len()) else {
            return Err(PlanCause::NoMemory);
        };
        Ok(Dependents {
            rows,
            edges: collected.edges,
        })
    }
}

/// The needs of each rank, in any order, and their number.
#[derive(Drop)]
struct Collected {
    rows: Rows,
    edges: u32,
}

impl Collected {
    /// The needs of the ranks of a ranking.
    fn of(alloc: Global, ranking: &Ranking, known: &Rows) -> Result<Collected, PlanCause>
        requires { AreKnown ranking.now known.now }
        ensures collected { IfOk result (λ n. AreCollected ranking.now n.rows n.edges) }
        ensures cause { IfErr result (λ cause. Tells ranking.now cause) }
    {
        ranking.is_small();
        let mut rows = Rows::none(alloc);
        let Ok(mut marker) = Marker::new(alloc, ranking.len()) else {
            return Err(PlanCause::NoMemory);
        };
        let mut edges: usize = 0;
        for rank in 0..ranking.len() {
            let Ok(()) = add_needs(&mut rows, known, &mut marker, ranking, rank) else {
                return Err(PlanCause::NoMemory);
            };
            edges += rows.at(rank).len();
            if edges > MOST_NEEDS {
                return Err(PlanCause::Edges {
                    key: ranking.key(rank),
                });
            }
        }
        Ok(Collected {
            rows,
            edges: edges as u32,
        })
    }
}

/// Puts the needs of a rank behind those of the ranks before it: the known ones, or what its terms name.
fn add_needs(
    rows: &mut Rows,
    known: &Rows,
    marker: &mut Marker,
    ranking: &Ranking,
    rank: u32,
) -> Result<(), AllocError>
    requires known { AreKnown ranking.now known.now }
    requires rank { rank < length (keys_of ranking.now) }
    requires size { marker.old.size ≡ length (keys_of ranking.now) }
    requires stamp { marker.old.stamp ≤ rank + 1 }
    ensures named { OnOk result (IsNamedNext ranking.now rank rows.old rows.new) }
    ensures size { marker.new.size ≡ marker.old.size }
    ensures stamp { marker.new.stamp ≤ rank + 2 }
{
    if (rank as usize) < known.len() {
        return rows.push(known.at(rank));
    }
    marker.collect(ranking, rank);
    rows.push(marker.row())
}
