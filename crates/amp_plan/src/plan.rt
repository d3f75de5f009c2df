ghost use Rattle.std.specs.Prelude.{◌≡◌, ◌<◌, ◌≤◌, length, OnOk, IfOk, IfErr};
ghost use Rattle.airy_math.specs.Ranks.{ListsPlanned};
ghost use Rattle.amp_plan.specs.Plans.{Planning, tensors_of, keys_of, key_at};
ghost use Rattle.amp_plan.specs.Places.{place_in, letter_power};
ghost use Rattle.amp_plan.specs.Needs.{AreNeeds, KeepsRanks, needs_at, dependents_at, edges_of};
ghost use Rattle.amp_plan.specs.Limits.{limit_of, Within, Tells};

use crate::cause::{PlanCause, PlanErr};
use crate::graph::Graph;
use crate::place::Place;
use crate::ranking::Ranking;
use crate::rows::Rows;
use airy_index::Key;
use sparse_tensor::Tensors;
use std::alloc::Global;
use std::marker::Model;

/// The planned keys of tensors up to a bound on the Euler number, with their ranks, and what each needs.
#[derive(Drop)]
pub struct Plan {
    ranking: Ranking,
    graph: Graph,
}

/// A plan that doesn't grow comes back.
#[derive(Drop)]
pub struct GrowErr {
    pub cause: PlanCause,
    pub plan: Plan,
}

impl Model for Plan {
    ghost use Rattle.amp_plan.specs.Plans.{Planning, planning_code};
    ghost use Rattle.amp_plan.specs.Kept.{IsGraph};

    ghost Value = { Planning };

    ghost coded = { planning_code };

    ghost view = { λ p. p.ranking };

    ghost invariant = { λ p. IsGraph p.ranking p.graph.needs p.graph.dependents p.graph.edges };
}

impl Plan {
    /// The plan of the tensors up to a bound from 1 to 24. The tensors come back where none is made.
    pub fn make(alloc: Global, t: Tensors, bound: u8) -> Result<Plan, PlanErr>
        ensures plan { IfOk result (λ p. p ≡ record { tensors = t; bound = bound }) }
        ensures within { OnOk result (limit_of (record { tensors = t; bound = bound }) ≡ Within) }
        ensures cause { IfErr result (λ e. Tells (record { tensors = t; bound = bound }) e.cause) }
        ensures back { IfErr result (λ e. e.tensors ≡ t) }
    {
        if bound == 0 || bound > 24 {
            return Err(PlanErr {
                cause: PlanCause::Bound { got: bound },
                tensors: t,
            });
        }
        let ranking = match Ranking::make(alloc, t, bound) {
            Ok(ranking) => ranking,
            Err(refusal) => return Err(refusal),
        };
        match Graph::of(alloc, &ranking, &Rows::none(alloc)) {
            Ok(graph) => Ok(Plan { ranking, graph }),
            Err(cause) => Err(PlanErr {
                cause,
                tensors: ranking.into_tensors(),
            }),
        }
    }

    /// The plan of the same tensors up to a greater bound, at most 24. Its first ranks are those of this plan, which are
    /// neither listed nor collected again; and this plan comes back where none is made.
    pub fn grow(self, alloc: Global, bound: u8) -> Result<Plan, GrowErr>
        requires above { self.bound < bound }
        requires most { bound ≤ 24 }
        ensures plan { IfOk result (λ p. p ≡ record { tensors = self.tensors; bound = bound }) }
        ensures within { OnOk result (limit_of (record { tensors = self.tensors; bound = bound }) ≡ Within) }
        ensures kept { OnOk result (KeepsRanks self (record { tensors = self.tensors; bound = bound })) }
        ensures cause { IfErr result (λ e. Tells (record { tensors = self.tensors; bound = bound }) e.cause) }
        ensures back { IfErr result (λ e. e.plan ≡ self) }
    {
        self.ranking.grown_fact(bound);
        let index = match self.ranking.index_up_to(alloc, bound) {
            Ok(index) => index,
            Err(cause) => return Err(GrowErr { cause, plan: self }),
        };
        let Plan { ranking, graph } = self;
        let (ranking, low, index) = ranking.with_index(bound, index);
        match Graph::of(alloc, &ranking, &graph.needs) {
            Ok(graph) => Ok(Plan { ranking, graph }),
            Err(cause) => {
                let ranking = ranking.with_index(low, index).0;
                Err(GrowErr {
                    cause,
                    plan: Plan { ranking, graph },
                })
            }
        }
    }

    /// Where the key stands.
    pub fn rank_of(&self, key: &Key) -> Place
        ensures { result ≡ place_in self.now key.now }
    {
        self.ranking.rank_of(key)
    }

    /// The keys, in order.
    pub fn keys(&self) -> &[Key]
        ensures { result.now ≡ keys_of self.now }
    {
        self.ranking.keys()
    }

    /// The key of a rank.
    pub fn key(&self, rank: u32) -> Key
        requires { rank < length (keys_of self.now) }
        ensures { result ≡ key_at self.now rank }
    {
        self.ranking.key(rank)
    }

    /// What the key of a rank needs: the ranks of the keys that its terms name at its least index, each once, ascending.
    pub fn needs(&self, rank: u32) -> &[u32]
        requires { rank < length (keys_of self.now) }
        ensures { result.now ≡ needs_at self.now rank }
    {
        self.graph.needs.at(rank)
    }

    /// The ranks of the keys that need the key of a rank, ascending.
    pub fn dependents(&self, rank: u32) -> &[u32]
        requires { rank < length (keys_of self.now) }
        ensures { result.now ≡ dependents_at self.now rank }
    {
        self.graph.dependents.at(rank)
    }

    /// The number of needs of all keys.
    pub fn edges(&self) -> u32
        ensures { result ≡ edges_of self.now }
    {
        self.graph.edges
    }

    /// The number of planned keys.
    pub fn len(&self) -> u32
        ensures { result ≡ length (keys_of self.now) }
    {
        self.ranking.len()
    }

    /// The bound on the Euler number.
    pub fn bound(&self) -> u8
        ensures { result ≡ self.now.bound }
    {
        self.ranking.bound()
    }

    /// The tensors.
    pub fn tensors(&self) -> &Tensors
        ensures { result.now ≡ self.now.tensors }
    {
        self.ranking.tensors()
    }

    /// The power of the letter at a key, 0 where the tensors carry none.
    pub fn letter(&self, key: &Key) -> u16
        ensures { result ≡ letter_power self.now key.now }
    {
        self.ranking.letter(key)
    }

    /// A plan is within its limits: the fact, for proofs of callers.
    pub fn limits_fact(&self)
        ensures within { limit_of self.now ≡ Within }
        ensures few { length (keys_of self.now) ≤ 200000 }
    {
        let _edges = self.graph.edges;
        self.ranking.is_small();
    }

    /// A plan lists the planned keys and nothing else, each once: the fact, for proofs of callers.
    pub fn planned_fact(&self)
        ensures { ListsPlanned (tensors_of self.now) self.now.bound }
    {
        airy_math::planned_once();
    }

    /// The needs of a plan are the ranks that its keys' terms name at their least indices, each below its key's rank, and
    /// the dependents are the converse: the fact, for proofs of callers.
    pub fn needs_fact(&self)
        ensures { AreNeeds (tensors_of self.now) self.now.bound }
    {
        airy_math::planned_once();
        airy_math::plan_ascends();
        airy_math::needs_first();
    }

    /// The ranking alone.
    pub(crate) fn ranking(&self) -> &Ranking
        ensures { result.now ≡ self.now }
    {
        &self.ranking
    }
}
