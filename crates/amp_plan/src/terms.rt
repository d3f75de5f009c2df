ghost use Rattle.std.specs.Prelude.{◌<◌};
ghost use Rattle.airy_math.specs.Keys.{times};
ghost use Rattle.airy_math.specs.Planned.{IsPlanned};
ghost use Rattle.airy_math.specs.Terms.{terms};
ghost use Rattle.amp_plan.specs.Plans.{tensors_of};
ghost use Rattle.amp_plan.specs.Ranked.{NameAllowed, Takes, pivot_terms};

use crate::plan::Plan;
use crate::visitor::TermVisitor;
use crate::walk::walk_ranked;
use airy_index::Key;

/// Hands over all terms of the pivot sum of a planned key, for one of its indices, in their order.
pub fn walk_terms<V: TermVisitor>(plan: &Plan, key: &Key, pivot: u8, visitor: &mut V)
    requires planned { IsPlanned (tensors_of plan.now) plan.now.bound key.now }
    requires pivot { 0 < times pivot key.now.idx }
    requires allowed { NameAllowed (V.allows visitor.old) (pivot_terms plan.now pivot key.now) }
    ensures { Takes V.allows V.state V.step (pivot_terms plan.now pivot key.now) visitor.old visitor.new }
{
    walk_ranked(plan.ranking(), key, pivot, visitor)
}
