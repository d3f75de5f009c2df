//! The plan of a table: the keys that it has, in order, and their ranks.
#![tactic(auto)]

ghost use Rattle.amp_plan.specs.SameLimits.{SameLimitsLaw};

mod cause;
mod finding;
mod graph;
mod marker;
mod pair;
mod place;
mod plan;
mod ranking;
mod rows;
mod search;
mod share;
mod terms;
mod visitor;
mod walk;

pub use cause::{PlanCause, PlanErr};
pub use place::Place;
pub use plan::{GrowErr, Plan};
pub use terms::walk_terms;
pub use visitor::TermVisitor;

/// A law: tensors with the same entries at indices below dim have plans with the same limits.
pub fn same_limits()
    ensures { SameLimitsLaw }
{
    airy_math::planned_once();
    airy_math::below_dim();
}

#[cfg(test)]
mod tests;
