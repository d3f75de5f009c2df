ghost use Rattle.std.specs.Prelude.{◌≡◌, length, true, IfSome};
ghost use Rattle.amp_plan.specs.Plans.{keys_of};
ghost use Rattle.amp_plan.specs.Places.{are_below};
ghost use Rattle.series_law.specs.Amplitudes.{HoldsOutcomes, IsAmplitude, shown_amplitude};

use airy_index::Key;
use amp_plan::{Place, Plan};
use amp_terms::Table;
use frac128::Frac;

/// The amplitude that a table of the plan shows at a key: the Value of a planned key that has one, and 0 where the shape doesn't
/// cover the key. Where each filled cell of the table holds its rank's outcome, it is what every solution of the plan's tensors up to
/// the bound has there; the other cells may be empty.
pub fn amplitude_of(plan: &Plan, table: &Table, key: &Key) -> Option<Frac>
    requires { length table.now ≡ length (keys_of plan.now) }
    ensures amplitude { result ≡ shown_amplitude plan.now table.now key.now }
    ensures unique { HoldsOutcomes plan.now table.now → are_below plan.now.tensors.dim key.now.idx ≡ true →
        IfSome result (IsAmplitude plan.now key.now) }
{
    plan.tensors().soundness_fact();
    key.validity_fact();
    crate::uniqueness();
    airy_math::planned_once();
    match plan.rank_of(key) {
        Place::At(rank) => table.value(rank),
        Place::Zero => Some(Frac::whole(0)),
        Place::Beyond | Place::BadIndex => None,
    }
}

#[cfg(test)]
mod tests {
    use super::*;
    use amp_terms::one_thread;
    use sparse_tensor::{Law, Shape, Tensors};
    use std::alloc::Global;
    use std::test::Fail;

    /// What the table up to 2 shows at a key, for the entries of Witten and Kontsevich that 1,2 [0 2] reads.
    #[tactic(auto, unfolding(sparse_tensor::specs::Grades::IsSmallLaw))]
    fn shown(alloc: Global, g: u8, idx: &[u8]) -> Result<Option<Frac>, Fail> {
        let shape = Shape::Exact(Law { per_g: 3, per_n: 1 });
        let mut tensors = Tensors::empty(alloc, 3, shape, false).map_err(|_| "tensors")?;
        tensors.put_b(0, 2, 1, Frac::whole(5)).map_err(|_| "B")?;
        let eighth = Frac::new(1, 8).map_err(|_| "1/8")?;
        tensors.put_d(1, eighth).map_err(|_| "D")?;
        let plan = Plan::make(alloc, tensors, 2).map_err(|_| "plan")?;
        let table = one_thread(alloc, &plan).map_err(|_| "table")?;
        let key = Key::of(g, idx).map_err(|_| "key")?;
        Ok(amplitude_of(&plan, &table, &key))
    }

    #[test]
    fn amplitudes_of_a_table(rt: HostRuntime) -> Result<(), Fail> {
        let alloc = rt.alloc();
        let planned = shown(alloc, 1, &[0, 2])?;
        assert_eq!(rt; planned.ok_or("no Value")?.parts(), (5, 8));
        let uncovered = shown(alloc, 1, &[0, 1])?;
        assert_eq!(rt; uncovered.ok_or("no zero")?.parts(), (0, 1));
        let beyond = shown(alloc, 0, &[0, 0, 0, 0, 2])?;
        assert!(rt; beyond.is_none());
        Ok(())
    }
}
