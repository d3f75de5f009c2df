ghost use Rattle.std.specs.Prelude.{◌≡◌};
ghost use Rattle.airy_math.specs.Relations.{Close};
ghost use Rattle.amp_plan.specs.Plans.{tensors_of};
ghost use Rattle.amp_terms.specs.Tables.{full_table};
ghost use Rattle.airy_exists.specs.Agreement.{IsAgreed};

use crate::Agreed;
use amp_plan::Plan;
use amp_terms::Table;

/// Whether the series of a table solves the constraints of the plan's tensors up to the bound, where these tensors meet the five
/// relations in all places and the table holds the outcome of every rank. Then the operators close, so there is a solution (Kontsevich
/// and Soibelman; Andersen, Borot, Chekhov and Orantin), each Value is its amplitude, and so is the pivot sum at every index.
///
/// `NotValue` comes exactly where a rank has no Value, and names the first such key in plan order. Else it answers `Solution`: every
/// pivot sum is the key's Value, and the table's series solves the constraints. Whatever it answers, the series of the exact amplitudes
/// solves them up to every bound. No pivot is looked at, and no memory is taken.
pub fn agreed(plan: &Plan, table: &Table) -> Agreed
    requires relations { Close (tensors_of plan.now) plan.now.tensors.dim }
    requires outcomes { table.now ≡ full_table (tensors_of plan.now) plan.now.bound }
    ensures { IsAgreed plan.now table.now result }
{
    plan.tensors().soundness_fact();
    match table.first_not_value() {
        Some(rank) => Agreed::NotValue {
            key: plan.key(rank),
        },
        None => Agreed::Solution,
    }
}
