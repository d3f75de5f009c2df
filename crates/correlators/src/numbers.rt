ghost use Rattle.std.specs.Prelude.{◌≡◌, length, IfOk};
ghost use Rattle.amp_plan.specs.Plans.{keys_of};
ghost use Rattle.series_law.specs.Amplitudes.{HoldsOutcomes};
ghost use Rattle.correlators.specs.Numbers.{number_in, number_of};
ghost use Rattle.correlators.specs.Laws.{NumberOfSolutions};

use crate::CorrErr;
use crate::divisions::over_each;
use airy_index::Key;
use amp_plan::{Place, Plan};
use amp_terms::Table;
use frac128::Frac;

/// The intersection number that a table of the plan gives at a key of tensors without a letter: its Value over the product of the
/// (2d + 1)!! of its indices, and 0 where the shape doesn't cover it. Of the tensors of Brezin, Gross and Witten it is a Theta number.
/// With F(g,n)[d1 .. dn] the amplitude, <tau_d1 .. tau_dn>_g = F(g,n)[d1 .. dn] / ((2 d1 + 1)!! .. (2 dn + 1)!!).
///
/// The value is divided by 3, 5, .., 2d + 1 for each index d, ascending, one after the other. The refusals, in this order: `Kind` exactly
/// where the tensors carry the letter, `Beyond` exactly where the Euler number is above the bound, `Index` exactly where the shape covers
/// the key and an index isn't below dim, `NotValue` exactly where the table has no Value at the key, and `Over` exactly where a step of the
/// division leaves the range. Where each filled cell of the table holds its rank's outcome, the number is that of every solution.
///
/// It takes no memory.
#[tactic(auto, unfolding(crate::specs::Numbers::number_in))]
pub fn number(plan: &Plan, table: &Table, key: &Key) -> Result<Frac, CorrErr>
    requires { length table.now ≡ length (keys_of plan.now) }
    ensures answer { result ≡ number_in plan.now table.now key.now }
    ensures unique { HoldsOutcomes plan.now table.now → IfOk result (NumberOfSolutions plan.now key.now) }
{
    if plan.tensors().letter() {
        return Err(CorrErr::Kind);
    }
    key.validity_fact();
    airy_math::planned_once();
    match plan.rank_of(key) {
        Place::At(rank) => quotient(table.value(rank), key),
        Place::Zero => Ok(Frac::whole(0)),
        Place::Beyond => Err(CorrErr::Beyond),
        Place::BadIndex => Err(CorrErr::Index),
    }
}

/// The Value of a key over the product of the (2d + 1)!!.
#[tactic(auto, unfolding(crate::specs::Divisions::over_odd_factorials))]
fn quotient(value: Option<Frac>, key: &Key) -> Result<Frac, CorrErr>
    ensures { result ≡ number_of key.now value }
{
    let Some(value) = value else {
        return Err(CorrErr::NotValue { key: key.copy() });
    };
    match over_each(value, key.idx(), 2) {
        Some(quotient) => Ok(quotient),
        None => Err(CorrErr::Over { key: key.copy() }),
    }
}
