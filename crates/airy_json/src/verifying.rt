ghost use Rattle.std.specs.Prelude.{◌≡◌, length};
ghost use Rattle.amp_plan.specs.Plans.{tensors_of, keys_of};
ghost use Rattle.airy_json.specs.Verified.{IsVerified, JobVerifiedLaw, SameVerifiedLaw, VerifiedLaw};
ghost use Rattle.airy_json.specs.Verifying.{verified, Names};

use crate::VerifyEnd;
use amp_plan::Plan;
use amp_terms::{Outcome, Seen};
use constraint_check::{Failure, Pivots, first_failing};
use frac128::Frac;

/// Whether values, one for each rank of the plan, are those of a solution of the constraints of the plan's tensors. In the recursion of
/// Kontsevich and Soibelman, and of Andersen, Borot, Chekhov and Orantin, the amplitude of a key is the pivot sum of the others at each
/// of its indices; so it is asked of the given values.
///
/// The keys are taken in plan order, and in each its distinct indices, ascending. The first pivot sum that leaves the range gives `Over`,
/// the first that is another number than the key's value gives `Differs`, whichever comes first. `Solution` comes exactly where there
/// is none: the values are then those of every solution, and their series is one. At `Differs` it is none.
///
/// It takes no memory.
pub fn verify_values(plan: &Plan, values: &[Frac]) -> VerifyEnd
    requires { length values.now ≡ length (keys_of plan.now) }
    ensures { IsVerified plan.now values.now result }
{
    plan.tensors().soundness_fact();
    verified_values();
    first_failure(plan, values)
}

/// The first pivot that fails.
fn first_failure(plan: &Plan, values: &[Frac]) -> VerifyEnd
    requires { length values.now ≡ length (keys_of plan.now) }
    ensures { result ≡ verified (tensors_of plan.now) plan.now.bound values.now }
{
    match first_failing(
        plan,
        &mut GivenValues { values },
        0,
        plan.len(),
        Pivots::All,
    ) {
        None => VerifyEnd::Solution,
        Some(failure) => failed(failure),
    }
}

/// What is said of a key that fails.
fn failed(failure: Failure) -> VerifyEnd
    ensures { Names result failure }
{
    let Failure {
        rank: _,
        key,
        value,
        pivot,
        sum,
    } = failure;
    match sum {
        None => VerifyEnd::Over { key, pivot },
        Some(sum) => VerifyEnd::Differs {
            key,
            pivot,
            sum,
            given: value,
        },
    }
}

/// Given values as outcomes, for the terms of a pivot sum.
#[derive(Drop)]
struct GivenValues<'a> {
    values: &'a [Frac],
}

impl Seen for GivenValues<'_> {
    ghost use Rattle.std.specs.Prelude.{◌<◌, List, length};
    ghost use Rattle.airy_math.specs.Rational.{ℚ};
    ghost use Rattle.amp_terms.specs.Pivots.{listed};
    ghost use Rattle.airy_json.specs.Verifying.{as_table};

    ghost Base = { List ℚ };

    ghost made_over = { λ s. s.values.now };

    ghost has = { λ s r. r < length s.values.now };

    ghost shown = { λ s. listed (as_table s.values.now) };

    fn at(&mut self, rank: u32) -> Outcome {
        Outcome::Value(self.values[rank as usize])
    }
}

/// A law: what is found in given values is the first pivot that fails; where there is none, they are a solution, and each is that of
/// every solution; where a sum is another number, their series is none.
#[tactic(auto, using(crate::proofs::VerifiedLaw::verified_law))]
pub fn verified_values()
    ensures { VerifiedLaw }
{}

/// A law: the same of the values of a job's keys, for the job's solutions at every dim and fraction.
#[tactic(auto, using(crate::proofs::JobVerifiedLaw::job_verified))]
pub fn verified_job()
    ensures { JobVerifiedLaw }
{}

/// A law: tensors with the same entries at indices below dim have the same end.
#[tactic(auto, using(crate::proofs::SameVerifiedLaw::same_verified))]
pub fn same_verified()
    ensures { SameVerifiedLaw }
{}
