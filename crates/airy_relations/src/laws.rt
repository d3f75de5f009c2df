ghost use Rattle.airy_relations.specs.NoDifference.{NoDifferenceLaw};
ghost use Rattle.airy_relations.specs.SameVerdict.{SameVerdictLaw};

/// A law: two tensors with the same entries at indices below dim have the same verdict on all places below dim.
#[tactic(auto, using(crate::proofs::SameVerdictLaw::same_verdict))]
pub fn same_verdict()
    ensures { SameVerdictLaw }
{}

/// A law: where symmetric tensors meet the relations in all places below N, the verdict on these places is never Differs.
#[tactic(auto, using(crate::proofs::NoDifferenceLaw::no_difference_law))]
pub fn no_difference()
    ensures { NoDifferenceLaw }
{}
