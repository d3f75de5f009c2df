//! Laws of the tensors of wk, bgw, wp and every curve: the five relations hold of them, they are symmetric and keep their grading,
//! and what a table of a curve is made of is a cut of the whole curve.
#![tactic(auto)]

ghost use Rattle.relation_law.specs.Curve.{WkRelations, BgwRelations, CurveRelations, WpRelations, CurveNumbersLaw};
ghost use Rattle.relation_law.specs.Cuts.{CurveCutLaw};
ghost use Rattle.relation_law.specs.Shapes.{WkShape, BgwShape, CurveShapes, WpShapes};

/// A law: wk meets the five relations in all places below N.
#[tactic(auto, using(crate::proofs::NamedLaw::wk_relations))]
pub fn wk_relations()
    ensures { WkRelations }
{}

/// A law: bgw meets the five relations in all places below N.
#[tactic(auto, using(crate::proofs::NamedLaw::bgw_relations))]
pub fn bgw_relations()
    ensures { BgwRelations }
{}

/// A law: the tensors of every sequence that begins with 1 meet them.
#[tactic(auto, using(crate::proofs::NamedLaw::curve_relations))]
pub fn curve_relations()
    ensures { CurveRelations }
{}

/// A law: wp meets them, whatever number the letter stands for.
#[tactic(auto, using(crate::proofs::NamedLaw::wp_relations))]
pub fn wp_relations()
    ensures { WpRelations }
{}

/// A law: the numbers of a curve are those of its rule.
#[tactic(auto, using(airy_math::proofs::NumberLaw::numbers))]
pub fn curve_numbers()
    ensures { CurveNumbersLaw }
{}

/// A law: wk is symmetric and graded.
#[tactic(auto, using(airy_math::proofs::FamilyLaw::wk_graded, airy_math::proofs::FamilyLaw::wk_symmetric))]
pub fn wk_shape()
    ensures { WkShape }
{}

/// A law: bgw is symmetric and graded.
#[tactic(auto, using(airy_math::proofs::FamilyLaw::bgw_graded, airy_math::proofs::FamilyLaw::bgw_symmetric))]
pub fn bgw_shape()
    ensures { BgwShape }
{}

/// A law: every curve is symmetric and graded.
#[tactic(auto, using(airy_math::proofs::FamilyLaw::curve_graded, airy_math::proofs::FamilyLaw::curve_symmetric))]
pub fn curve_shape()
    ensures { CurveShapes }
{}

/// A law: wp is symmetric and graded.
#[tactic(auto, using(airy_math::proofs::FamilyLaw::wp_graded, airy_math::proofs::FamilyLaw::wp_symmetric))]
pub fn wp_shape()
    ensures { WpShapes }
{}

/// A law: the tensors that a table of a curve is made of are a cut of the curve at every greatest index from the table's top on.
pub fn curve_is_cut()
    ensures { CurveCutLaw }
{}
