//! Intersection numbers and volumes, read off a series; and the laws of those of the named structures: the string equation, the
//! dilaton equation and genus 0, for every solution of the constraints.
#![tactic(auto)]

ghost use Rattle.intersection_law.specs.Equations.{WittenLaw, NorburyLaw};

/// A law: the intersection numbers of every solution of Witten and Kontsevich's constraints meet the string equation, the dilaton
/// equation, and in genus 0 are the multinomial coefficients.
#[tactic(auto, using(crate::proofs::WittenLaw::witten))]
pub fn witten()
    ensures { WittenLaw }
{}

/// A law: the Theta numbers of every solution of Brezin, Gross and Witten's constraints meet the dilaton equation of theirs.
pub fn norbury()
    ensures { NorburyLaw }
{}
