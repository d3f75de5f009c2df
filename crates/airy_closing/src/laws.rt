ghost use Rattle.airy_closing.specs.Operators.{ProductLaw};
ghost use Rattle.airy_closing.specs.Closing.{ClosingLaw, NumbersLaw, BracketLaw, OrderLaw};

/// A law: the operators of a tensor close exactly where the five relations hold.
#[tactic(auto, using(crate::proofs::ClosingLaw::closing_law))]
pub fn closing_law()
    ensures { ClosingLaw }
{}

/// A law: where they do, it is by the numbers `B^i_ja - B^j_ia`.
#[tactic(auto, using(crate::proofs::ClosingLaw::numbers_law))]
pub fn numbers_law()
    ensures { NumbersLaw }
{}

/// A law: and by no other numbers than `B^i_ja - B^j_ia`.
#[tactic(auto, using(crate::proofs::ClosingLaw::bracket_law))]
pub fn bracket_law()
    ensures { BracketLaw }
{}

/// A law: operators with equal normal forms have products with equal normal forms.
#[tactic(auto, using(crate::proofs::ProductLaw::product_law))]
pub fn product_law()
    ensures { ProductLaw }
{}

/// A law: the relations for i below j are all of them.
#[tactic(auto, using(crate::proofs::ClosingLaw::order_law))]
pub fn order_law()
    ensures { OrderLaw }
{}
