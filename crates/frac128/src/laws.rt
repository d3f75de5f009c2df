ghost use Rattle.frac128.specs.Laws.{SchoolRules, RangeRules};

/// A law: fractions are compared, added and multiplied as pairs of whole numbers are at school, by cross products.
#[tactic(auto, using(crate::proofs::FractionLaws::school_rules))]
pub fn school_rules()
    ensures { SchoolRules }
{}

/// A law: a sum is obtained exactly where its four numbers are in range, a product exactly where its two numbers in lowest terms are.
#[tactic(auto, using(crate::proofs::FractionLaws::range_rules))]
pub fn range_rules()
    ensures { RangeRules }
{}
