//! What the table of a curve says of every solution of the curve's differential constraints.
#![tactic(auto)]

ghost use Rattle.curve_law.specs.Tables.{CurveTableLaw};

/// A law: the table of a curve up to a bound shows what every solution of the whole curve has, at every greatest index from the
/// table's on; where the check of every pivot finds nothing, its series is such a solution, and where two orders differ, there is none.
pub fn curve_tables()
    ensures { CurveTableLaw }
{}
