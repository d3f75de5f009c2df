ghost use Rattle.airymore.specs.Curves.{CurveStepsLaw};

/// A law: the report of a curve's table is that of the first step that refuses, or the whole table.
pub fn curve_steps()
    ensures { CurveStepsLaw }
{}
