ghost use Rattle.cell_words.specs.Resuming.{GrownTablesLaw};

/// A law: what can be resumed over a plan can be resumed over the plan up to a greater bound.
pub fn grown_tables()
    ensures { GrownTablesLaw }
{}
