ghost use Rattle.airyrun.specs.Laws.{OneStatusLaw, OneReportLaw};
ghost use Rattle.run_reports.specs.StructureTables.{TableStepsLaw};

/// A law: the report of a table is that of the first step that refuses, or the whole table.
pub fn table_steps()
    ensures { TableStepsLaw }
{}

/// A law: what is meant has one status; and where the job is no session, it is one report.
pub fn meant_is_one()
    ensures status { OneStatusLaw }
    ensures report { OneReportLaw }
{}
