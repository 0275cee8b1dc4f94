// Theorems over the definitions of the report.
ghost use Rattle.ue.specs.Clause.{ReportStands};

// A report that is not declined is that of the clause, bit for bit.
pub fn report_stands()
    ensures { ReportStands }
{}
