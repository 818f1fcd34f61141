//! What holds of every report.

ghost use Rattle.py_reports.specs.Laws.{IsTold, OneReport, OneStandsOnce};

/// The pieces of all steps over one scene are the whole report; each exception stands in it once at
/// most; and of one exception there is one report.
pub fn laws_of_reports()
    ensures told { IsTold }
    ensures once { OneStandsOnce }
    ensures one { OneReport }
{}
