//! A journal with a report that was worked by hand, and what the definitions say of it.

ghost use Rattle.std.specs.Prelude.{◌≡◌, ◌++◌, [], codes};
ghost use Rattle.py_code.specs.Codes.{Codes};
ghost use Rattle.py_objects.specs.Singletons.{none_object};
ghost use Rattle.py_objects.specs.declared.event.DriveAnswer.TheVariants.{Raises, Reported, Returns};
ghost use Rattle.py_grammar.specs.Lines.{lines};
ghost use Rattle.py_grammar.specs.Script.{Spells};
ghost use Rattle.py_run.specs.Coming.{IsDone};
ghost use Rattle.py_meaning.specs.Text.{text_of};
ghost use Rattle.py_meaning.specs.Worked.{exception};
ghost use Rattle.py_meaning.specs.WorkedLoop.{unknown_decls};
ghost use Rattle.py_meaning.specs.WorkedReport.{script, drives, events, journal, report, without_source, with_other_line, last_line, ComesWith, ComesTo, NeverComesTo, NoCallReports};

use py_reports::laws_of_reports;

/// The journal of a `report 1` behind a call that raises is a whole run of its script, where the report is the traceback of what the call raised, and
/// its last line, as CPython prints one that nobody catches. With another answer it is none.
pub fn worked_report_drives()
    // The script, and its journal.
    ensures spelled { Spells (lines script) unknown_decls drives }
    ensures is_run { ComesTo (Reported report) }
    ensures is_whole { IsDone 2 (events (Reported report)) }
    ensures text { (k : Codes) → text_of (journal k (Reported report)) ≡ codes "1 raises NameError: name 'z' is not defined\n" ++ report }
    // Without a source text it has no source line.
    ensures without_a_source { ComesWith [] (Reported without_source) }
    // No other text is the report.
    ensures no_source_line_left_out { NeverComesTo (Reported without_source) }
    ensures no_other_line { NeverComesTo (Reported with_other_line) }
    ensures no_traceback_left_out { NeverComesTo (Reported last_line) }
    ensures no_empty_report { NeverComesTo (Reported []) }
    // A report drive raises nothing, and returns nothing.
    ensures no_raise_in_its_place { NeverComesTo (Raises (exception 6)) }
    ensures no_value_in_its_place { NeverComesTo (Returns none_object) }
    // Only a report drive reports.
    ensures no_report_of_a_call { NoCallReports }
{
    laws_of_reports();
}
