//! Reports that are worked by hand.

ghost use Rattle.py_reports.specs.Reports.{IsReport};
ghost use Rattle.py_reports.specs.Worked.{after_its_cause, after_its_context, caused, caused_by_itself, followed, last, last_alone, misread, round, suppressed, traced, with_its_line, with_misread, with_traceback};

/// Reports of an exception with a cause, a context, a suppressed context, a loop of contexts, itself for
/// its cause, and a traceback, and of a SyntaxError. One that stops after the first exception is none.
pub fn worked_reports()
    ensures cause { IsReport caused last after_its_cause }
    ensures context { IsReport followed last after_its_context }
    ensures suppressed_context { IsReport suppressed last last_alone }
    ensures loop_of_contexts { IsReport round last after_its_context }
    ensures own_cause { IsReport caused_by_itself last last_alone }
    ensures traceback { IsReport traced last with_traceback }
    ensures syntax_error { IsReport with_misread misread with_its_line }
    ensures stops_early { IsReport caused last last_alone → ⊥ }
{}
