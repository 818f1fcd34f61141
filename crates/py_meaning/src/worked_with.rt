//! A journal with a class, a manager and a with that was worked by hand, and what the definitions say of it.

ghost use Rattle.std.specs.Prelude.{◌≡◌, [], codes};
ghost use Rattle.py_objects.specs.declared.error_kind.ErrorKind.TheVariants.{TypeError, ValueError};
ghost use Rattle.py_grammar.specs.Lines.{lines};
ghost use Rattle.py_grammar.specs.Script.{Spells};
ghost use Rattle.py_run.specs.Coming.{IsDone};
ghost use Rattle.py_meaning.specs.Whole.{IsRunOf};
ghost use Rattle.py_meaning.specs.Text.{events_text};
ghost use Rattle.py_meaning.specs.Worked.{object};
ghost use Rattle.py_meaning.specs.WorkedLoop.{drives};
ghost use Rattle.py_meaning.specs.WorkedWith.{script, decls, objects_by, objects, events, unexited, swallowed, told_value};

/// The journal of a `with` whose body returns is a whole run of its script (Python Language Reference, 8.5): the manager's exit is told None three
/// times, and the return stays, though the exit answers True. What differs from it in one thing is none.
pub fn worked_withs()
    // The script, and its journal.
    ensures spelled { Spells (lines script) decls drives }
    ensures is_run { IsRunOf decls drives objects events }
    ensures is_whole { IsDone 1 events }
    ensures text { events_text objects [] events ≡ codes "1 returns 7\n" }
    // The exit is called, is told nothing but None, and swallows no return.
    ensures no_exit_passed_by { IsRunOf decls drives objects unexited → ⊥ }
    ensures no_return_swallowed { IsRunOf decls drives objects swallowed → ⊥ }
    ensures no_value_told { IsRunOf decls drives objects told_value → ⊥ }
    // The class has its base, and the manager its exit.
    ensures no_other_base { IsRunOf decls drives (objects_by (object 1) TypeError) events → ⊥ }
    ensures no_other_exit { IsRunOf decls drives (objects_by (object 0) ValueError) events → ⊥ }
{}
