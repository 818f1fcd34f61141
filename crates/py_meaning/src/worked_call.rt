//! A journal of functions that call that was worked by hand, and what the definitions say of it.

ghost use Rattle.std.specs.Prelude.{◌≡◌, [], ◌∷◌};
ghost use Rattle.py_grammar.specs.Lines.{lines};
ghost use Rattle.py_grammar.specs.Script.{Spells};
ghost use Rattle.py_run.specs.Coming.{IsDone};
ghost use Rattle.py_meaning.specs.Whole.{AreGlobals, IsRunOf};
ghost use Rattle.py_meaning.specs.Text.{events_text};
ghost use Rattle.py_meaning.specs.Worked.{object};
ghost use Rattle.py_meaning.specs.WorkedCall.{objects_by, pair_of_g, pair_of_f, script, decls, drives, objects, returned, again, events, made_twice, answered_early, numbered_on, never_entered, swapped, refused_made, text, EntersAt999, EntersNothingAt1000, IsMadeAtAnyDepth};

/// The journal of a function that calls another one, of a drive whose argument an earlier drive left, and of a drive that
/// is refused, is a whole run of its script. What differs from it in one thing is none. At most a thousand activations run.
pub fn worked_calls()
    // The script, and its journal.
    ensures spelled { Spells (lines script) decls drives }
    ensures is_run { IsRunOf decls drives objects events }
    ensures is_whole { IsDone 3 events }
    ensures text { events_text objects [] events ≡ text }
    // The dict of the globals has a pair for each function, in any order.
    ensures any_order { AreGlobals decls (objects_by (pair_of_f ∷ pair_of_g ∷ [])) (object 4) }
    ensures no_name_unbound { AreGlobals decls (objects_by (pair_of_g ∷ [])) (object 4) → ⊥ }
    // The callee is made once, with the next number and its arguments in order, is entered, and ends before the caller goes on.
    ensures no_callee_made_twice { IsRunOf decls drives objects made_twice → ⊥ }
    ensures no_other_number { IsRunOf decls drives objects numbered_on → ⊥ }
    ensures no_swapped_arguments { IsRunOf decls drives objects swapped → ⊥ }
    ensures no_callee_never_entered { IsRunOf decls drives objects never_entered → ⊥ }
    ensures no_answer_before_the_end { IsRunOf decls drives objects answered_early → ⊥ }
    // A drive's result is what its function returned, and what the drives after it name by its number.
    ensures no_other_result { IsRunOf decls drives objects (returned (object 0) []) → ⊥ }
    ensures no_other_object_of_a_drive { IsRunOf decls drives objects (again (object 0) []) → ⊥ }
    // What is refused is never made.
    ensures no_activation_of_a_refused_drive { IsRunOf decls drives objects refused_made → ⊥ }
    // A function whose activations can't be suspended, and that gets its own number of arguments, is entered where 999 activations run; where
    // 1000 run, its call enters nothing. The activation of a generator function is made at any depth.
    ensures entry_at_999 { EntersAt999 }
    ensures no_entry_at_1000 { EntersNothingAt1000 }
    ensures made_at_any_depth { IsMadeAtAnyDepth }
{}
