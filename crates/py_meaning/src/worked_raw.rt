//! A journal of a raw code that was worked by hand, and what the definitions say of it.

ghost use Rattle.std.specs.Prelude.{◌≡◌, [], codes};
ghost use Rattle.py_grammar.specs.Grammar.{OfRaw};
ghost use Rattle.py_grammar.specs.Lines.{lines};
ghost use Rattle.py_grammar.specs.Script.{Spells};
ghost use Rattle.py_run.specs.Coming.{IsDone};
ghost use Rattle.py_meaning.specs.Core.{IsCore};
ghost use Rattle.py_meaning.specs.Text.{events_text};
ghost use Rattle.py_meaning.specs.Whole.{IsRunOf, signature_of};
ghost use Rattle.py_meaning.specs.Worked.{drives, events, function_entry, objects, objects_by};
ghost use Rattle.py_meaning.specs.Worked.{decls as core_decls};
ghost use Rattle.py_meaning.specs.WorkedRaw.{
  block,
  decls,
  generating,
  generating_signature,
  returned,
  script,
  signature,
  uncounted,
  uncounted_decls,
  uncounted_signature,
};

/// The journal of a call of a raw code is a whole run of its script. The code has the parameters that its counts say, and makes
/// a generator where a flag says so.
pub fn worked_raws()
    // The script, and its journal.
    ensures spelled { Spells (lines script) decls drives }
    ensures is_run { IsRunOf decls drives objects returned }
    ensures is_whole { IsDone 1 returned }
    ensures text { events_text objects [] returned ≡ codes "1 returns 45\n" }
    // The signature.
    ensures counted { signature_of (OfRaw block) ≡ signature }
    ensures uncounted { signature_of (OfRaw uncounted) ≡ uncounted_signature }
    ensures generating { signature_of (OfRaw generating) ≡ generating_signature }
    // A call with more arguments enters nothing.
    ensures no_entry_with_more_arguments { IsRunOf uncounted_decls drives objects returned → ⊥ }
    // Its function has an entry as any other.
    ensures no_other_code { IsRunOf decls drives (objects_by (function_entry (codes "f") 1)) returned → ⊥ }
    ensures no_other_name { IsRunOf decls drives (objects_by (function_entry (codes "g") 0)) returned → ⊥ }
    // What it tells isn't said here: the run of a body that asks for a sum is taken too. Therefore the law of two runs is of
    // core scripts, and this is none.
    ensures tells_anything { IsRunOf decls drives objects events }
    ensures is_not_core { IsCore decls drives → ⊥ }
    ensures is_core { IsCore core_decls drives }
{}
