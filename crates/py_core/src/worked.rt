//! Journals that anybody may hand in, worked by hand, and what the definitions say of them.

ghost use Rattle.std.specs.Prelude.{[]};
ghost use Rattle.py_grammar.specs.Lines.{lines};
ghost use Rattle.py_grammar.specs.Script.{Spells};
ghost use Rattle.py_meaning.specs.Worked.{object};
ghost use Rattle.py_core.specs.Worked.{
  Fails,
  IsWhole,
  decls,
  drives,
  events,
  events_by,
  linked,
  objects,
  objects_by,
  other_pairs,
  own_pairs,
  past_the_end,
  rewritten,
  script,
  second,
  strangers,
  unfinished,
};

/// The journal of `call f 7` is a whole run of its script to somebody who has the script alone, and stays one where what
/// differs counts for nothing. What differs in one thing that counts fails there.
pub fn worked_core_runs()
    // The script, and the journal of a machine.
    ensures spelled { Spells (lines script) decls drives }
    ensures is_whole { IsWhole objects [] events }
    // The number of a code, what the dict of the globals holds, further entries and links count for nothing.
    ensures any_code { IsWhole (objects_by 3 own_pairs []) [] events }
    ensures any_globals { IsWhole (objects_by 0 other_pairs []) [] events }
    ensures second_entry { IsWhole (objects_by 0 own_pairs second) [] events }
    ensures unknown_entries { IsWhole (objects_by 0 own_pairs strangers) [] events }
    ensures link_changed { IsWhole objects linked events }
    // The arguments of an exception never change, and each number is an object's.
    ensures arguments_changed { Fails 0 objects rewritten events }
    ensures entry_past_the_end { Fails 0 past_the_end [] events }
    ensures answer_past_the_end { Fails 4 objects [] (events_by (object 9)) }
    // Another answer, and an event too few.
    ensures other_answer { Fails 4 objects [] (events_by (object 3)) }
    ensures event_missing { Fails 6 objects [] unfinished }
{}
