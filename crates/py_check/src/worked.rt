//! Codes that were worked by hand, and what the rules say of them.

ghost use Rattle.std.specs.Prelude.{◌≡◌, ℕ, ℤ, Bool, pos, negsuc, List, [], ◌∷◌};
ghost use Rattle.py_code.specs.declared.flags.TheConstants.CodeFlags.{HAS_VARARGS, HAS_VARKEYWORDS};
ghost use Rattle.py_code.specs.Flags.{all_of};
ghost use Rattle.py_code.specs.declared.literal.Literal.{Bool as BoolOf, Builtin, Code, Int, Str};
ghost use Rattle.py_code.specs.declared.literal.BuiltinFn.{BuiltinFn};
ghost use Rattle.py_code.specs.declared.instruction.Instruction.TheVariants as op;
ghost use Rattle.py_check.specs.declared.note.Kind.TheVariants as kind;
ghost use Rattle.py_check.specs.declared.note.Pending.TheVariants as pending;
ghost use Rattle.py_check.specs.declared.note.BlockNote.TheVariants as block;
ghost use Rattle.py_check.specs.declared.note.Note.TheVariants as note;
ghost use Rattle.py_check.specs.Constants.{tuple_kind};
ghost use Rattle.py_check.specs.Worked.{Typed, Breaks, unit, sheet, nothing, one, two, one_text, on_both, sum, with_cells, on_first, ending, returning, beginning, calling, looping, loop_units, loop_notes, no_loop_notes, opening, cutting, prefixed, loaded, loaded_later, stranded, guarded, guarded_prefix, handles, handled, handles_above, above_text, finishes, loop_above, falling_levels, waiting_on};

/// The code of a small function keeps the rules on units, and others break them, each first at a certain unit.
pub fn worked_notes()
    ensures sum_keeps { Typed sum }
    // The stack is too small, or a note is missing, says too much, or is dead.
    ensures too_deep { Breaks (record sum { max_stackdepth = 1 }) 1 }
    ensures missing_note { Breaks (record sum { notes = nothing ∷ one ∷ two ∷ [] }) 0 }
    ensures wrong_kind { Breaks (record sum { notes = nothing ∷ one_text ∷ two ∷ one ∷ [] }) 0 }
    ensures dead_note { Breaks (record sum { notes = nothing ∷ one ∷ note.Dead ∷ one ∷ [] }) 1 }
    // A local, an operator, a constant or a value on the stack isn't there.
    ensures no_local { Breaks (record sum { varnames = 1; arg_count = 1 }) 1 }
    ensures no_operator { Breaks (on_both op.BinaryOperation 13) 2 }
    ensures no_constant { Breaks (sheet (unit op.ReturnConst 1 ∷ []) (nothing ∷ [])) 0 }
    ensures no_value { Breaks (on_first (unit op.BinaryOperation 6) one) 1 }
    ensures sets_no_local { Breaks (stranded (unit op.StoreFast 2) one nothing) 1 }
    ensures sets_a_local_to_nothing { Breaks (stranded (unit op.StoreFast 1) nothing nothing) 1 }
    ensures returns_no_value { Breaks (stranded (unit op.ReturnValue 0) nothing nothing) 1 }
    // The units end.
    ensures no_end { Breaks (ending (unit op.Pop 0)) 1 }
    ensures subtracts { Typed (on_both op.BinaryOperation 7) }
    ensures multiplies { Typed (on_both op.BinaryOperation 1) }
    ensures compares { Typed (on_both op.CompareOperation 5) }
    ensures compares_otherwise { Breaks (on_both op.CompareOperation 6) 2 }
    // A global is known by a name that is there.
    ensures global { Typed (returning (unit op.LoadGlobal 0)) }
    ensures no_global { Breaks (returning (unit op.LoadGlobal 1)) 0 }
    ensures loads_truth { (truth : Bool) → Typed (loaded_later (BoolOf truth) kind.Any) }
    ensures loads_builtin { (f : BuiltinFn) → Typed (loaded_later (Builtin f) kind.Any) }
    // A code may stand among the constants where it is an earlier one.
    ensures no_earlier_code { Breaks (loaded_later (Code 0) (kind.Code 0)) 0 }
    // A prefix counts for the unit after it, and three may stand in a row.
    ensures three_prefixes { Typed (prefixed 0 (prefixed 0 (prefixed 0 sum))) }
    ensures four_prefixes { Breaks (prefixed 0 (prefixed 0 (prefixed 0 (prefixed 0 sum)))) 3 }
    ensures prefix_counts { Breaks (prefixed 1 sum) 1 }
    // What is known of a constant.
    ensures text { (text : List ℕ) → Typed (loaded (Str text) kind.Str) }
    ensures number { (n : ℤ) → Breaks (loaded (Int n) kind.Str) 0 }
    ensures texts { (text : List ℕ) → tuple_kind (Str text ∷ Str text ∷ []) ≡ kind.Names 2 }
    ensures other_tuple { (text : List ℕ) (n : ℤ) → tuple_kind (Str text ∷ Int n ∷ []) ≡ kind.Tuple }
{}

/// Codes that keep the rules on the whole code, and others that break them, which counts as unit 0.
pub fn worked_codes()
    ensures no_unit { Breaks (sheet [] []) 0 }
    ensures no_location { Breaks (record sum { locations = 3 }) 0 }
    ensures wrong_start { Breaks (record sum { notes = one ∷ one ∷ two ∷ one ∷ [] }) 0 }
    ensures stack_too_large { Breaks (record sum { max_stackdepth = 65536 }) 0 }
    ensures no_such_code { Breaks (record sum { constants = Code 0 ∷ [] }) 0 }
    // Parameters are among the locals, and those by position alone are among those by position.
    ensures var_args { Typed (record sum { arg_count = 1; flags = HAS_VARARGS }) }
    ensures too_many_parameters { Breaks (record sum { arg_count = 1; flags = all_of (HAS_VARARGS ∷ HAS_VARKEYWORDS ∷ []) }) 0 }
    ensures too_many_by_name { Breaks (record sum { kwonlyarg_count = 1 }) 0 }
    ensures by_position_alone { Breaks (record sum { posonlyarg_count = 3 }) 0 }
    // A cell takes over a parameter, or none.
    ensures cells { Typed (with_cells (negsuc 0 ∷ pos 1 ∷ [])) }
    ensures cells_of_no_parameter { Breaks (with_cells (negsuc 0 ∷ pos 2 ∷ [])) 0 }
    ensures cells_below { Breaks (with_cells (negsuc 1 ∷ pos 1 ∷ [])) 0 }
    ensures too_few_cells { Breaks (with_cells (pos 1 ∷ [])) 0 }
    // A call takes as many arguments as its operand says, with the callee under them.
    ensures calls { Typed (calling 2) }
    ensures no_callee { Breaks (calling 3) 3 }
    ensures argument_left { Breaks (calling 1) 3 }
{}

/// Codes whose notes have blocks keep the rules, and others break them, each first at a certain unit.
pub fn worked_blocks()
    // The handler of a block is a unit that may be reached from it, with the entries under the block.
    ensures handled { Typed (guarded [] (block.TryExcept 0 2) handles) }
    ensures handled_above { Typed (guarded above_text (block.TryExcept 1 2) handles_above) }
    ensures finally_handled { Typed (guarded [] (block.Finally 0 2) (finishes [] (pending.Break 0 ∷ []))) }
    ensures dead_handler { Breaks (guarded [] (block.TryExcept 0 2) note.Dead) 1 }
    ensures no_exception { Breaks (guarded [] (block.TryExcept 0 2) handled) 1 }
    ensures another_block { Breaks (guarded [] (block.Finally 0 2) handles) 1 }
    // A label is a unit without a prefix before it.
    ensures no_label { Breaks (guarded [] (block.TryExcept 0 3) handles) 1 }
    ensures label_of_prefix { Typed (guarded_prefix 2) }
    ensures label_behind_prefix { Breaks (guarded_prefix 3) 1 }
    // A level is within the stack and not below that of the block around, and nothing under it is popped.
    ensures level_too_high { Breaks (guarded [] (block.Loop 1) note.Dead) 1 }
    ensures falling_level { Breaks falling_levels 1 }
    ensures popped_below { Breaks (stranded (unit op.Pop 0) (loop_above 1) (loop_above 0)) 1 }
    ensures called_below { Breaks (stranded (unit op.CallFunctionPositional 0) (loop_above 1) (loop_above 1)) 1 }
    // What may wait in a handler goes over to a note in which more may.
    ensures more_pending { Typed (waiting_on (pending.Continue 1 ∷ pending.Break 1 ∷ [])) }
    ensures less_pending { Breaks (waiting_on (pending.Continue 1 ∷ [])) 1 }
{}

/// A code that loops keeps the rules, and others break them, each first at a certain unit.
pub fn worked_loops()
    ensures loops { Typed looping }
    // A jump goes to a unit without a prefix before it, whose note is as it should be.
    ensures no_label { Breaks (record looping { units = loop_units 6 }) 2 }
    ensures label_behind_prefix { Breaks (prefixed 0 (sheet (unit op.Jump 1 ∷ []) (nothing ∷ []))) 1 }
    ensures other_block { Breaks (record looping { units = loop_units 5 }) 2 }
    ensures falls_on { Breaks (record looping { notes = loop_notes nothing }) 2 }
    // A loop's block lies on the stack as it is, and is the innermost one at its end.
    ensures no_block { Breaks (record looping { notes = no_loop_notes }) 0 }
    ensures wrong_level { Breaks (opening 0) 1 }
    ensures no_block_left { Breaks (beginning (unit op.PopBlock 0)) 0 }
    ensures cut_to_its_level { Typed cutting }
    ensures handler_stays { Breaks (stranded (unit op.PopBlock 0) handles nothing) 1 }
{}
