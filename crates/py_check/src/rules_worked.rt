//! Codes that were worked by hand, of instructions that don't run yet, each rule kept and broken.

ghost use Rattle.std.specs.Prelude.{[], ◌∷◌};
ghost use Rattle.py_code.specs.declared.instruction.Instruction.TheVariants as op;
ghost use Rattle.py_code.specs.declared.literal.Literal.{Code};
ghost use Rattle.py_check.specs.declared.note.Kind.TheVariants as kind;
ghost use Rattle.py_check.specs.Typing.{IsTyped};
ghost use Rattle.py_check.specs.Breaking.{BreaksFirst};
ghost use Rattle.py_check.specs.Worked.{Typed, Breaks, unit, loaded, nothing, one};
ghost use Rattle.py_check.specs.WorkedRules.{calling_by_name, delegating, iterating, joining, making, putting, with_a_cell};

/// Codes with cells, containers, texts, names, new functions, iterators and delegates keep the rules, and others break them.
pub fn worked_rules()
    // An operand is a cell, or one from outside, that is there.
    ensures cell { Typed (with_a_cell (unit op.LoadDeref 1)) }
    ensures no_cell { Breaks (with_a_cell (unit op.LoadDeref 2)) 0 }
    ensures free_cell { Typed (with_a_cell (unit op.LoadClassDeref 1)) }
    ensures own_cell { Breaks (with_a_cell (unit op.LoadClassDeref 0)) 0 }
    // An entry that is read is of its kind.
    ensures appends { Typed (putting (unit op.BuildList 0) (unit op.ListAppend 0) kind.List) }
    ensures appends_to_a_set { Breaks (putting (unit op.BuildSet 0) (unit op.ListAppend 0) kind.Set) 2 }
    ensures appends_below { Breaks (putting (unit op.BuildList 0) (unit op.ListAppend 1) kind.List) 2 }
    // What is popped is of its kind, and so is what is pushed.
    ensures joins { Typed (joining (unit op.LoadConst 1) kind.Str) }
    ensures joins_a_value { Breaks (joining (unit op.LoadFast 0) kind.Any) 2 }
    ensures a_list_is_no_set { Breaks (putting (unit op.BuildList 0) (unit op.SetAdd 0) kind.Set) 0 }
    // A call by name has a tuple of at most as many names as arguments.
    ensures calls_by_name { Typed (calling_by_name (kind.Names 1)) }
    ensures a_name_too_many { Breaks (calling_by_name (kind.Names 2)) 1 }
    ensures no_names { Breaks (calling_by_name kind.Tuple) 1 }
    // A new function is made of an earlier code, with as many cells as that has free names.
    ensures makes_function { IsTyped (0 ∷ []) (making 0 []) }
    ensures no_code { Breaks (making 0 []) 1 }
    ensures makes_closure { IsTyped (1 ∷ []) (making 1 (kind.Cells 1 ∷ [])) }
    ensures no_closure { BreaksFirst (1 ∷ []) (making 0 []) 1 }
    ensures a_cell_too_many { BreaksFirst (1 ∷ []) (making 1 (kind.Cells 2 ∷ [])) 1 }
    // A constant is an earlier code, and not the code itself.
    ensures loads_earlier_code { IsTyped (0 ∷ []) (loaded (Code 0) (kind.Code 0)) }
    ensures loads_itself { BreaksFirst (0 ∷ []) (loaded (Code 1) (kind.Code 1)) 0 }
    // An iterator lies on the stack until it ends.
    ensures iterates { Typed (iterating nothing) }
    ensures iterator_stays { Breaks (iterating one) 1 }
    // A generator goes on as another, but not right after a yield.
    ensures delegates { Typed (delegating (unit op.Rotate2 0)) }
    ensures delegates_behind_a_yield { Breaks (delegating (unit op.YieldValue 0)) 3 }
{}
