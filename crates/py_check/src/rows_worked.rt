//! Codes that were worked by hand for the instructions, and the cases of instructions, that the other worked codes leave out: what each
//! takes off the stack and leaves there. Most don't run yet.

ghost use Rattle.std.specs.Prelude.{[], ◌∷◌};
ghost use Rattle.py_code.specs.declared.flags.TheConstants.CodeFlags.{IS_COROUTINE};
ghost use Rattle.py_code.specs.declared.instruction.Instruction.TheVariants as op;
ghost use Rattle.py_check.specs.declared.note.Kind.TheVariants.{Any, Str, Tuple, List, Set, Dict, Exc, Cell, Cells, Names, Code};
ghost use Rattle.py_check.specs.Typing.{IsTyped};
ghost use Rattle.py_check.specs.Breaking.{BreaksFirst};
ghost use Rattle.py_check.specs.declared.note.BlockNote.TheVariants.{ExceptHandler, FinallyHandler};
ghost use Rattle.py_check.specs.Worked.{Typed, Breaks, unit, values};
ghost use Rattle.py_check.specs.WorkedHandlers.{finishing};
ghost use Rattle.py_check.specs.WorkedRows.{building, calling_by, calling_exit, celling, cells, changing, crowding, delegating_behind, delegating_in, delegating_prefixed, delegating_to, delegating_under_a_loop, ending_exit, ending_exit_at, ending_loop_at, extending, filling, leaving, looping_over, making_by, making_of, parting, parting_behind, parting_by_text, parting_in_a_loop, putting_below, putting_pair, raised, texts, three, turning};

/// Codes that read, set and delete names, cells and attributes, and that import, keep the rules, and others break them.
pub fn worked_name_rows()
    // A name is one of the table. The value under it is pushed, or what is set is popped.
    ensures reads_a_name { Typed (changing (unit op.LoadNameAny 0) 0 1) }
    ensures reads_no_name { Breaks (changing (unit op.LoadNameAny 1) 0 1) 1 }
    ensures reads_a_name_and_pushes_nothing { Breaks (changing (unit op.LoadNameAny 0) 0 0) 1 }
    ensures sets_a_local_name { Typed (changing (unit op.StoreLocal 0) 1 0) }
    ensures sets_no_local_name { Breaks (changing (unit op.StoreLocal 1) 1 0) 1 }
    ensures sets_a_local_name_to_nothing { Breaks (changing (unit op.StoreLocal 0) 0 0) 1 }
    ensures deletes_a_local_name { Typed (changing (unit op.DeleteLocal 0) 0 0) }
    ensures deletes_no_local_name { Breaks (changing (unit op.DeleteLocal 1) 0 0) 1 }
    ensures deletes_a_local_name_and_pops { Breaks (changing (unit op.DeleteLocal 0) 1 0) 1 }
    ensures sets_a_global { Typed (changing (unit op.StoreGlobal 0) 1 0) }
    ensures sets_no_global { Breaks (changing (unit op.StoreGlobal 1) 1 0) 1 }
    ensures sets_a_global_to_nothing { Breaks (changing (unit op.StoreGlobal 0) 0 0) 1 }
    ensures deletes_a_global { Typed (changing (unit op.DeleteGlobal 0) 0 0) }
    ensures deletes_no_global { Breaks (changing (unit op.DeleteGlobal 1) 0 0) 1 }
    ensures deletes_a_global_and_pops { Breaks (changing (unit op.DeleteGlobal 0) 1 0) 1 }
    // A cell is one of the code or one from outside.
    ensures sets_an_own_cell { Typed (celling (unit op.StoreDeref 0) (Any ∷ []) []) }
    ensures sets_a_free_cell { Typed (celling (unit op.StoreDeref 1) (Any ∷ []) []) }
    ensures sets_no_cell { Breaks (celling (unit op.StoreDeref 2) (Any ∷ []) []) 1 }
    ensures sets_a_cell_to_nothing { Breaks (celling (unit op.StoreDeref 0) [] []) 1 }
    ensures empties_an_own_cell { Typed (celling (unit op.DeleteDeref 0) [] []) }
    ensures empties_a_free_cell { Typed (celling (unit op.DeleteDeref 1) [] []) }
    ensures empties_no_cell { Breaks (celling (unit op.DeleteDeref 2) [] []) 1 }
    ensures empties_a_cell_and_pops { Breaks (celling (unit op.DeleteDeref 0) (Any ∷ []) []) 1 }
    ensures loads_an_own_cell { Typed (celling (unit op.LoadClosure 0) [] (Cell ∷ [])) }
    ensures loads_a_free_cell { Typed (celling (unit op.LoadClosure 1) [] (Cell ∷ [])) }
    ensures loads_no_cell { Breaks (celling (unit op.LoadClosure 2) [] (Cell ∷ [])) 1 }
    ensures what_is_in_a_cell_is_no_cell { Breaks (celling (unit op.LoadDeref 0) [] (Cell ∷ [])) 1 }
    // An attribute has a name of the table, and its object is on top.
    ensures reads_an_attribute { Typed (changing (unit op.LoadAttr 0) 1 1) }
    ensures reads_no_attribute { Breaks (changing (unit op.LoadAttr 1) 1 1) 1 }
    ensures reads_an_attribute_of_nothing { Breaks (changing (unit op.LoadAttr 0) 0 1) 1 }
    ensures an_object_stays_under_its_attribute { Breaks (changing (unit op.LoadAttr 0) 1 2) 1 }
    ensures sets_an_attribute { Typed (changing (unit op.StoreAttr 0) 2 0) }
    ensures sets_no_attribute { Breaks (changing (unit op.StoreAttr 1) 2 0) 1 }
    ensures sets_an_attribute_to_nothing { Breaks (changing (unit op.StoreAttr 0) 1 0) 1 }
    ensures deletes_an_attribute { Typed (changing (unit op.DeleteAttr 0) 1 0) }
    ensures deletes_no_attribute { Breaks (changing (unit op.DeleteAttr 1) 1 0) 1 }
    ensures deletes_an_attribute_of_nothing { Breaks (changing (unit op.DeleteAttr 0) 0 0) 1 }
    // The dict of annotations is made, and lies nowhere on the stack. What makes classes lies there.
    ensures makes_annotations { Typed (changing (unit op.SetupAnnotation 0) 0 0) }
    ensures pushes_annotations { Breaks (changing (unit op.SetupAnnotation 0) 0 1) 1 }
    ensures pops_for_annotations { Breaks (changing (unit op.SetupAnnotation 0) 1 0) 1 }
    ensures loads_what_makes_classes { Typed (changing (unit op.LoadBuildClass 0) 0 1) }
    ensures loads_nothing_that_makes_classes { Breaks (changing (unit op.LoadBuildClass 0) 0 0) 1 }
    // A module takes the place of a level and a list of names, and is there for each name out of it.
    ensures imports { Typed (changing (unit op.ImportName 0) 2 1) }
    ensures imports_no_name { Breaks (changing (unit op.ImportName 1) 2 1) 1 }
    ensures imports_without_a_level { Breaks (changing (unit op.ImportName 0) 1 1) 1 }
    ensures imports_without_a_name { Typed (changing (unit op.ImportNameless 1) 2 1) }
    ensures imports_without_name_or_level { Breaks (changing (unit op.ImportNameless 0) 1 1) 1 }
    ensures imports_out_of_a_module { Typed (changing (unit op.ImportFrom 0) 1 2) }
    ensures imports_no_name_out_of_a_module { Breaks (changing (unit op.ImportFrom 1) 1 2) 1 }
    ensures imports_out_of_nothing { Breaks (changing (unit op.ImportFrom 0) 0 1) 1 }
    ensures a_module_goes_for_a_name { Breaks (changing (unit op.ImportFrom 0) 1 1) 1 }
    ensures imports_out_of_a_module_under_a_loop { Typed (looping_over (unit op.ImportFrom 0) 1 2) }
    ensures imports_all { Typed (changing (unit op.ImportStar 0) 1 0) }
    ensures imports_all_of_nothing { Breaks (changing (unit op.ImportStar 0) 0 0) 1 }
    ensures a_module_stays { Breaks (changing (unit op.ImportStar 0) 1 1) 1 }
{}

/// Codes that copy, build, join, combine and unpack values keep the rules, and others break them.
pub fn worked_value_rows()
    // The top two are pushed once more, from wherever they lie, and a copy is of any kind.
    ensures duplicates_two { Typed (changing (unit op.Duplicate2 0) 2 4) }
    ensures duplicates_two_of_one { Breaks (changing (unit op.Duplicate2 0) 1 3) 1 }
    ensures duplicates_one_of_two { Breaks (changing (unit op.Duplicate2 0) 2 3) 1 }
    ensures duplicates_two_under_a_loop { Typed (looping_over (unit op.Duplicate2 0) 2 4) }
    ensures no_room_for_two_copies { Breaks (crowding (unit op.Duplicate2 0) 2 4) 1 }
    ensures copies_two_texts { Typed (turning op.Duplicate2 0 texts (Any ∷ Any ∷ texts)) }
    ensures upper_copy_is_a_text { Breaks (turning op.Duplicate2 0 texts (Str ∷ Any ∷ texts)) 1 }
    ensures lower_copy_is_a_text { Breaks (turning op.Duplicate2 0 texts (Any ∷ Str ∷ texts)) 1 }
    // What is moved keeps its kind.
    ensures rotates_two { Typed (turning op.Rotate2 0 (Str ∷ Set ∷ []) (Set ∷ Str ∷ [])) }
    ensures rotates_three { Typed (turning op.Rotate3 0 (three Str Set Dict) (three Set Dict Str)) }
    ensures two_of_three { Breaks (turning op.Rotate3 0 (three Str Set Any) (three Set Str Any)) 1 }
    // As many as the operand says are reversed, with their kinds.
    ensures reverses { Typed (turning op.Reverse 3 (three Str List Set) (three Set List Str)) }
    ensures reverses_nothing { Breaks (turning op.Reverse 2 (Str ∷ List ∷ []) (Str ∷ List ∷ [])) 1 }
    ensures reverses_too_many { Breaks (turning op.Reverse 3 texts texts) 1 }
    ensures swaps_two { Typed (turning op.Reverse 2 (three Str Set List) (three Set Str List)) }
    ensures reverses_under_a_loop { Breaks (looping_over (unit op.Reverse 2) 2 2) 1 }
    // An item has a container and an index, and a value where it is set.
    ensures reads_an_item { Typed (changing (unit op.Subscript 0) 2 1) }
    ensures reads_an_item_of_nothing { Breaks (changing (unit op.Subscript 0) 1 1) 1 }
    ensures an_index_stays { Breaks (changing (unit op.Subscript 0) 2 2) 1 }
    ensures reads_an_item_under_a_loop { Breaks (looping_over (unit op.Subscript 0) 2 1) 1 }
    ensures sets_an_item { Typed (changing (unit op.StoreSubscript 0) 3 0) }
    ensures sets_an_item_to_nothing { Breaks (changing (unit op.StoreSubscript 0) 2 0) 1 }
    ensures deletes_an_item { Typed (changing (unit op.DeleteSubscript 0) 2 0) }
    ensures deletes_an_item_of_nothing { Breaks (changing (unit op.DeleteSubscript 0) 1 0) 1 }
    // A tuple of cells alone is one of cells.
    ensures makes_a_tuple { Typed (building op.BuildTuple 2 (values 2) Tuple) }
    ensures makes_a_tuple_of_too_few { Breaks (building op.BuildTuple 2 (Any ∷ []) Tuple) 1 }
    ensures makes_a_tuple_under_a_loop { Breaks (looping_over (unit op.BuildTuple 2) 2 1) 1 }
    ensures makes_a_tuple_of_cells { Typed (building op.BuildTuple 2 cells (Cells 2)) }
    ensures takes_a_cell { Typed (turning op.BuildTuple 1 (Cell ∷ Any ∷ []) (Cells 1 ∷ Any ∷ [])) }
    ensures makes_a_tuple_of_no_cells { Typed (building op.BuildTuple 0 [] (Cells 0)) }
    ensures lower_is_no_cell { Breaks (building op.BuildTuple 2 (Cell ∷ Any ∷ []) (Cells 2)) 1 }
    ensures upper_is_no_cell { Breaks (building op.BuildTuple 2 (Any ∷ Cell ∷ []) (Cells 2)) 1 }
    ensures two_cells_are_not_three { Breaks (building op.BuildTuple 2 cells (Cells 3)) 1 }
    ensures texts_are_no_names { Breaks (building op.BuildTuple 2 texts (Names 2)) 1 }
    // A list or a set is made of as many as the operand says.
    ensures makes_a_list { Typed (building op.BuildList 2 (values 2) List) }
    ensures makes_a_list_of_too_few { Breaks (building op.BuildList 2 (Any ∷ []) List) 1 }
    ensures makes_a_set { Typed (building op.BuildSet 2 (values 2) Set) }
    ensures makes_a_set_of_too_few { Breaks (building op.BuildSet 2 (Any ∷ []) Set) 1 }
    // What is built of the elements of others is of its own kind.
    ensures joins_into_a_list { Typed (building op.BuildListUnpack 2 (values 2) List) }
    ensures joins_one_into_a_list { Breaks (building op.BuildListUnpack 2 (Any ∷ []) List) 1 }
    ensures joins_into_a_tuple { Typed (building op.BuildTupleUnpack 2 (values 2) Tuple) }
    ensures joins_one_into_a_tuple { Breaks (building op.BuildTupleUnpack 2 (Any ∷ []) Tuple) 1 }
    ensures joins_into_no_cells { Breaks (building op.BuildTupleUnpack 2 cells (Cells 2)) 1 }
    ensures joins_into_a_set { Typed (building op.BuildSetUnpack 2 (values 2) Set) }
    ensures joins_one_into_a_set { Breaks (building op.BuildSetUnpack 2 (Any ∷ []) Set) 1 }
    ensures a_set_is_no_list { Breaks (building op.BuildSetUnpack 2 (values 2) List) 1 }
    // A dict is made of keys and values. What is merged for a call is of any kind.
    ensures makes_a_dict { Typed (building op.BuildMap 2 (values 4) Dict) }
    ensures makes_a_dict_without_a_key { Breaks (building op.BuildMap 2 (values 3) Dict) 1 }
    ensures merges_for_a_call { Typed (changing (unit op.BuildMapForCall 2) 2 1) }
    ensures merges_too_few_for_a_call { Breaks (changing (unit op.BuildMapForCall 2) 1 1) 1 }
    ensures merges_into_no_dict { Breaks (building op.BuildMapForCall 2 (Dict ∷ Dict ∷ []) Dict) 1 }
    // A slice has a step where the operand is 1, and no other.
    ensures slices { Typed (changing (unit op.BuildSlice 0) 2 1) }
    ensures slices_without_a_stop { Breaks (changing (unit op.BuildSlice 0) 1 1) 1 }
    ensures slices_by_steps { Typed (changing (unit op.BuildSlice 1) 3 1) }
    ensures slices_by_steps_without_one { Breaks (changing (unit op.BuildSlice 1) 2 1) 1 }
    ensures slices_by_no_steps { Typed (changing (unit op.BuildSlice 2) 2 1) }
    ensures a_slice_is_no_tuple { Breaks (building op.BuildSlice 0 (values 2) Tuple) 1 }
    // What is put into a dict is popped, and the dict stays.
    ensures updates_a_dict { Typed (building op.DictUpdate 0 (Any ∷ Dict ∷ []) Dict) }
    ensures updates_a_value { Breaks (building op.DictUpdate 0 (Dict ∷ Any ∷ []) Any) 1 }
    ensures updates_nothing { Breaks (turning op.DictUpdate 0 (Dict ∷ []) []) 1 }
    ensures an_updated_dict_goes { Breaks (turning op.DictUpdate 0 (Any ∷ Dict ∷ []) []) 1 }
    ensures puts_into_a_dict { Typed (putting_pair 0 (Dict ∷ [])) }
    ensures puts_into_a_value { Breaks (building op.MapAdd 0 (Dict ∷ Dict ∷ Any ∷ []) Any) 1 }
    ensures puts_without_a_key { Breaks (building op.MapAdd 0 (Any ∷ Dict ∷ []) Dict) 1 }
    ensures puts_into_a_lower_dict { Typed (putting_pair 1 (Any ∷ Dict ∷ [])) }
    ensures puts_into_what_lies_lower { Breaks (putting_pair 1 (Dict ∷ Any ∷ [])) 1 }
    ensures puts_below_a_dict { Breaks (putting_pair 1 (Dict ∷ [])) 1 }
    ensures appends_to_a_lower_list { Typed (putting_below op.ListAppend (Any ∷ List ∷ [])) }
    ensures appends_to_what_lies_lower { Breaks (putting_below op.ListAppend (List ∷ Any ∷ [])) 1 }
    ensures adds_to_a_lower_set { Typed (putting_below op.SetAdd (Any ∷ Set ∷ [])) }
    ensures adds_to_what_lies_lower { Breaks (putting_below op.SetAdd (Set ∷ Any ∷ [])) 1 }
    // What stays may lie under a loop.
    ensures updates_a_dict_under_a_loop { Typed (filling op.DictUpdate 1 Dict) }
    ensures puts_into_a_dict_under_a_loop { Typed (filling op.MapAdd 2 Dict) }
    ensures appends_to_a_list_under_a_loop { Typed (filling op.ListAppend 1 List) }
    ensures adds_to_a_set_under_a_loop { Typed (filling op.SetAdd 1 Set) }
    // An operator is one of those that there are.
    ensures combines_in_place { Typed (changing (unit op.BinaryOperationInplace 12) 2 1) }
    ensures combines_by_no_operator { Breaks (changing (unit op.BinaryOperationInplace 13) 2 1) 1 }
    ensures combines_one_in_place { Breaks (changing (unit op.BinaryOperationInplace 12) 1 1) 1 }
    ensures takes_one_operand { Typed (changing (unit op.UnaryOperation 3) 1 1) }
    ensures takes_one_operand_otherwise { Breaks (changing (unit op.UnaryOperation 4) 1 1) 1 }
    ensures takes_no_operand { Breaks (changing (unit op.UnaryOperation 3) 0 1) 1 }
    // As many items as the operand says come in the place of what is unpacked.
    ensures unpacks { Typed (changing (unit op.UnpackSequence 3) 1 3) }
    ensures unpacks_no_item { Typed (changing (unit op.UnpackSequence 0) 1 0) }
    ensures unpacks_an_item_less { Breaks (changing (unit op.UnpackSequence 3) 1 2) 1 }
    ensures unpacks_an_item_more { Breaks (changing (unit op.UnpackSequence 3) 1 4) 1 }
    ensures unpacks_nothing { Breaks (changing (unit op.UnpackSequence 3) 0 3) 1 }
    ensures unpacks_under_a_loop { Breaks (looping_over (unit op.UnpackSequence 2) 1 2) 1 }
    ensures no_room_for_items { Breaks (crowding (unit op.UnpackSequence 3) 1 3) 1 }
    // Those before the star are in the low byte, and those behind it above. Between them is one more.
    ensures unpacks_the_rest { Typed (changing (unit op.UnpackEx 0) 1 1) }
    ensures unpacks_two_and_the_rest { Typed (changing (unit op.UnpackEx 2) 1 3) }
    ensures unpacks_two_without_the_rest { Breaks (changing (unit op.UnpackEx 2) 1 2) 1 }
    ensures unpacks_the_rest_of_nothing { Breaks (changing (unit op.UnpackEx 2) 0 3) 1 }
    ensures the_rest_is_no_list { Breaks (turning op.UnpackEx 1 (Any ∷ []) (Any ∷ List ∷ [])) 1 }
    ensures unpacks_one_behind_the_rest { Typed (extending 1 (unit op.UnpackEx 0) 1 2) }
    ensures unpacks_on_both_sides_of_the_rest { Typed (extending 1 (unit op.UnpackEx 1) 1 3) }
    ensures unpacks_on_one_side_of_the_rest { Breaks (extending 1 (unit op.UnpackEx 1) 1 2) 2 }
    ensures unpacks_too_much_behind_the_rest { Breaks (extending 1 (unit op.UnpackEx 1) 1 4) 2 }
    // A spec is a text and lies under the value. What is formatted is of any kind.
    ensures formats { Typed (building op.FormatValue 3 (Any ∷ Str ∷ []) Any) }
    ensures formats_otherwise { Breaks (building op.FormatValue 4 (Any ∷ Str ∷ []) Any) 1 }
    ensures formats_by_a_value { Breaks (building op.FormatValue 3 (Str ∷ Any ∷ []) Any) 1 }
    ensures formats_without_a_value { Breaks (building op.FormatValue 3 (Str ∷ []) Any) 1 }
    ensures formats_to_no_text { Breaks (building op.FormatValue 3 (Any ∷ Str ∷ []) Str) 1 }
    // An iterator comes in the place of what it goes over.
    ensures makes_an_iterator { Typed (changing (unit op.GetIter 0) 1 1) }
    ensures makes_an_iterator_over_nothing { Breaks (changing (unit op.GetIter 0) 0 1) 1 }
    ensures an_iterator_is_no_list { Breaks (building op.GetIter 0 (List ∷ []) List) 1 }
    ensures makes_an_iterator_under_a_loop { Breaks (looping_over (unit op.GetIter 0) 1 1) 1 }
{}

/// Codes that call, jump by a value, make functions, clean up and delegate keep the rules, and others break them.
pub fn worked_call_rows()
    // A call takes its callee and items, and a dict where the operand is 1, and no other.
    ensures calls_with_items { Typed (changing (unit op.CallFunctionEx 0) 2 1) }
    ensures calls_without_items { Breaks (changing (unit op.CallFunctionEx 0) 1 1) 1 }
    ensures calls_with_a_dict { Typed (changing (unit op.CallFunctionEx 1) 3 1) }
    ensures calls_without_the_dict { Breaks (changing (unit op.CallFunctionEx 1) 2 1) 1 }
    ensures calls_with_no_dict { Typed (changing (unit op.CallFunctionEx 2) 2 1) }
    ensures calls_by_a_name { Typed (calling_by op.CallFunctionKeyword (Names 1) 2) }
    ensures calls_by_a_name_on_nothing { Breaks (calling_by op.CallFunctionKeyword (Names 1) 1) 1 }
    // A method is what it is called on, whether it is bound, and the function.
    ensures finds_a_method { Typed (changing (unit op.LoadMethod 0) 1 3) }
    ensures finds_no_method { Breaks (changing (unit op.LoadMethod 1) 1 3) 1 }
    ensures finds_a_method_of_nothing { Breaks (changing (unit op.LoadMethod 0) 0 3) 1 }
    ensures finds_half_a_method { Breaks (changing (unit op.LoadMethod 0) 1 2) 1 }
    ensures finds_a_method_under_a_loop { Breaks (looping_over (unit op.LoadMethod 0) 1 3) 1 }
    ensures no_room_for_a_method { Breaks (crowding (unit op.LoadMethod 0) 1 3) 1 }
    ensures calls_a_method { Typed (changing (unit op.CallMethodPositional 2) 5 1) }
    ensures calls_a_method_with_too_few { Breaks (changing (unit op.CallMethodPositional 2) 4 1) 1 }
    ensures object_stays { Breaks (changing (unit op.CallMethodPositional 2) 5 2) 1 }
    ensures calls_a_method_by_name { Typed (calling_by op.CallMethodKeyword (Names 1) 4) }
    ensures calls_a_method_by_no_name { Typed (calling_by op.CallMethodKeyword (Names 0) 4) }
    ensures calls_a_method_by_two_names { Breaks (calling_by op.CallMethodKeyword (Names 2) 4) 1 }
    ensures calls_a_method_by_a_tuple { Breaks (calling_by op.CallMethodKeyword Tuple 4) 1 }
    ensures calls_a_method_on_nothing { Breaks (calling_by op.CallMethodKeyword (Names 1) 3) 1 }
    ensures calls_a_method_with_items { Typed (changing (unit op.CallMethodEx 0) 4 1) }
    ensures calls_a_method_without_items { Breaks (changing (unit op.CallMethodEx 0) 3 1) 1 }
    ensures calls_a_method_with_a_dict { Typed (changing (unit op.CallMethodEx 1) 5 1) }
    ensures calls_a_method_without_the_dict { Breaks (changing (unit op.CallMethodEx 1) 4 1) 1 }
    ensures calls_a_method_with_no_dict { Typed (changing (unit op.CallMethodEx 2) 4 1) }
    // What a jump asks about is popped, or stays where the jump goes to.
    ensures jumps_where_true { Typed (parting op.JumpIfTrue 1 0 0) }
    ensures jumps_where_true_on_nothing { Breaks (parting op.JumpIfTrue 0 0 0) 1 }
    ensures jumps_where_true_with_the_value { Breaks (parting op.JumpIfTrue 1 0 1) 1 }
    ensures goes_on_with_the_value { Breaks (parting op.JumpIfTrue 1 1 0) 1 }
    ensures jumps_where_true_behind_a_prefix { Breaks (parting_behind op.JumpIfTrue 1 0 0) 1 }
    ensures keeps_what_is_true { Typed (parting op.JumpIfTrueOrPop 1 0 1) }
    ensures keeps_a_true_text { Typed (parting_by_text op.JumpIfTrueOrPop) }
    ensures keeps_nothing_that_is_true { Breaks (parting op.JumpIfTrueOrPop 0 0 0) 1 }
    ensures pops_what_is_true { Breaks (parting op.JumpIfTrueOrPop 1 0 0) 1 }
    ensures keeps_what_is_not_true { Breaks (parting op.JumpIfTrueOrPop 1 1 1) 1 }
    ensures stays_true_behind_a_prefix { Breaks (parting_behind op.JumpIfTrueOrPop 1 0 1) 1 }
    ensures pops_what_is_not_true_under_a_loop { Breaks (parting_in_a_loop op.JumpIfTrueOrPop) 1 }
    ensures keeps_what_is_false { Typed (parting op.JumpIfFalseOrPop 1 0 1) }
    ensures keeps_a_false_text { Typed (parting_by_text op.JumpIfFalseOrPop) }
    ensures keeps_nothing_that_is_false { Breaks (parting op.JumpIfFalseOrPop 0 0 0) 1 }
    ensures pops_what_is_false { Breaks (parting op.JumpIfFalseOrPop 1 0 0) 1 }
    ensures keeps_what_is_not_false { Breaks (parting op.JumpIfFalseOrPop 1 1 1) 1 }
    ensures stays_false_behind_a_prefix { Breaks (parting_behind op.JumpIfFalseOrPop 1 0 1) 1 }
    ensures pops_what_is_not_false_under_a_loop { Breaks (parting_in_a_loop op.JumpIfFalseOrPop) 1 }
    // A new function takes, below its code, a closure, annotations, defaults by name and defaults.
    ensures all_parts { IsTyped (2 ∷ []) (making_of 15 (Cells 2 ∷ Any ∷ Dict ∷ Tuple ∷ [])) }
    ensures makes_by_an_unknown_flag { BreaksFirst (0 ∷ []) (making_of 16 []) 1 }
    ensures name_is_a_text { BreaksFirst (0 ∷ []) (making_by 0 (Any ∷ Code 0 ∷ [])) 1 }
    ensures code_lies_above_its_name { BreaksFirst (0 ∷ []) (making_by 0 (Code 0 ∷ Str ∷ [])) 1 }
    ensures makes_with_no_cells { IsTyped (0 ∷ []) (making_of 1 (Cells 0 ∷ [])) }
    ensures closure_is_of_cells { BreaksFirst (1 ∷ []) (making_of 1 (Tuple ∷ [])) 1 }
    ensures makes_with_annotations { IsTyped (0 ∷ []) (making_of 2 (Any ∷ [])) }
    ensures makes_without_annotations { BreaksFirst (0 ∷ []) (making_of 2 []) 1 }
    ensures makes_with_defaults_by_name { IsTyped (0 ∷ []) (making_of 4 (Dict ∷ [])) }
    ensures defaults_by_name_are_a_dict { BreaksFirst (0 ∷ []) (making_of 4 (Tuple ∷ [])) 1 }
    ensures makes_with_defaults { IsTyped (0 ∷ []) (making_of 8 (Tuple ∷ [])) }
    ensures makes_with_defaults_that_are_texts { IsTyped (0 ∷ []) (making_of 8 (Names 2 ∷ [])) }
    ensures defaults_are_a_tuple { BreaksFirst (0 ∷ []) (making_of 8 (Dict ∷ [])) 1 }
    ensures closure_above_annotations { BreaksFirst (1 ∷ []) (making_of 3 (Any ∷ Cells 1 ∷ [])) 1 }
    ensures annotations_above_by_name { BreaksFirst (0 ∷ []) (making_of 6 (Dict ∷ Any ∷ [])) 1 }
    ensures by_name_above_by_position { BreaksFirst (0 ∷ []) (making_of 12 (Tuple ∷ Dict ∷ [])) 1 }
    ensures annotations_above_defaults { BreaksFirst (0 ∷ []) (making_of 10 (Tuple ∷ Any ∷ [])) 1 }
    // An exit lies above the level of the next block, and so does the iterator of a loop that ends.
    ensures calls_an_exit { Typed (calling_exit 1 0) }
    ensures calls_an_exit_under_a_loop { Breaks (calling_exit 1 1) 1 }
    ensures no_exit_above_a_loop { Breaks (calling_exit 0 0) 1 }
    ensures calls_no_exit { Breaks (finishing (unit op.WithCleanupStart 0) 0 [] (values 1)) 1 }
    ensures ends_with_an_exit { Typed (ending_exit 1 0) }
    ensures ends_with_an_exit_under_a_loop { Breaks (ending_exit 1 1) 1 }
    ensures ends_without_exit { Breaks (ending_exit 0 0) 1 }
    ensures ends_with_an_exit_above_a_value { Typed (ending_exit_at 2) }
    ensures exit_lies_too_deep { Breaks (ending_exit_at 1) 1 }
    ensures ends_an_iteration { Typed (leaving op.EndAsyncFor raised (ExceptHandler 1) 0) }
    ensures ends_under_a_loop { Breaks (leaving op.EndAsyncFor raised (ExceptHandler 1) 1) 1 }
    ensures ends_no_iteration { Breaks (leaving op.EndAsyncFor (Exc ∷ []) (ExceptHandler 0) 0) 1 }
    ensures ends_above_a_value { Typed (ending_loop_at 2) }
    ensures iterator_lies_too_deep { Breaks (ending_loop_at 1) 1 }
    ensures ends_by_a_value { Breaks (leaving op.EndAsyncFor (values 2) (ExceptHandler 1) 0) 1 }
    ensures ends_in_a_finally { Breaks (leaving op.EndAsyncFor raised (FinallyHandler 1 []) 0) 1 }
    // An asynchronous iterator stays under what it gives. A manager leaves its exit and what it gave.
    ensures makes_an_async_iterator { Typed (changing (unit op.GetAIter 0) 1 1) }
    ensures makes_an_async_iterator_over_nothing { Breaks (changing (unit op.GetAIter 0) 0 1) 1 }
    ensures asks_for_the_next { Typed (changing (unit op.GetANext 0) 1 2) }
    ensures asks_for_the_next_under_a_loop { Typed (looping_over (unit op.GetANext 0) 1 2) }
    ensures asks_nothing_for_the_next { Breaks (changing (unit op.GetANext 0) 0 1) 1 }
    ensures an_async_iterator_goes { Breaks (changing (unit op.GetANext 0) 1 1) 1 }
    ensures waits { Typed (changing (unit op.GetAwaitable 0) 1 1) }
    ensures waits_for_nothing { Breaks (changing (unit op.GetAwaitable 0) 0 1) 1 }
    ensures enters_an_async_manager { Typed (changing (unit op.BeforeAsyncWith 0) 1 2) }
    ensures enters_nothing { Breaks (changing (unit op.BeforeAsyncWith 0) 0 2) 1 }
    ensures enters_without_an_exit { Breaks (changing (unit op.BeforeAsyncWith 0) 1 1) 1 }
    // A delegation is of a value and a delegate, in a generator, and not right behind a yield.
    ensures delegates { Typed (delegating_to (values 2)) }
    ensures a_delegate_is_of_any_kind { Typed (delegating_to (Any ∷ List ∷ [])) }
    ensures delegates_in_a_coroutine { Typed (delegating_in IS_COROUTINE (values 2)) }
    ensures delegate_lies_under_a_loop { Breaks (delegating_under_a_loop) 1 }
    ensures what_is_sent_is_of_any_kind { Breaks (delegating_to (Str ∷ Any ∷ [])) 1 }
    ensures delegates_nothing { Breaks (delegating_to (Any ∷ [])) 1 }
    ensures delegates_in_a_function { Breaks (changing (unit op.YieldFrom 0) 2 1) 1 }
    ensures delegates_behind_a_drop { Typed (delegating_behind (unit op.Pop 0) 3) }
    ensures delegates_behind_a_delegation { Breaks (delegating_behind (unit op.YieldFrom 0) 3) 2 }
    ensures delegates_behind_a_prefix { Typed (delegating_prefixed (unit op.Pop 0) 3) }
    ensures delegates_again_past_a_prefix { Breaks (delegating_prefixed (unit op.YieldFrom 0) 3) 3 }
    ensures yields_in_front_of_a_prefix { Breaks (delegating_prefixed (unit op.YieldValue 0) 2) 3 }
{}
