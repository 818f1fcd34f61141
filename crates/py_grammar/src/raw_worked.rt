//! Small raw codes, worked by hand.

ghost use Rattle.py_grammar.specs.WorkedRaw.{RawIsScript, TwiceBad, LateBad, ShallowBad, CoroBad, VarArgsBad, VarKwBad, NamedBad, CellsBad, FreesBad, OwnConstBad, ClassConstBad, OpBad, AskBad, CompareBad, TestBad, RaiseBad, EmptyBad, OtherBad, OpenBad, SameParamsBad, SameNameBad};

/// States which lines are a small script with raw codes, and which line is the bad one of others, and does nothing.
pub fn worked_raw_codes()
    ensures raw_is_script { RawIsScript }
    ensures twice_bad { TwiceBad }
    ensures late_bad { LateBad }
    ensures shallow_bad { ShallowBad }
    ensures coro_bad { CoroBad }
    ensures var_args_bad { VarArgsBad }
    ensures var_kw_bad { VarKwBad }
    ensures named_bad { NamedBad }
    ensures cells_bad { CellsBad }
    ensures frees_bad { FreesBad }
    ensures own_const_bad { OwnConstBad }
    ensures class_const_bad { ClassConstBad }
    ensures op_bad { OpBad }
    ensures ask_bad { AskBad }
    ensures compare_bad { CompareBad }
    ensures test_bad { TestBad }
    ensures raise_bad { RaiseBad }
    ensures empty_bad { EmptyBad }
    ensures other_bad { OtherBad }
    ensures open_bad { OpenBad }
    ensures same_params_bad { SameParamsBad }
    ensures same_name_bad { SameNameBad }
{}
