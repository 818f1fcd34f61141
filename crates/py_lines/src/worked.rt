//! Small lines, worked by hand.

ghost use Rattle.py_lines.specs.Worked.{AddIsAName, AsIsAName, CallIsADrive, CallIsAName, CallOfSums, ClassOfItself, ClassOfNothing, CloseIsAName, KeywordIsNoName, ManagerOfTwo, NextNothing, NoCloseAtTheEnd, NoCountBeyond, NoLargeNumber, NoNameBehindAs, NoNumberBelow, NoOperatorOfThisName, NothingBehind, NothingInParentheses, NothingIsBlank, ThrowIsADrive, WithAs, WithNone, YieldIsAName};
ghost use Rattle.py_lines.specs.WorkedRaw.{BlocksOfAUnit, CodeIsAHeader, Constants, DeadUnit, FlagsInARow, JumpsThatWait, KeywordNamesNoCode, KindsWithZeros, LoopWithoutLevel, NamesOfLines, NoArgumentBeyond, NoBlocksBehindKinds, NoDepthBeyond, NoFlagsAtAll, NoNameAmongConstants, NoSuchFlag, NoSuchInstruction, NothingBehindAComma, ThreeCounts, TwoCounts, VarsIsAName};

/// States how small lines read, and does nothing.
pub fn worked_lines()
    ensures call_is_a_name { CallIsAName }
    ensures call_is_a_drive { CallIsADrive }
    ensures add_is_a_name { AddIsAName }
    ensures yield_is_a_name { YieldIsAName }
    ensures close_is_a_name { CloseIsAName }
    ensures throw_is_a_drive { ThrowIsADrive }
    ensures next_nothing { NextNothing }
    ensures no_number_below { NoNumberBelow }
    ensures no_count_beyond { NoCountBeyond }
    ensures as_is_a_name { AsIsAName }
    ensures with_as { WithAs }
    ensures with_none { WithNone }
    ensures no_name_behind_as { NoNameBehindAs }
    ensures class_of_itself { ClassOfItself }
    ensures manager_of_two { ManagerOfTwo }
    ensures class_of_nothing { ClassOfNothing }
    ensures keyword_is_no_name { KeywordIsNoName }
    ensures nothing_behind { NothingBehind }
    ensures no_large_number { NoLargeNumber }
    ensures nothing_is_blank { NothingIsBlank }
    ensures call_of_sums { CallOfSums }
    ensures nothing_in_parentheses { NothingInParentheses }
    ensures no_close_at_the_end { NoCloseAtTheEnd }
    ensures no_operator_of_this_name { NoOperatorOfThisName }
{}

/// States how small lines of raw codes read, and does nothing.
pub fn worked_raw_lines()
    ensures code_is_a_header { CodeIsAHeader }
    ensures flags_in_a_row { FlagsInARow }
    ensures no_flags_at_all { NoFlagsAtAll }
    ensures vars_is_a_name { VarsIsAName }
    ensures names_of_lines { NamesOfLines }
    ensures three_counts { ThreeCounts }
    ensures constants { Constants }
    ensures kinds_with_zeros { KindsWithZeros }
    ensures dead_unit { DeadUnit }
    ensures blocks_of_a_unit { BlocksOfAUnit }
    ensures jumps_that_wait { JumpsThatWait }
    ensures no_such_flag { NoSuchFlag }
    ensures two_counts { TwoCounts }
    ensures no_depth_beyond { NoDepthBeyond }
    ensures no_name_among_constants { NoNameAmongConstants }
    ensures keyword_names_no_code { KeywordNamesNoCode }
    ensures no_argument_beyond { NoArgumentBeyond }
    ensures no_such_instruction { NoSuchInstruction }
    ensures no_blocks_behind_kinds { NoBlocksBehindKinds }
    ensures nothing_behind_a_comma { NothingBehindAComma }
    ensures loop_without_level { LoopWithoutLevel }
{}
