//! Small scripts and rules, worked by hand.

ghost use Rattle.py_grammar.specs.Worked.{NoBuiltinAgain, NoCallOfClass, NoCallOfManager, NoClassAsEnter, NoManagerAsBase, NoOwnBase, NoSecondClass, NoThrowOfManager, SmallIsScript};

/// States which lines are a small script, and where classes and managers may not stand, and does nothing.
pub fn worked_scripts()
    ensures small_is_script { SmallIsScript }
    ensures no_own_base { NoOwnBase }
    ensures no_manager_as_base { NoManagerAsBase }
    ensures no_second_class { NoSecondClass }
    ensures no_builtin_again { NoBuiltinAgain }
    ensures no_class_as_enter { NoClassAsEnter }
    ensures no_call_of_class { NoCallOfClass }
    ensures no_call_of_manager { NoCallOfManager }
    ensures no_throw_of_manager { NoThrowOfManager }
{}
