//! What runs so far, by example.

ghost use Rattle.std.specs.Prelude.{◌≡◌, ℕ, ℤ, true, false, [], ◌∷◌};
ghost use Rattle.py_code.specs.declared.instruction.Instruction.TheVariants as op;
ghost use Rattle.py_code.specs.declared.flags.TheConstants.CodeFlags.{IS_COROUTINE, IS_GENERATOR};
ghost use Rattle.py_code.specs.declared.literal.BuiltinFn.TheVariants.{Send, Len};
ghost use Rattle.py_code.specs.declared.literal.Literal.{Builtin, Code, Int};
ghost use Rattle.py_check.specs.declared.note.Note.TheVariants.{Dead};
ghost use Rattle.py_check.specs.declared.note.Kind.TheVariants as kind;
ghost use Rattle.py_check.specs.Running.{runs, runs_at};
ghost use Rattle.py_check.specs.Worked.{loaded, stranded, sum, unit};
ghost use Rattle.py_check.specs.WorkedHandlers.{yielding};

/// Some instructions, operators, constants and yields run so far, and others don't, which keep the rules all the same. What control never
/// comes to need not run.
pub fn worked_running()
    ensures adds { runs sum op.BinaryOperation 6 ≡ true }
    ensures multiplies { runs sum op.BinaryOperation 1 ≡ false }
    ensures compares { runs sum op.CompareOperation 2 ≡ true }
    ensures compares_otherwise { runs sum op.CompareOperation 5 ≡ false }
    ensures matches { runs sum op.TestOperation 4 ≡ true }
    ensures tests_otherwise { runs sum op.TestOperation 0 ≡ false }
    ensures reverses { (n : ℕ) → runs sum op.Reverse n ≡ false }
    ensures loads_number { (n : ℤ) → runs (loaded (Int n) kind.Any) op.LoadConst 0 ≡ true }
    ensures loads_code { (c : ℕ) → runs (loaded (Code c) (kind.Code c)) op.LoadConst 0 ≡ true }
    ensures loads_send { runs (loaded (Builtin Send) kind.Any) op.LoadConst 0 ≡ true }
    ensures loads_len { runs (loaded (Builtin Len) kind.Any) op.LoadConst 0 ≡ false }
    ensures yields { runs (yielding IS_GENERATOR) op.YieldValue 0 ≡ true }
    ensures yields_in_a_coroutine { runs (yielding IS_COROUTINE) op.YieldValue 0 ≡ false }
    ensures dead { runs_at (stranded (unit op.Reverse 0) Dead Dead) 1 ≡ true }
{}
