//! A journal whose question names a unit that doesn't ask it, which no run of codes is.

ghost use Rattle.py_script.specs.WorkedUnits.{NoOtherUnit, NoRawSum};

/// The journal of a sum is none that its codes run, once its question names another unit than the one that adds.
pub fn worked_units()
    ensures no_other_unit { NoOtherUnit }
    // Nor is it one of a raw code that asks for no sum, of which the meaning alone lets anything be told.
    ensures no_raw_sum { NoRawSum }
{}
