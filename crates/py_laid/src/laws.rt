//! What follows from how code is laid.

ghost use Rattle.py_laid.specs.Laws.{LaidCodeFits, LaidCodeIsCompiled, LaidCodeIsTyped, QuestionsNameSlot, RunsAreTraces};

/// States laws, and does nothing: each run of laid code is a trace of its tree, which handles what the frame's blocks do where an
/// exception is thrown in; laid code that is plain keeps the typing rules, and it fits its tree; laid code has only instructions that
/// bodies are compiled to. What a question of a run names as handled the slot holds.
pub fn laws_of_laid_code()
    ensures runs_are_traces { RunsAreTraces }
    ensures typed { LaidCodeIsTyped }
    ensures fits { LaidCodeFits }
    ensures uses { LaidCodeIsCompiled }
    ensures slot { QuestionsNameSlot }
{}
