//! What follows for questions of one run.

ghost use Rattle.py_once.specs.Laws.{AnsweredOnce, ComesOnce, DueOnce, FinishesOnce, FormedOnce, NormalizesOnce, OpensOnce, RepliedOnce, RepliesOnce, StartsOnce};

/// States laws, and does nothing: in one list of objects a question has one reply and comes to one thing in one setting. One thing comes of what is
/// thrown, and a generator that was left has one answer. At one past the open question comes to one thing and has one reply.
pub fn laws_of_answers_once()
    ensures replies { RepliesOnce }
    ensures normalizes { NormalizesOnce }
    ensures finishes { FinishesOnce }
    ensures comes { ComesOnce }
    ensures due { DueOnce }
    ensures opens { OpensOnce }
    ensures starts { StartsOnce }
    ensures replied { RepliedOnce }
    ensures answered { AnsweredOnce }
    ensures formed { FormedOnce }
{}
