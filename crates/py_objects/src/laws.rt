//! What follows from how own events are numbered.

ghost use Rattle.py_objects.specs.OwnLaws.{AnswerIsHeard, AnswersAreNumbered, AskingIsNumbered, ResumptionsAreNumbered};

/// States four laws, and does nothing: what an activation hears has the number of its event among all events, which are counted
/// from 0; so it is in a list that was worked by hand, where another activation is made between; and what hears an answer goes on
/// with the answer's number.
pub fn laws_of_own_events()
    ensures gets { AnswersAreNumbered }
    ensures resumes { ResumptionsAreNumbered }
    ensures worked { AskingIsNumbered }
    ensures answered { AnswerIsHeard }
{}
