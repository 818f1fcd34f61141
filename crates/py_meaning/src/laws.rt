//! What follows for two runs of one script.

ghost use Rattle.py_meaning.specs.Laws.{
  AsLongHaveOneText,
  ExitsAreTold,
  HaveAlikeObjects,
  HaveSameEvents,
  JournalsAreSame,
  NoneIsLonger,
  OfTwoRuns,
  UnfinishedIsShorter,
  WholeAreAsLong,
  WholeHaveOneText,
};

/// States laws of scripts without raw codes and reports, and does nothing.
///
/// Two journals of the same declarations and drives are the same, event by event, as far as both go, but for the numbers
/// of objects and of units: their events are of one kind, of one drive or activation, and name related objects, where two objects are related that
/// one literal may stand for, that are declared under one name, or that the events name at one place; and these are alike. So where the script that
/// bytes are has a whole run, no other is longer, and one that isn't whole is shorter; runs of as many events have one text, and so have all whole ones.
/// In each run an exit is told the traceback that belongs to the last raise of its exception (Python Language Reference, 7.8 and 8.5).
pub fn laws_of_scripts()
    ensures same { OfTwoRuns HaveSameEvents }
    ensures alike { OfTwoRuns HaveAlikeObjects }
    // Of one.
    ensures tells { ExitsAreTold }
    // Of journals of the script that bytes are.
    ensures journals { JournalsAreSame }
    ensures shorter { UnfinishedIsShorter }
    ensures never_longer { NoneIsLonger }
    ensures as_long { WholeAreAsLong }
    ensures same_text { AsLongHaveOneText }
    ensures one_text { WholeHaveOneText }
{}
