//! What follows for questions of two runs that are the same.

ghost use Rattle.py_determined.specs.Laws.{OfAlikeStores, SameCourses, SameDues, SameFinishes, SameInstances, SameReplies};

/// States laws, and does nothing: where the objects of two runs are alike, the same question has the same reply, the same comes of what is thrown,
/// and a generator of the same kind that was left the same way answers the same.
pub fn laws_of_answers()
    ensures replies { OfAlikeStores SameReplies }
    ensures thrown { OfAlikeStores SameInstances }
    ensures finished { OfAlikeStores SameFinishes }
{}

/// States laws, and does nothing: where the objects of two runs are alike, the same question comes to the same, and has the same reply
/// where the activation that it entered was left the same.
pub fn laws_of_courses()
    ensures courses { OfAlikeStores SameCourses }
    ensures due { OfAlikeStores SameDues }
{}
