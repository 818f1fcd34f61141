//! What follows from how lines print their tokens.

ghost use Rattle.py_lines.specs.Laws.{PrintsOneLine, ReadsKeywords, ReadsOneWay, ReadsSomeWay, ReadsText};

/// States laws, and does nothing: each keyword is read, no two lines print the same tokens, a line of bytes reads in one way, and what
/// reads well is UTF-8.
pub fn laws_of_lines()
    ensures keywords { ReadsKeywords }
    ensures one_line { PrintsOneLine }
    ensures one_way { ReadsOneWay }
    ensures some_way { ReadsSomeWay }
    ensures text { ReadsText }
{}
