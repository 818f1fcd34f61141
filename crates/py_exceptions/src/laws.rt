//! What follows from how the links of exceptions are set.

ghost use Rattle.py_exceptions.specs.Contexts.{ContextsStayAcyclic};

/// States a law, and does nothing: where no exception is reached from itself along contexts, none is once an exception that comes
/// has got its context.
pub fn laws_of_links()
    ensures acyclic { ContextsStayAcyclic }
{}
