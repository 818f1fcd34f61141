//! Exceptions: the built-in classes among the objects of a run, what derives from them, what may be raised, new exceptions, their
//! arguments, links and tracebacks.
#![tactic(auto)]

mod attributes;
mod base_exception;
mod contexts;
mod ctor;
mod kinds;
mod laws;
mod links;
mod making;
mod quoted;
mod reading;
mod reducible;
mod reducing;
mod repr;
mod str_of;
mod texts;
mod traceback_entry;
mod traceback_iter;
mod tracebacks;
mod type_names;
mod zoo;

pub use attributes::attribute;
pub use base_exception::BaseException;
pub use contexts::contextualize_exception;
pub use ctor::{CtorFault, ExceptionCtor, Instantiate, is_instance, normalized};
pub use kinds::is_gen_exit;
pub use laws::laws_of_links;
pub use links::link_at;
pub use making::{cstring_error, make_exception, new_exception, new_exception_from};
pub use py_outside::{Sink, SinkMemory, StdSink, WriteFailed};
pub use py_stack::ExceptionStack;
pub use repr::payload_at;
pub use texts::{push_raised, push_whole_repr, push_whole_str};
pub use traceback_entry::{LinkLoop, Traceback};
pub use traceback_iter::TracebackIter;
pub use tracebacks::{PyTraceback, split_exception};
pub use type_names::type_name;
pub use zoo::ExceptionZoo;
