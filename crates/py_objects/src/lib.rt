//! Objects by number, what bodies ask, and the events of a run.
#![tactic(auto)]

mod ancestry;
mod attr_map;
mod boxed;
mod due;
mod edit;
mod editing;
mod error_kind;
mod event;
mod history;
mod keys;
mod laws;
mod pair_list;
mod payload;
mod refs;
mod request;
mod scope;
mod store;
mod truths;
mod values;

pub use ancestry::{derives, derives_from};
pub use attr_map::AttrMap;
pub use boxed::Boxed;
pub use due::{are_in_order, make_due};
pub use edit::{AwaitState, Change, ChangeList, Edit, History, LinkField};
pub use error_kind::ErrorKind;
pub use event::{DriveAnswer, Ending, Event, EventList, GotAnswer, ResumeHow};
pub use history::{copy_all, objects_at};
pub use laws::laws_of_own_events;
pub use pair_list::PairList;
pub use payload::{
    ClassBody, CoroBody, CoroKind, ExceptionBody, Fault, FunctionBody, ManagerBody, Payload,
    PayloadList, TracebackBody,
};
pub use refs::{FrameRef, ObjList, PyBaseExceptionRef, PyObjectRef, PyTracebackRef, PyTypeRef};
pub use request::{BuildKind, Keywords, Request};
pub use scope::Scope;
pub use store::Store;
