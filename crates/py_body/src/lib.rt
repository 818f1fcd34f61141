//! The compiler: the code of a body with its notes, put unit behind unit, since each label is known before its jump is.
#![tactic(auto)]

mod blocks;
mod compile;
mod emitter;
mod expressions;
mod locals;
mod managers;
mod naming;
mod protected;
mod scope;
mod sizes;
mod statements;

pub use compile::{AnnotatedList, compile_body};
pub use naming::{intern_all, intern_text};
pub use py_tree::{
    Atom, Body, BodyKind, Clause, ClauseList, Expr, ExprList, Operator, ParamList, Stmt, StmtForm,
    StmtList,
};
