//! Functions as trees: their bodies as the program holds them, and what a tree may tell, without a word on code.
#![tactic(auto)]

mod body;
mod expr;
mod laws;
mod stmt;
mod worked;

pub use body::{Body, BodyKind, ParamList};
pub use expr::{Atom, Expr, ExprList, Operator};
pub use laws::{laws_of_endings, laws_of_traces};
pub use stmt::{Clause, ClauseList, Stmt, StmtForm, StmtList};
pub use worked::{worked_handlers, worked_managers, worked_trees, worked_yields};
