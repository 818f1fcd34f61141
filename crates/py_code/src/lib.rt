//! Code objects: lists, texts, names, units, constants and the code that holds them.
#![tactic(auto)]

mod code;
mod code_list;
mod code_repr;
mod flags;
mod instruction;
mod list;
mod literal;
mod name_set;
mod names;
mod operator;
mod replace;
mod text;
mod unit;

pub use code::{CodeObject, Decoded, PyCode};
pub use code_list::CodeList;
pub use flags::{CodeFlags, MakeFunctionFlags};
pub use instruction::Instruction;
pub use list::{ItemList, NoMemory};
pub use literal::{BuiltinFn, Literal, LiteralList};
pub use name_set::NameSet;
pub use names::{NameId, Names};
pub use operator::{
    BinaryOperator, ComparisonOperator, ConversionFlag, NoOperator, RaiseKind, TestOperator,
    UnaryOperator,
};
pub use replace::{ReplaceArgs, ReplaceFault};
pub use text::{
    PyText, push_bytes, push_decimal, push_text, push_utf8, same_text, text_of, text_of_str,
    utf8_of,
};
pub use unit::{CodeUnit, Label, OpArg, OpArgState};
