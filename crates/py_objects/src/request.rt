//! What a body asks the machine: a request for each row of the tables of instructions and of answers.

use crate::refs::{ObjList, PyObjectRef};
use py_code::{
    BinaryOperator, ComparisonOperator, ConversionFlag, MakeFunctionFlags, PyText, UnaryOperator,
};

/// The keyword arguments of a call.
#[derive(Clone, Copy, Debug, PartialEq, Eq)]
pub enum Keywords {
    None,
    /// The last arguments have the names in this tuple.
    Names(PyObjectRef),
    /// They are what this dict holds.
    Dict(PyObjectRef),
}

/// What is built of items.
#[derive(Clone, Copy, Debug, PartialEq, Eq)]
pub enum BuildKind {
    Str,
    Tuple,
    List,
    Set,
    /// Of keys and values in turn.
    Dict,
    /// Of start, stop and, where there is one, step.
    Slice,
}

/// What a body asks. Operands stand in the order in which they were loaded; dicts of the asking frame stand first.
#[derive(Drop)]
pub enum Request {
    /// A name in the globals, or among the built-in classes: globals, name.
    Global(PyObjectRef, PyText),
    /// A name in the locals, then as `Global`: locals, globals, name.
    Name(PyObjectRef, PyObjectRef, PyText),
    /// The value of a name in a dict: dict, name, value.
    SetName(PyObjectRef, PyText, PyObjectRef),
    /// A name leaves a dict: dict, name.
    DelName(PyObjectRef, PyText),
    /// A local that is unset.
    Unbound(PyText),
    /// A cell that is empty, and whether it is one of a body around.
    UnboundCell(PyText, bool),
    /// A name in a class's body, then the cell of a body around: locals, globals, name, cell.
    ClassName(PyObjectRef, PyObjectRef, PyText, PyObjectRef),
    /// An operator of two operands, the left one first.
    Binary(BinaryOperator, PyObjectRef, PyObjectRef),
    /// The same, which may change its left operand.
    Inplace(BinaryOperator, PyObjectRef, PyObjectRef),
    /// An operator of one operand.
    Unary(UnaryOperator, PyObjectRef),
    /// A comparison of two operands, the left one first.
    Compare(ComparisonOperator, PyObjectRef, PyObjectRef),
    /// Whether two objects are one and the same.
    Is(PyObjectRef, PyObjectRef),
    /// Whether a container has an item: container, item.
    Contains(PyObjectRef, PyObjectRef),
    /// Whether a value counts as true.
    Truth(PyObjectRef),
    /// Whether an exception is of a class: exception, class.
    Match(PyObjectRef, PyObjectRef),
    /// The exception that is handled.
    Handled,
    /// The exception that a value is raised as.
    Raisable(PyObjectRef),
    /// The exception that a value is as a cause.
    Cause(PyObjectRef),
    /// A value is shown.
    Show(PyObjectRef),
    /// A call: callee, positional arguments, keyword arguments.
    Call(PyObjectRef, ObjList, Keywords),
    /// A generator goes on with a value: generator, value.
    Send(PyObjectRef, PyObjectRef),
    /// An exception is thrown into a generator: generator, class, value, traceback.
    Throw(PyObjectRef, PyObjectRef, Option<PyObjectRef>, Option<PyObjectRef>),
    /// A generator is closed.
    Close(PyObjectRef),
    /// A manager is entered.
    Enter(PyObjectRef),
    /// An asynchronous manager is entered.
    AEnter(PyObjectRef),
    /// A manager without an exit.
    NoExit(PyObjectRef),
    /// An asynchronous manager without an exit.
    NoAExit(PyObjectRef),
    /// A manager is left: its exit, and the exception's class, the exception and its traceback, or None.
    Exit(PyObjectRef, PyObjectRef, PyObjectRef, PyObjectRef),
    /// An attribute: object, name.
    Attr(PyObjectRef, PyText),
    /// The value of an attribute: object, name, value.
    SetAttr(PyObjectRef, PyText, PyObjectRef),
    /// An attribute is deleted: object, name.
    DelAttr(PyObjectRef, PyText),
    /// An attribute that is called: object, name.
    Method(PyObjectRef, PyText),
    /// An item: container, key.
    Item(PyObjectRef, PyObjectRef),
    /// The value of an item: container, key, value.
    SetItem(PyObjectRef, PyObjectRef, PyObjectRef),
    /// An item is deleted: container, key.
    DelItem(PyObjectRef, PyObjectRef),
    /// An iterator of a value.
    Iter(PyObjectRef),
    /// The next item of an iterator.
    Next(PyObjectRef),
    /// All items of a value, as a tuple.
    Elements(PyObjectRef),
    /// So many items of a value.
    Unpack(PyObjectRef, u32),
    /// So many first items, those between as a list, and so many last ones.
    UnpackEx(PyObjectRef, u32, u32),
    /// A container of the items.
    Build(BuildKind, ObjList),
    /// The keyword arguments that dicts are together.
    MergeForCall(ObjList),
    /// A mapping's pairs go into a dict: dict, mapping.
    DictUpdate(PyObjectRef, PyObjectRef),
    /// An item goes into a list: list, item.
    Append(PyObjectRef, PyObjectRef),
    /// An item goes into a set: set, item.
    AddTo(PyObjectRef, PyObjectRef),
    /// A pair goes into a dict: dict, key, value.
    PutIn(PyObjectRef, PyObjectRef, PyObjectRef),
    /// A value as text: value, conversion, what the text should look like.
    Format(PyObjectRef, ConversionFlag, PyObjectRef),
    /// A value's text.
    Str(PyObjectRef),
    /// A value that an asynchronous generator yields.
    Wrap(PyObjectRef),
    /// The locals get a place for annotations.
    Annotations(PyObjectRef),
    /// A module: its name, where it has one, how many packages up, and the names that are wanted of it.
    Import(Option<PyText>, PyObjectRef, PyObjectRef),
    /// A name of a module: module, name.
    ImportFrom(PyObjectRef, PyText),
    /// All names of a module go into the locals: locals, module.
    ImportStar(PyObjectRef, PyObjectRef),
    /// A function: globals, which parts it has, and these in the order in which they are popped: name, code, closure,
    /// annotations, keyword defaults, defaults.
    MakeFunction(PyObjectRef, MakeFunctionFlags, ObjList),
    /// What is awaited of a value.
    Await(PyObjectRef),
    /// An asynchronous iterator of a value.
    AIter(PyObjectRef),
    /// The next item of an asynchronous iterator.
    ANext(PyObjectRef),
    /// What an iterator that a generator goes through is sent: iterator, value.
    Delegate(PyObjectRef, PyObjectRef),
}
