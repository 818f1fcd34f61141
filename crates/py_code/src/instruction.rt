//! The instructions of the machine. A unit of code holds an instruction's operand beside it.

ghost use Rattle.std.specs.Prelude.{◌≡◌};
ghost use Rattle.py_code.specs.Units.{is_prefix};

/// What a unit of code does. The operand is the unit's decoded argument.
#[derive(Clone, Copy, Debug, PartialEq, Eq)]
pub enum Instruction {
    /// A constant's place: pushes the constant.
    LoadConst,
    /// A local's place: pushes the local.
    LoadFast,
    /// A local's place: pops a value into the local.
    StoreFast,
    /// A local's place: unsets the local.
    DeleteFast,
    /// A name: pushes what the globals or the built-ins have under it.
    LoadGlobal,
    /// A name: pushes what the locals, the globals or the built-ins have under it.
    LoadNameAny,
    /// A name: pops a value and sets the name in the locals' scope.
    StoreLocal,
    /// A name: pops a value and sets the name in the globals.
    StoreGlobal,
    /// A name: deletes it from the locals' scope.
    DeleteLocal,
    /// A name: deletes it from the globals.
    DeleteGlobal,
    /// A cell's place: pushes the cell's contents.
    LoadDeref,
    /// A cell's place: pushes the class's own name, or else the cell's contents.
    LoadClassDeref,
    /// A cell's place: pops a value into the cell.
    StoreDeref,
    /// A cell's place: empties the cell.
    DeleteDeref,
    /// A cell's place: pushes the cell itself.
    LoadClosure,
    /// No operand: drops the top.
    Pop,
    /// No operand: pushes the top once more.
    Duplicate,
    /// No operand: pushes the top two once more.
    Duplicate2,
    /// No operand: puts the top under the next entry.
    Rotate2,
    /// No operand: puts the top under the next two entries.
    Rotate3,
    /// A count: reverses as many entries from the top.
    Reverse,
    /// No operand: pops a container and an index, and pushes the item.
    Subscript,
    /// No operand: pops a value, a container and an index, and sets the item.
    StoreSubscript,
    /// No operand: pops a container and an index, and deletes the item.
    DeleteSubscript,
    /// A count: joins as many texts.
    BuildString,
    /// A count: makes a list of as many items.
    BuildList,
    /// A count: makes a tuple of as many items.
    BuildTuple,
    /// A count: makes a set of as many items.
    BuildSet,
    /// A count: makes a list of the elements of as many iterables.
    BuildListUnpack,
    /// A count: makes a tuple of the elements of as many iterables.
    BuildTupleUnpack,
    /// A count: makes a set of the elements of as many iterables.
    BuildSetUnpack,
    /// A count: makes a dict of as many keys with their values.
    BuildMap,
    /// A count: merges as many dicts into the keyword arguments of a call.
    BuildMapForCall,
    /// 1 where there is a step, else 0: makes a slice of two or three values.
    BuildSlice,
    /// No operand: pops a mapping and puts its items into the dict below.
    DictUpdate,
    /// A depth: pops a value onto the list that lies so deep.
    ListAppend,
    /// A depth: pops a value into the set that lies so deep.
    SetAdd,
    /// A depth: pops a key and a value into the dict that lies so deep.
    MapAdd,
    /// A `BinaryOperator`: pops two values and pushes what it gives.
    BinaryOperation,
    /// A `BinaryOperator`: the same, done in place where the left value can.
    BinaryOperationInplace,
    /// A `UnaryOperator`: pops a value and pushes what it gives.
    UnaryOperation,
    /// A `ComparisonOperator`: pops two values and pushes what it gives.
    CompareOperation,
    /// A `TestOperator`: pops two values and pushes what it gives.
    TestOperation,
    /// A name: pops an object and pushes its attribute.
    LoadAttr,
    /// A name: pops a value and an object, and sets the object's attribute.
    StoreAttr,
    /// A name: pops an object and deletes its attribute.
    DeleteAttr,
    /// No operand: pops the value that the frame returns.
    ReturnValue,
    /// A constant's place: returns the constant.
    ReturnConst,
    /// No operand: pops the value that the generator yields, and pushes what is sent.
    YieldValue,
    /// No operand: hands a value to the delegate below it, and yields what that yields.
    YieldFrom,
    /// No operand: makes the scope's dict of annotations.
    SetupAnnotation,
    /// No operand: pushes the block of a loop.
    SetupLoop,
    /// A handler's label: pushes the block of a `try` with an `except`.
    SetupExcept,
    /// A handler's label: pushes the block of a `try` with a `finally`.
    SetupFinally,
    /// No operand: goes into a `finally` with no reason to unwind.
    EnterFinally,
    /// No operand: leaves a `finally`, and goes on with its reason.
    EndFinally,
    /// A handler's label: pops a manager, enters it, and pushes its exit and what it gave.
    SetupWith,
    /// No operand: pops an asynchronous manager, and pushes its exit and what entering gave.
    BeforeAsyncWith,
    /// A handler's label: pushes the block of an `async with` below the top.
    SetupAsyncWith,
    /// No operand: calls the exit of a `with`.
    WithCleanupStart,
    /// No operand: leaves a `with`, and drops what is raised where the exit said so.
    WithCleanupFinish,
    /// No operand: pops a block whose body ended.
    PopBlock,
    /// No operand: leaves an `except`, and puts back the exception handled before.
    PopException,
    /// No operand: pops an iterable and pushes its iterator.
    GetIter,
    /// No operand: pops an awaitable and pushes its iterator.
    GetAwaitable,
    /// No operand: pops an asynchronous iterable and pushes its iterator.
    GetAIter,
    /// No operand: pushes the awaitable of an asynchronous iterator's next item.
    GetANext,
    /// No operand: ends an `async for` where its iterator is done, else raises.
    EndAsyncFor,
    /// A label: pushes the iterator's next item, or drops the iterator and goes there.
    ForIter,
    /// Flags of what lies below the name and the code: makes a function.
    MakeFunction,
    /// A count: calls a function with as many arguments.
    CallFunctionPositional,
    /// A count: the same, the last of the arguments named by a tuple of names.
    CallFunctionKeyword,
    /// 1 where there are keywords, else 0: calls with an iterable and a dict of keywords.
    CallFunctionEx,
    /// A name: pops an object, and pushes what a call of its method needs.
    LoadMethod,
    /// A count: calls a method with as many arguments.
    CallMethodPositional,
    /// A count: the same, the last of the arguments named by a tuple of names.
    CallMethodKeyword,
    /// 1 where there are keywords, else 0: calls a method with an iterable and a dict.
    CallMethodEx,
    /// A label: goes there.
    Jump,
    /// A label: pops a value, and goes there where it is true.
    JumpIfTrue,
    /// A label: pops a value, and goes there where it is false.
    JumpIfFalse,
    /// A label: goes there where the top is true, else pops it.
    JumpIfTrueOrPop,
    /// A label: goes there where the top is false, else pops it.
    JumpIfFalseOrPop,
    /// A `RaiseKind`: raises what it pops, or what is handled.
    Raise,
    /// A label: leaves the loop, to go on there.
    Break,
    /// A label: goes on with the loop there.
    Continue,
    /// No operand: pops a value and shows it.
    PrintExpr,
    /// No operand: pushes the built-in function that makes classes.
    LoadBuildClass,
    /// A count: pops an iterable and pushes its items, the first on top.
    UnpackSequence,
    /// How many before the star, plus 256 for each behind it: pops an iterable, and pushes
    /// its items with a list for the star.
    UnpackEx,
    /// A `ConversionFlag`: pops a spec and a value, and pushes the value's text.
    FormatValue,
    /// A name: pops a level and a list of names, and pushes the module.
    ImportName,
    /// No operand: the same without a name.
    ImportNameless,
    /// A name: pushes what the module on top has under it.
    ImportFrom,
    /// No operand: pops a module and takes all its names.
    ImportStar,
    /// The high part of the next unit's argument.
    ExtendedArg,
}

impl Instruction {
    /// Whether the unit only carries a part of the next one's argument.
    pub fn is_prefix(self) -> bool
        ensures { result ≡ is_prefix self }
    {
        matches!(self, Instruction::ExtendedArg)
    }
}
