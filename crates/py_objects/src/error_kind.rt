//! The built-in exception classes: their names, and which of them each derives from.
// The hierarchy of the Python Library Reference, "Built-in Exceptions", where a group of exceptions derives from BaseExceptionGroup alone.

ghost use Rattle.std.specs.Prelude.{◌≡◌, bytes_eq};
ghost use Rattle.py_objects.specs.ErrorKinds.{bases_of, error_kinds, name_of};
ghost use Rattle.py_objects.specs.ErrorPlaces.{place_of};

use py_code::PyText;
use std::fmt;

/// A built-in exception class.
#[derive(Clone, Copy, Debug, PartialEq, Eq)]
pub enum ErrorKind {
    BaseException,
    SystemExit,
    KeyboardInterrupt,
    GeneratorExit,
    BaseExceptionGroup,
    Exception,
    ExceptionGroup,
    StopIteration,
    StopAsyncIteration,
    ArithmeticError,
    AssertionError,
    AttributeError,
    BufferError,
    EOFError,
    ImportError,
    LookupError,
    MemoryError,
    NameError,
    OSError,
    ReferenceError,
    RuntimeError,
    SyntaxError,
    SystemError,
    TypeError,
    ValueError,
    Warning,
    FloatingPointError,
    OverflowError,
    ZeroDivisionError,
    ModuleNotFoundError,
    IndexError,
    KeyError,
    UnboundLocalError,
    UnicodeError,
    UnicodeDecodeError,
    UnicodeEncodeError,
    UnicodeTranslateError,
    BlockingIOError,
    ChildProcessError,
    ConnectionError,
    FileExistsError,
    FileNotFoundError,
    InterruptedError,
    IsADirectoryError,
    NotADirectoryError,
    PermissionError,
    ProcessLookupError,
    TimeoutError,
    BrokenPipeError,
    ConnectionAbortedError,
    ConnectionRefusedError,
    ConnectionResetError,
    NotImplementedError,
    RecursionError,
    IndentationError,
    TabError,
    DeprecationWarning,
    PendingDeprecationWarning,
    RuntimeWarning,
    SyntaxWarning,
    UserWarning,
    FutureWarning,
    ImportWarning,
    UnicodeWarning,
    BytesWarning,
    ResourceWarning,
    EncodingWarning,
}

use ErrorKind::*;

impl ErrorKind {
    /// All of them, each behind those that it derives from: in the order of their objects.
    pub fn all() -> &'static [ErrorKind]
        ensures { result.now ≡ error_kinds }
    {
        &[
            BaseException,
            SystemExit,
            KeyboardInterrupt,
            GeneratorExit,
            BaseExceptionGroup,
            Exception,
            ExceptionGroup,
            StopIteration,
            StopAsyncIteration,
            ArithmeticError,
            AssertionError,
            AttributeError,
            BufferError,
            EOFError,
            ImportError,
            LookupError,
            MemoryError,
            NameError,
            OSError,
            ReferenceError,
            RuntimeError,
            SyntaxError,
            SystemError,
            TypeError,
            ValueError,
            Warning,
            FloatingPointError,
            OverflowError,
            ZeroDivisionError,
            ModuleNotFoundError,
            IndexError,
            KeyError,
            UnboundLocalError,
            UnicodeError,
            UnicodeDecodeError,
            UnicodeEncodeError,
            UnicodeTranslateError,
            BlockingIOError,
            ChildProcessError,
            ConnectionError,
            FileExistsError,
            FileNotFoundError,
            InterruptedError,
            IsADirectoryError,
            NotADirectoryError,
            PermissionError,
            ProcessLookupError,
            TimeoutError,
            BrokenPipeError,
            ConnectionAbortedError,
            ConnectionRefusedError,
            ConnectionResetError,
            NotImplementedError,
            RecursionError,
            IndentationError,
            TabError,
            DeprecationWarning,
            PendingDeprecationWarning,
            RuntimeWarning,
            SyntaxWarning,
            UserWarning,
            FutureWarning,
            ImportWarning,
            UnicodeWarning,
            BytesWarning,
            ResourceWarning,
            EncodingWarning,
        ]
    }

    /// Its place among all of them, from 0.
    pub fn place(self) -> u64
        ensures { result ≡ place_of self }
    {
        self as u64
    }

    /// The class's name, in ASCII.
    pub fn name(self) -> &'static [u8]
        ensures { result.now ≡ name_of self }
    {
        match self {
            BaseException => b"BaseException".as_slice(),
            SystemExit => b"SystemExit".as_slice(),
            KeyboardInterrupt => b"KeyboardInterrupt".as_slice(),
            GeneratorExit => b"GeneratorExit".as_slice(),
            BaseExceptionGroup => b"BaseExceptionGroup".as_slice(),
            Exception => b"Exception".as_slice(),
            ExceptionGroup => b"ExceptionGroup".as_slice(),
            StopIteration => b"StopIteration".as_slice(),
            StopAsyncIteration => b"StopAsyncIteration".as_slice(),
            ArithmeticError => b"ArithmeticError".as_slice(),
            AssertionError => b"AssertionError".as_slice(),
            AttributeError => b"AttributeError".as_slice(),
            BufferError => b"BufferError".as_slice(),
            EOFError => b"EOFError".as_slice(),
            ImportError => b"ImportError".as_slice(),
            LookupError => b"LookupError".as_slice(),
            MemoryError => b"MemoryError".as_slice(),
            NameError => b"NameError".as_slice(),
            OSError => b"OSError".as_slice(),
            ReferenceError => b"ReferenceError".as_slice(),
            RuntimeError => b"RuntimeError".as_slice(),
            SyntaxError => b"SyntaxError".as_slice(),
            SystemError => b"SystemError".as_slice(),
            TypeError => b"TypeError".as_slice(),
            ValueError => b"ValueError".as_slice(),
            Warning => b"Warning".as_slice(),
            FloatingPointError => b"FloatingPointError".as_slice(),
            OverflowError => b"OverflowError".as_slice(),
            ZeroDivisionError => b"ZeroDivisionError".as_slice(),
            ModuleNotFoundError => b"ModuleNotFoundError".as_slice(),
            IndexError => b"IndexError".as_slice(),
            KeyError => b"KeyError".as_slice(),
            UnboundLocalError => b"UnboundLocalError".as_slice(),
            UnicodeError => b"UnicodeError".as_slice(),
            UnicodeDecodeError => b"UnicodeDecodeError".as_slice(),
            UnicodeEncodeError => b"UnicodeEncodeError".as_slice(),
            UnicodeTranslateError => b"UnicodeTranslateError".as_slice(),
            BlockingIOError => b"BlockingIOError".as_slice(),
            ChildProcessError => b"ChildProcessError".as_slice(),
            ConnectionError => b"ConnectionError".as_slice(),
            FileExistsError => b"FileExistsError".as_slice(),
            FileNotFoundError => b"FileNotFoundError".as_slice(),
            InterruptedError => b"InterruptedError".as_slice(),
            IsADirectoryError => b"IsADirectoryError".as_slice(),
            NotADirectoryError => b"NotADirectoryError".as_slice(),
            PermissionError => b"PermissionError".as_slice(),
            ProcessLookupError => b"ProcessLookupError".as_slice(),
            TimeoutError => b"TimeoutError".as_slice(),
            BrokenPipeError => b"BrokenPipeError".as_slice(),
            ConnectionAbortedError => b"ConnectionAbortedError".as_slice(),
            ConnectionRefusedError => b"ConnectionRefusedError".as_slice(),
            ConnectionResetError => b"ConnectionResetError".as_slice(),
            NotImplementedError => b"NotImplementedError".as_slice(),
            RecursionError => b"RecursionError".as_slice(),
            IndentationError => b"IndentationError".as_slice(),
            TabError => b"TabError".as_slice(),
            DeprecationWarning => b"DeprecationWarning".as_slice(),
            PendingDeprecationWarning => b"PendingDeprecationWarning".as_slice(),
            RuntimeWarning => b"RuntimeWarning".as_slice(),
            SyntaxWarning => b"SyntaxWarning".as_slice(),
            UserWarning => b"UserWarning".as_slice(),
            FutureWarning => b"FutureWarning".as_slice(),
            ImportWarning => b"ImportWarning".as_slice(),
            UnicodeWarning => b"UnicodeWarning".as_slice(),
            BytesWarning => b"BytesWarning".as_slice(),
            ResourceWarning => b"ResourceWarning".as_slice(),
            EncodingWarning => b"EncodingWarning".as_slice(),
        }
    }

    /// Whether a text is the class's name.
    pub fn is_name(self, text: &PyText) -> bool
        ensures { result ≡ bytes_eq text.now (name_of self) }
    {
        is_word(text, self.name())
    }

    /// The classes that it derives from, the nearest first.
    pub fn bases(self) -> &'static [ErrorKind]
        ensures { result.now ≡ bases_of self }
    {
        match self {
            BaseException => &[],
            SystemExit | KeyboardInterrupt | GeneratorExit | BaseExceptionGroup | Exception => &[
                BaseException,
            ],
            ExceptionGroup => &[BaseExceptionGroup, BaseException],
            StopIteration
            | StopAsyncIteration
            | ArithmeticError
            | AssertionError
            | AttributeError
            | BufferError
            | EOFError
            | ImportError
            | LookupError
            | MemoryError
            | NameError
            | OSError
            | ReferenceError
            | RuntimeError
            | SyntaxError
            | SystemError
            | TypeError
            | ValueError
            | Warning => &[Exception, BaseException],
            FloatingPointError | OverflowError | ZeroDivisionError => &[
                ArithmeticError,
                Exception,
                BaseException,
            ],
            ModuleNotFoundError => &[ImportError, Exception, BaseException],
            IndexError | KeyError => &[LookupError, Exception, BaseException],
            UnboundLocalError => &[NameError, Exception, BaseException],
            UnicodeError => &[ValueError, Exception, BaseException],
            UnicodeDecodeError | UnicodeEncodeError | UnicodeTranslateError => &[
                UnicodeError,
                ValueError,
                Exception,
                BaseException,
            ],
            BlockingIOError
            | ChildProcessError
            | ConnectionError
            | FileExistsError
            | FileNotFoundError
            | InterruptedError
            | IsADirectoryError
            | NotADirectoryError
            | PermissionError
            | ProcessLookupError
            | TimeoutError => &[OSError, Exception, BaseException],
            BrokenPipeError
            | ConnectionAbortedError
            | ConnectionRefusedError
            | ConnectionResetError => &[ConnectionError, OSError, Exception, BaseException],
            NotImplementedError | RecursionError => &[RuntimeError, Exception, BaseException],
            IndentationError => &[SyntaxError, Exception, BaseException],
            TabError => &[IndentationError, SyntaxError, Exception, BaseException],
            DeprecationWarning
            | PendingDeprecationWarning
            | RuntimeWarning
            | SyntaxWarning
            | UserWarning
            | FutureWarning
            | ImportWarning
            | UnicodeWarning
            | BytesWarning
            | ResourceWarning
            | EncodingWarning => &[Warning, Exception, BaseException],
        }
    }
}

impl fmt::Display for ErrorKind {
    fn fmt<W: fmt::Write>(&self, f: &mut fmt::Formatter<W>) -> fmt::Result {
        for byte in self.name() {
            f.write_char(char::from(*byte))?;
        }
        Ok(())
    }
}

/// Whether the characters of a text are those of an ASCII word.
fn is_word(text: &PyText, word: &[u8]) -> bool
    ensures { result ≡ bytes_eq text.now word.now }
{
    let mut characters = text.as_slice();
    let mut bytes = word;
    while let Some((character, more)) = characters.split_first() {
        let Some((byte, rest)) = bytes.split_first() else {
            return false;
        };
        if *character != char::from(*byte) {
            return false;
        }
        characters = more;
        bytes = rest;
    }
    bytes.is_empty()
}
