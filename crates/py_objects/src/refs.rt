//! Numbers of objects: each names one entry of the store.

ghost use Rattle.std.specs.Prelude.{◌≡◌};
ghost use Rattle.py_objects.specs.Refs.{as_object, class_object, frame_object, object_of_traceback};

use py_code::ItemList;

/// An object, by its number.
#[derive(Clone, Copy, Debug, PartialEq, Eq)]
pub struct PyObjectRef {
    pub number: u64,
}

/// A class, by its number.
#[derive(Clone, Copy, Debug, PartialEq, Eq)]
pub struct PyTypeRef {
    pub number: u64,
}

impl From<PyTypeRef> for PyObjectRef {
    ghost from_gives = { λ class object. object ≡ class_object class };

    fn from(class: PyTypeRef) -> PyObjectRef {
        PyObjectRef {
            number: class.number,
        }
    }
}

/// An exception, by its number.
#[derive(Clone, Copy, Debug, PartialEq, Eq)]
pub struct PyBaseExceptionRef {
    pub number: u64,
}

impl From<PyBaseExceptionRef> for PyObjectRef {
    ghost from_gives = { λ exception object. object ≡ as_object exception };

    fn from(exception: PyBaseExceptionRef) -> PyObjectRef {
        PyObjectRef {
            number: exception.number,
        }
    }
}

/// A traceback, by its number.
#[derive(Clone, Copy, Debug, PartialEq, Eq)]
pub struct PyTracebackRef {
    pub number: u64,
}

impl From<PyTracebackRef> for PyObjectRef {
    ghost from_gives = { λ traceback object. object ≡ object_of_traceback traceback };

    fn from(traceback: PyTracebackRef) -> PyObjectRef {
        PyObjectRef {
            number: traceback.number,
        }
    }
}

/// A frame, by its number.
#[derive(Clone, Copy, Debug, PartialEq, Eq)]
pub struct FrameRef {
    pub number: u64,
}

impl From<FrameRef> for PyObjectRef {
    ghost from_gives = { λ frame object. object ≡ frame_object frame };

    fn from(frame: FrameRef) -> PyObjectRef {
        PyObjectRef {
            number: frame.number,
        }
    }
}

/// Objects in order.
pub type ObjList = ItemList<PyObjectRef>;
