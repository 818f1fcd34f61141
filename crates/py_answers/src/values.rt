//! What an object is, as the rows of answers read it.

ghost use Rattle.std.specs.Prelude.{◌<◌, length};
ghost use Rattle.py_objects.specs.declared.error_kind.ErrorKind.TheVariants.{BaseException};
ghost use Rattle.py_objects.specs.Ancestry.{IsDerived};
ghost use Rattle.py_objects.specs.ErrorKinds.{name_of};
ghost use Rattle.py_objects.specs.Objects.{IsClassObject};
ghost use Rattle.py_answers.specs.Replying.{IsRead};
ghost use Rattle.py_answers.specs.Readable.{IsReadable};

use py_objects::{ErrorKind, Payload, PyObjectRef, PyTypeRef, Store};

/// What an object is: as it was made, except the pairs of a dict and the links of an exception.
pub fn entry(store: &Store, object: PyObjectRef) -> &Payload
    requires readable { IsReadable store.now }
    requires below { object.number < length store.now.made }
    ensures { IsRead store.now.made object result.now }
{
    store.get(object)
}

/// Whether a class is one of exceptions: it is `BaseException`, or derives from it.
pub(crate) fn is_of_exceptions(store: &Store, class: PyObjectRef) -> bool
    requires { IsClassObject store.now.made class }
    ensures { IsDerived store.now.made class (name_of BaseException) result }
{
    let class = PyTypeRef {
        number: class.number,
    };
    store.derives_from(class, ErrorKind::BaseException)
}
