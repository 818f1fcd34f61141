//! Payloads of stores that are worked by hand.

ghost use Rattle.std.specs.Prelude.{◌≡◌, IfOk};
ghost use Rattle.py_objects.specs.declared.payload.Payload.TheVariants.{Class, Exception};
ghost use Rattle.py_objects.specs.Values.{new_exception};

use py_code::{NoMemory, text_of};
use py_objects::{
    AttrMap, Boxed, ClassBody, ExceptionBody, ObjList, Payload, PyObjectRef, PyTypeRef,
};
use std::alloc::Global;

/// A class with this name and these bases.
pub fn class(alloc: Global, name: &[u8], mro: ObjList) -> Result<Payload, NoMemory>
    ensures { IfOk result (λ class. class ≡ Class (record { name = name.now; mro = mro })) }
{
    let name = text_of(alloc, name)?;
    Ok(Payload::Class(Boxed::new(alloc, ClassBody { name, mro })?))
}

/// An exception of a class, with its arguments and nothing else.
pub fn exception(alloc: Global, class: PyTypeRef, args: PyObjectRef) -> Result<Payload, NoMemory>
    ensures { IfOk result (λ made. made ≡ Exception (new_exception class args)) }
{
    let body = ExceptionBody {
        class,
        args,
        cause: None,
        context: None,
        suppress: false,
        traceback: None,
        attrs: AttrMap::new(alloc),
    };
    Ok(Payload::Exception(Boxed::new(alloc, body)?))
}
