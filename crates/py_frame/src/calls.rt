//! Calls, by what is called.

ghost use Rattle.std.specs.Prelude.{◌≡◌, IfOk, OnOk, OnErr};
ghost use Rattle.py_objects.specs.declared.payload.Payload.{Payload as PayloadOf};
ghost use Rattle.py_objects.specs.Objects.{HasPayload};
ghost use Rattle.py_objects.specs.Callees.{builtin_request, close_request, own_request, send_request, throw_request};
ghost use Rattle.py_stack.specs.Stacks.{places};
ghost use Rattle.py_frame.specs.Cores.{CanAskBy, CanMove, IsUnchanged, MayAsk, MayDo};
ghost use Rattle.py_frame.specs.UnitRows.{calls};
ghost use Rattle.py_frame.specs.UnitSteps.{IsCall};

use crate::executing::ExecutingFrame;
use crate::frame_core::FrameCore;
use crate::objects::builtin;
use crate::stacks::pop_many;
use crate::unit_step::UnitStep;
use py_code::{BuiltinFn, NoMemory};
use py_objects::{Keywords, ObjList, PyObjectRef, Request, Store};
use py_stack::ValueStack;

impl<S: ValueStack> ExecutingFrame<S> {
    /// Calls what lies under the top `count` values, with these in order.
    pub(crate) fn call_function(
        &mut self,
        store: &Store,
        count: usize,
    ) -> Result<UnitStep, NoMemory>
        requires safe { CanMove S.seen store.now (calls count) self.old }
        ensures row { IfOk result (MayDo S.seen store.now (calls count) self.old self.new) }
        ensures err { OnErr result (IsUnchanged S.seen self.old self.new) }
    {
        let request = self.core.call_request(&mut self.stack, store, count)?;
        Ok(self.asks(request))
    }
}

impl FrameCore {
    /// Takes a callee and its arguments off, and hands over what the call asks.
    fn call_request<S: ValueStack>(
        &self,
        stack: &mut S,
        store: &Store,
        count: usize,
    ) -> Result<Request, NoMemory>
        requires safe { CanAskBy S.seen store.now (calls count) self.now stack.old }
        ensures request { IfOk result (MayAsk S.seen store.now (calls count) self.now stack.old stack.new) }
        ensures places { OnOk result (places (S.seen stack.new) ≡ places (S.seen stack.old)) }
        ensures err { OnErr result (S.seen stack.new ≡ S.seen stack.old) }
    {
        let arguments = pop_many(stack, store.allocator(), count)?;
        let callee = stack.pop();
        Ok(request_of(store, callee, arguments))
    }
}

/// What the call of an object asks, by what the object is.
fn request_of(store: &Store, callee: PyObjectRef, args: ObjList) -> Request
    requires { (p : PayloadOf) × HasPayload store.now.made callee p }
    ensures { IsCall store.now.made callee args result }
{
    match own_request(builtin(store, callee), args.as_slice()) {
        Some(request) => request,
        None => Request::Call(callee, args, Keywords::None),
    }
}

/// What the call of a function of the machine's own asks, where that is no plain call.
fn own_request(function: Option<BuiltinFn>, args: &[PyObjectRef]) -> Option<Request>
    ensures { result ≡ own_request function args.now }
{
    builtin_request(function?, args)
}

/// The same of this function.
fn builtin_request(function: BuiltinFn, args: &[PyObjectRef]) -> Option<Request>
    ensures { result ≡ builtin_request function args.now }
{
    match function {
        BuiltinFn::Send => send_request(args),
        BuiltinFn::Throw => throw_request(args),
        BuiltinFn::Close => close_request(args),
        BuiltinFn::Len
        | BuiltinFn::Repr
        | BuiltinFn::Str
        | BuiltinFn::IsInstance
        | BuiltinFn::Iter
        | BuiltinFn::Next
        | BuiltinFn::Range
        | BuiltinFn::BuildClass
        | BuiltinFn::ASend
        | BuiltinFn::AThrow
        | BuiltinFn::AClose => None,
    }
}

/// What `send` asks: it takes a generator and what is sent (Python Language Reference, 6.2.9.1).
fn send_request(args: &[PyObjectRef]) -> Option<Request>
    ensures { result ≡ send_request args.now }
{
    match args {
        [generator, value] => Some(Request::Send(*generator, *value)),
        _ => None,
    }
}

/// What `throw` asks: it takes a generator and what is raised there, with a value where it is given. A call with a traceback
/// beside is a plain one so far.
fn throw_request(args: &[PyObjectRef]) -> Option<Request>
    ensures { result ≡ throw_request args.now }
{
    match args {
        [generator, typ] => Some(Request::Throw(*generator, *typ, None, None)),
        [generator, typ, value] => Some(Request::Throw(*generator, *typ, Some(*value), None)),
        _ => None,
    }
}

/// What `close` asks: it takes a generator.
fn close_request(args: &[PyObjectRef]) -> Option<Request>
    ensures { result ≡ close_request args.now }
{
    match args {
        [generator] => Some(Request::Close(*generator)),
        _ => None,
    }
}
