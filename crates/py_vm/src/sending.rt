//! What sends, throws and closes of generators come to (Python Language Reference, 6.2.9.1). A generator that no call of the machine made is closed.

ghost use Rattle.std.specs.Prelude.{◌≡◌, ◌<◌, length, IfOk};
ghost use Rattle.py_objects.specs.Objects.{numbers_if, AllBelow, HasPayload};
ghost use Rattle.py_objects.specs.declared.payload.Payload.{Payload as Entry};
ghost use Rattle.py_objects.specs.Values.{is_none};
ghost use Rattle.py_exceptions.specs.Classes.{HaveClasses};
ghost use Rattle.py_answers.specs.Readable.{IsReadable};
ghost use Rattle.py_answers.specs.Replying.{IsGenerator};
ghost use Rattle.py_vm.specs.Courses.{IsKindOf, IsRefusedOf};
ghost use Rattle.py_vm.specs.Made.{IsNewExit};
ghost use Rattle.py_vm.specs.Worlds.{ClosesFrom, GoesInto, GrowsTo, HasGrown, SendsFrom, ThrowsFrom};

use crate::calls::Course;
use crate::reply::Reply;
use crate::world::World;
use py_answers::entry;
use py_code::NoMemory;
use py_coro::{Begin, CoroRefusal};
use py_exceptions::{Instantiate, make_exception, normalized};
use py_objects::{
    CoroKind, ErrorKind, ObjList, Payload, PyBaseExceptionRef, PyObjectRef, ResumeHow, Store,
};

impl World {
    /// What a send of a value comes to, where so many activations run.
    pub(crate) fn send(
        &mut self,
        generator: PyObjectRef,
        value: PyObjectRef,
        depth: usize,
    ) -> Result<Course, NoMemory>
        requires generator { IsGenerator self.old.store.made generator }
        requires value { value.number < length self.old.store.made }
        requires readable { IsReadable self.old.store }
        requires classes { HaveClasses self.old.zoo self.old.store.made }
        ensures grows { GrowsTo self.old self.new }
        ensures course { IfOk result (SendsFrom self.old self.new depth generator value) }
    {
        let kind = self.generator_kind(generator);
        let none = is_none(&self.store, value);
        let Some(begin) = self.generators.send(generator, none, depth) else {
            return Ok(Course::Says(Reply::Stops(None)));
        };
        match begin {
            Begin::Stop => Ok(Course::Says(Reply::Stops(None))),
            Begin::Refused(refusal) => self.refused_by(kind, refusal),
            Begin::EnterStart => Ok(Course::Resumes(generator, ResumeHow::Start)),
            Begin::EnterSend => Ok(Course::Resumes(generator, ResumeHow::Send(value))),
            // A send comes to nothing else.
            _ => unreachable!(),
        }
    }

    /// What a throw of a class or an exception comes to, with a value or without one. A generator that runs refuses it before these are looked at.
    pub(crate) fn throw(
        &mut self,
        generator: PyObjectRef,
        thrown: PyObjectRef,
        value: Option<PyObjectRef>,
        depth: usize,
    ) -> Result<Course, NoMemory>
        requires generator { IsGenerator self.old.store.made generator }
        requires thrown { thrown.number < length self.old.store.made }
        requires value { AllBelow (length self.old.store.made) (numbers_if value) }
        requires readable { IsReadable self.old.store }
        requires classes { HaveClasses self.old.zoo self.old.store.made }
        ensures grows { GrowsTo self.old self.new }
        ensures course { IfOk result (ThrowsFrom self.old self.new depth generator thrown value) }
    {
        let kind = self.generator_kind(generator);
        if let Err(refusal) = self.generators.throw_check(generator) {
            return self.refused_by(kind, refusal);
        }
        match normalized(self.alloc, &self.store, thrown, value) {
            Instantiate::Done(exception) => {
                self.thrown_into(generator, exception, Reply::Passed(exception), depth)
            }
            Instantiate::Make(class, args) => {
                let exception = make_exception(&mut self.store, class, args)?;
                self.thrown_into(generator, exception, Reply::Fresh(exception), depth)
            }
            Instantiate::Fault(fault) => Ok(Course::Says(self.raised(&fault)?)),
            Instantiate::NoMemory => Err(NoMemory),
        }
    }

    /// What comes of an exception that is thrown into a generator. A closed one isn't entered, and raises it by this reply.
    fn thrown_into(
        &mut self,
        generator: PyObjectRef,
        exception: PyBaseExceptionRef,
        raise: Reply,
        depth: usize,
    ) -> Result<Course, NoMemory>
        requires generator { IsGenerator self.old.store.made generator }
        requires readable { IsReadable self.old.store }
        requires classes { HaveClasses self.old.zoo self.old.store.made }
        ensures grows { GrowsTo self.old self.new }
        ensures course { IfOk result (GoesInto self.old self.new depth generator exception raise) }
    {
        let kind = self.generator_kind(generator);
        let Some(begin) = self.generators.throw(generator, exception, depth) else {
            return Ok(Course::Says(raise));
        };
        match begin {
            Begin::Raise(_) => Ok(Course::Says(raise)),
            Begin::Refused(refusal) => self.refused_by(kind, refusal),
            Begin::EnterThrow => Ok(Course::Resumes(generator, ResumeHow::Throw(exception))),
            // A throw comes to nothing else.
            _ => unreachable!(),
        }
    }

    /// What a close comes to: a generator that was left by a yield is thrown a new GeneratorExit.
    pub(crate) fn close(&mut self, generator: PyObjectRef, depth: usize) -> Result<Course, NoMemory>
        requires generator { IsGenerator self.old.store.made generator }
        requires readable { IsReadable self.old.store }
        requires classes { HaveClasses self.old.zoo self.old.store.made }
        ensures grows { GrowsTo self.old self.new }
        ensures course { IfOk result (ClosesFrom self.old self.new depth generator) }
    {
        let kind = self.generator_kind(generator);
        let Some(begin) = self.generators.close(generator, depth) else {
            return Ok(Course::Says(Reply::Closes));
        };
        match begin {
            Begin::Done => {
                // One that hasn't been entered never will be.
                let _activation = self.generators.take(generator);
                Ok(Course::Says(Reply::Closes))
            }
            Begin::Refused(refusal) => self.refused_by(kind, refusal),
            Begin::EnterExit => {
                let exit = self.exit()?;
                Ok(Course::Resumes(generator, ResumeHow::Throw(exit)))
            }
            // A close comes to nothing else.
            _ => unreachable!(),
        }
    }

    /// A new GeneratorExit.
    fn exit(&mut self) -> Result<PyBaseExceptionRef, NoMemory>
        requires { HaveClasses self.old.zoo self.old.store.made }
        ensures grows { HasGrown self.old self.new }
        ensures made { IfOk result (IsNewExit self.old.zoo self.old.store self.new.store) }
    {
        make_exception(
            &mut self.store,
            self.zoo.class(ErrorKind::GeneratorExit),
            ObjList::new(self.alloc),
        )
    }

    /// What a generator is seen as.
    pub(crate) fn generator_kind(&self, generator: PyObjectRef) -> CoroKind
        requires generator { IsGenerator self.now.store.made generator }
        requires readable { IsReadable self.now.store }
        ensures { IsKindOf self.now.store.made generator result }
    {
        let Some(body) = entry(&self.store, generator).generator() else {
            unreachable!();
        };
        body.kind
    }

    /// The refusal of a call by a generator of this kind.
    fn refused_by(&mut self, kind: CoroKind, refusal: CoroRefusal) -> Result<Course, NoMemory>
        requires { HaveClasses self.old.zoo self.old.store.made }
        ensures grows { HasGrown self.old self.new }
        ensures refused { IfOk result (IsRefusedOf kind refusal self.old.store self.new.store) }
    {
        let fault = refusal.fault(self.alloc, kind)?;
        Ok(Course::Says(self.raised(&fault)?))
    }
}

/// Whether a value is None.
fn is_none(store: &Store, value: PyObjectRef) -> bool
    requires { value.number < length store.now.made }
    ensures { (p : Entry) × HasPayload store.now.made value p × (result ≡ is_none p) }
{
    matches!(store.get(value), Payload::None)
}
