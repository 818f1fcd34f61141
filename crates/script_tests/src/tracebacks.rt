//! The tracebacks that exits are told, as the journal of a script has them: each body that an exception is raised in puts an entry in front.

use crate::running::journal_of;
use py_code::NoMemory;
use py_objects::{Event, Payload, PyObjectRef, Request};
use std::alloc::Global;
use std::test::Fail;

/// Two exits behind the raise of line 9, and one behind that of line 15, out of the call.
const SCRIPT: &[u8] =
    b"def e\nend\ndef x t v b\nend\nmanager m e x\ndef r\nwith m\nwith m\nraise KeyError\nend\nend\nend\ndef f\nwith m\ndo (call r)\nend\nend\ncall f\n";

/// What an event tells an exit in the place of a traceback.
fn told_by(event: &Event) -> Option<PyObjectRef> {
    let Event::Ask { request, .. } = event else {
        return None;
    };
    let Request::Exit(_, _, _, traceback) = request else {
        return None;
    };
    Some(*traceback)
}

/// A traceback that an exit is told: whether it is the one before, whether it leads on to that, and its line.
type Told = (bool, bool, u32);

/// Those that the exits of the script are told.
fn tracebacks_told(alloc: Global) -> Result<Vec<Told>, NoMemory> {
    let journal = journal_of(alloc, SCRIPT)?;
    let mut told = Vec::new(alloc);
    let mut last = None;
    for event in journal.events.as_slice() {
        let Some(traceback) = told_by(event) else {
            continue;
        };
        if let Some(Payload::Traceback(body)) = journal.objects.get(traceback.number as usize) {
            let leads_on = body.next.is_some() && body.next == last;
            told.push((last == Some(traceback), leads_on, body.lineno))?;
        }
        last = Some(traceback);
    }
    Ok(told)
}

#[test]
fn each_body_that_an_exception_is_raised_in_puts_an_entry_in_front(
    rt: HostRuntime,
) -> Result<(), Fail> {
    let told = tracebacks_told(rt.alloc())?;
    assert_eq!(rt;
        told.as_slice(),
        [(false, false, 9), (true, false, 9), (false, true, 15)].as_slice()
    );
    Ok(())
}
