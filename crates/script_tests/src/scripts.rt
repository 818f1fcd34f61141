//! Words, and the text of a journal with other changes than scripts make.

use py_code::{CodeList, Names, NoMemory};
use py_objects::{
    Change, ChangeList, DriveAnswer, Edit, Event, EventList, PairList, Payload, PayloadList,
    PyObjectRef,
};
use py_script::{Command, Journal, Words, command_of, journal_text, make_script};
use std::alloc::Global;
use std::test::Fail;

fn words_of(alloc: Global, texts: &[&str]) -> Result<Words, NoMemory> {
    let mut words = Words::new(alloc);
    for text in texts {
        words.push(text)?;
    }
    Ok(words)
}

#[test]
fn words_ask_for_a_run(rt: HostRuntime) -> Result<(), Fail> {
    let alloc = rt.alloc();
    let turns = command_of(&words_of(alloc, &["run", "12"])?);
    assert_eq!(rt; turns, Command::Run { turns: 12 });
    let none = command_of(&words_of(alloc, &["run", "1 2"])?);
    assert_eq!(rt; none, Command::Usage);
    Ok(())
}

#[test]
fn words_ask_for_a_made_script(rt: HostRuntime) -> Result<(), Fail> {
    let alloc = rt.alloc();
    let most = command_of(&words_of(alloc, &["make", "7", "10000"])?);
    assert_eq!(rt;
        most,
        Command::Make {
            seed: 7,
            count: 10_000
        }
    );
    let more = command_of(&words_of(alloc, &["make", "7", "10001"])?);
    assert_eq!(rt; more, Command::Usage);
    Ok(())
}

#[test]
fn a_made_script_is_declarations_and_groups_of_drives(rt: HostRuntime) -> Result<(), Fail> {
    let none = make_script(rt.alloc(), 0, 0)?;
    let four = make_script(rt.alloc(), 0, 4)?;
    assert!(rt; none.starts_with(b"class Fault Exception\ndef enter\n"));
    let drives = b"call work 470\ncall work 256\ncall work 708\ncall count 769\nnext 4\nclose 4\n";
    assert_eq!(rt;
        four.as_slice().strip_prefix(none.as_slice()),
        Some(drives.as_slice())
    );
    Ok(())
}

fn object(number: u64) -> PyObjectRef {
    PyObjectRef { number }
}

/// A dict that is returned twice, and is given a key between the two. A second change, which changes nothing, is of the event
/// of this number.
fn journal_with_changes(alloc: Global, second: u64) -> Result<Journal, NoMemory> {
    let mut events = EventList::new(alloc);
    for drive in [1, 2] {
        let answer = DriveAnswer::Returns(object(1));
        events.push(Event::Result { drive, answer })?;
    }
    let mut objects = PayloadList::new(alloc);
    objects.push(Payload::Int(7))?;
    objects.push(Payload::Dict(PairList::new(alloc)))?;
    let mut changes = ChangeList::new(alloc);
    changes.push(Change {
        after: 1,
        object: object(1),
        edit: Edit::Put(object(0), object(0)),
    })?;
    // A number has no keys.
    changes.push(Change {
        after: second,
        object: object(0),
        edit: Edit::Drop(object(0)),
    })?;
    Ok(Journal {
        events,
        objects,
        changes,
        codes: CodeList::new(alloc, Names::new(alloc)),
    })
}

#[test]
fn a_text_shows_objects_as_they_were(rt: HostRuntime) -> Result<(), Fail> {
    let alloc = rt.alloc();
    let lines = b"1 returns {}\n2 returns {7: 7}\n";
    // In the order of their events, and not.
    for second in [1, 0] {
        let text = journal_text(alloc, &journal_with_changes(alloc, second)?)?;
        assert_eq!(rt; text.as_slice(), lines.as_slice());
    }
    Ok(())
}
