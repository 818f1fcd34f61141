//! Runs a script from standard input.
#![tactic(auto)]

use py_code::NoMemory;
use py_script::{StdSink, StdSource, Words, run_command};
use std::process::ExitCode;
use std::{env, io, mem};

/// The status of a command whose words find no memory.
const NO_MEMORY: u8 = 8;

/// The words of the command line behind the program's own. A command line that has no text is no known command.
fn words_of(rt: &HostRuntime) -> Result<Words, NoMemory> {
    let mut words = Words::new(rt.alloc());
    let args = match env::args(rt) {
        Ok(args) => args,
        Err(error) if error.kind() == io::ErrorKind::OutOfMemory => return Err(NoMemory),
        Err(_) => return Ok(words),
    };
    for word in args.skip(1) {
        words.push(word.as_str())?;
    }
    Ok(words)
}

fn main(rt: HostRuntime) -> ExitCode {
    let Ok(words) = words_of(&rt) else {
        return ExitCode::from(NO_MEMORY);
    };
    let mut source = StdSource::new(rt.reader());
    let mut sink = StdSink::new(io::writer(&rt));
    let mut notes = StdSink::new(rt.stderr());
    let ended = run_command(rt.alloc(), &words, &mut source, &mut sink, &mut notes);
    let status = ended.status;
    // Let go of in one step, and not variant by variant at the end.
    mem::drop(ended);
    ExitCode::from(status)
}
