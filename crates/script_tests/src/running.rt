//! Scripts that are run from memory, for their journals.

use py_code::NoMemory;
use py_outside::SourceMemory;
use py_script::{Journal, SinkMemory, run_script};
use std::alloc::Global;

/// The journal of a script, in at most a thousand turns.
pub fn journal_of(alloc: Global, script: &[u8]) -> Result<Journal, NoMemory> {
    let mut bytes = Vec::new(alloc);
    for byte in script {
        bytes.push(*byte)?;
    }
    let mut source = SourceMemory::new(bytes, Vec::new(alloc), 1000);
    let mut sink = SinkMemory::new(alloc, Vec::new(alloc), 1000, 1000)?;
    match run_script(alloc, &mut source, &mut sink, 1000) {
        Ok(journal) => Ok(journal),
        Err(_) => Err(NoMemory),
    }
}
