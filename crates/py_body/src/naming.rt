//! The names of a code: texts in the table of names.

ghost use Rattle.std.specs.Prelude.{IfOk};
ghost use Rattle.py_laid.specs.Fits.{Continues};
ghost use Rattle.py_laid.specs.Naming.{IsNameFor, NamesAll};

use py_code::{NameId, Names, NoMemory, PyText, utf8_of};
use std::alloc::Global;

/// The name of a text.
pub fn intern_text(alloc: Global, names: &mut Names, text: &PyText) -> Result<NameId, NoMemory>
    ensures named { IfOk result (λ id. IsNameFor names.new id text.now) }
    ensures grows { Continues names.old names.new }
{
    let text = utf8_of(alloc, text)?;
    names.intern(&text)
}

/// The names of texts, in order.
pub fn intern_all(
    alloc: Global,
    names: &mut Names,
    texts: &[PyText],
) -> Result<Vec<NameId>, NoMemory>
    ensures named { IfOk result (λ ids. NamesAll names.new ids.items texts.now) }
    ensures grows { Continues names.old names.new }
{
    let mut ids = Vec::new(alloc);
    for text in texts {
        let id = intern_text(alloc, names, text)?;
        ids.push(id)?;
    }
    Ok(ids)
}
