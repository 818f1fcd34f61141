//! The replies to names: to what is declared under one, and to a local that is unset.

ghost use Rattle.std.specs.Prelude.{◌≡◌, IfOk};
ghost use Rattle.py_answers.specs.Answers.{found_among, unset};
ghost use Rattle.py_answers.specs.Replying.{reply_of, IsSized};

use crate::reply::Reply;
use py_code::{NoMemory, PyText, push_bytes, push_text, text_of};
use py_objects::{AttrMap, ErrorKind};
use std::alloc::Global;

/// The reply to a name, by the first object that is declared under each.
pub(crate) fn global(
    alloc: Global,
    declarations: &AttrMap,
    name: &PyText,
) -> Result<Reply, NoMemory>
    ensures reply { IfOk result (λ reply. reply_of reply ≡ found_among name.now declarations.now) }
    ensures sized { IfOk result IsSized }
{
    if let Some(object) = declarations.get(name) {
        return Ok(Reply::Is(object));
    }
    let mut text = text_of(alloc, b"name '")?;
    push_text(&mut text, name)?;
    push_bytes(&mut text, b"' is not defined")?;
    Ok(Reply::Fails(ErrorKind::NameError, text))
}

/// The raise to a local that is unset.
pub(crate) fn unbound(alloc: Global, name: &PyText) -> Result<Reply, NoMemory>
    ensures reply { IfOk result (λ reply. reply_of reply ≡ unset name.now) }
    ensures sized { IfOk result IsSized }
{
    let mut text = text_of(alloc, b"local variable '")?;
    push_text(&mut text, name)?;
    push_bytes(&mut text, b"' referenced before assignment")?;
    Ok(Reply::Fails(ErrorKind::UnboundLocalError, text))
}
