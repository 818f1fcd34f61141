//! The refusals that name types.

ghost use Rattle.std.specs.Prelude.{◌≡◌, IfOk};
ghost use Rattle.py_objects.specs.Objects.{IsMade};
ghost use Rattle.py_answers.specs.Answers.{not_supported};
ghost use Rattle.py_answers.specs.Replying.{reply_of, IsRefused, IsSized, Says};

use crate::reply::Reply;
use py_code::{NoMemory, PyText, push_bytes, push_text, text_of};
use py_exceptions::type_name;
use py_objects::{ErrorKind, Payload, Store};
use std::alloc::Global;

/// The refusal of the operator or comparison with this sign at two payloads.
pub(crate) fn refused(
    alloc: Global,
    store: &Store,
    sign: &[u8],
    left: &Payload,
    right: &Payload,
) -> Result<Reply, NoMemory>
    requires left_made { IsMade store.now.made left.now }
    requires right_made { IsMade store.now.made right.now }
    ensures reply { IfOk result (Says (IsRefused store.now.made sign.now left.now right.now)) }
    ensures sized { IfOk result IsSized }
{
    let left_type = type_name(alloc, store, left)?;
    let right_type = type_name(alloc, store, right)?;
    not_supported(alloc, sign, &left_type, &right_type)
}

/// The same at operands of types with these names.
fn not_supported(
    alloc: Global,
    sign: &[u8],
    left: &PyText,
    right: &PyText,
) -> Result<Reply, NoMemory>
    ensures reply { IfOk result (λ reply. reply_of reply ≡ not_supported sign.now left.now right.now) }
    ensures sized { IfOk result IsSized }
{
    let mut text = text_of(alloc, b"'")?;
    push_bytes(&mut text, sign)?;
    push_bytes(&mut text, b"' not supported between instances of '")?;
    push_text(&mut text, left)?;
    push_bytes(&mut text, b"' and '")?;
    push_text(&mut text, right)?;
    push_bytes(&mut text, b"'")?;
    Ok(Reply::Fails(ErrorKind::TypeError, text))
}
