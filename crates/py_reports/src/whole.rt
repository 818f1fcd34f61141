//! The whole report of an exception.

ghost use Rattle.std.specs.Prelude.{IfOk, string_bytes};
ghost use Rattle.py_reports.specs.Reports.{IsReportText, IsText};

use crate::chain::{Chain, chain_of};
use crate::lines::text_in;
use crate::report::push_piece;
use crate::scene::Scene;
use py_code::{NoMemory, PyText};
use py_objects::{PyBaseExceptionRef, PyObjectRef};
use std::alloc::Global;

/// The report of an exception, as all its steps tell it of one store.
pub fn report_of(alloc: Global, scene: &Scene, exc: PyBaseExceptionRef) -> Result<PyText, NoMemory>
    ensures { IfOk result (IsReportText scene.now exc) }
{
    let chain = chain_of(alloc, scene.objects(), PyObjectRef::from(exc))?;
    let told = chain_text(alloc, scene, chain)?;
    text_in(alloc, &told)
}

/// The text of exceptions, the last one first.
fn chain_text(alloc: Global, scene: &Scene, mut chain: Chain) -> Result<String, NoMemory>
    ensures { IfOk result (λ text. IsText scene.now chain (string_bytes text)) }
{
    let mut out = String::new(alloc);
    'each: while let Some(next) = chain.pop() {
        push_piece(&mut out, scene, next)?;
    }
    Ok(out)
}
