//! The truth values among objects.

ghost use Rattle.std.specs.Prelude.{◌≡◌};
ghost use Rattle.std.specs.List.{position_from};
ghost use Rattle.py_objects.specs.Singletons.{own_truth, is_truth};

use crate::payload::Payload;
use crate::refs::PyObjectRef;

impl Payload {
    /// Whether it is this truth value.
    fn is_truth(&self, value: bool) -> bool
        ensures { result ≡ is_truth value self.now }
    {
        let Payload::Bool(flag) = self else {
            return false;
        };
        if value { *flag } else { !*flag }
    }
}

/// The place of the first of these that is this truth value.
#[tactic(auto, using(crate::proofs::SingletonsLemmas::truth_position))]
fn truth_place(payloads: &[Payload], value: bool) -> Option<usize>
    ensures { result ≡ position_from (is_truth value) 0 payloads.now }
{
    payloads.iter().position(|payload| payload.is_truth(value))
}

/// The first object that is this truth value, where there is one (Python Language Reference, 3.2).
pub(crate) fn first_truth(payloads: &[Payload], value: bool) -> Option<PyObjectRef>
    ensures { result ≡ own_truth value payloads.now }
{
    let place = truth_place(payloads, value)?;
    Some(PyObjectRef {
        number: place as u64,
    })
}
