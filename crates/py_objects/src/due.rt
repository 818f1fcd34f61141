//! The objects of a run at one event after another, by changes in the order of their events.

ghost use Rattle.std.specs.Prelude.{◌≡◌, ◌↔◌, true, IfOk, OnOk};
ghost use Rattle.py_objects.specs.Edits.{store_at};
ghost use Rattle.py_objects.specs.Due.{AreInOrder, later};

use crate::edit::Change;
use crate::history::edit_where_it_fits;
use crate::payload::Payload;
use py_code::NoMemory;
use std::alloc::Global;

/// Whether changes are in the order of their events.
pub fn are_in_order(changes: &[Change]) -> bool
    ensures { result ≡ true ↔ AreInOrder changes.now }
{
    changes.is_sorted_by(|first, second| first.after <= second.after)
}

/// Makes the changes of all events up to this number, and returns those that are left, of later
/// events. A change that doesn't fit its object changes nothing.
pub fn make_due<'a>(
    alloc: Global,
    payloads: &mut [Payload],
    changes: &'a [Change],
    event: u64,
) -> Result<&'a [Change], NoMemory>
    requires { AreInOrder changes.now }
    ensures made { OnOk result (payloads.new ≡ store_at payloads.old changes.now event) }
    ensures left { IfOk result (λ left. left.now ≡ later event changes.now) }
{
    let mut left = changes;
    while let Some((change, more)) = left.split_first() {
        if change.after > event {
            return Ok(left);
        }
        edit_where_it_fits(alloc, payloads, change.object, &change.edit)?;
        left = more;
    }
    Ok(left)
}
