//! What is open while its lines are read.

use crate::open_body::OpenBody;
use crate::open_raw::OpenRaw;

/// A declaration that is open, by what was read of it.
#[derive(Drop)]
pub enum OpenItem {
    /// The body of a function.
    Body(OpenBody),
    /// A raw code.
    Raw(OpenRaw),
}
