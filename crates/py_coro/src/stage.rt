//! Where an activation stands between two calls.

/// Not entered yet; left by a yield; entered and not left, maybe in order to be closed; never entered again.
#[derive(Clone, Copy, Debug, PartialEq, Eq)]
pub(crate) enum Stage {
    Fresh,
    Suspended,
    Running { closing: bool },
    Closed,
}
