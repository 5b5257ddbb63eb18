//! What whoever starts a trial holds.

/// The mark of a trial. It is not `Drop`, so only the trial's end can take it.
pub struct Mark {
    pub(crate) seal: (),
}
