//! Where a trial stands.

#[derive(Clone, Copy, PartialEq, Eq)]
pub enum Phase {
    Idle,
    Open,
    Answered,
}
