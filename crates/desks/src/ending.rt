//! How a hold is to end.

/// How a hold is to end.
#[derive(Clone, Copy, PartialEq, Eq, Debug)]
pub enum Ending {
    Confirm,
    Withdraw,
}
