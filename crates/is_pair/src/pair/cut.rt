//! Which checks are dropped when one more is sent.

use is_stun::stun::TransId;

/// Which of the pending transactions are dropped when one more is sent.
#[derive(Clone, Copy)]
pub(crate) enum Cut {
    /// No check.
    Nothing,
    /// Only the oldest, with this transaction ID.
    Oldest(TransId),
    /// Several, as when fewer are to be stored than before.
    Several,
}
