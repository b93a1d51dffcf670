//! The transaction IDs under which a request was sent. All count until it is answered, so a forged challenge cannot shut out the
//! response to an earlier one.

ghost use Rattle.std.specs.Prelude.{◌≡◌};
ghost use Rattle.is_turn.specs.Attempts.{no_attempts, if_id, or, attempt_with, with_attempt, is_last};

use is_proto::Instant;
use is_stun::stun::TransId;

/// A request as it was sent under one transaction ID, once or more often.
#[derive(Clone, Copy, Debug, PartialEq, Eq)]
pub(crate) struct Attempt {
    pub(crate) id: TransId,
    /// The key that signs it, and has to sign its response. `None`: it is not signed.
    pub(crate) key: Option<[u8; 16]>,
    /// When the attempt was first sent: what it requests lasts from then on, or longer.
    pub(crate) since: Instant,
}

/// The last six attempts of a request, the last one first. There are no more: one without a key, one with a key, three after a 438,
/// and one after a 401.
#[derive(Clone, Copy, Debug, PartialEq, Eq)]
pub(crate) struct Attempts {
    pub(crate) last: Option<Attempt>,
    pub(crate) second: Option<Attempt>,
    pub(crate) third: Option<Attempt>,
    pub(crate) fourth: Option<Attempt>,
    pub(crate) fifth: Option<Attempt>,
    pub(crate) sixth: Option<Attempt>,
}

/// Returns the attempt if it has this transaction ID.
fn if_id(attempt: Option<Attempt>, id: TransId) -> Option<Attempt>
    ensures { result ≡ if_id id attempt }
{
    match attempt {
        Some(attempt) if attempt.id == id => Some(attempt),
        _ => None,
    }
}

fn or(first: Option<Attempt>, second: Option<Attempt>) -> Option<Attempt>
    ensures { result ≡ or first second }
{
    match first {
        Some(attempt) => Some(attempt),
        None => second,
    }
}

impl Attempts {
    pub(crate) fn new() -> Attempts
        ensures { result ≡ no_attempts }
    {
        Attempts {
            last: None,
            second: None,
            third: None,
            fourth: None,
            fifth: None,
            sixth: None,
        }
    }

    /// Returns the attempt with this transaction ID.
    pub(crate) fn with_id(&self, id: TransId) -> Option<Attempt>
        ensures { result ≡ attempt_with id self.now }
    {
        let early = or(if_id(self.fifth, id), if_id(self.sixth, id));
        let middle = or(if_id(self.third, id), or(if_id(self.fourth, id), early));
        or(if_id(self.last, id), or(if_id(self.second, id), middle))
    }

    /// Returns these attempts and another one, which is the last.
    pub(crate) fn and(&self, attempt: Attempt) -> Attempts
        ensures { result ≡ with_attempt attempt self.now }
    {
        Attempts {
            last: Some(attempt),
            second: self.last,
            third: self.second,
            fourth: self.third,
            fifth: self.fourth,
            sixth: self.fifth,
        }
    }

    /// Whether the last attempt has this transaction ID.
    pub(crate) fn is_last(&self, id: TransId) -> bool
        ensures { result ≡ is_last id self.now }
    {
        match self.last {
            Some(attempt) => attempt.id == id,
            None => false,
        }
    }
}
