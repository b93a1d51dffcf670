//! The check state and the nomination state of a pair.

ghost use Rattle.std.specs.Prelude.{◌≡◌};
ghost use Rattle.is_pair.specs.States.{is_nominating, state_once_sent, state_once_answered, state_from, nomination_once_sent, nomination_again, nomination_once_answered};
ghost use Rattle.is_pair.specs.States.{nomination_from};

/// The check state of a pair (RFC 8445, section 6.1.2.6). There is no Frozen state, because every new pair may be
/// checked, and no Failed state, because a pair that fails is removed.
#[derive(Clone, Copy, Debug, Default, PartialEq, Eq)]
pub enum CheckState {
    /// No check was sent.
    #[default]
    Waiting,
    /// A check was sent, and none had a response.
    InProgress,
    /// The pair is valid: a check on it had a response, or a check on the pair that it replaced had one.
    Succeeded,
}

/// The nomination state of a pair (RFC 8445, section 8.1.1).
#[derive(Clone, Copy, Debug, Default, PartialEq, Eq)]
pub enum NominationState {
    /// Not nominated.
    #[default]
    None,
    /// Nominated, and no check was sent since then.
    Nominated,
    /// A check was sent since the nomination.
    Attempt,
    /// A check that was sent since the nomination had a response.
    Success,
}

impl CheckState {
    pub(crate) fn once_sent(self) -> CheckState
        ensures { result ≡ state_once_sent self }
    {
        match self {
            CheckState::Waiting => CheckState::InProgress,
            CheckState::InProgress | CheckState::Succeeded => self,
        }
    }

    pub(crate) fn once_answered(self) -> CheckState
        ensures { result ≡ state_once_answered self }
    {
        match self {
            CheckState::InProgress => CheckState::Succeeded,
            CheckState::Waiting | CheckState::Succeeded => self,
        }
    }

    /// Returns the state of a pair that replaces one in the other state.
    pub(crate) fn replacing(self, other: CheckState) -> CheckState
        ensures { result ≡ state_from other self }
    {
        match other {
            CheckState::Succeeded => CheckState::Succeeded,
            CheckState::Waiting | CheckState::InProgress => self,
        }
    }
}

impl NominationState {
    /// Whether the pair is nominated, and no response arrived to a check that nominates it.
    pub(crate) fn is_nominating(self) -> bool
        ensures { result ≡ is_nominating self }
    {
        match self {
            NominationState::Nominated | NominationState::Attempt => true,
            NominationState::None | NominationState::Success => false,
        }
    }

    pub(crate) fn once_sent(self) -> NominationState
        ensures { result ≡ nomination_once_sent self }
    {
        match self {
            NominationState::Nominated => NominationState::Attempt,
            NominationState::None | NominationState::Attempt | NominationState::Success => self,
        }
    }

    /// Returns the state of a pair whose nomination begins again.
    pub(crate) fn again(self) -> NominationState
        ensures { result ≡ nomination_again self }
    {
        match self {
            NominationState::None => NominationState::None,
            NominationState::Nominated | NominationState::Attempt | NominationState::Success =>
                NominationState::Nominated,
        }
    }

    /// Returns the state after a response, depending on whether the pair was nominated when the check was sent.
    pub(crate) fn once_answered(self, nominated: bool) -> NominationState
        ensures { result ≡ nomination_once_answered nominated self }
    {
        match self {
            NominationState::Attempt if nominated => NominationState::Success,
            _ => self,
        }
    }

    /// Returns the state of a pair that replaces one in the other nomination state. A nominating check in flight was
    /// the other's, so this pair has to send one.
    pub(crate) fn replacing(self, other: NominationState) -> NominationState
        ensures { result ≡ nomination_from other self }
    {
        match other {
            NominationState::None => self,
            NominationState::Nominated | NominationState::Attempt => NominationState::Nominated,
            NominationState::Success => NominationState::Success,
        }
    }
}
