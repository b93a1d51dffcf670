//! What a TURN client keeps secret, and how long it keeps it.

ghost use Rattle.std.specs.Prelude.{ℕ, List, Option, Result};
ghost use Rattle.is_proto.specs.declared.error.StunError.{StunError};
ghost use Rattle.is_turn.specs.Relaying.{PollsTurn};
ghost use Rattle.is_turn_progress.specs.States.{State, IsExecution};
ghost use Rattle.is_turn_progress.specs.Secrets.{LookAlike, IsNewClient, AlwaysForgets};

/// A packet shows nothing of the password and the keys but MACs: two clients that differ in these only, and whose MACs are the same, write the
/// same packets into the same buffers.
pub fn packets_are_public()
    ensures { (mac : List ℕ → List ℕ → List ℕ) (x y : State) (old : List ℕ) (result : Result (Option ℕ) StunError) (new : List ℕ) → LookAlike mac x y
        → PollsTurn mac x.credentials x.session x.leases old result new → PollsTurn mac y.credentials y.session y.leases old result new }
{}

/// A client that has an allocation, or frees it, has no password. One that has ended has no credentials, no requests and no leases: so it has no
/// key.
pub fn secrets_are_forgotten()
    ensures { (mac : List ℕ → List ℕ → List ℕ) (x : State) (run : List State) → IsNewClient x → IsExecution mac x run → AlwaysForgets run }
{}
