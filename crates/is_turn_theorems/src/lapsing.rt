//! Nothing lapses by the clock, if the caller is punctual and the server answers.

ghost use Rattle.std.specs.Prelude.{◌≡◌, ◌*◌, ℕ, List, map};
ghost use Rattle.is_proto.specs.Times.{MILLISECOND};
ghost use Rattle.is_turn.specs.Timing.{rfc, modern};
ghost use Rattle.is_turn.specs.Worlds.{Acceptance, World, IsFresh, IsRun};
ghost use Rattle.is_turn_theorems.specs.Limits.{Limits, Leave, patience};
ghost use Rattle.is_turn_theorems.specs.Timely.{Entry, IsTimely, NothingLapses};

/// An allocation never lapses by the clock. `handle_timeout` is called at most `late` after the time of `poll_timeout`; each attempt to
/// renew the allocation is answered within `within` of when it was first sent, by a success response or, at most `challenges` times,
/// by 438 (Stale Nonce). Then at each call of a client with an allocation the end that it believes is further ahead than `margin`, and
/// `handle_timeout` does not end it.
pub fn an_allocation_never_lapses()
    ensures { (k : Limits) (mac : List ℕ → List ℕ → List ℕ) (accepted : List Acceptance) (w : World) (run : List Entry)
        → Leave k → IsFresh w → IsTimely k mac accepted w run → NothingLapses k w run }
{}

/// These calls are a run of the client, its server and the network: so what the client believes is true at a server that keeps its word.
pub fn timely_calls_are_a_run()
    ensures { (k : Limits) (mac : List ℕ → List ℕ → List ℕ) (accepted : List Acceptance) (w : World) (run : List Entry)
        → IsTimely k mac accepted w run → IsRun mac accepted w (map (λ x. x.after) run) }
{}

/// An attempt that is not answered is repeated for 39.5 s by the timing of RFC 8489, and for 18.4 s by `ClientTiming::modern`.
pub fn attempts_are_patient()
    ensures rfc { patience rfc ≡ 39_500 * MILLISECOND }
    ensures modern { patience modern ≡ 18_400 * MILLISECOND }
{}
