//! How soon a TURN client has an allocation, and how soon it ends.

ghost use Rattle.std.specs.Prelude.{ℕ, ◌+◌, List};
ghost use Rattle.is_turn_progress.specs.States.{State};
ghost use Rattle.is_turn_progress.specs.Closing.{CLOSING, IsClosed, IsPunctualExecution, IsEndedBy};
ghost use Rattle.is_turn_progress.specs.Reaching.{ALLOCATING, IsStarted, IsAnswered, IsReachedBy};

/// At a server that returns each response within `x`, called at most `d` after the time of `poll_timeout`, a client that is started with
/// the right password, or without credentials at an open server, reports `Allocated` within 2 (x + d): a challenge ends the pace. `x` is below
/// the last wait of the client's timing: 8 s by RFC 8489.
pub fn an_allocation_is_reached()
    ensures { (mac : List ℕ → List ℕ → List ℕ) (start x d : ℕ) (s : State) (run : List State)
        → IsStarted start x d s → IsAnswered mac x d s run → IsReachedBy (start + ALLOCATING x d) run }
{}

/// A client with an allocation that is closed ends within an RTO, the last wait and three times (d and 5 ms), if `handle_timeout` is called
/// at most `d` after the time of `poll_timeout`: also without any response, and sooner with one. A challenge, which makes another attempt, is
/// not counted.
pub fn a_closed_client_ends()
    ensures { (mac : List ℕ → List ℕ → List ℕ) (time d : ℕ) (x : State) (run : List State) → (closed : IsClosed time d x)
        → IsPunctualExecution mac d x run → IsEndedBy (time + CLOSING closed.before.timing d) run }
{}
