//! How a `handle_timeout` call starts: the start event, early requests; the agent's part: `is_agent::timeout_start`.

ghost use Rattle.std.specs.Prelude.{◌≡◌, ◌<◌, ◌≤◌, ◌+◌};
ghost use Rattle.std.specs.VecDeque.{deque_len, deque_capacity};
ghost use Rattle.is_rules.specs.TimeoutStart.{with_start};

use crate::event::IceAgentEvent;
use std::collections::VecDeque;

/// Emits the start event, if there is one.
pub fn emit_start(events: &mut VecDeque<IceAgentEvent>, start: Option<IceAgentEvent>)
    requires room { deque_len events.old < deque_capacity events.old }
    ensures items { events.new.items ≡ with_start start events.old.items }
    ensures len { deque_len events.new ≤ deque_len events.old + 1 }
    ensures capacity { deque_capacity events.new ≡ deque_capacity events.old }
{
    if let Some(event) = start {
        events.push_back_reserved(event);
    }
}
