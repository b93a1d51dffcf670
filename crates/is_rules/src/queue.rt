//! Early requests, until the remote credentials are known; the agent's part: `is_agent::queue`.

ghost use Rattle.std.specs.Prelude.{◌≡◌, ◌<◌, ◌+◌, ◌++◌, ◌∷◌, [], drop, map, length, take_while};
ghost use Rattle.std.specs.VecDeque.{deque_len, deque_capacity};
ghost use Rattle.is_rules.specs.RequestView.{waiting_view};
ghost use Rattle.is_rules.specs.Queue.{queued_last, is_outdated};

use crate::request::Waiting;
use is_proto::Instant;
use is_stun::stun::StunTiming;
use std::collections::VecDeque;

/// The greatest number of early requests.
const QUEUE_LIMIT: usize = 100;

/// Removes this many requests from the front.
#[inline(always)]
pub fn drop_first(queue: &mut VecDeque<Waiting>, count: usize)
    ensures items { queue.new.items ≡ drop count queue.old.items }
{
    for _ in 0..count {
        let _ = queue.pop_front();
    }
}

/// Appends the request within the reserved capacity. Beyond the limit the oldest ones are removed.
pub fn enqueue(queue: &mut VecDeque<Waiting>, waiting: Waiting)
    requires { deque_len queue.old < deque_capacity queue.old }
    ensures { map waiting_view queue.new.items ≡ queued_last (map waiting_view queue.old.items ++ waiting_view waiting ∷ []) }
{
    queue.push_back_reserved(waiting);
    let beyond = queue.len().saturating_sub(QUEUE_LIMIT);
    drop_first(queue, beyond);
}

/// The request is as old as a whole series of unanswered checks takes.
fn is_outdated(waiting: &Waiting, now: Instant, timing: &StunTiming) -> bool
    ensures { result ≡ is_outdated now.0 timing.now (waiting_view waiting.now) }
{
    now - waiting.time >= timing.timeout()
}

/// The number of outdated requests at the front.
pub fn count_outdated(queue: &VecDeque<Waiting>, now: Instant, timing: &StunTiming) -> usize
    ensures { result ≡ length (take_while (λ q. is_outdated now.0 timing.now (waiting_view q)) queue.now.items) }
{
    if queue.is_empty() {
        return 0;
    }
    queue
        .iter()
        .take_while(|waiting| is_outdated(waiting, now, timing))
        .count()
}
