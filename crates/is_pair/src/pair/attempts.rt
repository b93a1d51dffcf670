//! The pending transactions of a pair, oldest first.

ghost use Rattle.std.specs.Prelude.{◌≡◌, ◌<◌, ◌≤◌, ◌-◌, OnOk, find, length, position, reverse, slice_get};
ghost use Rattle.std.specs.Option.{option_copied};
ghost use Rattle.std.specs.VecDeque.{deque_len, deque_capacity};
ghost use Rattle.is_pair.specs.Checks.{first_unanswered, has_id, is_answered, last_check, last_checks, unanswered_count};
ghost use Rattle.is_pair.specs.Silence.{first_of_last};

use super::attempt::BindingAttempt;
use is_stun::stun::TransId;
use std::alloc::AllocError;
use std::collections::VecDeque;
use std::mem::swap;

/// Returns the first check with this transaction ID.
pub(crate) fn with_id(
    attempts: &VecDeque<BindingAttempt>,
    trans_id: TransId,
) -> Option<&BindingAttempt>
    ensures { option_copied result ≡ find (has_id trans_id.0) attempts.now.items }
{
    attempts.iter().find(|attempt| attempt.has_id(trans_id))
}

/// Returns the first check.
pub(crate) fn first(attempts: &VecDeque<BindingAttempt>) -> Option<BindingAttempt>
    ensures { result ≡ slice_get attempts.now.items 0 }
{
    attempts.front().copied()
}

/// Returns the last check.
pub(crate) fn last(attempts: &VecDeque<BindingAttempt>) -> Option<BindingAttempt>
    ensures { result ≡ last_check attempts.now.items }
{
    attempts.back().copied()
}

/// Removes all except the last `kept` checks.
pub(crate) fn keep_last(attempts: &mut VecDeque<BindingAttempt>, kept: usize)
    ensures kept { attempts.new.items ≡ last_checks kept attempts.old.items }
    ensures capacity { deque_capacity attempts.new ≡ deque_capacity attempts.old }
{
    while attempts.len() > kept {
        attempts.pop_front();
    }
}

/// Returns the last check that had a response.
pub(crate) fn last_answered(attempts: &VecDeque<BindingAttempt>) -> Option<&BindingAttempt>
    ensures { option_copied result ≡ find is_answered (reverse attempts.now.items) }
{
    attempts.iter().rev().find(|attempt| attempt.is_answered())
}

/// Returns the first check after the last one that had a response.
pub(crate) fn first_unanswered(attempts: &VecDeque<BindingAttempt>) -> Option<BindingAttempt>
    ensures { result ≡ first_unanswered attempts.now.items }
{
    attempts.get(attempts.len() - unanswered(attempts)).copied()
}

/// Returns how many checks follow the last one that had a response, or the number of all checks if none had.
pub(crate) fn unanswered(attempts: &VecDeque<BindingAttempt>) -> usize
    ensures count { result ≡ unanswered_count attempts.now.items }
    ensures within { result ≤ length attempts.now.items }
{
    let answered = attempts
        .iter()
        .rev()
        .position(|attempt| attempt.is_answered());
    answered.unwrap_or(attempts.len())
}

/// Returns the check with which the last `n` begin.
pub(crate) fn first_of_last(attempts: &VecDeque<BindingAttempt>, n: usize) -> Option<BindingAttempt>
    ensures { result ≡ first_of_last n attempts.now.items }
{
    attempts.get(attempts.len().saturating_sub(n)).copied()
}

/// Returns the index of the first check with this transaction ID, if there is one.
pub(crate) fn place_of(attempts: &VecDeque<BindingAttempt>, trans_id: TransId) -> Option<usize>
    ensures { result ≡ position (has_id trans_id.0) attempts.now.items }
{
    attempts.iter().position(|attempt| attempt.has_id(trans_id))
}

/// Makes capacity for one more check. A full queue moves its checks to the spare one, and the two are swapped; the memory of the full one
/// is freed.
fn make_room(attempts: &mut VecDeque<BindingAttempt>, spare: &mut VecDeque<BindingAttempt>)
    requires { length attempts.old.items < deque_capacity spare.old }
    ensures items { attempts.new.items ≡ attempts.old.items }
    ensures room { deque_len attempts.new < deque_capacity attempts.new }
{
    if attempts.len() < attempts.capacity() {
        return;
    }
    spare.clear();
    match spare.append(attempts) {
        Ok(()) => swap(attempts, spare),
        Err(_) => unreachable!(),
    }
    spare.shrink_to_fit();
}

/// Makes capacity for one more check of at most `limit`: drops those that are then no longer among the last, or moves a full queue to the
/// spare one.
pub(crate) fn make_room_within(
    attempts: &mut VecDeque<BindingAttempt>,
    spare: &mut VecDeque<BindingAttempt>,
    limit: usize,
)
    requires limit { 0 < limit }
    requires room { length attempts.old.items < limit → length attempts.old.items < deque_capacity spare.old }
    ensures items { attempts.new.items ≡ last_checks (limit - 1) attempts.old.items }
    ensures room { deque_len attempts.new < deque_capacity attempts.new }
{
    if attempts.len() < limit {
        make_room(attempts, spare);
        return;
    }
    keep_last(attempts, limit - 1);
}

/// Gives the spare queue capacity for more than `most` checks, for `new_attempt_reserved`. If it has more than four times as much, the rest is
/// given back.
pub(crate) fn reserve_beyond(
    spare: &mut VecDeque<BindingAttempt>,
    most: usize,
) -> Result<(), AllocError>
    ensures { OnOk result (most < deque_capacity spare.new) }
{
    spare.clear();
    match most.checked_add(1) {
        Some(len) => {
            if spare.capacity() / 4 > len {
                spare.shrink_to(len);
            }
            spare.reserve_exact(len)
        }
        None => Err(AllocError),
    }
}
