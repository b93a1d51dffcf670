//! Capacity for a few more items. A short list gets exactly as many places more, since most agents have few candidates and few pairs; a
//! long one grows as `reserve` lets it, so that it is not moved for each item.

ghost use Rattle.std.specs.Prelude.{◌≡◌, ◌+◌, ◌<◌, ◌≤◌, OnOk, vec_len, vec_capacity};
ghost use Rattle.std.specs.VecDeque.{deque_len, deque_capacity};

use std::alloc::AllocError;
use std::collections::VecDeque;

/// A list with fewer items is short.
const SHORT: usize = 4;

/// Reserves capacity for n more items of a list.
pub fn reserve_few<T>(list: &mut Vec<T>, n: usize) -> Result<(), AllocError>
    ensures items { list.new.items ≡ list.old.items }
    ensures len { vec_len list.new ≡ vec_len list.old }
    ensures ok { OnOk result (vec_len list.new + n ≤ vec_capacity list.new) }
    ensures capacity { vec_capacity list.old ≤ vec_capacity list.new }
{
    if list.len() < SHORT {
        return list.reserve_exact(n);
    }
    list.reserve(n)
}

/// Reserves capacity for one more item of a list.
pub fn reserve_one<T>(list: &mut Vec<T>) -> Result<(), AllocError>
    ensures items { list.new.items ≡ list.old.items }
    ensures len { vec_len list.new ≡ vec_len list.old }
    ensures ok { OnOk result (vec_len list.new < vec_capacity list.new) }
    ensures capacity { vec_capacity list.old ≤ vec_capacity list.new }
{
    reserve_few(list, 1)
}

/// Reserves capacity for one more item of a queue.
pub fn reserve_one_in<T>(queue: &mut VecDeque<T>) -> Result<(), AllocError>
    ensures items { queue.new.items ≡ queue.old.items }
    ensures len { deque_len queue.new ≡ deque_len queue.old }
    ensures ok { OnOk result (deque_len queue.new < deque_capacity queue.new) }
    ensures capacity { deque_capacity queue.old ≤ deque_capacity queue.new }
{
    if queue.len() < SHORT {
        return queue.reserve_exact(1);
    }
    queue.reserve(1)
}
