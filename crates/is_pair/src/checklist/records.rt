//! The memory of the removed pairs. One whose numbers are small, as most are, has a short record, which takes 17 bytes with its place; the
//! others are kept in full.

ghost use Rattle.std.specs.Prelude.{ℕ, ◌≡◌, ◌≤◌, ◌+◌, ◌++◌, ◌∷◌, [], IfErr, IfSome, OnOk, is_some, min, take};
ghost use Rattle.std.specs.VecDeque.{deque_len, deque_capacity};
ghost use Rattle.is_pair.specs.Removed.{REMOVED_LIMIT, RemovedFit};
ghost use Rattle.is_pair.specs.ShortRecords.{is_small, pair_of_short, long_count, joined};

use super::removed::{Removal, RemovedPair};
use crate::pair::CheckState;
use std::alloc::{AllocError, Global};
use std::collections::VecDeque;
use std::mem::swap;

/// The greatest number of removed pairs that are kept.
const LIMIT: usize = 32;

/// A list with no more capacity than this beyond what it needs is left as it is.
const SLACK: usize = 1;

/// A removed pair whose numbers are small, and that had no error response. Each number is stored in bytes, the least one first, so that the
/// record needs no alignment.
#[derive(Clone, Copy)]
struct ShortRecord {
    priority: [u8; 8],
    number: [u8; 2],
    checks_sent: u8,
    responses_received: u8,
    local: u8,
    remote: u8,
    state: CheckState,
    why: Removal,
}

/// Where a removed pair is.
#[derive(Clone, Copy)]
enum Place {
    /// Here.
    Short(ShortRecord),
    /// In the list of those that have no short record.
    Long,
}

impl Place {
    /// Returns 1 if there is no short record, else 0.
    fn long_count(&self) -> usize
        ensures { result ≡ long_count (self.now ∷ []) }
    {
        match self {
            Place::Short(_) => 0,
            Place::Long => 1,
        }
    }
}

impl ShortRecord {
    /// Returns nothing if a number is too large.
    fn of(pair: &RemovedPair) -> Option<ShortRecord>
        ensures same { IfSome result (λ s. pair_of_short s ≡ pair.now) }
        ensures small { is_some result ≡ is_small pair.now }
    {
        if pair.error.is_some() {
            return None;
        }
        Some(ShortRecord {
            priority: pair.priority.to_le_bytes(),
            number: u16::try_from(pair.number).ok()?.to_le_bytes(),
            checks_sent: u8::try_from(pair.checks_sent).ok()?,
            responses_received: u8::try_from(pair.responses_received).ok()?,
            local: u8::try_from(pair.local).ok()?,
            remote: u8::try_from(pair.remote).ok()?,
            state: pair.state,
            why: pair.why,
        })
    }

    fn pair(&self) -> RemovedPair
        ensures { result ≡ pair_of_short self.now }
    {
        RemovedPair {
            number: u64::from(u16::from_le_bytes(self.number)),
            local: usize::from(self.local),
            remote: usize::from(self.remote),
            priority: u64::from_le_bytes(self.priority),
            checks_sent: u64::from(self.checks_sent),
            responses_received: u64::from(self.responses_received),
            error: None,
            state: self.state,
            why: self.why,
        }
    }
}

/// Counts the places before an index whose pairs have no short record.
fn long_before(places: &VecDeque<Place>, index: usize) -> usize
    requires { index ≤ deque_len places.now }
    ensures { result ≡ long_count (take index places.now.items) }
{
    let mut count = 0;
    for place in 0..index {
        count += places[place].long_count();
    }
    count
}

/// Moves all items of a queue to the end of another one, which has room for them.
fn move_all<T: Copy>(from: &mut VecDeque<T>, to: &mut VecDeque<T>)
    requires room { deque_len to.old + deque_len from.old ≤ deque_capacity to.old }
    ensures items { to.new.items ≡ to.old.items ++ from.old.items }
    ensures len { deque_len to.new ≡ deque_len to.old + deque_len from.old }
    ensures capacity { deque_capacity to.new ≡ deque_capacity to.old }
{
    while let Some(item) = from.pop_front() {
        to.push_back_reserved(item);
    }
}

/// Gives a queue this capacity. Each item is moved by itself: `reserve_exact` and `shrink_to` turn the whole block first, which takes far more
/// code. If the allocation fails, the queue stays as it is.
fn resize<T: Copy>(queue: &mut VecDeque<T>, capacity: usize) -> Result<(), AllocError>
    requires { deque_len queue.old ≤ capacity }
    ensures items { queue.new.items ≡ queue.old.items }
    ensures len { deque_len queue.new ≡ deque_len queue.old }
    ensures resized { OnOk result (deque_capacity queue.new ≡ capacity) }
    ensures unchanged { IfErr result (λ _. deque_capacity queue.new ≡ deque_capacity queue.old) }
{
    let mut resized = VecDeque::with_capacity(*queue.allocator(), capacity)?;
    move_all(queue, &mut resized);
    swap(queue, &mut resized);
    Ok(())
}

/// Returns the capacity for so many more, or as many as are kept at most.
fn capacity_for<T>(queue: &VecDeque<T>, more: usize) -> usize
    requires few { deque_len queue.now ≤ REMOVED_LIMIT }
    ensures { result ≡ min REMOVED_LIMIT (deque_len queue.now + more) }
{
    queue.len() + more.min(LIMIT - queue.len())
}

/// Reserves capacity for so many more, or as many as are kept at most.
fn reserve<T: Copy>(queue: &mut VecDeque<T>, more: usize) -> Result<(), AllocError>
    requires few { deque_len queue.old ≤ REMOVED_LIMIT }
    ensures items { queue.new.items ≡ queue.old.items }
    ensures len { deque_len queue.new ≡ deque_len queue.old }
    ensures reserved { OnOk result (RemovedFit (deque_len queue.new) (deque_capacity queue.new) more) }
    ensures room { deque_capacity queue.old ≤ deque_capacity queue.new }
{
    let needed = capacity_for(queue, more);
    if needed <= queue.capacity() {
        return Ok(());
    }
    resize(queue, needed)
}

/// Gives back the capacity beyond that for so many more, or as many as are kept at most. If the allocation fails, the capacity stays.
fn give_back<T: Copy>(queue: &mut VecDeque<T>, more: usize)
    requires few { deque_len queue.old ≤ REMOVED_LIMIT }
    ensures items { queue.new.items ≡ queue.old.items }
    ensures len { deque_len queue.new ≡ deque_len queue.old }
    ensures room { (n : ℕ) → n ≤ more → RemovedFit (deque_len queue.old) (deque_capacity queue.old) n
        → RemovedFit (deque_len queue.new) (deque_capacity queue.new) n }
{
    let needed = capacity_for(queue, more);
    if queue.capacity() > needed + SLACK {
        let _ = resize(queue, needed);
    }
}

/// The last removed pairs, the oldest first.
#[derive(Drop)]
pub(super) struct Records {
    /// A place for each.
    places: VecDeque<Place>,
    /// Those that have no short record.
    long: VecDeque<RemovedPair>,
    ghost counted: { long_count places.items ≡ deque_len long },
    ghost few: { deque_len places ≤ REMOVED_LIMIT },
}

impl Records {
    ghost use Rattle.std.specs.Prelude.{◌-◌, ◌<◌, ◌==◌, length, slice_get, filter, not, drop};
    ghost use Rattle.is_pair.specs.Removed.{last_removed};
    ghost use Rattle.is_pair.specs.Records.{records_of, RecordsFit};

    pub(super) fn new(alloc: Global) -> Records
        ensures { records_of result ≡ [] }
    {
        Records {
            places: VecDeque::new(alloc),
            long: VecDeque::new(alloc),
        }
    }

    /// Returns how many there are.
    pub(super) fn len(&self) -> usize
        ensures length { result ≡ length (records_of self.now) }
        ensures few { result ≤ REMOVED_LIMIT }
    {
        self.places.len()
    }

    /// Returns the pair with this index.
    pub(super) fn get(&self, index: usize) -> Option<RemovedPair>
        ensures { result ≡ slice_get (records_of self.now) index }
    {
        match self.places.get(index)? {
            Place::Short(record) => Some(record.pair()),
            Place::Long => self.long.get(long_before(&self.places, index)).copied(),
        }
    }

    /// Drops the oldest.
    fn drop_oldest(&mut self)
        ensures dropped { records_of self.new ≡ drop 1 (records_of self.old) }
        ensures len { deque_len self.new.places ≡ deque_len self.old.places - 1 }
        ensures room { (n : ℕ) → RecordsFit n self.old → RecordsFit n self.new }
    {
        if let Some(Place::Long) = self.places.pop_front() {
            let _ = self.long.pop_front();
        }
    }

    /// Appends one.
    fn append(&mut self, pair: RemovedPair)
        requires few { deque_len self.old.places < REMOVED_LIMIT }
        requires room { RecordsFit 1 self.old }
        ensures appended { records_of self.new ≡ records_of self.old ++ pair ∷ [] }
        ensures room { (n : ℕ) → RecordsFit (n + 1) self.old → RecordsFit n self.new }
    {
        match ShortRecord::of(&pair) {
            Some(record) => self.places.push_back_reserved(Place::Short(record)),
            None => {
                self.places.push_back_reserved(Place::Long);
                self.long.push_back_reserved(pair);
            }
        }
    }

    /// Appends one, and drops the oldest beyond the limit.
    pub(super) fn push(&mut self, pair: RemovedPair)
        requires room { RecordsFit 1 self.old }
        ensures pushed { records_of self.new ≡ last_removed (records_of self.old ++ pair ∷ []) }
        ensures room { (n : ℕ) → RecordsFit (n + 1) self.old → RecordsFit n self.new }
    {
        if self.places.len() >= LIMIT {
            self.drop_oldest();
        }
        self.append(pair);
    }

    /// Drops all.
    pub(super) fn clear(&mut self)
        ensures cleared { records_of self.new ≡ [] }
        ensures room { (n : ℕ) → RecordsFit n self.old → RecordsFit n self.new }
    {
        self.places.clear();
        self.long.clear();
    }

    /// Reserves capacity for so many more, or as many as are kept at most.
    pub(super) fn reserve(&mut self, more: usize) -> Result<(), AllocError>
        ensures records { records_of self.new ≡ records_of self.old }
        ensures reserved { OnOk result (RecordsFit more self.new) }
        ensures room { (n : ℕ) → RecordsFit n self.old → RecordsFit n self.new }
    {
        reserve(&mut self.places, more)?;
        reserve(&mut self.long, more)
    }

    /// Gives back most of the capacity beyond that for so many more.
    pub(super) fn give_back(&mut self, more: usize)
        ensures records { records_of self.new ≡ records_of self.old }
        ensures room { (n : ℕ) → n ≤ more → RecordsFit n self.old → RecordsFit n self.new }
    {
        give_back(&mut self.places, more);
        give_back(&mut self.long, more);
    }

    /// Drops the oldest if it is of this remote candidate, and else makes it the newest.
    fn rotate(&mut self, remote: usize)
        ensures rotated { records_of self.new ≡ drop 1 (records_of self.old)
            ++ filter (λ r. not (r.remote == remote)) (take 1 (records_of self.old)) }
        ensures room { (n : ℕ) → RecordsFit n self.old → RecordsFit n self.new }
    {
        match self.places.pop_front() {
            Some(Place::Short(record)) => {
                if usize::from(record.remote) != remote {
                    self.places.push_back_reserved(Place::Short(record));
                }
            }
            Some(Place::Long) => {
                if let Some(pair) = self.long.pop_front() {
                    if pair.remote != remote {
                        self.places.push_back_reserved(Place::Long);
                        self.long.push_back_reserved(pair);
                    }
                }
            }
            None => {}
        }
    }

    /// Drops those of this remote candidate.
    pub(super) fn drop_of_remote(&mut self, remote: usize)
        ensures dropped { records_of self.new ≡ filter (λ r. not (r.remote == remote)) (records_of self.old) }
        ensures room { (n : ℕ) → RecordsFit n self.old → RecordsFit n self.new }
    {
        for _ in 0..self.len() {
            self.rotate(remote);
        }
    }
}
