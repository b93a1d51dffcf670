//! Packets that the caller could not send: the last failures, each path and reason once.

ghost use Rattle.std.specs.Prelude.{◌≡◌, ◌<◌, [], IfOk, IfErr, IfSome, Some, length, position, slice_get, slice_set};
ghost use Rattle.is_proto.specs.declared.error.IceError.{IceError};
ghost use Rattle.is_monitor.specs.declared.failures.FailedSend.{FailedSend};
ghost use Rattle.is_monitor.specs.Failures.{failures_of, same_path, is_of, first_failure, once_more, with_last, Notes};

use is_candidate::candidate::address::{same_address, same_protocol};
use is_proto::IceError;
use is_rules::emitted::Path;
use std::alloc::{AllocFailed, Global};

/// How many failures are kept at most.
const LIMIT: usize = 16;

/// Packets on one path that could not be sent, for one reason.
#[derive(Clone, Copy)]
pub struct FailedSend {
    pub path: Path,
    /// The number of the caller's error.
    pub reason: u32,
    /// How many packets could not be sent.
    pub times: u64,
}

/// The last failures, the oldest first: at most 16.
#[derive(Drop)]
pub struct FailedSends {
    pub(crate) sends: Vec<FailedSend>,
}

fn same_path(a: &Path, b: &Path) -> bool
    ensures { result ≡ same_path a.now b.now }
{
    same_protocol(a.proto, b.proto)
        && same_address(a.source, b.source)
        && same_address(a.destination, b.destination)
}

impl FailedSend {
    fn is_of(&self, path: &Path, reason: u32) -> bool
        ensures { result ≡ is_of path.now reason self.now }
    {
        self.reason == reason && same_path(&self.path, path)
    }

    fn once_more(self) -> FailedSend
        ensures { result ≡ once_more self }
    {
        FailedSend {
            times: self.times.saturating_add(1),
            ..self
        }
    }
}

/// The index of the failure of this path and reason, if there is one.
fn place_of(sends: &Vec<FailedSend>, path: &Path, reason: u32) -> Option<usize>
    ensures place { result ≡ position (is_of path.now reason) sends.now.items }
    ensures within { IfSome result (λ place. place < length sends.now.items) }
{
    sends.iter().position(|failed| failed.is_of(path, reason))
}

/// The failure with this index counts once more.
fn count_again(sends: &mut Vec<FailedSend>, place: usize)
    requires { place < length sends.old.items }
    ensures { (f : FailedSend) × (slice_get sends.old.items place ≡ Some f) × (sends.new.items ≡ slice_set sends.old.items place (once_more f)) }
{
    let failed = sends[place];
    sends[place] = failed.once_more();
}

/// Adds a failure at the end, and drops the oldest beyond the limit.
fn push_last(sends: &mut Vec<FailedSend>, failed: FailedSend) -> Result<(), AllocFailed<FailedSend>>
    ensures kept { IfOk result (λ _. sends.new.items ≡ with_last failed sends.old.items) }
    ensures unchanged { IfErr result (λ _. sends.new.items ≡ sends.old.items) }
{
    sends.push(failed)?;
    if sends.len() > LIMIT {
        sends.remove(0);
    }
    Ok(())
}

impl FailedSends {
    /// No failures.
    pub fn new(alloc: Global) -> FailedSends
        ensures { failures_of result ≡ [] }
    {
        FailedSends {
            sends: Vec::new(alloc),
        }
    }

    /// Notes that a packet could not be sent on this path, with the number of the caller's error. A failure that is kept already counts
    /// once more.
    ///
    /// Fails with `OutOfMemory` if there is no memory; then nothing changes.
    pub fn note(&mut self, path: Path, reason: u32) -> Result<(), IceError>
        ensures noted { IfOk result (λ _. Notes path reason (failures_of self.old) (failures_of self.new)) }
        ensures rejection { IfErr result (λ e. e ≡ IceError.OutOfMemory) }
        ensures unchanged { IfErr result (λ _. failures_of self.new ≡ failures_of self.old) }
    {
        match place_of(&self.sends, &path, reason) {
            Some(place) => {
                count_again(&mut self.sends, place);
                Ok(())
            }
            None => match push_last(&mut self.sends, first_failure(path, reason)) {
                Ok(()) => Ok(()),
                Err(_) => Err(IceError::OutOfMemory),
            },
        }
    }

    /// How many failures are kept.
    pub fn len(&self) -> usize
        ensures { result ≡ length (failures_of self.now) }
    {
        self.sends.len()
    }

    /// The failure with this index, the oldest first.
    pub fn get(&self, index: usize) -> Option<FailedSend>
        ensures { result ≡ slice_get (failures_of self.now) index }
    {
        self.sends.get(index).copied()
    }

    /// Forgets all failures.
    pub fn clear(&mut self)
        ensures { failures_of self.new ≡ [] }
    {
        self.sends.clear();
    }
}

fn first_failure(path: Path, reason: u32) -> FailedSend
    ensures { result ≡ first_failure path reason }
{
    FailedSend {
        path,
        reason,
        times: 1,
    }
}
