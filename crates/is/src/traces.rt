//! The causal chain of each selected path, through a log to the other agent and back.

ghost use Rattle.std.specs.Prelude.{◌≡◌, ◌<◌, ◌≤◌, ◌↔◌, Some, IsTrue, true, length};
ghost use Rattle.is_stun.specs.declared.header.Class.TheVariants as classes;
ghost use Rattle.is.specs.declared.calls.Answer.TheVariants as answers;
ghost use Rattle.is.specs.World.{other};
ghost use Rattle.is.specs.Traces.{IsFirstTrace, HasAnswer, IsTrace};
ghost use Rattle.is.specs.Marks.{IsMarked, IsFirstMarked, IsSelectedIn, IsCheckOfEntry, IsFirstFrom, IsFirst};

use crate::calls::Answer;
use crate::world_events::{Side, WorldEntry, WorldLog};
use is_candidate::candidate::address::same_address;
use is_rules::emitted::{Issued, Path};
use is_stun::stun::{Class, TransId};

/// How the path that an entry selected was answered by the other agent: a causal chain, by the numbers of log entries.
#[derive(Clone, Copy, Debug, PartialEq, Eq)]
pub struct Trace {
    /// The agent that selected the path had sent a check on it.
    pub checked: usize,
    /// The check was delivered to the other agent, which accepted it.
    pub delivered: usize,
    /// The other agent issued the success response with the check's transaction ID.
    pub replied: usize,
    /// The success response was delivered, and accepted.
    pub answered: usize,
}

/// What is searched for in a log.
#[derive(Clone, Copy, Debug)]
enum Mark {
    /// The side accepted a message of this class and ID, which was delivered to it.
    Taken(Side, Class, TransId),
    /// The side issued a message of this class and ID.
    Issued(Side, Class, TransId),
    /// The side's pairs were cleared.
    Cleared(Side),
}

/// The other side.
fn other(side: Side) -> Side
    ensures { result ≡ other side }
{
    match side {
        Side::A => Side::B,
        Side::B => Side::A,
    }
}

fn is_side(entry: &WorldEntry, side: Side) -> bool
    ensures { IsTrue result ↔ (entry.now.side ≡ Some side) }
{
    match entry.side {
        Some(acting) => acting == side,
        None => false,
    }
}

fn is_taken(entry: &WorldEntry, class: Class, id: TransId) -> bool
    ensures { IsTrue result ↔ ((entry.now.answer ≡ answers.Flag true) × (entry.now.moved ≡ Some (class, id))) }
{
    match (&entry.answer, entry.moved) {
        (Answer::Flag(true), Some((moved_class, moved_id))) => {
            moved_class == class && moved_id == id
        }
        _ => false,
    }
}

fn is_packet(issued: &Issued, class: Class, id: TransId) -> bool
    ensures { IsTrue result ↔ ((issued.now.class ≡ class) × (issued.now.id ≡ id)) }
{
    issued.class == class && issued.id == id
}

fn is_issued(entry: &WorldEntry, class: Class, id: TransId) -> bool
    ensures { IsTrue result ↔ ((path : Path) × (entry.now.issued ≡ Some record { path = path; class = class; id = id })) }
{
    match &entry.issued {
        Some(issued) => is_packet(issued, class, id),
        None => false,
    }
}

fn is_marked(entry: &WorldEntry, mark: &Mark) -> bool
    ensures { IsTrue result ↔ IsMarked mark.now entry.now }
{
    match *mark {
        Mark::Taken(side, class, id) => is_side(entry, side) && is_taken(entry, class, id),
        Mark::Issued(side, class, id) => is_side(entry, side) && is_issued(entry, class, id),
        Mark::Cleared(side) => is_side(entry, side) && entry.clear,
    }
}

/// The first of the entries from this number on, and before the end, that has the mark.
fn first_marked(entries: &[WorldEntry], from: usize, end: usize, mark: &Mark) -> Option<usize>
    requires { end ≤ length entries.now }
    ensures { IsFirstMarked entries.now mark.now from end result }
{
    for n in from..end {
        if is_marked(&entries[n], mark) {
            return Some(n);
        }
    }
    None
}

/// The agent that selected a path, and the path.
fn selected_at(entries: &[WorldEntry], entry: usize, place: usize) -> Option<(Side, Path)>
    ensures { IsSelectedIn entries.now entry place result }
{
    let emitted = entries.get(entry)?;
    let side = emitted.side?;
    match emitted.announced.get(place) {
        Some(Some(path)) => Some((side, *path)),
        _ => None,
    }
}

fn same_path(a: Path, b: Path) -> bool
    ensures { IsTrue result ↔ (a ≡ b) }
{
    a.proto == b.proto
        && same_address(a.source, b.source)
        && same_address(a.destination, b.destination)
}

fn is_check(issued: &Issued, path: Path) -> bool
    ensures { IsTrue result ↔ ((issued.now.class ≡ classes.Request) × (issued.now.path ≡ path)) }
{
    issued.class == Class::Request && same_path(issued.path, path)
}

/// The transaction ID of the check that the entry issued on the path.
fn check_at(entries: &[WorldEntry], side: Side, path: Path, entry: usize) -> Option<TransId>
    ensures { IsCheckOfEntry entries.now side path entry result }
{
    let emitted = entries.get(entry)?;
    if !is_side(emitted, side) {
        return None;
    }
    match &emitted.issued {
        Some(issued) if is_check(issued, path) => Some(issued.id),
        _ => None,
    }
}

/// The first causal chain from the check with this ID to its success response.
fn answer_of(
    entries: &[WorldEntry],
    side: Side,
    id: TransId,
    checked: usize,
    end: usize,
) -> Option<Trace>
    requires within { end ≤ length entries.now }
    requires below { checked < end }
    ensures { IsFirstFrom (HasAnswer entries.now side id end) checked result }
{
    let asked = Mark::Taken(other(side), Class::Request, id);
    let delivered = first_marked(entries, checked + 1, end, &asked)?;
    let emitted = Mark::Issued(other(side), Class::Success, id);
    let replied = first_marked(entries, delivered, end, &emitted)?;
    let came = Mark::Taken(side, Class::Success, id);
    let answered = first_marked(entries, replied + 1, end, &came)?;
    Some(Trace {
        checked,
        delivered,
        replied,
        answered,
    })
}

/// The first causal chain of the path that begins at this entry.
fn trace_from(
    entries: &[WorldEntry],
    side: Side,
    path: Path,
    checked: usize,
    end: usize,
) -> Option<Trace>
    requires within { end ≤ length entries.now }
    requires below { checked < end }
    ensures { IsFirstFrom (IsTrace entries.now side path end) checked result }
{
    let id = check_at(entries, side, path, checked)?;
    match first_marked(entries, checked, end, &Mark::Cleared(side)) {
        Some(_) => None,
        None => answer_of(entries, side, id, checked, end),
    }
}

/// The first causal chain of the path.
fn first_trace(entries: &[WorldEntry], side: Side, path: Path, end: usize) -> Option<Trace>
    requires { end ≤ length entries.now }
    ensures { IsFirst (IsTrace entries.now side path end) result }
{
    for checked in 0..end {
        if let Some(trace) = trace_from(entries, side, path, checked, end) {
            return Some(trace);
        }
    }
    None
}

impl WorldLog {
    ghost use Rattle.is.specs.Traces.{IsFirstTrace};

    /// The causal chain of the path that an entry selected, the one at this index of its paths. A check that was sent on the path
    /// reached the other agent, that agent issued a success response, and the response was received. All of this happened since
    /// the pairs of the selecting agent were last cleared. Of several such chains, the result is the first one in order of
    /// `checked`, then `delivered`, `replied` and `answered`.
    ///
    /// None if there is no chain, or if no path was selected at this index. Does not allocate.
    pub fn trace(&self, entry: usize, place: usize) -> Option<Trace>
        ensures { IsFirstTrace self.now.entries.items entry place result }
    {
        if entry >= self.entries.len() {
            return None;
        }
        match selected_at(&self.entries, entry, place) {
            Some((side, path)) => first_trace(&self.entries, side, path, entry + 1),
            None => None,
        }
    }
}
