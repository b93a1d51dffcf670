//! One event of the two-agent network model: an agent makes a call, a packet is sent or delivered, or stray bytes arrive.

ghost use Rattle.std.specs.Prelude.{◌≡◌, Some, None, true, false, MatchOption, map, slice_get, if◌then◌else◌};
ghost use Rattle.is_agent.specs.View.{record_of};
ghost use Rattle.is_rules.specs.Steps.{is_done};
ghost use Rattle.is.specs.Views.{call_view, answer_view, entry_view};
ghost use Rattle.is.specs.World as world;
ghost use Rattle.is.specs.World.{Streams, sources, world_of, in_flight_of, event_view, outcome_of, roles_of, Happens, TakesTurn, PolledInto};

use crate::calls::{AgentCall, Answer, Entry};
use crate::steps::{handle_stray, quiet, step, take_packet};
use crate::world::TwoAgents;
use crate::world_events::{
    InFlight, Side, TwoAgentsEvent, WorldEntry, emitted_as, in_world, is_clearing, is_done, read_as,
};
use is_agent::Agent;
use is_candidate::LocalPreference;
use is_proto::{IceError, Instant, Sha1HmacProvider};
use is_rules::emitted::Path;
use is_stun::stun::{Class, TransId};
use rand_core::Rng;

/// Moves an agent's packet, if there is one, to the in-flight packets, and returns whether there was one. Fails with
/// `OutOfMemory` if the list can't grow.
fn poll_into<H: Sha1HmacProvider + Drop, P: LocalPreference>(
    agent: &mut Agent<H, P>,
    network: &mut Vec<InFlight>,
    sender: Side,
) -> Answer
    ensures { PolledInto (record_of agent.old) (map in_flight_of network.old.items) sender (answer_view result) (record_of agent.new)
        (map in_flight_of network.new.items) }
{
    if network.reserve(1).is_err() {
        return Answer::Refused(IceError::OutOfMemory);
    }
    match agent.poll_transmit() {
        Some(packet) => {
            network.push_reserved(InFlight { sender, packet });
            Answer::Flag(true)
        }
        None => Answer::Flag(false),
    }
}

fn in_flight_at(network: &[InFlight], place: usize) -> Option<&InFlight>
    ensures { MatchOption result (slice_get network.now place ≡ None) (λ l. slice_get network.now place ≡ Some l.now) }
{
    network.get(place)
}

impl<H: Sha1HmacProvider + Drop, P: LocalPreference> TwoAgents<H, P> {
    fn roles(&self) -> [bool; 2]
        ensures { result ≡ roles_of (world_of self.now) }
    {
        [self.a.controlling(), self.b.controlling()]
    }

    /// The log entry of what an agent did.
    fn emitted(
        &self,
        entry: Entry,
        side: Option<Side>,
        clear: bool,
        moved: Option<(Class, TransId)>,
    ) -> WorldEntry
        ensures emitted { outcome_of result ≡ record {
          entry = entry_view entry;
          controlling = roles_of (world_of self.now);
          side = side;
          clear = clear;
          moved = moved;
        } }
        ensures numbered { result.number ≡ entry.number }
    {
        emitted_as(entry, self.roles(), side, clear, moved)
    }

    /// The log entry of a call that an agent made.
    fn emitted_call(&self, entry: Entry, side: Side, clearing: bool) -> WorldEntry
        ensures emitted { outcome_of result ≡ record {
          entry = entry_view entry;
          controlling = roles_of (world_of self.now);
          side = Some side;
          clear = if clearing then is_done (answer_view entry.answer) else false;
          moved = None;
        } }
        ensures numbered { result.number ≡ entry.number }
    {
        let clear = clearing && is_done(&entry.answer);
        self.emitted(entry, Some(side), clear, None)
    }

    /// One agent makes a call, with its own random source.
    fn turn<R: Rng, S: Rng>(
        &mut self,
        side: Side,
        number: usize,
        call: AgentCall<P>,
        rng_a: &mut R,
        rng_b: &mut S,
    ) -> WorldEntry
        requires { world.in_world (call_view call) ≡ true }
        ensures did { TakesTurn H.mac P.answers (world_of self.old) (sources (R.stream rng_a.old) (S.stream rng_b.old)) side (call_view call)
            (outcome_of result) (world_of self.new) (sources (R.stream rng_a.new) (S.stream rng_b.new)) }
        ensures numbered { result.number ≡ number }
    {
        let clearing = is_clearing(&call);
        match side {
            Side::A => {
                let entry = step(&mut self.a, number, call, rng_a);
                self.emitted_call(entry, Side::A, clearing)
            }
            Side::B => {
                let entry = step(&mut self.b, number, call, rng_b);
                self.emitted_call(entry, Side::B, clearing)
            }
        }
    }

    /// Nothing happens.
    fn unchanged_step(&self, number: usize, answer: Answer, side: Option<Side>) -> WorldEntry
        ensures emitted { outcome_of result ≡ world.plain (answer_view answer) side (roles_of (world_of self.now)) }
        ensures numbered { result.number ≡ number }
    {
        self.emitted(quiet(number, answer), side, false, None)
    }

    /// An agent's packet becomes an in-flight packet.
    fn poll(&mut self, side: Side, number: usize) -> WorldEntry
        ensures did { (s : Streams) → Happens H.mac P.answers (world_of self.old) s (world.Poll side) (outcome_of result) (world_of self.new) s }
        ensures numbered { result.number ≡ number }
    {
        match side {
            Side::A => {
                let polled = poll_into(&mut self.a, &mut self.network, Side::A);
                self.unchanged_step(number, polled, Some(Side::A))
            }
            Side::B => {
                let polled = poll_into(&mut self.b, &mut self.network, Side::B);
                self.unchanged_step(number, polled, Some(Side::B))
            }
        }
    }

    /// An in-flight packet is delivered to the agent that did not send it.
    fn deliver(&mut self, number: usize, place: usize, now: Instant, path: Path) -> WorldEntry
        ensures did { (s : Streams) → Happens H.mac P.answers (world_of self.old) s (world.Deliver place now.0 path) (outcome_of result)
            (world_of self.new) s }
        ensures numbered { result.number ≡ number }
    {
        match in_flight_at(&self.network, place) {
            Some(in_flight) => {
                let bytes = &in_flight.packet.contents;
                let moved = read_as(bytes);
                match in_flight.sender {
                    Side::B => {
                        let entry = take_packet(&mut self.a, number, now, path, bytes);
                        self.emitted(entry, Some(Side::A), false, moved)
                    }
                    Side::A => {
                        let entry = take_packet(&mut self.b, number, now, path, bytes);
                        self.emitted(entry, Some(Side::B), false, moved)
                    }
                }
            }
            None => self.unchanged_step(number, Answer::NoSuchPacket, None),
        }
    }

    /// Bytes that the other agent did not send arrive.
    fn stray(
        &mut self,
        number: usize,
        side: Side,
        now: Instant,
        path: Path,
        bytes: &[u8],
    ) -> WorldEntry
        ensures did { (s : Streams) → Happens H.mac P.answers (world_of self.old) s (world.Stray side now.0 path bytes.now) (outcome_of result)
            (world_of self.new) s }
        ensures numbered { result.number ≡ number }
    {
        match side {
            Side::A => {
                let entry = handle_stray(&mut self.a, number, now, path, bytes);
                self.emitted(entry, Some(Side::A), false, None)
            }
            Side::B => {
                let entry = handle_stray(&mut self.b, number, now, path, bytes);
                self.emitted(entry, Some(Side::B), false, None)
            }
        }
    }

    /// One event.
    pub(crate) fn happen<R: Rng, S: Rng>(
        &mut self,
        number: usize,
        event: TwoAgentsEvent<P>,
        rng_a: &mut R,
        rng_b: &mut S,
    ) -> WorldEntry
        ensures did { Happens H.mac P.answers (world_of self.old) (sources (R.stream rng_a.old) (S.stream rng_b.old)) (event_view event)
            (outcome_of result) (world_of self.new) (sources (R.stream rng_a.new) (S.stream rng_b.new)) }
        ensures numbered { result.number ≡ number }
    {
        match event {
            TwoAgentsEvent::Call(side, call) => {
                if in_world(&call) {
                    self.turn(side, number, call, rng_a, rng_b)
                } else {
                    self.unchanged_step(number, Answer::NotInWorld, Some(side))
                }
            }
            TwoAgentsEvent::Poll(side) => self.poll(side, number),
            TwoAgentsEvent::Deliver {
                packet,
                now,
                proto,
                source,
                destination,
            } => {
                let path = Path {
                    proto,
                    source,
                    destination,
                };
                self.deliver(number, packet, now, path)
            }
            TwoAgentsEvent::Stray {
                side,
                now,
                proto,
                source,
                destination,
                bytes,
            } => {
                let path = Path {
                    proto,
                    source,
                    destination,
                };
                self.stray(number, side, now, path, &bytes)
            }
        }
    }
}
