//! Theorems of a TURN client. Each is the contract of a function that does nothing.

ghost use Rattle.std.specs.Prelude.{◌≡◌, ◌⊎◌, ◌≤◌, ◌+◌, ◌*◌, ℕ, List, [], length, map, slice_set, Option};
ghost use Rattle.std.specs.declared.net.socket_addr.SocketAddr.{SocketAddr};
ghost use Rattle.rand_core.specs.Stream.{Stream};
ghost use Rattle.is_proto.specs.declared.proto.Instant.{Instant};
ghost use Rattle.is_stun.specs.Message.{Message};
ghost use Rattle.is_turn.specs.declared.lease.Lease.{Lease};
ghost use Rattle.is_turn.specs.declared.session.Session.{Session};
ghost use Rattle.is_turn.specs.Credentials.{Credentials};
ghost use Rattle.is_turn.specs.Receipts.{Receipt};
ghost use Rattle.is_turn.specs.Receiving.{IsResponded};
ghost use Rattle.is_turn.specs.Leases.{advanced, lease_polled};
ghost use Rattle.is_turn.specs.Places.{at_place, permitted, with_channel, heard};
ghost use Rattle.is_turn.specs.Relaying.{driven, reported};
ghost use Rattle.is_turn.specs.Numbers.{KeepsChannels};
ghost use Rattle.is_turn.specs.Peers.{KeepsPlaces, NamesOnly};
ghost use Rattle.is_turn.specs.Worlds.{Acceptance, World, IsFresh, IsRun, BeliefIsAlwaysTrue};
ghost use Rattle.is_turn.specs.Bounds.{requests_of, ids_of, packets_of, events_of};

/// The number of a channel belongs to one peer: whatever the user requests, the clock does, is sent, received or reported, each channel
/// stays in its place, with its number and its peer, until the client ends.
pub fn channels_keep_their_peers()
    ensures permitted { (now : Instant) (ip : SocketAddr) (l : List Lease) → KeepsChannels l (permitted now ip l).0 }
    ensures bound { (now : Instant) (peer : SocketAddr) (l : List Lease) → KeepsChannels l (with_channel now peer l) }
    ensures heard { (now : Instant) (ip peer : SocketAddr) (l : List Lease) → KeepsChannels l (heard now ip peer l).0 }
    ensures advanced { (now : Instant) (l : List Lease) → KeepsChannels l (map (advanced now) l) }
    ensures driven { (now : Instant) (key : Option (List ℕ)) (place : ℕ) (s : Session) (stream : Stream) (l : List Lease)
        → KeepsChannels l (driven now key place s stream l).0 }
    ensures polled { (place : ℕ) (l : List Lease) → KeepsChannels l (slice_set l place (lease_polled (at_place place l))) }
    ensures answered { (mac : List ℕ → List ℕ → List ℕ) (now : Instant) (m : Message) (alternate : Option SocketAddr) (s : Session)
        (l : List Lease) (c : Option Credentials) (result : Receipt) (new : Session) (l_new : List Lease) (c_new : Option Credentials)
        → IsResponded mac now m alternate s l c result new l_new c_new → (l_new ≡ []) ⊎ KeepsChannels l l_new }
    ensures reported { (l : List Lease) → KeepsChannels l (reported l).0 }
{}

/// A client has leases only of peers that its user named, by `permit` or `send`: no other call puts a peer in a place. And none changes
/// the number of places, but that an ended client has none.
pub fn only_named_peers_have_leases()
    ensures permitted { (now : Instant) (ip : SocketAddr) (l : List Lease) → NamesOnly ip l (permitted now ip l).0 }
    ensures bound { (now : Instant) (peer : SocketAddr) (l : List Lease) → NamesOnly peer l (with_channel now peer l) }
    ensures heard { (now : Instant) (ip peer : SocketAddr) (l : List Lease) → KeepsPlaces l (heard now ip peer l).0 }
    ensures advanced { (now : Instant) (l : List Lease) → KeepsPlaces l (map (advanced now) l) }
    ensures driven { (now : Instant) (key : Option (List ℕ)) (place : ℕ) (s : Session) (stream : Stream) (l : List Lease)
        → KeepsPlaces l (driven now key place s stream l).0 }
    ensures polled { (place : ℕ) (l : List Lease) → KeepsPlaces l (slice_set l place (lease_polled (at_place place l))) }
    ensures answered { (mac : List ℕ → List ℕ → List ℕ) (now : Instant) (m : Message) (alternate : Option SocketAddr) (s : Session)
        (l : List Lease) (c : Option Credentials) (result : Receipt) (new : Session) (l_new : List Lease) (c_new : Option Credentials)
        → IsResponded mac now m alternate s l c result new l_new c_new → (l_new ≡ []) ⊎ KeepsPlaces l l_new }
    ensures reported { (l : List Lease) → KeepsPlaces l (reported l).0 }
{}

/// What a client keeps is bounded by its places, whatever arrives: the requests that wait for responses, the transaction IDs to which
/// a response counts, and the packets and events that wait for polling.
pub fn a_client_is_bounded()
    ensures requests { (s : Session) (l : List Lease) → requests_of s l ≤ 1 + length l }
    ensures ids { (s : Session) (l : List Lease) → ids_of s l ≤ 6 + 6 * length l }
    ensures packets { (s : Session) (l : List Lease) → packets_of s l ≤ 2 + length l }
    ensures events { (s : Session) (l : List Lease) → events_of s l ≤ 2 + length l }
{}

/// What a client believes is true, at a server that keeps its word: it has the allocation, each permission and each channel until the
/// end that the client believes. Whatever was lost, delayed or repeated, and however late the client was called: each end is counted from
/// when the request was first sent, and the server had the request later.
pub fn belief_is_below_truth()
    ensures { (mac : List ℕ → List ℕ → List ℕ) (accepted : List Acceptance) (w : World) (run : List World)
        → IsFresh w → IsRun mac accepted w run → BeliefIsAlwaysTrue accepted run }
{}
