//! Lemmas: what holds of all values of a type. Each lemma is the contract of a function that does nothing; code whose
//! proof needs a lemma calls its function.

ghost use Rattle.std.specs.Prelude.{◌≡◌, ◌↔◌, ℕ, List, length, Option, Some, IsTrue, true};
ghost use Rattle.std.specs.Cmp.{IsTotalOrder, Agrees};
ghost use Rattle.std.specs.Ordering.{nat_cmp, is_eq};
ghost use Rattle.is_proto.specs.Hmac.{hmac_sha1};
ghost use Rattle.is_proto.specs.Sockets.{ReadsSocketText, plain_socket_text, IsPlain};
ghost use Rattle.is_proto.specs.Words.{protocol_word, tcp_type_word, ReadsProtocol, ReadsTcpType};

use crate::error::{ParseFault, StunError};
use crate::proto::{Duration, Instant, Protocol, SocketText, TcpType};
use crate::text::Text;
use std::hash::Hash;
use std::net::IpAddr;

/// Protocols round-trip: the printed form of a protocol parses as that protocol, and a text parses in only one way.
pub fn protocols_round_trip()
    ensures round_trip { (p : Protocol) → ReadsProtocol (protocol_word p) (Some p) }
    ensures one_reading { (text : List ℕ) (r s : Option Protocol)
        → ReadsProtocol text r → ReadsProtocol text s → r ≡ s }
{}

/// TCP roles round-trip: the printed form of a TCP role parses as that role, and a text parses in only one way.
pub fn tcp_types_round_trip()
    ensures round_trip { (t : TcpType) → ReadsTcpType (tcp_type_word t) (Some t) }
    ensures one_reading { (text : List ℕ) (r s : Option TcpType)
        → ReadsTcpType text r → ReadsTcpType text s → r ≡ s }
{}

/// Addresses round-trip: the printed form of an address parses as that address, if it has no flow information and no
/// scope. The body reads the parts whose types keep them in range, and does nothing else.
pub fn socket_text_round_trips(address: SocketText)
    ensures { IsPlain address.0 → ReadsSocketText (plain_socket_text address.0) (Some address) }
{
    let _port = address.0.port();
    match address.0.ip() {
        IpAddr::V4(ip) => {
            let _octets = ip.octets();
        }
        IpAddr::V6(ip) => {
            let _segments = ip.segments();
        }
    }
}

/// A text parses as at most one address.
pub fn socket_texts_read_in_one_way()
    ensures { (text : List ℕ) (r s : Option SocketText)
        → ReadsSocketText text r → ReadsSocketText text s → r ≡ s }
{}

/// HMAC-SHA1 is 20 bytes long, for every key and every text.
pub fn macs_have_twenty_bytes()
    ensures { (key text : List ℕ) → length (hmac_sha1 key text) ≡ 20 }
{}

/// Equal values feed a hasher with the same input, for every type.
pub fn equal_values_hash_alike<T: Hash>()
    ensures { (a b : T) → T.eq a b ≡ true → T.hash_input a ≡ T.hash_input b }
{}

/// An order is total, antisymmetric and transitive; `<` and the other comparisons agree with it; and two values are
/// equal exactly if they compare as equal.
pub fn orders_are_total<T: Ord>()
    ensures total { IsTotalOrder T.cmp }
    ensures one_order { Agrees T.partial_cmp T.cmp }
    ensures agrees { (a b : T) → T.eq a b ≡ is_eq (T.cmp a b) }
{}

/// Two protocols are equal (`==`) exactly if they are the same, and equal ones hash alike.
pub fn protocols_are_keys()
    ensures equal { (a b : Protocol) → IsTrue (⟦<Protocol as PartialEq>⟧.eq a b) ↔ (a ≡ b) }
    ensures hashed { (a b : Protocol) → ⟦<Protocol as PartialEq>⟧.eq a b ≡ true
        → ⟦<Protocol as Hash>⟧.hash_input a ≡ ⟦<Protocol as Hash>⟧.hash_input b }
{}

/// Two TCP roles are equal (`==`) exactly if they are the same, and equal ones hash alike.
pub fn tcp_types_are_keys()
    ensures equal { (a b : TcpType) → IsTrue (⟦<TcpType as PartialEq>⟧.eq a b) ↔ (a ≡ b) }
    ensures hashed { (a b : TcpType) → ⟦<TcpType as PartialEq>⟧.eq a b ≡ true
        → ⟦<TcpType as Hash>⟧.hash_input a ≡ ⟦<TcpType as Hash>⟧.hash_input b }
{}

/// Two texts are equal exactly if their bytes are equal; equal ones hash alike; and a copy is equal to its original.
pub fn texts_are_keys()
    ensures equal { (a b : Text) → IsTrue (⟦<Text as PartialEq>⟧.eq a b) ↔ (a ≡ b) }
    ensures hashed { (a b : Text) → ⟦<Text as PartialEq>⟧.eq a b ≡ true
        → ⟦<Text as Hash>⟧.hash_input a ≡ ⟦<Text as Hash>⟧.hash_input b }
    ensures copied { (text copy : Text) → ⟦<Text as Clone>⟧.is_clone text copy → copy ≡ text }
{}

/// Two addresses are equal (`==`) exactly if they are the same, including flow information and scope.
pub fn socket_texts_are_compared()
    ensures { (a b : SocketText) → IsTrue (⟦<SocketText as PartialEq>⟧.eq a b) ↔ (a ≡ b) }
{}

/// Two parse faults are equal (`==`) exactly if they are the same, and so are two STUN errors.
pub fn faults_are_compared()
    ensures of_bytes { (a b : ParseFault) → IsTrue (⟦<ParseFault as PartialEq>⟧.eq a b) ↔ (a ≡ b) }
    ensures of_messages { (a b : StunError) → IsTrue (⟦<StunError as PartialEq>⟧.eq a b) ↔ (a ≡ b) }
{}

/// Times are ordered as their numbers, which is a total order.
pub fn instants_are_ordered()
    ensures by_number { (a b : Instant) → ⟦<Instant as Ord>⟧.cmp a b ≡ nat_cmp a.0 b.0 }
    ensures total { IsTotalOrder ⟦<Instant as Ord>⟧.cmp }
    ensures equal { (a b : Instant) → IsTrue (⟦<Instant as PartialEq>⟧.eq a b) ↔ (a ≡ b) }
{}

/// Durations are ordered as their numbers, which is a total order.
pub fn durations_are_ordered()
    ensures by_number { (a b : Duration) → ⟦<Duration as Ord>⟧.cmp a b ≡ nat_cmp a.0 b.0 }
    ensures total { IsTotalOrder ⟦<Duration as Ord>⟧.cmp }
    ensures equal { (a b : Duration) → IsTrue (⟦<Duration as PartialEq>⟧.eq a b) ↔ (a ≡ b) }
{}
