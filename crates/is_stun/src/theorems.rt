//! Lemmas about the message format. Each is the contract of a function that does nothing.

ghost use Rattle.std.specs.Prelude.{◌≡◌, ◌↔◌, IsTrue, true, ℕ, ◌≤◌, Bool, List, length, Option};
ghost use Rattle.is_stun.specs.Message.{Message};
ghost use Rattle.is_stun.specs.Reading.{Reads};
ghost use Rattle.is_stun.specs.Spells.{Spells};
ghost use Rattle.is_stun.specs.Theorems.{ReadsOrFails, SignedIffAuthentic, WrittenIsRead, WrittenIsReadAlike, WrittenByDefaultIsRead};
ghost use Rattle.is_stun.specs.Theorems.{IsWrittenPlain, PlainReply, TakesBytes, FitsInto, CheckTakes, LONGEST_CHECK, LONGEST_NUMBERED_CHECK, LONGEST_REPLY, reply_len};
ghost use Rattle.is_stun.specs.Numbers.{WRITTEN_USERNAME_LIMIT};
ghost use Rattle.is_stun.specs.ChannelData.{ChannelDataIsRead};
ghost use Rattle.is_stun.specs.Finding.{WrittenIsFound};
ghost use Rattle.is_stun.specs.Requested.{RequestIsRead, RequestIsSkipped, RequestsNothing};
ghost use Rattle.is_stun.specs.Writing.{Row};
ghost use Rattle.is_stun.specs.declared.requested.Requested.{Requested};
ghost use Rattle.is_stun.specs.Checks.{binding_request, binding_reply, binding_role_conflict_reply, with_nomination};
ghost use Rattle.std.specs.declared.net.socket_addr.SocketAddr.{SocketAddr};
ghost use Rattle.std.specs.Cmp.{IsTotalOrder};
ghost use Rattle.std.specs.Cmp.Lexicographic.{slice_cmp};
ghost use Rattle.std.specs.Ordering.{nat_cmp};

use crate::trans_id::TransId;
use is_proto::theorems::{macs_have_twenty_bytes, orders_are_total};
use std::hash::Hash;

/// All bytes either encode one message or have one first fault. `Spells` says what bytes encode attribute by attribute,
/// without faults.
pub fn one_reading()
    ensures { (bytes : List ℕ) → ReadsOrFails bytes }
{}

/// Bytes parse as a message exactly if they encode that message.
pub fn reads_what_is_spelled()
    ensures { (bytes : List ℕ) (m : Message) → Reads bytes m ↔ Spells bytes m }
{}

/// Whether a parsed message is signed depends only on its bytes.
pub fn signed_where_authentic()
    ensures { (bytes : List ℕ) (m : Message) → SignedIffAuthentic bytes m }
{}

/// A message that is written with a key parses as the same message, and verifies with that key.
pub fn written_is_read()
    ensures { (mac : List ℕ → List ℕ → List ℕ) (key : List ℕ) (m : Message) → WrittenIsRead mac key m }
{}

/// A message that is written with a key parses as no other message, whether or not it has the attributes that a parser
/// requires.
pub fn written_is_read_alike()
    ensures { (mac : List ℕ → List ℕ → List ℕ) (key : List ℕ) (m : Message) → WrittenIsReadAlike mac key m }
{}

/// In a message that is written from rows, the value of each type except FINGERPRINT is that of its last row, with a key and without.
pub fn written_rows_are_found()
    ensures { (mac : List ℕ → List ℕ → List ℕ) (key : Option (List ℕ)) (typ : ℕ) (id : List ℕ) (rows : List Row) (code : ℕ)
        → WrittenIsFound mac key typ id rows code }
{}

/// What a message requests is read from its bytes. With a key it parses as no other message, and verifies with that key. A message
/// that requests nothing is written as `to_bytes` writes it, and has the same errors.
pub fn requests_round_trip()
    ensures read { (mac : List ℕ → List ℕ → List ℕ) (key : Option (List ℕ)) (m : Message) (r : Requested) → RequestIsRead mac key m r }
    ensures skipped { (mac : List ℕ → List ℕ → List ℕ) (key : List ℕ) (m : Message) (r : Requested) → RequestIsSkipped mac key m r }
    ensures nothing { (mac : List ℕ → List ℕ → List ℕ) (key : Option (List ℕ)) (room : ℕ) (m : Message) → RequestsNothing mac key room m }
{}

/// ChannelData that was written is read, whatever follows it.
pub fn channel_data_round_trips()
    ensures { (number : ℕ) (contents rest : List ℕ) → ChannelDataIsRead number contents rest }
{}

/// Flow information and scope of addresses are not written.
pub fn addresses_are_written_plain()
    ensures { (mac : List ℕ → List ℕ → List ℕ) (key : Option (List ℕ)) (m : Message) → IsWrittenPlain mac key m }
{}

/// A response carries an address without its flow information and scope.
pub fn replies_are_plain()
    ensures { (mac : List ℕ → List ℕ → List ℕ) (key id : List ℕ) (a : SocketAddr) → PlainReply mac key id a }
{}

/// A message that is written with a key and the default provider parses as the same message, and verifies with that
/// key.
pub fn written_by_default_is_read()
    ensures { (key : List ℕ) (m : Message) → WrittenByDefaultIsRead key m }
{
    macs_have_twenty_bytes();
}

/// A signed success response takes 64 bytes with an IPv4 address and 76 bytes with an IPv6 address. A signed role
/// conflict takes 76 bytes. The transaction ID does not matter. So a caller with a buffer of 76 bytes need not handle
/// the error.
pub fn replies_fit()
    ensures takes { (key id : List ℕ) (a : SocketAddr) → TakesBytes key (reply_len a) (binding_reply id a) }
    ensures fits { (key id : List ℕ) (a : SocketAddr) → FitsInto key LONGEST_REPLY (binding_reply id a) }
    ensures conflict_takes { (key id : List ℕ) → TakesBytes key LONGEST_REPLY (binding_role_conflict_reply id) }
    ensures conflict_fits { (key id : List ℕ) → FitsInto key LONGEST_REPLY (binding_role_conflict_reply id) }
{}

/// A signed check takes 76 bytes, plus USERNAME with its padding, plus 4 bytes if it nominates. With a USERNAME of 508
/// bytes, the longest that can be written, that is at most 588 bytes, and 596 with NOMINATION.
pub fn checks_fit()
    ensures takes { (key id username : List ℕ) (controlling : Bool) (tie_breaker priority : ℕ) (nominates : Bool)
        → CheckTakes key id username controlling tie_breaker priority nominates }
    ensures fits { (key id username : List ℕ) (controlling : Bool) (tie_breaker priority : ℕ) (nominates : Bool)
        → length username ≤ WRITTEN_USERNAME_LIMIT
        → FitsInto key LONGEST_CHECK (binding_request username id controlling tie_breaker priority nominates) }
    ensures numbered_fits { (key id username : List ℕ) (controlling : Bool) (tie_breaker priority : ℕ) (nominates : Bool)
        (number : Option ℕ) → length username ≤ WRITTEN_USERNAME_LIMIT
        → FitsInto key LONGEST_NUMBERED_CHECK (with_nomination number (binding_request username id controlling tie_breaker
        priority nominates)) }
{}

/// Two transaction IDs are equal exactly if their bytes are equal, and equal ones hash alike. They are ordered by their
/// bytes, the first byte first, which is a total order.
pub fn trans_ids_are_ordered()
    ensures equal { (a b : TransId) → IsTrue (⟦<TransId as PartialEq>⟧.eq a b) ↔ (a ≡ b) }
    ensures hashed { (a b : TransId) → ⟦<TransId as PartialEq>⟧.eq a b ≡ true
        → ⟦<TransId as Hash>⟧.hash_input a ≡ ⟦<TransId as Hash>⟧.hash_input b }
    ensures by_bytes { (a b : TransId) → ⟦<TransId as Ord>⟧.cmp a b ≡ slice_cmp nat_cmp a.0 b.0 }
    ensures total { IsTotalOrder ⟦<TransId as Ord>⟧.cmp }
{
    orders_are_total::<TransId>();
}
