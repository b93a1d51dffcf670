//! What a datagram changes that is no authentic response.

ghost use Rattle.std.specs.Prelude.{◌⊎◌, ℕ, List, Option};
ghost use Rattle.is_proto.specs.declared.proto.Instant.{Instant};
ghost use Rattle.is_turn.specs.declared.lease.Lease.{Lease};
ghost use Rattle.is_turn.specs.declared.session.Session.{Session};
ghost use Rattle.is_turn.specs.Credentials.{Credentials};
ghost use Rattle.is_turn.specs.Receipts.{Receipt};
ghost use Rattle.is_turn.specs.Receiving.{IsReceived};
ghost use Rattle.is_turn_progress.specs.Authentic.{HasGrounds, ChangesLittle};

/// A datagram that is no response with grounds changes at most when leases were used, and the code that one pending request keeps for the
/// log. Grounds are: the signature with the key of the attempt; of an unsigned response, that it is the first 300, a challenge within the
/// limits, or a hint while the password is known. Without credentials each response to a pending request counts.
pub fn unauthentic_datagrams_change_little()
    ensures { (mac : List ℕ → List ℕ → List ℕ) (now : Instant) (bytes : List ℕ) (s : Session) (l : List Lease) (c : Option Credentials)
        (result : Receipt) (new : Session) (l_new : List Lease) (c_new : Option Credentials) → IsReceived mac now bytes s l c result new l_new c_new
        → ChangesLittle s l c new l_new c_new ⊎ HasGrounds mac bytes s l c }
{}
