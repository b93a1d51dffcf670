//! The fifth to the eighth word of a line.
ghost use Rattle.std.specs.Prelude.{◌≡◌, MatchOption, bytes_eq, codes};
ghost use Rattle.is_candidate.specs.Kinds.{kind_word};
ghost use Rattle.is_candidate.specs.Lines.{ReadsPlace};
ghost use Rattle.is_candidate.specs.Scanned.{texts, place_answer};
ghost use Rattle.is_candidate.specs.declared.candidate.kind.CandidateKind.{CandidateKind};

use super::fault::Fault;
use super::words::small_number;
use crate::candidate::kind::CandidateKind;
use std::net::IpAddr;

/// Address, port and kind.
#[derive(Clone, Copy, Debug, PartialEq, Eq)]
pub(crate) struct Place {
    pub(crate) ip: IpAddr,
    pub(crate) port: u16,
    pub(crate) kind: CandidateKind,
}

/// Reads address, port, `typ` and kind, or returns the first fault among them.
pub(crate) fn read_place<'a>(words: &[&'a str]) -> Result<Place, Fault<'a>>
    ensures { ReadsPlace (texts words.now) (place_answer result) }
{
    let Some((address, words)) = words.split_first() else {
        return Err(Fault::MissingAddress);
    };
    let Ok(ip) = address.parse::<IpAddr>() else {
        return Err(Fault::BadAddress);
    };
    let Some((port, words)) = words.split_first() else {
        return Err(Fault::MissingPort);
    };
    let Some(port) = small_number(port) else {
        return Err(Fault::BadPort);
    };
    let Some((typ, words)) = words.split_first() else {
        return Err(Fault::ExpectedTyp);
    };
    if !is_typ(typ) {
        return Err(Fault::ExpectedTyp);
    }
    let Some((kind, _words)) = words.split_first() else {
        return Err(Fault::MissingKind);
    };
    let Some(known) = kind_of(kind) else {
        return Err(Fault::UnknownKind(kind));
    };
    Ok(Place {
        ip,
        port,
        kind: known,
    })
}

fn is_typ(word: &str) -> bool
    ensures { result ≡ bytes_eq word.now (codes "typ") }
{
    word == "typ"
}

/// Returns the kind of a word. Case matters.
fn kind_of(word: &str) -> Option<CandidateKind>
    ensures { MatchOption result ((k : CandidateKind) → ¬ (word.now ≡ kind_word k)) (λ k. word.now ≡ kind_word k) }
{
    match word {
        "host" => Some(CandidateKind::Host),
        "prflx" => Some(CandidateKind::PeerReflexive),
        "srflx" => Some(CandidateKind::ServerReflexive),
        "relay" => Some(CandidateKind::Relayed),
        _ => None,
    }
}
