//! The faults of a candidate attribute.
ghost use Rattle.std.specs.Prelude.{Some};
ghost use Rattle.is_candidate.specs.Faults.{fault_text};

use std::fmt;

/// The first fault of a line, in the order of parsing.
#[derive(Clone, Copy, Debug, PartialEq, Eq)]
pub(crate) enum Fault<'a> {
    MissingPrefix,
    MissingFoundation,
    MissingComponent,
    BadComponent,
    MissingProtocol,
    InvalidProtocol(&'a str),
    MissingPriority,
    BadPriority,
    MissingAddress,
    BadAddress,
    MissingPort,
    BadPort,
    ExpectedTyp,
    MissingKind,
    UnknownKind(&'a str),
    MissingRaddr,
    BadRaddr,
    MissingRport,
    BadRport,
    MissingTcptype,
    BadTcptype,
    MissingUfrag,
}

impl fmt::Display for Fault<'_> {
    ghost output = { λ f. Some (fault_text f) };

    fn fmt<W: fmt::Write>(&self, f: &mut fmt::Formatter<W>) -> fmt::Result {
        match self {
            Fault::MissingPrefix => f.write_str("missing 'candidate:' prefix"),
            Fault::MissingFoundation => f.write_str("missing foundation"),
            Fault::MissingComponent => f.write_str("missing component-id"),
            Fault::BadComponent => f.write_str("bad component-id"),
            Fault::MissingProtocol => f.write_str("missing protocol"),
            Fault::InvalidProtocol(word) => write!(f, "invalid protocol: {word}"),
            Fault::MissingPriority => f.write_str("missing priority"),
            Fault::BadPriority => f.write_str("bad priority"),
            Fault::MissingAddress => f.write_str("missing address"),
            Fault::BadAddress => f.write_str("bad address"),
            Fault::MissingPort => f.write_str("missing port"),
            Fault::BadPort => f.write_str("bad port"),
            Fault::ExpectedTyp => f.write_str("expected 'typ'"),
            Fault::MissingKind => f.write_str("missing candidate type"),
            Fault::UnknownKind(word) => write!(f, "unknown candidate type: {word}"),
            Fault::MissingRaddr => f.write_str("missing raddr value"),
            Fault::BadRaddr => f.write_str("bad raddr"),
            Fault::MissingRport => f.write_str("missing rport value"),
            Fault::BadRport => f.write_str("bad rport"),
            Fault::MissingTcptype => f.write_str("missing tcptype value"),
            Fault::BadTcptype => f.write_str("bad tcptype"),
            Fault::MissingUfrag => f.write_str("missing ufrag value"),
        }
    }
}
