//! The table of calls: the word of each, its fields, and what each field may be.
use std::fmt;

/// What the value of a field may be.
#[derive(Clone, Copy)]
pub enum Kind {
    Text,
    Flag,
    Whole,
    Positive,
    WholeOrNull,
    Preference,
    Profile,
    Address,
    Protocol,
    Hex,
    Received,
    Polled,
    Side,
    Call,
}

impl fmt::Display for Kind {
    fn fmt<W: fmt::Write>(&self, f: &mut fmt::Formatter<W>) -> fmt::Result {
        f.write_str(match self {
            Kind::Text => "a text",
            Kind::Flag => "true or false",
            Kind::Whole => "a whole number from 0 to 18446744073709551615",
            Kind::Positive => "a whole number from 1 to 18446744073709551615",
            Kind::WholeOrNull => "a whole number from 0 to 18446744073709551615, or null",
            Kind::Preference => "a whole number from 0 to 65535",
            Kind::Profile => "original or modern",
            Kind::Address => "IPv4:port or [IPv6]:port",
            Kind::Protocol => "udp, tcp, ssltcp or tls",
            Kind::Hex => "two hexadecimal digits a byte",
            Kind::Received => "the number of a packet that the other agent sent",
            Kind::Polled => "transmit, event or timeout",
            Kind::Side => "A or B",
            Kind::Call => return write!(f, "one of {CallWords}"),
        })
    }
}

/// A field: its name, and what its value may be.
#[derive(Clone, Copy)]
pub struct Field(pub &'static str, pub Kind);

pub const CALL: Field = Field("call", Kind::Call);

pub const ON: Field = Field("on", Kind::Side);

pub const POLLS: Field = Field("polls", Kind::Flag);

pub const UFRAG: Field = Field("ufrag", Kind::Text);

pub const PASS: Field = Field("pass", Kind::Text);

pub const TIE: Field = Field("tie", Kind::Whole);

pub const FLAG: Field = Field("flag", Kind::Flag);

pub const NUMBER: Field = Field("number", Kind::Whole);

pub const POSITIVE: Field = Field("number", Kind::Positive);

pub const LIMIT: Field = Field("number", Kind::WholeOrNull);

pub const PREFERENCE: Field = Field("number", Kind::Preference);

pub const TARGET: Field = Field("target", Kind::Whole);

pub const WARN: Field = Field("warn", Kind::Whole);

pub const ADDR: Field = Field("addr", Kind::Address);

pub const BASE: Field = Field("base", Kind::Address);

pub const PROTO: Field = Field("proto", Kind::Protocol);

pub const TEXT: Field = Field("text", Kind::Text);

pub const NOW: Field = Field("now", Kind::Whole);

pub const FROM: Field = Field("from", Kind::Address);

pub const TO: Field = Field("to", Kind::Address);

pub const HEX: Field = Field("hex", Kind::Hex);

pub const PACKET: Field = Field("packet", Kind::Received);

pub const WHAT: Field = Field("what", Kind::Polled);

pub const NAME: Field = Field("name", Kind::Profile);

pub const LASTS: Field = Field("timeout", Kind::WholeOrNull);

pub const STRICT: Field = Field("strict", Kind::Flag);

/// The name of a call.
#[derive(Clone, Copy, PartialEq, Eq)]
pub enum CallName {
    Agent,
    Controlling,
    Lite,
    Renomination,
    Profile,
    Consent,
    Tie,
    Mtu,
    Local,
    Remote,
    Pairs,
    Discovered,
    Candidates,
    Retransmits,
    Rto,
    MaxRto,
    LiteTimeout,
    Advance,
    Preference,
    Skip,
    Host,
    Srflx,
    Relay,
    Candidate,
    Invalidate,
    Restart,
    Recreate,
    Timeout,
    Packet,
    Deliver,
    Poll,
}

/// A row of the table: the word of a call, its name, and its fields in the order in which their faults are reported.
#[derive(Clone, Copy)]
pub struct Row(pub &'static str, pub CallName, pub &'static [Field]);

static CALLS: [Row; 31] = [
    Row("agent", CallName::Agent, &[UFRAG, PASS, TIE]),
    Row("controlling", CallName::Controlling, &[FLAG]),
    Row("lite", CallName::Lite, &[FLAG]),
    Row("renomination", CallName::Renomination, &[FLAG]),
    Row("profile", CallName::Profile, &[NAME]),
    Row("consent", CallName::Consent, &[LASTS, STRICT]),
    Row("tie", CallName::Tie, &[NUMBER]),
    Row("mtu", CallName::Mtu, &[TARGET, WARN]),
    Row("local", CallName::Local, &[UFRAG, PASS]),
    Row("remote", CallName::Remote, &[UFRAG, PASS]),
    Row("pairs", CallName::Pairs, &[NUMBER]),
    Row("discovered", CallName::Discovered, &[LIMIT]),
    Row("candidates", CallName::Candidates, &[LIMIT]),
    Row("retransmits", CallName::Retransmits, &[POSITIVE]),
    Row("rto", CallName::Rto, &[NUMBER]),
    Row("maxrto", CallName::MaxRto, &[NUMBER]),
    Row("litetimeout", CallName::LiteTimeout, &[NUMBER]),
    Row("advance", CallName::Advance, &[NUMBER]),
    Row("preference", CallName::Preference, &[PREFERENCE]),
    Row("skip", CallName::Skip, &[NUMBER]),
    Row("host", CallName::Host, &[ADDR, PROTO]),
    Row("srflx", CallName::Srflx, &[ADDR, BASE, PROTO]),
    Row("relay", CallName::Relay, &[ADDR, BASE, PROTO]),
    Row("candidate", CallName::Candidate, &[TEXT]),
    Row("invalidate", CallName::Invalidate, &[TEXT]),
    Row("restart", CallName::Restart, &[UFRAG, PASS, FLAG]),
    Row("recreate", CallName::Recreate, &[]),
    Row("timeout", CallName::Timeout, &[NOW]),
    Row("packet", CallName::Packet, &[NOW, PROTO, FROM, TO, HEX]),
    Row("deliver", CallName::Deliver, &[PACKET, NOW]),
    Row("poll", CallName::Poll, &[WHAT]),
];

/// The row of this word.
pub fn row_of(word: &str) -> Option<Row> {
    for row in &CALLS {
        if row.0 == word {
            return Some(*row);
        }
    }
    None
}

/// The words of all calls.
#[derive(Clone, Copy)]
struct CallWords;

impl fmt::Display for CallWords {
    fn fmt<W: fmt::Write>(&self, f: &mut fmt::Formatter<W>) -> fmt::Result {
        let mut separator = "";
        for row in &CALLS {
            write!(f, "{separator}{}", row.0)?;
            separator = ", ";
        }
        Ok(())
    }
}
