//! Candidate JSON (RTCIceCandidateInit), as browsers signal candidates.

use super::has_line;
use is_candidate::{Candidate, JsonScratch};
use is_proto::{IceError, Protocol};
use serde_json::Value;
use std::alloc::Global;
use std::test::Fail;

/// The candidate of the text's value.
fn read_value(alloc: Global, text: &str) -> Option<Candidate> {
    let value = Value::from_str(alloc, text).ok()?;
    Candidate::from_json(alloc, &value).ok()
}

/// The candidate of the text.
fn read_text(alloc: Global, text: &str) -> Option<Candidate> {
    Candidate::from_json_str(alloc, text, &mut JsonScratch::new(alloc)).ok()
}

fn are_alike(one: &Candidate, other: &Candidate) -> bool {
    one == other && one.ufrag() == other.ufrag()
}

/// The candidate that is read from the text's value, if the text itself gives the same candidate.
fn read(alloc: Global, text: &str) -> Option<Candidate> {
    let by_value = read_value(alloc, text)?;
    let by_text = read_text(alloc, text)?;
    if are_alike(&by_text, &by_value) {
        Some(by_text)
    } else {
        None
    }
}

/// Whether this is the text of the candidate's JSON value.
fn has_value_text(alloc: Global, candidate: &Candidate, text: &str) -> bool {
    let Ok(value) = candidate.to_json(alloc) else {
        return false;
    };
    match value.to_string(alloc) {
        Ok(written) => written.as_str() == text,
        Err(_) => false,
    }
}

/// Whether this is the candidate's JSON text, and that of its JSON value.
fn is_written(alloc: Global, candidate: &Candidate, text: &str) -> bool {
    match candidate.to_json_string(alloc) {
        Ok(written) => written.as_str() == text && has_value_text(alloc, candidate, text),
        Err(_) => false,
    }
}

const INFO: &str =
    "{\"candidate\":\"candidate:fffeff7eda4d42283a245a9 1 udp 2130706175 1.2.3.4 9876 typ host ufrag ufrag\",\"sdpMLineIndex\":0,\"sdpMid\":null,\"usernameFragment\":\"ufrag\"}";

#[test]
fn a_host_is_written_with_its_ufrag(rt: HostRuntime) -> Result<(), Fail> {
    let mut host = Candidate::host(rt.alloc(), "1.2.3.4:9876".parse()?, Protocol::Udp)?;
    host.set_ufrag(rt.alloc(), "ufrag")?;
    assert!(rt; is_written(rt.alloc(), &host, INFO));
    Ok(())
}

/// Whether what is written of the candidate of the text is the text.
fn round_trips(alloc: Global, text: &str) -> bool {
    match read(alloc, text) {
        Some(candidate) => is_written(alloc, &candidate, text),
        None => false,
    }
}

#[test]
fn what_is_written_of_a_host_round_trips(rt: HostRuntime) {
    assert!(rt; round_trips(rt.alloc(), INFO));
}

/// Whether the candidate of the text has this ufrag.
fn has_ufrag(alloc: Global, text: &str, ufrag: &str) -> bool {
    match read(alloc, text) {
        Some(candidate) => candidate.ufrag() == Some(ufrag),
        None => false,
    }
}

/// Texts, and the ufrags of their candidates.
static FRAGMENTS: [(&str, &str); 3] = [
    (
        "{\"candidate\": \"candidate:1 1 udp 1 10.0.0.1 1 typ host ufrag old\", \"usernameFragment\": \"new\", \"sdpMid\": 7}",
        "new",
    ),
    (
        "{\"candidate\": \"candidate:1 1 udp 1 10.0.0.1 1 typ host ufrag old\", \"usernameFragment\": null}",
        "old",
    ),
    (
        "{\"candidate\": \"candidate:1 1 udp 1 10.0.0.1 1 typ host ufrag old\"}",
        "old",
    ),
];

#[test]
fn a_fragment_replaces_the_ufrag_of_the_line(rt: HostRuntime) {
    for (text, ufrag) in &FRAGMENTS {
        assert!(rt; has_ufrag(rt.alloc(), text, ufrag));
    }
}

/// Whether reading fails with this message.
fn says(read: Result<Candidate, IceError>, message: &str) -> bool {
    match read {
        Err(IceError::BadCandidate(said)) => said.as_str() == message,
        _ => false,
    }
}

/// Whether reading the text's value and reading the text itself both fail with this message.
fn is_rejected(alloc: Global, text: &str, message: &str) -> bool {
    let Ok(value) = Value::from_str(alloc, text) else {
        return false;
    };
    says(Candidate::from_json(alloc, &value), message)
        && says(
            Candidate::from_json_str(alloc, text, &mut JsonScratch::new(alloc)),
            message,
        )
}

/// Texts with their first fault.
static FAULTS: [(&str, &str); 9] = [
    ("[]", "candidate info is not an object"),
    ("{\"candidate\": 1.5}", "candidate info holds a fraction"),
    (
        "{\"sdpMLineIndex\": [{\"deep\": 1e2}]}",
        "candidate info holds a fraction",
    ),
    (
        "{\"candidate\": \"x\", \"sdpMLineIndex\": 18446744073709551616}",
        "candidate info holds a fraction",
    ),
    ("{}", "candidate info lacks candidate"),
    ("{\"candidate\": 1}", "candidate info lacks candidate"),
    (
        "{\"candidate\": \"x\", \"candidate\": null}",
        "candidate info lacks candidate",
    ),
    (
        "{\"candidate\": \"x\", \"usernameFragment\": 1}",
        "x: missing 'candidate:' prefix",
    ),
    (
        "{\"candidate\": \"candidate:1 1 udp 1 10.0.0.1 1 typ host\", \"usernameFragment\": 1}",
        "bad usernameFragment",
    ),
];

#[test]
fn the_first_fault_of_a_value_is_reported(rt: HostRuntime) {
    for (text, message) in &FAULTS {
        assert!(rt; is_rejected(rt.alloc(), text, message));
    }
}

/// Texts that encode one host candidate with the ufrag `new`.
static ALIKE: [&str; 6] = [
    "{\"usernameFragment\":\"new\",\"sdpMLineIndex\":18446744073709551615,\"candidate\":\"candidate:1 1 udp 1 10.0.0.1 1 typ host\"}",
    " {\"candidate\" : \"candidate:1 1 udp 1 10.0.0.1 1 typ host ufrag new\", \"more\" : true } \n",
    "{\"candidat\\u0065\":\"candidate:1\\u00201 udp 1 10.0.0.1 1 typ host ufrag n\\u0065w\"}",
    "{\"candidate\":\"x\",\"usernameFragment\":\"old\",\"usernameFragment\":\"new\",\"candidate\":\"candidate:1 1 udp 1 10.0.0.1 1 typ host\"}",
    "{\"candidate\":\"candidate:1 1 udp 1 10.0.0.1 1 typ host\",\"usernameFragment\":\"new\",\"sdpMLineIndex\":-1}",
    "{\"candidate\":\"candidate:1 1 udp 1 10.0.0.1 1 typ host\",\"usernameFragment\":\"new\",\"more\":{\"deep\":[1,null]}}",
];

/// Whether the candidate of the text has this line.
fn reads_as(alloc: Global, text: &str, line: &str) -> bool {
    match read(alloc, text) {
        Some(candidate) => has_line(alloc, &candidate, line),
        None => false,
    }
}

#[test]
fn order_spaces_escapes_and_other_members_change_nothing(rt: HostRuntime) {
    let line = "candidate:1 1 udp 1 10.0.0.1 1 typ host ufrag new";
    for text in &ALIKE {
        assert!(rt; reads_as(rt.alloc(), text, line));
    }
}

/// Texts that are no JSON.
static CUT: [&str; 8] = [
    "",
    "{",
    "{\"candidate\":\"candidate:1 1 udp 1 10.0.0.1 1 typ host\"",
    "{\"candidate\":\"candidate:1 1 udp 1 10.0.0.1 1 typ host\",}",
    "{\"candidate\":\"candidate:1 1 udp 1 10.0.0.1 1 typ host\"} {}",
    "{\"candidate\":\"candidate:1 1 udp 1 10.0.0.1 1 typ host\",\"more\":01}",
    "{\"candidate\":1e999}",
    "candidate:1 1 udp 1 10.0.0.1 1 typ host",
];

#[test]
fn a_text_that_is_not_json_is_reported(rt: HostRuntime) {
    let mut scratch = JsonScratch::new(rt.alloc());
    for text in &CUT {
        let read = Candidate::from_json_str(rt.alloc(), text, &mut scratch);
        assert!(rt; says(read, "candidate info is not JSON"));
    }
}

/// Whether the candidate was read, and has this ufrag.
fn is_named(read: Result<Candidate, IceError>, ufrag: &str) -> bool {
    match read {
        Ok(candidate) => candidate.ufrag() == Some(ufrag),
        Err(_) => false,
    }
}

#[test]
fn a_scratch_serves_one_text_after_another(rt: HostRuntime) {
    let mut scratch = JsonScratch::new(rt.alloc());
    for text in &ALIKE {
        let read = Candidate::from_json_str(rt.alloc(), text, &mut scratch);
        assert!(rt; is_named(read, "new"));
    }
}
