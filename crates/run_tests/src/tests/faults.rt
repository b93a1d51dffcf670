//! What is wrong with a line, as it is printed: the field, its value, and what it may be.

use crate::tests::playing::{FIRST, FIRST_PRINTED, ends};
use std::alloc::{AllocError, Global};
use std::test::Fail;

/// Lines, and what is wrong with them.
static FAULTS: [(&str, &str); 36] = [
    ("[1]", "not a script line: no JSON object"),
    ("\r", "not a script line: no JSON at column 1"),
    (" ", "not a script line: no JSON at column 1"),
    (
        r#"{"call":"restart""#,
        "not a script line: no JSON at column 17",
    ),
    (
        r#"{"call":"sleep","x":[{"y":1.5}]}"#,
        "not a script line: a number in it is no whole number of 64 bits",
    ),
    (
        r#"{"call":"sleep","x":18446744073709551616}"#,
        "not a script line: a number in it is no whole number of 64 bits",
    ),
    (
        r#"{"call":"sleep","x":-0}"#,
        "not a script line: a number in it is no whole number of 64 bits",
    ),
    (
        r#"{"call":"sleep","on":"C"}"#,
        r#"bad on: "C" is not A or B"#,
    ),
    (
        r#"{"call":"sleep","polls":1}"#,
        "bad polls: 1 is not true or false",
    ),
    (
        r#"{"on":"A"}"#,
        "missing call, which is one of agent, controlling, lite, renomination, profile, consent, tie, mtu, local, remote, pairs, discovered, candidates, \
        retransmits, rto, maxrto, litetimeout, advance, preference, skip, host, srflx, relay, candidate, invalidate, \
        restart, recreate, timeout, packet, deliver, poll",
    ),
    (
        r#"{"call":"sleep"}"#,
        "bad call: \"sleep\" is not one of agent, controlling, lite, renomination, profile, consent, tie, mtu, local, remote, pairs, discovered, candidates, \
        retransmits, rto, maxrto, litetimeout, advance, preference, skip, host, srflx, relay, candidate, invalidate, \
        restart, recreate, timeout, packet, deliver, poll",
    ),
    (
        r#"{"call":"host","on":"B"}"#,
        "no agent B: the call agent makes it",
    ),
    (
        r#"{"call":"timeout"}"#,
        "missing now, which is a whole number from 0 to 18446744073709551615",
    ),
    (
        r#"{"call":"timeout","now":null}"#,
        "bad now: null is not a whole number from 0 to 18446744073709551615",
    ),
    (
        r#"{"call":"deliver","packet":0,"now":-1}"#,
        "bad now: -1 is not a whole number from 0 to 18446744073709551615",
    ),
    (
        r#"{"call":"deliver","packet":0,"now":1}"#,
        "no packet 0: so far 0 were sent",
    ),
    (
        r#"{"call":"retransmits","number":0}"#,
        "bad number: 0 is not a whole number from 1 to 18446744073709551615",
    ),
    (
        r#"{"call":"litetimeout"}"#,
        "missing number, which is a whole number from 0 to 18446744073709551615",
    ),
    (
        r#"{"call":"discovered","number":"x"}"#,
        r#"bad number: "x" is not a whole number from 0 to 18446744073709551615, or null"#,
    ),
    (
        r#"{"call":"preference","number":65536}"#,
        "bad number: 65536 is not a whole number from 0 to 65535",
    ),
    (
        r#"{"call":"mtu","target":588}"#,
        "missing warn, which is a whole number from 0 to 18446744073709551615",
    ),
    (
        r#"{"call":"lite","flag":1}"#,
        "bad flag: 1 is not true or false",
    ),
    (
        r#"{"call":"profile"}"#,
        "missing name, which is original or modern",
    ),
    (
        r#"{"call":"profile","name":"Mod\nern"}"#,
        r#"bad name: "Mod\nern" is not original or modern"#,
    ),
    (
        r#"{"call":"consent","timeout":true,"strict":false}"#,
        "bad timeout: true is not a whole number from 0 to 18446744073709551615, or null",
    ),
    (
        r#"{"call":"consent","timeout":null,"strict":0}"#,
        "bad strict: 0 is not true or false",
    ),
    (
        r#"{"call":"consent","timeout":1}"#,
        "missing strict, which is true or false",
    ),
    (
        r#"{"call":"poll","what":"packet"}"#,
        r#"bad what: "packet" is not transmit, event or timeout"#,
    ),
    (
        r#"{"call":"srflx","addr":"10.0.0.1:1"}"#,
        "missing base, which is IPv4:port or [IPv6]:port",
    ),
    (
        r#"{"call":"host","addr":"x"}"#,
        "missing proto, which is udp, tcp, ssltcp or tls",
    ),
    (
        r#"{"call":"host","addr":"x","proto":1}"#,
        r#"bad addr: "x" is not IPv4:port or [IPv6]:port"#,
    ),
    (
        r#"{"call":"host","addr":"10.0.0.1:+1","proto":"udp"}"#,
        r#"bad addr: "10.0.0.1:+1" is not IPv4:port or [IPv6]:port"#,
    ),
    (
        r#"{"call":"host","addr":"10.0.0.1:1","proto":"sctp"}"#,
        r#"bad proto: "sctp" is not udp, tcp, ssltcp or tls"#,
    ),
    (
        r#"{"call":"agent","ufrag":"A","pass":null,"tie":1}"#,
        "bad pass: null is not a text",
    ),
    (
        r#"{"call":"agent","ufrag":"A","pass":"P","tie":-1}"#,
        "bad tie: -1 is not a whole number from 0 to 18446744073709551615",
    ),
    (
        r#"{"call":"packet","now":0,"proto":"udp","from":"10.0.0.2:1","to":"10.0.0.1:1","hex":"0"}"#,
        r#"bad hex: "0" is not two hexadecimal digits a byte"#,
    ),
];

/// Whether the line, as the third of a script, ends it with this fault.
fn has_fault(alloc: Global, line: &str, fault: &str) -> Result<bool, AllocError> {
    let script = format!(in alloc; "{FIRST}\n\n{line}\n{FIRST}\n")?;
    let reported = format!(in alloc; "line 3: {fault}\n")?;
    Ok(ends(
        alloc,
        script.as_bytes(),
        1,
        FIRST_PRINTED,
        reported.as_str(),
    ))
}

#[test]
fn each_fault_of_a_line_ends_the_script(rt: HostRuntime) -> Result<(), Fail> {
    for (line, fault) in &FAULTS {
        assert!(rt; has_fault(rt.alloc(), line, fault)?, "{line}");
    }
    Ok(())
}
