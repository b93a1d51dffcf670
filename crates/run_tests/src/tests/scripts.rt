//! Scripts that end early, or whose reader or writer fails. `ice_stories` plays the others.

use crate::tests::playing::{ends, play_script};
use ice_script::play;
use std::alloc::Global;
use std::io;
use std::io::{Read, Write};
use std::test::Fail;

/// The agent that the published request is for: its ufrag, its password, its host candidate and the other agent's
/// ufrag.
const AGENT: &str = r#"{"call":"agent","ufrag":"p9KA","pass":"xJcE9AQAR7kczUDVOXRUCl","tie":1}
{"call":"remote","ufrag":"SQAt","pass":"x"}
{"call":"host","addr":"10.0.0.1:1000","proto":"udp"}
"#;

#[test]
fn two_agents_take_their_own_calls(rt: HostRuntime) -> Result<(), Fail> {
    let long = "u".repeat(rt.alloc(), 508)?;
    let script = format!(in rt.alloc();
        "{}{}{}{long}{}{}{}",
        "{\"call\":\"agent\",\"ufrag\":\"AAAA\",\"pass\":\"PPPP\",\"tie\":1.0e0,\"tie\":1}\n",
        "{\"call\":\"agent\",\"on\":\"B\",\"ufrag\":\"BBBB\",\"pass\":\"QQQQ\",\"tie\":18446744073709551615}\r\n",
        "{\"call\":\"agent\",\"ufrag\":\"",
        "\",\"pass\":\"PPPP\",\"tie\":1}\n",
        "{\"call\":\"host\",\"on\":\"B\",\"addr\":\"[2001:DB8::0:1]:007\",\"proto\":\"UDP\"}\n",
        "{\"call\":\"host\",\"addr\":\"0.0.0.0:1\",\"proto\":\"udp\"}"
    )?;
    let expected =
        "A agent ok\nA wake none\nB agent ok\nB wake none\nA agent refused CredentialsTooLong\nA wake none\n\
        B host added\nB wake none\nA host refused BadCandidate \"invalid ip 0.0.0.0\"\nA wake none\n";
    assert!(&rt; ends(rt.alloc(), script.as_bytes(), 0, expected, ""));
    Ok(())
}

/// Returns some bytes, and then an error.
#[derive(Drop)]
struct FailingReader<'a>(&'a [u8]);

impl Read for FailingReader<'_> {
    fn read(&mut self, buf: &mut [u8]) -> io::Result<usize> {
        if self.0.is_empty() {
            return Err(io::Error::from(io::ErrorKind::BrokenPipe));
        }
        self.0.read(buf)
    }
}

/// Accepts so many writes, and then fails.
#[derive(Drop)]
struct FailingWriter(u8);

impl Write for FailingWriter {
    fn write(&mut self, buf: &[u8]) -> io::Result<usize> {
        if self.0 == 0 {
            return Err(io::Error::from(io::ErrorKind::BrokenPipe));
        }
        self.0 -= 1;
        Ok(buf.len())
    }

    fn flush(&mut self) -> io::Result<()> {
        Ok(())
    }
}

/// Whether the script, read and written so, ends with status 2 and this text.
fn fails<R: Read + Drop, W: Write + Drop>(
    alloc: Global,
    mut input: R,
    mut output: W,
    text: &str,
) -> bool {
    let mut errors = Vec::new(alloc);
    let status = play(alloc, &mut input, &mut output, &mut errors);
    status == 2 && errors.as_slice() == text.as_bytes()
}

#[test]
fn what_fails_ends_the_script(rt: HostRuntime) {
    let alloc = rt.alloc();
    let whole = AGENT.as_bytes();
    assert!(&rt;
        fails(
            alloc,
            FailingReader(whole),
            FailingWriter(0),
            "reading failed: broken pipe\n"
        )
    );
    assert!(&rt;
        fails(
            alloc,
            whole,
            FailingWriter(0),
            "line 1: writing failed: broken pipe\n"
        )
    );
    assert!(&rt;
        fails(
            alloc,
            whole,
            FailingWriter(3),
            "line 1: writing failed: broken pipe\n"
        )
    );
    assert!(&rt;
        fails(
            alloc,
            b"{}\n\xff".as_slice(),
            FailingWriter(0),
            "line 2: not UTF-8, so no line was played\n"
        )
    );
}

#[test]
fn a_fault_that_can_t_be_written_is_a_failed_write(rt: HostRuntime) {
    let mut script = b"[]".as_slice();
    let mut output = Vec::new(rt.alloc());
    assert!(&rt; play(rt.alloc(), &mut script, &mut output, &mut FailingWriter(0)) == 2);
    assert!(&rt; output.is_empty());
}

#[test]
fn a_script_has_a_greatest_length(rt: HostRuntime) -> Result<(), Fail> {
    let longest = vec![in rt.alloc(); b'x'; 16777216]?;
    assert!(&rt; play_script(rt.alloc(), &longest).status == 1);
    let longer = vec![in rt.alloc(); b'x'; 16777217]?;
    let text = "the input is longer than 16777216 bytes\n";
    assert!(&rt; ends(rt.alloc(), &longer, 2, "", text));
    Ok(())
}
