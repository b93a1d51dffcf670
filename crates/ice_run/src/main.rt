//! Plays a script of agent calls: reads it from standard input, prints results, packets, events and next timeouts.
#![tactic(auto)]

use ice_script::play;
use std::io;
use std::io::{BufWriter, Write};
use std::process::ExitCode;

fn main(rt: HostRuntime) -> ExitCode {
    let mut input = rt.reader();
    let mut errors = rt.stderr();
    // a script prints in small pieces, each of which would be a write of its own
    match BufWriter::new(rt.alloc(), io::writer(&rt)) {
        Ok(mut output) => { ExitCode::from(play(rt.alloc(), &mut input, &mut output, &mut errors)) }
        Err(error) => {
            // a failed write of this is status 2 too
            let _written = writeln!(errors, "{error}");
            ExitCode::from(2)
        }
    }
}
