//! Runs benchmark cases of the library. Each line of standard input names a case and a number of rounds. For each
//! line the case, its rounds and a checksum of the results are printed. No clock is read: run a case with two numbers
//! of rounds, and divide the difference of the times by that of the rounds.
#![tactic(auto)]

mod agents;
mod bench;
mod candidates;
mod checksum;
mod floods;
mod forming;
mod messages;
mod pairs;

use bench::bench;
use std::io;
use std::process::ExitCode;

fn main(rt: HostRuntime) -> ExitCode {
    let mut input = rt.reader();
    let mut output = io::writer(&rt);
    ExitCode::from(bench(rt.alloc(), &mut input, &mut output))
}
