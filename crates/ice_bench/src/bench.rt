//! The lines of the input, and the case that each names.

use crate::checksum::Checksum;
use crate::{agents, candidates, floods, forming, messages, pairs};
use is_proto::IceError;
use std::alloc::Global;
use std::io::{Read, Write};

/// The longest input, in bytes.
const LIMIT: u64 = 65536;

/// Runs the case of each line, and returns the exit status: 0 if each line named a case; 1 if one did not; 2 if
/// memory ran out, a read or a write failed, or the input is longer than 65536 bytes or not UTF-8.
pub fn bench<R: Read, W: Write>(alloc: Global, input: &mut R, output: &mut W) -> u8 {
    let Some(text) = read_lines(alloc, input) else {
        return 2;
    };
    for line in text.as_str().lines() {
        let Some((name, rounds)) = case_of(line) else {
            return 1;
        };
        match sum_of(alloc, name, rounds) {
            Ok(Some(sum)) => {
                if writeln!(output, "{name} {rounds} {sum}").is_err() {
                    return 2;
                }
            }
            Ok(None) => return 1,
            Err(_) => return 2,
        }
    }
    0
}

fn read_lines<R: Read>(alloc: Global, input: &mut R) -> Option<String> {
    let mut bytes = Vec::new(alloc);
    if input.take(LIMIT + 1).read_to_end(&mut bytes).is_err() || bytes.len() as u64 > LIMIT {
        return None;
    }
    String::from_utf8(bytes).ok()
}

/// The name of a case and its rounds.
fn case_of(line: &str) -> Option<(&str, u64)> {
    let (name, rounds) = line.split_once(' ')?;
    Some((name, rounds.parse::<u64>().ok()?))
}

/// The checksum of the case with this name after so many rounds; `None` if no case has the name.
fn sum_of(alloc: Global, name: &str, rounds: u64) -> Result<Option<u64>, IceError> {
    let mut sum = Checksum(0);
    match name {
        "parse_request" => messages::parse_request(rounds, &mut sum),
        "parse_reply" => messages::parse_reply(rounds, &mut sum),
        "verify_request" => messages::verify_request(rounds, &mut sum),
        "write_request" => messages::write_request(rounds, &mut sum),
        "write_reply" => messages::write_reply(rounds, &mut sum),
        "write_unsigned" => messages::write_unsigned(rounds, &mut sum),
        "crc" => messages::crc(rounds, &mut sum),
        "hmac" => messages::hmac(rounds, &mut sum),
        "read_line" => candidates::read_line(alloc, rounds, &mut sum)?,
        "print_line" => candidates::print_line(alloc, rounds, &mut sum)?,
        "read_json" => candidates::read_json(alloc, rounds, &mut sum)?,
        "print_json" => candidates::print_json(alloc, rounds, &mut sum)?,
        "pair" => pairs::pair(alloc, rounds, &mut sum)?,
        "candidates_1000" => agents::host_candidates(alloc, 1000, rounds, &mut sum)?,
        "candidates_10000" => agents::host_candidates(alloc, 10000, rounds, &mut sum)?,
        _ => return sum_of_agent(alloc, name, rounds),
    }
    Ok(Some(sum.0))
}

/// The checksum of the case of an agent with this name, which has a number, after so many rounds; `None` if no such case has the name.
fn sum_of_agent(alloc: Global, name: &str, rounds: u64) -> Result<Option<u64>, IceError> {
    let mut sum = Checksum(0);
    if let Some(before) = floods::case_of(name) {
        floods::flood(alloc, before, rounds, &mut sum)?;
        return Ok(Some(sum.0));
    }
    if let Some(case) = forming::case_of(name) {
        forming::recreate(alloc, case, rounds, &mut sum)?;
        return Ok(Some(sum.0));
    }
    let Some(case) = agents::case_of(name) else {
        return Ok(None);
    };
    agents::turns(alloc, case, rounds, &mut sum)?;
    Ok(Some(sum.0))
}
