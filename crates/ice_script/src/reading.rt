//! The text of a script.
use crate::fault::{Ended, LONGEST, Stop};
use std::alloc::Global;
use std::io::Read;

/// The whole input, if it is UTF-8 and not longer than the limit.
pub fn read_script<R: Read>(alloc: Global, input: &mut R) -> Result<String, Ended> {
    let mut bytes = Vec::new(alloc);
    if let Err(error) = input.take(LONGEST + 1).read_to_end(&mut bytes) {
        return Err(unread(Stop::of_reading(error)));
    }
    if bytes.len() as u64 > LONGEST {
        return Err(unread(Stop::TooLong));
    }
    match String::from_utf8(bytes) {
        Ok(text) => Ok(text),
        Err(error) => {
            let valid = error.utf8_error().valid_up_to();
            Err(Ended {
                line: Some(line_at(error.as_bytes(), valid)),
                stop: Stop::NotUtf8,
            })
        }
    }
}

fn unread(stop: Stop) -> Ended {
    Ended { line: None, stop }
}

/// The number of the line, from 1 on, that the byte at this index is in.
fn line_at(bytes: &[u8], index: usize) -> u64 {
    let mut line = 1u64;
    for byte in bytes.iter().take(index) {
        if *byte == b'\n' {
            line = line.saturating_add(1);
        }
    }
    line
}
