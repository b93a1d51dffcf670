//! Scripts, and how they end.

use ice_script::play;
use std::alloc::Global;

/// Makes the agent of the scripts here.
pub const FIRST: &str = r#"{"call":"agent","ufrag":"AAAA","pass":"PPPP","tie":1}"#;

/// What is printed then.
pub const FIRST_PRINTED: &str = "A agent ok\nA wake none\n";

/// The exit status of a script, and what it wrote.
#[derive(Drop)]
pub struct Played {
    pub status: u8,
    output: Vec<u8>,
    errors: Vec<u8>,
}

pub fn play_script(alloc: Global, mut script: &[u8]) -> Played {
    let mut output = Vec::new(alloc);
    let mut errors = Vec::new(alloc);
    let status = play(alloc, &mut script, &mut output, &mut errors);
    Played {
        status,
        output,
        errors,
    }
}

/// Whether the script ends so.
pub fn ends(alloc: Global, script: &[u8], status: u8, output: &str, errors: &str) -> bool {
    let played = play_script(alloc, script);
    played.status == status
        && played.output.as_slice() == output.as_bytes()
        && played.errors.as_slice() == errors.as_bytes()
}
