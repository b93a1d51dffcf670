//! What a connectivity check carries, and its path (RFC 8445, section 7.2); the agent's part: `is_agent::checking`.

ghost use Rattle.std.specs.Prelude.{◌≡◌, OnOk, string_bytes};
ghost use Rattle.is_rules.specs.Checking.{username_between};

use crate::credentials::IceCreds;
use crate::emitted::Path;
use std::alloc::AllocError;

/// Writes the peer's username fragment, a colon and the agent's own username fragment to the string.
pub fn write_username(name: &mut String, peer: &IceCreds, own: &IceCreds) -> Result<(), AllocError>
    ensures { OnOk result (string_bytes name.new ≡ username_between peer.now own.now) }
{
    name.clear();
    name.push_str(peer.ufrag.as_str())?;
    name.push_str(":")?;
    name.push_str(own.ufrag.as_str())
}

/// What a check contains of its pair, and its path.
#[derive(Clone, Copy)]
pub struct Draft {
    /// The path on which the check is sent.
    pub path: Path,
    /// The value of PRIORITY.
    pub priority: u32,
    /// The pair is nominated, and its nomination is not replaced by a later one.
    pub nominated: bool,
    /// The value of NOMINATION.
    pub nomination: Option<u32>,
}
