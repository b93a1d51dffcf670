//! A packet to send, and what the last packet, `handle_timeout` call or candidate issued and selected; the rules: `is_rules::emitted`.

ghost use Rattle.std.specs.Prelude.{◌≡◌};
ghost use Rattle.is_proto.specs.Packets.{packet_of};
ghost use Rattle.is_agent.specs.View.{emitted_of};

use crate::agent::Agent;
use is_proto::Transmit;
use is_rules::emitted::{Issued, Path};

/// The packet with these bytes, to be sent on the path.
pub(crate) fn packet_on(path: Path, contents: Vec<u8>) -> Transmit
    ensures { packet_of result
        ≡ record { proto = path.proto; source = path.source; destination = path.destination; contents = contents.items } }
{
    Transmit {
        proto: path.proto,
        source: path.source,
        destination: path.destination,
        contents,
    }
}

/// The packet that the agent issued at the last packet or `handle_timeout` call, if there was one. A candidate that is added or
/// invalidated issues none, and clears this. Other calls issue none, and do not change this.
pub fn last_issued<H, P>(agent: &Agent<H, P>) -> Option<Issued>
    ensures { result ≡ (emitted_of agent.now).issued }
{
    agent.emitted.issued
}

/// The paths that the agent selected at the last packet or `handle_timeout` call, or when the last candidate was added or invalidated,
/// in order. Other calls select none, and do not change this.
pub fn last_selected<H, P>(agent: &Agent<H, P>) -> [Option<Path>; 2]
    ensures { result ≡ (emitted_of agent.now).selected_paths }
{
    agent.emitted.selected_paths
}
