//! The clients of servers that C holds.

use is_proto::DefaultSha1HmacProvider;
use is_servers::Servers;

/// The clients of servers. They sign with HMAC-SHA1.
#[derive(Drop)]
pub struct HeldServers {
    pub(crate) servers: Servers<DefaultSha1HmacProvider>,
}

/// Is called for a type whose values may move to another thread, and for no other type.
fn may_move<T: Send>() {}

/// What a slot owns may move to another thread. So C may use clients on any thread, one call at a time.
fn held_agents_may_move() {
    may_move::<Box<HeldServers>>()
}
