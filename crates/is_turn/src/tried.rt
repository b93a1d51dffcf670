//! The servers to which a client sent Allocate requests. None is tried twice, so redirections end (RFC 8489, section 10).

ghost use Rattle.std.specs.Prelude.{◌≡◌, ◌↔◌, IsTrue};
ghost use Rattle.is_turn.specs.Tried.{tried_only, and_tried, HasTried, is_full};

use std::net::SocketAddr;

/// At most four servers.
#[derive(Clone, Copy, Debug, PartialEq, Eq)]
pub(crate) struct Tried {
    pub(crate) last: SocketAddr,
    pub(crate) second: Option<SocketAddr>,
    pub(crate) third: Option<SocketAddr>,
    pub(crate) fourth: Option<SocketAddr>,
}

impl Tried {
    pub(crate) fn new(server: SocketAddr) -> Tried
        ensures { result ≡ tried_only server }
    {
        Tried {
            last: server,
            second: None,
            third: None,
            fourth: None,
        }
    }

    /// These servers and another one.
    pub(crate) fn and(&self, server: SocketAddr) -> Tried
        ensures { result ≡ and_tried server self.now }
    {
        Tried {
            last: server,
            second: Some(self.last),
            third: self.second,
            fourth: self.third,
        }
    }

    /// Whether the server is one of them.
    pub(crate) fn has(&self, server: SocketAddr) -> bool
        ensures { IsTrue result ↔ HasTried server self.now }
    {
        self.last == server
            || self.second == Some(server)
            || self.third == Some(server)
            || self.fourth == Some(server)
    }

    /// Whether three redirections were followed.
    pub(crate) fn is_full(&self) -> bool
        ensures { result ≡ is_full self.now }
    {
        self.fourth.is_some()
    }
}
