//! Over what a client reaches its server.

/// Over what a client reaches its server.
#[derive(Clone, Copy, Debug, PartialEq, Eq)]
pub enum Transport {
    Udp,
    /// A stream: TCP, or TLS, which the caller encrypts.
    Tcp,
}
