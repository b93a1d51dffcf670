//! The basic types of every layer of the agent: protocols, times, packets, texts, errors, and the provider of
//! HMAC-SHA1.
#![tactic(auto)]

pub mod capacity;
pub mod error;
pub mod hmac_provider;
pub mod proto;
pub mod text;
pub mod theorems;

pub use capacity::{reserve_few, reserve_one, reserve_one_in};
pub use error::{IceError, ParseFault, StunError};
pub use hmac_provider::{DefaultSha1HmacProvider, HmacKey, KeptProvider};
pub use proto::{Duration, Instant, Protocol, Sha1HmacProvider, SocketText, TcpType, Transmit};
pub use text::Text;
