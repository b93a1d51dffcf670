//! What is tested and not proved: that the definitions match the standards, and that calls that allocate succeed.

mod errors;
mod macs;
mod sockets;
mod times;
mod words;

use std::alloc::AllocError;

/// Whether it was printed as this text.
fn is_text(printed: Result<String, AllocError>, text: &str) -> bool {
    match printed {
        Ok(printed) => printed.as_str() == text,
        Err(_) => false,
    }
}
