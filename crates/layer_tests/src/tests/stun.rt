//! Messages with published bytes, each fault with the shortest bytes that have it, writing, and timing.

mod faults;
mod fingerprints;
mod published;
mod rejections;
mod timing;
mod turn;
mod written;
