//! The sum of all results of a case, so that none of them can be optimized away.

/// A sum in which each number and its position count.
#[derive(Clone, Copy)]
pub struct Checksum(pub u64);

impl Checksum {
    pub fn add(&mut self, number: u64) {
        self.0 = self.0.rotate_left(5) ^ number;
    }

    pub fn add_bytes(&mut self, bytes: &[u8]) {
        self.add(bytes.len() as u64);
        if let Some(byte) = bytes.last() {
            self.add(u64::from(*byte));
        }
    }
}
