//! Bytes that look random, the same for the same seed.

/// A linear generator of words.
#[derive(Drop)]
pub struct Draws {
    state: u64,
}

impl Draws {
    pub fn new(seed: u64) -> Draws {
        Draws { state: seed }
    }

    fn word(&mut self) -> u64 {
        self.state = self
            .state
            .wrapping_mul(6364136223846793005)
            .wrapping_add(1442695040888963407);
        self.state ^ (self.state >> 29)
    }

    /// Eight bytes, the highest of the word first.
    pub fn block(&mut self) -> [u8; 8] {
        self.word().to_be_bytes()
    }

    /// Fills whole blocks of `out`.
    pub fn fill(&mut self, out: &mut [u8]) {
        for chunk in 0..out.len() / 8 {
            let block = self.block();
            out[8 * chunk..8 * chunk + 8].copy_from_slice(&block);
        }
    }
}

/// A sum over bytes that were made, in which their order counts.
#[derive(Drop)]
pub struct Checksum {
    value: u64,
}

impl Checksum {
    pub fn new() -> Checksum {
        Checksum { value: 0 }
    }

    pub fn add(&mut self, bytes: &[u8]) {
        for byte in bytes {
            self.value = self.value.wrapping_mul(1099511628211) ^ u64::from(*byte);
        }
    }

    pub fn value(&self) -> u64 {
        self.value
    }
}
