ghost use Rattle.std.specs.Prelude.{◌≡◌, ◌≢◌, ◌≤◌, List, ℕ, [], length, drop, min, Some, Ok, Err, IfOk};
ghost use Rattle.std.specs.Io.{ReadsAtMost};
ghost use Rattle.std.specs.Io.KnownBytes.{ReadConsumes, WriteAppends};

use crate::sink::{Sink, SinkStop};
use crate::source::{Failed, Source};
use std::alloc::{AllocError, Global};
use std::marker::Model;

/// A source in memory that never fails. It is seen as the bytes that are left.
#[derive(Drop)]
pub struct SureSource {
    bytes: Vec<u8>,
    next: usize,
}

impl Model for SureSource {
    ghost Value = { List ℕ };

    ghost view = { λ source. drop source.next source.bytes.items };

    ghost invariant = { λ source. source.next ≤ length source.bytes.items };
}

impl SureSource {
    pub fn new(alloc: Global, bytes: &[u8]) -> Result<SureSource, AllocError>
        ensures { IfOk result (λ source. source ≡ bytes.now) }
    {
        Ok(SureSource {
            bytes: bytes.to_vec(alloc)?,
            next: 0,
        })
    }
}

impl Source for SureSource {
    ghost left = { λ bytes. Some bytes };

    ghost faults = { λ _. 0 };

    fn read(&mut self, buf: &mut [u8]) -> Result<usize, Failed>
        ensures given { result ≡ Ok (min (length buf.old) (length self.old)) }
        ensures bound { ReadsAtMost result buf.new }
        ensures bytes { ReadConsumes (Some self.old) (Some self.new) result buf.new }
    {
        let count = buf.len().min(self.bytes.len() - self.next);
        buf[..count].copy_from_slice(&self.bytes[self.next..self.next + count]);
        self.next += count;
        Ok(count)
    }
}

/// A sink in memory that never fails. It is seen as the bytes that were written.
#[derive(Drop)]
pub struct SureSink {
    bytes: Vec<u8>,
}

impl Model for SureSink {
    ghost Value = { List ℕ };

    ghost view = { λ sink. sink.bytes.items };
}

impl SureSink {
    pub fn new(alloc: Global) -> SureSink
        ensures { result ≡ [] }
    {
        SureSink {
            bytes: Vec::new(alloc),
        }
    }

    /// The bytes that were written.
    pub fn contents(&self) -> &[u8]
        ensures { result.now ≡ self.now }
    {
        &self.bytes
    }
}

impl Sink for SureSink {
    ghost written = { λ bytes. Some bytes };

    ghost faults = { λ _. 0 };

    fn write(&mut self, piece: &[u8]) -> Result<usize, SinkStop>
        ensures all { IfOk result (λ count. count ≡ length piece.now) }
        ensures bytes { WriteAppends (Some self.old) (Some self.new) result piece.now }
        ensures sure { result ≢ Err SinkStop.Failed }
    {
        self.bytes.extend_from_slice(piece)?;
        Ok(piece.len())
    }
}
