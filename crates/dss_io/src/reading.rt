ghost use Rattle.std.specs.Prelude.{◌≡◌, ◌≤◌, ◌<◌, length, IfOk, IfSome, OnOk, IsErrOf};
ghost use Rattle.std.specs.Io.KnownBytes.{IsAtEnd};
ghost use Rattle.dss_io.specs.Faults.{Rose};
ghost use Rattle.dss_io.specs.Reading.{TakesByAnswer};
ghost use Rattle.dss_io.specs.declared.reading.ReadStop.TheVariants.{Fault, OutOfMemory};

use crate::source::{Failed, Source};
use std::alloc::{AllocError, Global};

/// How many bytes are asked for at a time.
const CHUNK: usize = 16384;

/// Why a reading to the end gave no text.
#[derive(Clone, Copy, Debug, PartialEq, Eq)]
pub enum ReadStop {
    Fault,
    TooMany,
    OutOfMemory,
}

impl From<Failed> for ReadStop {
    ghost from_gives = { λ _ stop. stop ≡ Fault };

    fn from(_: Failed) -> Self {
        ReadStop::Fault
    }
}

impl From<AllocError> for ReadStop {
    ghost from_gives = { λ _ stop. stop ≡ OutOfMemory };

    fn from(_: AllocError) -> Self {
        ReadStop::OutOfMemory
    }
}

/// Reads a source to its end, in time that grows with the number of bytes. Longer input than
/// `limit` bytes is read no further than one byte past them.
pub fn read_all<S: Source>(alloc: Global, source: &mut S, limit: usize) -> Result<Vec<u8>, ReadStop>
    // Ok is all that was left.
    ensures whole { IfOk result (λ text. IfSome (S.left source.old) (λ left. text.items ≡ left)) }
    ensures within { IfOk result (λ text. length text.items ≤ limit) }
    ensures end { OnOk result (IsAtEnd (S.left source.new)) }

    // Each refusal has its cause, but for want of memory.
    ensures fault { IsErrOf result ReadStop.Fault
        → Rose (S.faults source.old) (S.faults source.new) }
    ensures too_many { IsErrOf result ReadStop.TooMany
        → IfSome (S.left source.old) (λ left. limit < length left) }

    ensures taken { TakesByAnswer limit (S.left source.old) (S.left source.new) result }
    ensures later { S.faults source.old ≤ S.faults source.new }
    ensures kept { OnOk result (S.faults source.new ≡ S.faults source.old) }
{
    let mut text = Vec::new(alloc);
    let mut chunk = [0; CHUNK];
    loop {
        // One byte past the limit tells a text that fills it from a longer one.
        let room = (limit - text.len()).min(CHUNK - 1) + 1;
        let count = source.read(&mut chunk[..room])?;
        if count == 0 {
            return Ok(text);
        }
        if count > limit - text.len() {
            return Err(ReadStop::TooMany);
        }
        text.extend_from_slice(&chunk[..count])?;
    }
}
