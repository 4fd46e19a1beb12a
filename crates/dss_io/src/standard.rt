ghost use Rattle.std.specs.Prelude.{◌≡◌, ◌≢◌, ◌-◌, ◌^◌, ◌<◌, length, take, None, Err, IfOk, IsErr};
ghost use Rattle.std.specs.Io.{ReadsAtMost, WritesAtMost};
ghost use Rattle.std.specs.Io.KnownBytes.{Appends, ReadConsumes, WriteAppends};
ghost use Rattle.dss_io.specs.Faults.{CountsErrors};
ghost use Rattle.dss_io.specs.Standard.{uncounted};

use crate::sink::{Sink, SinkStop};
use crate::source::{Failed, Source};
use std::io::{Read, Write};
use std::marker::Model;

/// A reader of the system's, as a source. It tells the bytes that the reader tells: none of
/// standard input.
#[derive(Drop)]
pub struct StdSource<R> {
    inner: R,
    faults: u64,
}

impl<R> Model for StdSource<R> {
    ghost use Rattle.dss_io.specs.Standard.{Counted};

    ghost Value = { Counted R };

    ghost view = { λ source. record { inner = source.inner; faults = source.faults } };
}

impl<R: Read> StdSource<R> {
    pub fn new(inner: R) -> StdSource<R>
        ensures { result ≡ uncounted inner }
    {
        StdSource { inner, faults: 0 }
    }
}

impl<R: Read> Source for StdSource<R> {
    ghost left = { λ source. R.remaining source.inner };

    ghost faults = { λ source. source.faults };

    /// Once the count stands at its last value, each read fails.
    fn read(&mut self, buf: &mut [u8]) -> Result<usize, Failed>
        ensures bound { ReadsAtMost result buf.new }
        ensures bytes { ReadConsumes (R.remaining self.old.inner) (R.remaining self.new.inner)
            result buf.new }
        ensures counted { CountsErrors self.old.faults self.new.faults result }
        ensures last { self.old.faults ≡ 2 ^ 64 - 1 → IsErr result }
    {
        if self.faults == u64::MAX {
            return Err(Failed);
        }
        match self.inner.read(buf) {
            Ok(count) => Ok(count),
            Err(_) => {
                self.faults += 1;
                Err(Failed)
            }
        }
    }
}

/// A writer of the system's, as a sink. As a sink it tells no bytes: where a flush fails behind a
/// write, the writer holds bytes of a call that failed.
#[derive(Drop)]
pub struct StdSink<W> {
    inner: W,
    faults: u64,
}

impl<W> Model for StdSink<W> {
    ghost use Rattle.dss_io.specs.Standard.{Counted};

    ghost Value = { Counted W };

    ghost view = { λ sink. record { inner = sink.inner; faults = sink.faults } };
}

impl<W: Write> StdSink<W> {
    pub fn new(inner: W) -> StdSink<W>
        ensures { result ≡ uncounted inner }
    {
        StdSink { inner, faults: 0 }
    }
}

fn write_and_flush<W: Write>(writer: &mut W, piece: &[u8]) -> std::io::Result<usize>
    ensures bound { WritesAtMost result piece.now }
    ensures bytes { IfOk result (λ count.
        Appends (W.contents writer.old) (W.contents writer.new) (take count piece.now)) }
{
    let count = writer.write(piece)?;
    writer.flush()?;
    Ok(count)
}

impl<W: Write> Sink for StdSink<W> {
    ghost written = { λ _. None };

    ghost faults = { λ sink. sink.faults };

    /// Writes and flushes. It fails where either does, where a piece that isn't empty makes no
    /// progress, and once the count stands at its last value.
    fn write(&mut self, piece: &[u8]) -> Result<usize, SinkStop>
        ensures bound { WritesAtMost result piece.now }
        ensures moves { IfOk result (λ count. 0 < length piece.now → 0 < count) }
        // Where the writer tells its bytes, they grow by those that are answered.
        ensures inner { IfOk result (λ count.
            Appends (W.contents self.old.inner) (W.contents self.new.inner)
            (take count piece.now)) }
        ensures counted { CountsErrors self.old.faults self.new.faults result }
        ensures last { self.old.faults ≡ 2 ^ 64 - 1 → IsErr result }
        ensures no_memory { result ≢ Err SinkStop.OutOfMemory }
    {
        if self.faults == u64::MAX {
            return Err(SinkStop::Failed);
        }
        match write_and_flush(&mut self.inner, piece) {
            Ok(count) if count > 0 || piece.is_empty() => Ok(count),
            _ => {
                self.faults += 1;
                Err(SinkStop::Failed)
            }
        }
    }
}

#[cfg(test)]
mod tests {
    use super::*;
    use std::alloc::Global;
    use std::io;
    use std::test::Fail;

    // Fills each buffer with the number of the call. Call 2 fails.
    #[derive(Drop)]
    struct Reader {
        calls: u8,
    }

    impl Read for Reader {
        fn read(&mut self, buf: &mut [u8]) -> io::Result<usize> {
            self.calls = self.calls.saturating_add(1);
            if self.calls == 2 {
                return Err(io::Error::other("unplugged"));
            }
            for byte in buf.iter_mut() {
                *byte = self.calls;
            }
            Ok(buf.len())
        }
    }

    #[test]
    fn a_source_counts_failing_reads(rt: HostRuntime) {
        let mut source = StdSource::new(Reader { calls: 0 });
        let mut buf = [0; 3];
        for (answer, bytes, faults) in [
            (Ok(3), [1, 1, 1], 0),
            (Err(Failed), [1, 1, 1], 1),
            (Ok(3), [3, 3, 3], 1),
        ] {
            assert_eq!(rt; source.read(&mut buf), answer);
            assert_eq!(rt; buf, bytes);
            assert_eq!(rt; source.faults, faults);
        }

        source.faults = u64::MAX;
        for _ in 0..2 {
            assert_eq!(rt; source.read(&mut buf), Err(Failed));
            assert_eq!(rt; source.faults, u64::MAX);
        }
        assert_eq!(rt; source.inner.calls, 3);
    }

    // Takes three bytes a call. Write 2 and flush 3 fail, and write 3 takes nothing.
    #[derive(Drop)]
    struct Writer {
        taken: Vec<u8>,
        writes: u8,
        flushes: u8,
    }

    impl Writer {
        fn new(alloc: Global) -> Writer {
            Writer {
                taken: Vec::new(alloc),
                writes: 0,
                flushes: 0,
            }
        }
    }

    impl Write for Writer {
        fn write(&mut self, buf: &[u8]) -> io::Result<usize> {
            self.writes = self.writes.saturating_add(1);
            match self.writes {
                2 => Err(io::Error::other("unplugged")),
                3 => Ok(0),
                _ => {
                    let count = buf.len().min(3);
                    self.taken.extend_from_slice(&buf[..count])?;
                    Ok(count)
                }
            }
        }

        fn flush(&mut self) -> io::Result<()> {
            self.flushes = self.flushes.saturating_add(1);
            if self.flushes == 3 {
                return Err(io::Error::other("full"));
            }
            Ok(())
        }
    }

    #[test]
    fn a_sink_counts_failing_writes_and_flushes(rt: HostRuntime) {
        let mut sink = StdSink::new(Writer::new(rt.alloc()));
        for (piece, answer, faults) in [
            ("abcd", Ok(3), 0),
            ("efgh", Err(SinkStop::Failed), 1),
            ("ijkl", Err(SinkStop::Failed), 2),
            ("mnop", Err(SinkStop::Failed), 3),
            ("", Ok(0), 3),
            ("qr", Ok(2), 3),
        ] {
            assert_eq!(rt; sink.write(piece.as_bytes()), answer);
            assert_eq!(rt; sink.faults, faults);
        }
        assert_eq!(rt; sink.inner.taken.as_slice(), b"abcmnoqr".as_slice());
        assert_eq!(rt; sink.inner.flushes, 5);

        sink.faults = u64::MAX;
        for piece in ["st", ""] {
            assert_eq!(rt;
                sink.write(piece.as_bytes()),
                Err(SinkStop::Failed),
                "at {piece}"
            );
            assert_eq!(rt; sink.faults, u64::MAX);
        }
        assert_eq!(rt; sink.inner.writes, 6);
    }
}
