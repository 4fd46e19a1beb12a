ghost use Rattle.std.specs.Prelude.{◌≡◌, ◌≤◌, ◌<◌, ◌↔◌, [], length, min, Some, IsErr, IsErrOf, OnErr, IsTrue, IfOk, Contains, if◌then◌else◌};
ghost use Rattle.std.specs.Io.{ReadsAtMost, WritesAtMost};
ghost use Rattle.std.specs.Io.KnownBytes.{ReadConsumes, WriteAppends};
ghost use Rattle.dss_io.specs.Faults.{one_more, CountsErrors};
ghost use Rattle.dss_io.specs.Memory.{uncalled, next_call, IsNextCall, CountsFailures};

use crate::sink::{Sink, SinkStop};
use crate::source::{Failed, Source};
use crate::sure::{SureSink, SureSource};
use std::alloc::{AllocError, Global};
use std::marker::Model;

/// The calls of an object in memory.
#[derive(Drop)]
struct Calls {
    failing: Vec<u64>,
    newest: u64,
    faults: u64,
}

impl Calls {
    fn new(alloc: Global, failing: &[u64]) -> Result<Calls, AllocError>
        ensures { IfOk result (λ calls.
            (calls.failing.items ≡ failing.now) × (calls.newest ≡ 0) × (calls.faults ≡ 0)) }
    {
        Ok(Calls {
            failing: failing.to_vec(alloc)?,
            newest: 0,
            faults: 0,
        })
    }

    /// Numbers a call, and says whether it fails.
    fn fails_next(&mut self) -> bool
        ensures fails { IsTrue result ↔ Contains self.old.failing.items
            (next_call self.old.newest) }
        ensures newest { self.new.newest ≡ next_call self.old.newest }
        ensures failing { self.new.failing.items ≡ self.old.failing.items }
        ensures faults { self.new.faults
            ≡ (if result then one_more self.old.faults else self.old.faults) }
    {
        self.newest = self.newest.saturating_add(1);
        let fails = self.failing.contains(&self.newest);
        if fails {
            self.faults = self.faults.saturating_add(1);
        }
        fails
    }
}

/// A source in memory that gives a few bytes at a time, and whose calls fail by their numbers.
#[derive(Drop)]
pub struct MemSource {
    rest: SureSource,
    step: usize,
    calls: Calls,
}

impl Model for MemSource {
    ghost use Rattle.std.specs.Prelude.{◌≤◌};
    ghost use Rattle.dss_io.specs.Memory.{MemView};

    ghost Value = { MemView };

    ghost view = { λ source. record {
      bytes = source.rest;
      step = source.step;
      failing = source.calls.failing.items;
      call = source.calls.newest;
      faults = source.calls.faults;
    } };

    ghost invariant = { λ source. 1 ≤ source.step };
}

impl MemSource {
    /// A call gives at most `step` bytes. `failing` has the numbers of the calls that fail, from 1.
    pub fn new(
        alloc: Global,
        bytes: &[u8],
        step: usize,
        failing: &[u64],
    ) -> Result<MemSource, AllocError>
        requires { 1 ≤ step }
        ensures { IfOk result (λ source. source ≡ uncalled bytes.now step failing.now) }
    {
        Ok(MemSource {
            rest: SureSource::new(alloc, bytes)?,
            step,
            calls: Calls::new(alloc, failing)?,
        })
    }
}

impl Source for MemSource {
    ghost left = { λ source. Some source.bytes };

    ghost faults = { λ source. source.faults };

    fn read(&mut self, buf: &mut [u8]) -> Result<usize, Failed>
        ensures fails { IsErr result ↔ Contains self.old.failing (next_call self.old.call) }
        ensures untouched { OnErr result (buf.new ≡ buf.old) }
        ensures given { IfOk result (λ count.
            count ≡ min self.old.step (min (length buf.old) (length self.old.bytes))) }
        ensures bound { ReadsAtMost result buf.new }
        ensures bytes { ReadConsumes (Some self.old.bytes) (Some self.new.bytes) result buf.new }
        ensures call { IsNextCall self.old self.new }
        ensures counted { CountsErrors self.old.faults self.new.faults result }
    {
        if self.calls.fails_next() {
            return Err(Failed);
        }
        let most = buf.len().min(self.step);
        self.rest.read(&mut buf[..most])
    }
}

/// A sink in memory that takes a few bytes at a time, and whose calls fail by their numbers.
#[derive(Drop)]
pub struct MemSink {
    written: SureSink,
    step: usize,
    calls: Calls,
}

impl Model for MemSink {
    ghost use Rattle.std.specs.Prelude.{◌≤◌};
    ghost use Rattle.dss_io.specs.Memory.{MemView};

    ghost Value = { MemView };

    ghost view = { λ sink. record {
      bytes = sink.written;
      step = sink.step;
      failing = sink.calls.failing.items;
      call = sink.calls.newest;
      faults = sink.calls.faults;
    } };

    ghost invariant = { λ sink. 1 ≤ sink.step };
}

impl MemSink {
    /// A call takes at most `step` bytes. `failing` has the numbers of the calls that fail, from 1.
    pub fn new(alloc: Global, step: usize, failing: &[u64]) -> Result<MemSink, AllocError>
        requires { 1 ≤ step }
        ensures { IfOk result (λ sink. sink ≡ uncalled [] step failing.now) }
    {
        Ok(MemSink {
            written: SureSink::new(alloc),
            step,
            calls: Calls::new(alloc, failing)?,
        })
    }

    /// The bytes that were written.
    pub fn contents(&self) -> &[u8]
        ensures { result.now ≡ self.now.bytes }
    {
        self.written.contents()
    }
}

impl Sink for MemSink {
    ghost written = { λ sink. Some sink.bytes };

    ghost faults = { λ sink. sink.faults };

    /// A call that is refused memory has its number too.
    fn write(&mut self, piece: &[u8]) -> Result<usize, SinkStop>
        ensures fails { IsErrOf result SinkStop.Failed
            ↔ Contains self.old.failing (next_call self.old.call) }
        ensures taken { IfOk result (λ count. count ≡ min self.old.step (length piece.now)) }
        ensures bytes { WriteAppends (Some self.old.bytes) (Some self.new.bytes) result piece.now }
        ensures call { IsNextCall self.old self.new }
        ensures counted { CountsFailures self.old.faults self.new.faults result }
        ensures moves { IfOk result (λ count. 0 < length piece.now → 0 < count) }
    {
        if self.calls.fails_next() {
            return Err(SinkStop::Failed);
        }
        let most = piece.len().min(self.step);
        self.written.write(&piece[..most])
    }
}
