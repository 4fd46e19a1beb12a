ghost use Rattle.std.specs.Prelude.{◌≡◌, ◌≢◌, ◌⊎◌, ◌↔◌, ◌+◌, ◌≤◌, ℕ, List, length, map, string_bytes, Some, None};
ghost use Rattle.dss_io.specs.Faults.{Rose};
ghost use Rattle.dss_io.specs.Reading.{TakesAtMost};
ghost use Rattle.replay.specs.declared.status.Status.{Status};
ghost use Rattle.replay.specs.declared.status.Status.TheVariants.{Refused};
ghost use Rattle.replay.specs.Words.{command_of, Reads};
ghost use Rattle.replay.specs.Lines.{refused_line, too_long};
ghost use Rattle.replay.specs.Due.{Due, Delivers, IsAnswer, ReadsToEnd};
ghost use Rattle.replay.specs.Kept.{KeepsReport};
ghost use Rattle.replay.specs.inside.Commands.{HasRange};
ghost use Rattle.replay.specs.inside.Owing.{IsOwed, GoesAlong};

use crate::command::{Command, command_of};
use crate::owed::{Owed, answer_to, refusal_owed};
use crate::status::Status;
use dss_io::{ReadStop, Sink, SinkStop, Source, read_all, write_all};
use engine::Report;
use ring_link::Gate;
use script::{Reason, Refusal, TEXT_LIMIT};
use std::alloc::Global;
use std::thread::Threads;

/// The refusal of an input that is too long.
const TOO_LONG: Refusal = Refusal {
    line: 0,
    reason: Reason::Many,
};

/// How a call ended, and the report that is kept of it.
#[derive(Drop)]
struct Ended {
    status: Status,
    report: Option<Report>,
}

/// An end of which nothing is kept.
fn without_report(status: Status) -> Ended
    ensures status { result.status ≡ status }
    ensures report { result.report ≡ None }
{
    Ended {
        status,
        report: None,
    }
}

/// Writes what is due.
fn deliver<K: Sink>(sink: &mut K, owed: Owed) -> Ended
    requires { IsAnswer owed.status }
    ensures answer { Delivers (IsOwed owed.status owed.text.items) result.status
        (K.written sink.old) (K.written sink.new) }
    ensures report { GoesAlong owed.status owed.report result.status result.report }
    ensures read { result.status ≢ Status.ReadFault }
    ensures fault { result.status ≡ Status.WriteFault
        → Rose (K.faults sink.old) (K.faults sink.new) }
{
    match write_all(sink, &owed.text) {
        Ok(()) => Ended {
            status: owed.status,
            report: owed.report,
        },
        Err(SinkStop::Failed) => without_report(Status::WriteFault),
        Err(SinkStop::OutOfMemory) => without_report(Status::OutOfMemory),
    }
}

/// Answers an input that was read, or a drill, which has none.
fn answer<R: Threads, K: Sink, G: Gate + Sync>(
    rt: &R,
    alloc: Global,
    command: Command,
    bytes: Vec<u8>,
    sink: &mut K,
    gate: &G,
) -> Ended
    requires short { length bytes.items ≤ TEXT_LIMIT }
    requires range { HasRange command }
    ensures answer { Delivers (Due bytes.items (Some command)) result.status
        (K.written sink.old) (K.written sink.new) }
    ensures kept { KeepsReport (Some command) result.status (Some bytes.items) result.report }
    ensures read { result.status ≢ Status.ReadFault }
    ensures used { result.status ≢ Status.Usage }
    ensures fault { result.status ≡ Status.WriteFault
        → Rose (K.faults sink.old) (K.faults sink.new) }
{
    match answer_to(rt, alloc, command, bytes, gate) {
        Ok(owed) => deliver(sink, owed),
        Err(_) => without_report(Status::OutOfMemory),
    }
}

/// Refuses an input that is too long.
fn refuse_long<K: Sink>(alloc: Global, sink: &mut K) -> Ended
    ensures answer { Delivers (IsOwed (Refused too_long) (refused_line too_long)) result.status
        (K.written sink.old) (K.written sink.new) }
    ensures none { result.report ≡ None }
    ensures fine { result.status ≢ Status.Fine }
    ensures read { result.status ≢ Status.ReadFault }
    ensures fault { result.status ≡ Status.WriteFault
        → Rose (K.faults sink.old) (K.faults sink.new) }
{
    match refusal_owed(alloc, TOO_LONG) {
        Ok(owed) => deliver(sink, owed),
        Err(_) => without_report(Status::OutOfMemory),
    }
}

/// Does a command over a source and a sink.
fn carry_out<R: Threads, S: Source, K: Sink, G: Gate + Sync>(
    rt: &R,
    alloc: Global,
    command: Command,
    source: &mut S,
    sink: &mut K,
    gate: &G,
) -> Ended
    requires { HasRange command }
    ensures delivers { (bytes : List ℕ)
        → (Reads (Some command) → S.left source.old ≡ Some bytes) →
        Delivers (Due bytes (Some command)) result.status
        (K.written sink.old) (K.written sink.new) }
    ensures kept { KeepsReport (Some command) result.status (S.left source.old) result.report }
    ensures unread { ¬ Reads (Some command) → source.new ≡ source.old }
    ensures reads { result.status ≡ Status.ReadFault → Reads (Some command) }
    ensures taken { TakesAtMost (S.left source.old) (S.left source.new) (TEXT_LIMIT + 1) }
    ensures end { Reads (Some command) → ReadsToEnd result.status (S.left source.new) }
    ensures read_fault { result.status ≡ Status.ReadFault
        → Rose (S.faults source.old) (S.faults source.new) }
    ensures unwritten { result.status ≡ Status.ReadFault → sink.new ≡ sink.old }
    ensures write_fault { result.status ≡ Status.WriteFault
        → Rose (K.faults sink.old) (K.faults sink.new) }
    ensures used { result.status ≢ Status.Usage }
{
    if !command.reads() {
        return answer(rt, alloc, command, Vec::new(alloc), sink, gate);
    }
    match read_all(alloc, source, TEXT_LIMIT) {
        Ok(bytes) => answer(rt, alloc, command, bytes, sink, gate),
        Err(ReadStop::TooMany) => refuse_long(alloc, sink),
        Err(ReadStop::Fault) => without_report(Status::ReadFault),
        Err(ReadStop::OutOfMemory) => without_report(Status::OutOfMemory),
    }
}

/// Does what the words ask for: for a drill it reads nothing, and else the source to its end, but
/// no further than one byte past 16,777,216 bytes. It writes what is due to the sink in one go.
///
/// Want of memory is the one free answer.
pub fn run<R: Threads, S: Source, K: Sink, G: Gate + Sync>(
    rt: &R,
    alloc: Global,
    words: &[String],
    source: &mut S,
    sink: &mut K,
    gate: &G,
    kept: &mut Option<Report>,
) -> Status
    // The words have none of the forms exactly at Usage, and then nothing is read or written.
    ensures usage { (result ≡ Status.Usage) ↔ (command_of (map string_bytes words.now) ≡ None) }
    ensures unused { result ≡ Status.Usage → (source.new ≡ source.old) × (sink.new ≡ sink.old) }

    // Of a source that tells its bytes, or of any where nothing is read: what is answered is due,
    // and all of its text was written; after a fault of writing, or want of memory, no more than
    // the beginning of it was.
    ensures delivers { (bytes : List ℕ)
        → (Reads (command_of (map string_bytes words.now)) → S.left source.old ≡ Some bytes) →
        Delivers (Due bytes (command_of (map string_bytes words.now))) result
        (K.written sink.old) (K.written sink.new) }

    // What is kept: the report of the one script that was run, where all that is due was written.
    ensures kept { KeepsReport (command_of (map string_bytes words.now)) result
        (S.left source.old) kept.new }

    // A fault is answered only where its count rose. After a fault of reading nothing was written.
    ensures read_fault { result ≡ Status.ReadFault
        → Rose (S.faults source.old) (S.faults source.new) }
    ensures unwritten { result ≡ Status.ReadFault → sink.new ≡ sink.old }
    ensures write_fault { result ≡ Status.WriteFault
        → Rose (K.faults sink.old) (K.faults sink.new) }

    // Where no count rises, the answer is one that is due, unless memory runs out.
    ensures complete { ¬ Rose (S.faults source.old) (S.faults source.new)
        → ¬ Rose (K.faults sink.old) (K.faults sink.new)
        → IsAnswer result ⊎ (result ≡ Status.OutOfMemory) }

    // What is taken from the source, whatever the answer: nothing where the words don't ask for an
    // input, and else it was read to its end.
    ensures unread { ¬ Reads (command_of (map string_bytes words.now))
        → (source.new ≡ source.old) × (result ≢ Status.ReadFault) }
    ensures taken { TakesAtMost (S.left source.old) (S.left source.new) (TEXT_LIMIT + 1) }
    ensures end { Reads (command_of (map string_bytes words.now))
        → ReadsToEnd result (S.left source.new) }
{
    *kept = None;
    let Some(command) = command_of(words) else {
        return Status::Usage;
    };
    let ended = carry_out(rt, alloc, command, source, sink, gate);
    *kept = ended.report;
    ended.status
}
