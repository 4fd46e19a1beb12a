ghost use Rattle.std.specs.Prelude.{◌≡◌, ◌≤◌, ℕ, List, length, IfOk, None};
ghost use Rattle.script.specs.Answers.{AnswersText};
ghost use Rattle.engine.specs.Reports.{IsReport, EndsRun};
ghost use Rattle.drill.specs.Drills.{drill};
ghost use Rattle.replay.specs.Lines.{refused_line, opened_line};
ghost use Rattle.replay.specs.Due.{shown_text};
ghost use Rattle.replay.specs.declared.command.Command.TheVariants.{Check, Run, Twin, Drill};
ghost use Rattle.replay.specs.declared.status.Status.TheVariants.{Refused};
ghost use Rattle.replay.specs.inside.Commands.{HasRange};
ghost use Rattle.replay.specs.inside.Owing.{IsOwedFor, IsOwedOf, IsOwedAlways, IsStop};

use crate::command::{Command, Shown};
use crate::lines::{check_line, opened_line, refused_line};
use crate::status::Status;
use crate::summary::summary;
use crate::twins::twins_owed;
use crate::{print, wire};
use drill::{a_drill_has_nothing_false, drill_script};
use engine::{Engine, EngineStop, Report};
use ring_link::Gate;
use script::{Refusal, Script, ScriptRefused, TEXT_LIMIT, read_script};
use std::alloc::{AllocError, Global};
use std::thread::Threads;

/// The status and the text that are due, and the report that goes with them.
#[derive(Drop)]
pub struct Owed {
    pub status: Status,
    pub text: Vec<u8>,
    pub report: Option<Report>,
}

/// What is due for an input that is refused.
pub fn refusal_owed(alloc: Global, refusal: Refusal) -> Result<Owed, AllocError>
    ensures { IfOk result (λ owed. (owed.status ≡ Refused refusal)
        × (owed.text.items ≡ refused_line refusal) × (owed.report ≡ None)) }
{
    Ok(Owed {
        status: Status::Refused(refusal),
        text: refused_line(alloc, refusal)?,
        report: None,
    })
}

/// What is due where a reading gave no script.
pub fn stop_owed(alloc: Global, stop: ScriptRefused) -> Result<Owed, AllocError>
    ensures { IfOk result (λ owed. IsStop stop owed.status owed.text.items owed.report) }
{
    match stop {
        ScriptRefused::Refused(refusal) => refusal_owed(alloc, refusal),
        ScriptRefused::OutOfMemory => Err(AllocError),
    }
}

/// What is due where false bytes opened.
pub fn opened_owed(alloc: Global, number: u32) -> Result<Owed, AllocError>
    ensures { IfOk result (λ owed. (owed.status ≡ Status.Opened number)
        × (owed.text.items ≡ opened_line number) × (owed.report ≡ None)) }
{
    Ok(Owed {
        status: Status::Opened(number),
        text: opened_line(alloc, number)?,
        report: None,
    })
}

/// What is due where a script is checked.
fn counts_owed(alloc: Global, script: &Script) -> Result<Owed, AllocError>
    ensures { IfOk result (λ owed.
        IsOwedOf script.now Check owed.status owed.text.items owed.report) }
{
    Ok(Owed {
        status: Status::Fine,
        text: check_line(alloc, script)?,
        report: None,
    })
}

/// What is due for an input that is checked.
fn check_owed(alloc: Global, bytes: &[u8]) -> Result<Owed, AllocError>
    requires { length bytes.now ≤ TEXT_LIMIT }
    ensures { IfOk result (λ owed.
        IsOwedFor bytes.now Check owed.status owed.text.items owed.report) }
{
    match read_script(alloc, bytes) {
        Ok(script) => counts_owed(alloc, &script),
        Err(stop) => stop_owed(alloc, stop),
    }
}

fn shown_text(alloc: Global, shown: Shown, report: &Report) -> Result<Vec<u8>, AllocError>
    requires { IsReport report.now.script report.now }
    ensures { IfOk result (λ written. written.items ≡ shown_text shown report.now.script) }
{
    match shown {
        Shown::Hosts => print::text(alloc, report),
        Shown::Wire => wire::wire(alloc, report),
    }
}

/// What is due for a script that was run to its end.
fn report_owed(alloc: Global, shown: Shown, report: Report) -> Result<Owed, AllocError>
    requires { IsReport report.script report }
    ensures { IfOk result (λ owed.
        IsOwedOf report.script (Run shown) owed.status owed.text.items owed.report) }
{
    let text = shown_text(alloc, shown, &report)?;
    Ok(Owed {
        status: Status::Fine,
        text,
        report: Some(report),
    })
}

/// Runs a script.
pub fn run_script<R: Threads, G: Gate + Sync>(
    rt: &R,
    alloc: Global,
    script: Script,
    gate: &G,
) -> Result<Report, EngineStop>
    ensures { EndsRun script result }
{
    Engine::open(alloc, script)?.run(rt, gate)
}

/// Runs a script, and answers what is due for it.
fn script_owed<R: Threads, G: Gate + Sync>(
    rt: &R,
    alloc: Global,
    shown: Shown,
    script: Script,
    gate: &G,
) -> Result<Owed, AllocError>
    ensures { IfOk result (λ owed.
        IsOwedOf script (Run shown) owed.status owed.text.items owed.report) }
{
    match run_script(rt, alloc, script, gate) {
        Ok(report) => report_owed(alloc, shown, report),
        Err(EngineStop::Opened(number)) => opened_owed(alloc, number),
        Err(EngineStop::OutOfMemory) => Err(AllocError),
    }
}

/// Frees an input. Its room is shrunk first: the C library keeps blocks for later, rather than
/// give them back to the system, up to the size of the largest that was freed.
pub fn free_input(mut bytes: Vec<u8>) {
    bytes.clear();
    bytes.shrink_to(1);
}

/// What is due for an input that is run.
fn run_owed<R: Threads, G: Gate + Sync>(
    rt: &R,
    alloc: Global,
    shown: Shown,
    bytes: Vec<u8>,
    gate: &G,
) -> Result<Owed, AllocError>
    requires { length bytes.items ≤ TEXT_LIMIT }
    ensures { IfOk result (λ owed.
        IsOwedFor bytes.items (Run shown) owed.status owed.text.items owed.report) }
{
    match read_script(alloc, &bytes) {
        Ok(script) => {
            free_input(bytes);
            script_owed(rt, alloc, shown, script, gate)
        }
        Err(stop) => stop_owed(alloc, stop),
    }
}

/// What is due for a drill that was run to its end.
fn summary_owed(alloc: Global, seed: u32, count: u32, report: Report) -> Result<Owed, AllocError>
    requires { IsReport (drill seed count) report }
    ensures { IfOk result (λ owed.
        IsOwedAlways (Drill seed count) owed.status owed.text.items owed.report) }
{
    let text = summary(alloc, seed, count, &report)?;
    Ok(Owed {
        status: Status::Fine,
        text,
        report: Some(report),
    })
}

/// Runs a drill, and answers what is due for it.
fn drill_owed<R: Threads, G: Gate + Sync>(
    rt: &R,
    alloc: Global,
    seed: u32,
    count: u32,
    gate: &G,
) -> Result<Owed, AllocError>
    requires { HasRange (Drill seed count) }
    ensures { IfOk result (λ owed.
        IsOwedAlways (Drill seed count) owed.status owed.text.items owed.report) }
{
    a_drill_has_nothing_false();
    let script = drill_script(alloc, seed, count)?;
    match run_script(rt, alloc, script, gate) {
        Ok(report) => summary_owed(alloc, seed, count, report),
        Err(EngineStop::Opened(_)) => unreachable!(),
        Err(EngineStop::OutOfMemory) => Err(AllocError),
    }
}

/// What is due for an input, or for a drill, which has none.
pub fn answer_to<R: Threads, G: Gate + Sync>(
    rt: &R,
    alloc: Global,
    command: Command,
    bytes: Vec<u8>,
    gate: &G,
) -> Result<Owed, AllocError>
    requires short { length bytes.items ≤ TEXT_LIMIT }
    requires range { HasRange command }
    ensures { IfOk result (λ owed.
        IsOwedFor bytes.items command owed.status owed.text.items owed.report) }
{
    match command {
        Command::Check => check_owed(alloc, &bytes),
        Command::Run(shown) => run_owed(rt, alloc, shown, bytes, gate),
        Command::Twin(name) => twins_owed(rt, alloc, &name, bytes, gate),
        Command::Drill { seed, count } => drill_owed(rt, alloc, seed, count, gate),
    }
}
