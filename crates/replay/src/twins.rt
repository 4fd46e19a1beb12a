ghost use Rattle.std.specs.Prelude.{◌≡◌, ◌≤◌, ◌↔◌, ◌++◌, ◌∷◌, ℕ, List, length, codes, IsTrue, IfOk, IfSome, IsNone, Some, None};
ghost use Rattle.levels.specs.Rosters.{level_at};
ghost use Rattle.engine.specs.Reports.{IsReport};
ghost use Rattle.machine.specs.Low.{low};
ghost use Rattle.replay.specs.Lines.{apart_line};
ghost use Rattle.replay.specs.Twins.{IsOneLine, IsCut, line_count, level_of_name, alike_text};
ghost use Rattle.replay.specs.declared.command.Command.TheVariants.{Twin};
ghost use Rattle.replay.specs.inside.Owing.{IsOwedFor};
ghost use Rattle.replay.specs.inside.Reading.{IsOwedForScripts, ReadsTwins, stop_below, HasLine};

use crate::lines::apart_line;
use crate::owed::{Owed, free_input, opened_owed, refusal_owed, run_script, stop_owed};
use crate::print::push_text_below;
use crate::status::Status;
use engine::{EngineStop, Report};
use levels::{Level, LevelName};
use ring_link::Gate;
use script::{Reason, Refusal, Script, ScriptRefused, TEXT_LIMIT, read_script};
use std::alloc::{AllocError, Global};
use std::thread::Threads;
use two_worlds::{Comparison, compare};

/// The refusal of a name that no level has.
const NO_LEVEL: Refusal = Refusal {
    line: 0,
    reason: Reason::Name,
};

/// The two scripts of an input, and how many lines the first has there.
#[derive(Drop)]
struct Twins {
    first: Script,
    second: Script,
    above: u32,
}

/// The first line of a text, and what stands behind it.
fn cut_line(text: &[u8]) -> Option<(&[u8], &[u8])>
    ensures parts { IfSome result (λ cut. text.now ≡ cut.0.now ++ 10 ∷ cut.1.now) }
    ensures line { IfSome result (λ cut. IsOneLine cut.0.now) }
    ensures none { IsNone result → IsOneLine text.now }
{
    for (i, c) in text.iter().enumerate() {
        if *c == b'\n' {
            return Some((&text[..i], &text[i + 1..]));
        }
    }
    None
}

fn is_end(line: &[u8]) -> bool
    ensures { IsTrue result ↔ (line.now ≡ codes "end") }
{
    line == b"end".as_slice()
}

/// The two texts of an input.
fn cut(input: &[u8]) -> (&[u8], &[u8])
    ensures { IsCut input.now result.0.now result.1.now }
{
    let mut rest = input;
    while let Some((line, behind)) = cut_line(rest) {
        if is_end(line) {
            return input.split_at(input.len() - behind.len());
        }
        rest = behind;
    }
    input.split_at(input.len())
}

fn line_count(text: &[u8]) -> u32
    requires { length text.now ≤ TEXT_LIMIT }
    ensures count { result ≡ line_count text.now }
    ensures most { result ≤ length text.now }
{
    let mut count = 0;
    for c in text {
        if *c == b'\n' {
            count += 1;
        }
    }
    count
}

/// How reading stopped, where its text stands below some lines and these count too.
fn stop_below(above: u32, stop: ScriptRefused) -> ScriptRefused
    requires above { above ≤ TEXT_LIMIT }
    requires line { HasLine stop }
    ensures { result ≡ stop_below above stop }
{
    match stop {
        ScriptRefused::Refused(Refusal { line, reason }) => ScriptRefused::Refused(Refusal {
            line: above + line,
            reason,
        }),
        ScriptRefused::OutOfMemory => ScriptRefused::OutOfMemory,
    }
}

/// Reads the two scripts of an input.
fn read_twins(alloc: Global, input: &[u8]) -> Result<Twins, ScriptRefused>
    requires { length input.now ≤ TEXT_LIMIT }
    ensures reads { ReadsTwins input.now result }
    ensures above { IfOk result (λ twins. twins.above ≤ TEXT_LIMIT) }
{
    let (first, second) = cut(input);
    let above = line_count(first);
    let first = read_script(alloc, first)?;
    match read_script(alloc, second) {
        Ok(second) => Ok(Twins {
            first,
            second,
            above,
        }),
        Err(stop) => Err(stop_below(above, stop)),
    }
}

fn alike_text(alloc: Global, level: Level, report: &Report) -> Result<Vec<u8>, AllocError>
    requires { IsReport report.now.script report.now }
    ensures { IfOk result (λ text. text.items ≡ alike_text level report.now.script) }
{
    let mut text = Vec::from_slice(alloc, b"alike\n".as_slice())?;
    push_text_below(&mut text, report, &level)?;
    Ok(text)
}

/// Runs both of two scripts that have one low part at a level, and answers what is due for them.
fn alike_owed<R: Threads, G: Gate + Sync>(
    rt: &R,
    alloc: Global,
    level: Level,
    twins: Twins,
    gate: &G,
) -> Result<Owed, AllocError>
    requires above { twins.above ≤ TEXT_LIMIT }
    requires alike { low level twins.first ≡ low level twins.second }
    ensures { (name : List ℕ) → level_of_name twins.first.roster name ≡ Some level →
        IfOk result (λ owed. IsOwedForScripts name twins
        owed.status owed.text.items owed.report) }
{
    let Twins {
        first,
        second,
        above,
    } = twins;
    let _kept = second.roster();
    let text = match run_script(rt, alloc, first, gate) {
        Ok(report) => alike_text(alloc, level, &report)?,
        Err(EngineStop::Opened(number)) => return opened_owed(alloc, number),
        Err(EngineStop::OutOfMemory) => return Err(AllocError),
    };
    match run_script(rt, alloc, second, gate) {
        Ok(_) => Ok(Owed {
            status: Status::Fine,
            text,
            report: None,
        }),
        Err(EngineStop::Opened(number)) => opened_owed(alloc, above + number),
        Err(EngineStop::OutOfMemory) => Err(AllocError),
    }
}

/// What is due where two scripts are apart.
fn apart_owed(alloc: Global, place: u32) -> Result<Owed, AllocError>
    ensures { IfOk result (λ owed. (owed.status ≡ Status.Fine)
        × (owed.text.items ≡ apart_line place) × (owed.report ≡ None)) }
{
    Ok(Owed {
        status: Status::Fine,
        text: apart_line(alloc, place)?,
        report: None,
    })
}

/// Compares two scripts at the level of a name, and answers what is due for them.
fn scripts_owed<R: Threads, G: Gate + Sync>(
    rt: &R,
    alloc: Global,
    name: &LevelName,
    twins: Twins,
    gate: &G,
) -> Result<Owed, AllocError>
    requires { twins.above ≤ TEXT_LIMIT }
    ensures { IfOk result (λ owed. IsOwedForScripts name.now twins
        owed.status owed.text.items owed.report) }
{
    let Some(partition) = twins.first.roster().find_level(name) else {
        return refusal_owed(alloc, NO_LEVEL);
    };
    match compare(alloc, &twins.first, &twins.second, partition)? {
        Comparison::Apart(place) => apart_owed(alloc, place),
        Comparison::Alike => {
            let level = twins.first.roster().level_at(partition);
            alike_owed(rt, alloc, level, twins, gate)
        }
    }
}

/// What is due for an input of two scripts, and the name of a level.
pub fn twins_owed<R: Threads, G: Gate + Sync>(
    rt: &R,
    alloc: Global,
    name: &LevelName,
    bytes: Vec<u8>,
    gate: &G,
) -> Result<Owed, AllocError>
    requires { length bytes.items ≤ TEXT_LIMIT }
    ensures { IfOk result (λ owed.
        IsOwedFor bytes.items (Twin name.now) owed.status owed.text.items owed.report) }
{
    match read_twins(alloc, &bytes) {
        Ok(twins) => {
            free_input(bytes);
            scripts_owed(rt, alloc, name, twins, gate)
        }
        Err(stop) => stop_owed(alloc, stop),
    }
}
