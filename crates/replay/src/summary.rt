ghost use Rattle.std.specs.Prelude.{◌≡◌, ◌+◌, ◌^◌, ◌<◌, [], ◌∷◌, ◌++◌, length, map, sum, codes, OnOk, IfOk};
ghost use Rattle.std.specs.List.{count_by};
ghost use Rattle.std.specs.Fmt.{decimal};
ghost use Rattle.levels.specs.Rosters.{host_row};
ghost use Rattle.engine.specs.Reports.{IsReport};
ghost use Rattle.drill.specs.Drills.{drill};
ghost use Rattle.machine.specs.Text.{line};
ghost use Rattle.replay.specs.Summary.{is_sent, bodies, host_line, line_of_host, drill_text};
ghost use Rattle.replay.specs.inside.Printing.{at_row, hosts_to, counts_text};

use crate::print::{LAST_ADDRESS, push_party};
use engine::Report;
use events::push_number;
use levels::{Partition, Party, Roster};
use machine::OutLine;
use std::alloc::{AllocError, Global};

/// What the lines of a host add up to.
#[derive(Drop)]
struct Counts {
    /// Sends and calls that were accepted.
    sent: usize,
    /// Messages that were given.
    given: usize,
    /// The bytes of all that was given.
    bytes: u128,
}

impl Counts {
    /// Adds a line.
    fn add(&mut self, line: &OutLine)
        requires sent { self.old.sent + 1 < 2 ^ 64 }
        requires given { self.old.given + 1 < 2 ^ 64 }
        requires bytes { self.old.bytes + 2 ^ 64 < 2 ^ 128 }
        ensures sent { self.new.sent ≡ self.old.sent + count_by is_sent (line.now ∷ []) }
        ensures given { self.new.given ≡ self.old.given + length (bodies (line.now ∷ [])) }
        ensures bytes { self.new.bytes
            ≡ self.old.bytes + sum (map length (bodies (line.now ∷ []))) }
        ensures most { self.new.bytes < self.old.bytes + 2 ^ 64 }
    {
        match line {
            OutLine::Sent { .. } => self.sent += 1,
            OutLine::Refused { .. } => {}
            OutLine::From { body, .. } => {
                self.given += 1;
                self.bytes += body.bytes().len() as u128;
            }
        }
    }
}

fn counts_of(lines: &[OutLine]) -> Counts
    ensures sent { result.sent ≡ count_by is_sent lines.now }
    ensures given { result.given ≡ length (bodies lines.now) }
    ensures bytes { result.bytes ≡ sum (map length (bodies lines.now)) }
{
    let mut counts = Counts {
        sent: 0,
        given: 0,
        bytes: 0,
    };
    for line in lines {
        counts.add(line);
    }
    counts
}

/// Appends a count in decimal digits.
fn push_count(alloc: Global, out: &mut Vec<u8>, n: u128) -> Result<(), AllocError>
    ensures { OnOk result (out.new.items ≡ out.old.items ++ decimal n) }
{
    let digits = n.to_string(alloc)?;
    out.extend_from_slice(digits.as_bytes())
}

/// Appends what the lines of a host add up to, and ends its line.
fn push_counts(alloc: Global, out: &mut Vec<u8>, lines: &[OutLine]) -> Result<(), AllocError>
    ensures { OnOk result (out.new.items ≡ out.old.items ++ counts_text lines.now) }
{
    let Counts { sent, given, bytes } = counts_of(lines);
    out.extend_from_slice(b" sent ".as_slice())?;
    push_count(alloc, out, sent as u128)?;
    out.extend_from_slice(b" given ".as_slice())?;
    push_count(alloc, out, given as u128)?;
    out.extend_from_slice(b" bytes ".as_slice())?;
    push_count(alloc, out, bytes)?;
    out.extend_from_slice(b"\n".as_slice())
}

/// Appends the line of a host.
fn push_host_line(
    alloc: Global,
    out: &mut Vec<u8>,
    roster: &Roster,
    address: u8,
    partition: Partition,
    lines: &[OutLine],
) -> Result<(), AllocError>
    ensures { OnOk result (out.new.items ≡ out.old.items ++ host_line roster.now
        (record { address = address; partition = partition }) lines.now) }
{
    out.extend_from_slice(b"host ".as_slice())?;
    push_number(out, u32::from(address))?;
    out.extend_from_slice(b" ".as_slice())?;
    push_party(out, roster, Party::Manager(partition))?;
    push_counts(alloc, out, lines)
}

/// Appends the line of the host of an address, if there is one.
fn push_host_line_at(
    alloc: Global,
    out: &mut Vec<u8>,
    report: &Report,
    address: u8,
) -> Result<(), AllocError>
    requires { IsReport report.now.script report.now }
    ensures { OnOk result (out.new.items ≡ out.old.items ++ at_row
        (line_of_host report.now.script) (host_row report.now.script.roster address)) }
{
    let roster = report.script().roster();
    let Some(partition) = roster.partition_of(Party::Host(address)) else {
        return Ok(());
    };
    push_host_line(
        alloc,
        out,
        roster,
        address,
        partition,
        report.lines_of(address),
    )
}

/// Appends the lines of the hosts of the addresses from 1 to the last.
fn push_host_lines(
    alloc: Global,
    out: &mut Vec<u8>,
    report: &Report,
    last: u8,
) -> Result<(), AllocError>
    requires last { last < 255 }
    requires report { IsReport report.now.script report.now }
    ensures { OnOk result (out.new.items ≡ out.old.items ++ hosts_to
        (line_of_host report.now.script) report.now.script.roster last) }
{
    for address in 1..last + 1 {
        push_host_line_at(alloc, out, report, address)?;
    }
    Ok(())
}

/// Appends the line of the two numbers of a drill.
fn push_numbers(out: &mut Vec<u8>, seed: u32, count: u32) -> Result<(), AllocError>
    ensures { OnOk result (out.new.items ≡ out.old.items
        ++ line (codes "drill" ∷ decimal seed ∷ decimal count ∷ [])) }
{
    out.extend_from_slice(b"drill ".as_slice())?;
    push_number(out, seed)?;
    out.extend_from_slice(b" ".as_slice())?;
    push_number(out, count)?;
    out.extend_from_slice(b"\n".as_slice())
}

/// Appends the line of a total.
fn push_total(alloc: Global, out: &mut Vec<u8>, name: &[u8], total: usize) -> Result<(), AllocError>
    ensures { OnOk result (out.new.items ≡ out.old.items
        ++ line (name.now ∷ decimal total ∷ [])) }
{
    out.extend_from_slice(name)?;
    out.extend_from_slice(b" ".as_slice())?;
    push_count(alloc, out, total as u128)?;
    out.extend_from_slice(b"\n".as_slice())
}

/// The summary of a drill.
pub fn summary(alloc: Global, seed: u32, count: u32, report: &Report) -> Result<Vec<u8>, AllocError>
    requires { IsReport (drill seed count) report.now }
    ensures { IfOk result (λ written. written.items ≡ drill_text seed count) }
{
    let events = report.script().events().len();
    let frames = report.frames().len();
    let mut out = Vec::new(alloc);
    push_numbers(&mut out, seed, count)?;
    push_total(alloc, &mut out, b"events".as_slice(), events)?;
    push_total(alloc, &mut out, b"frames".as_slice(), frames)?;
    push_host_lines(alloc, &mut out, report, LAST_ADDRESS)?;
    Ok(out)
}
