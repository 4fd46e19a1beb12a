ghost use Rattle.std.specs.Prelude.{◌≡◌, ◌++◌, ◌<◌, OnOk, IfOk};
ghost use Rattle.std.specs.List.{flat_map};
ghost use Rattle.levels.specs.declared.level.Party.TheVariants.{Host, Manager};
ghost use Rattle.levels.specs.Rosters.{host_row};
ghost use Rattle.events.specs.Words.{party_word};
ghost use Rattle.machine.specs.Low.{is_low};
ghost use Rattle.machine.specs.Text.{refusal_word, told_text, heading, host_text, due_to, text, text_below};
ghost use Rattle.machine.specs.declared.line.OutLine.TheVariants.{Sent, Refused, From};
ghost use Rattle.engine.specs.Reports.{IsReport};
ghost use Rattle.replay.specs.inside.Printing.{at_row, hosts_to, due_below};

use engine::Report;
use events::{Body, push_hex, push_number};
use frame::SendRefused;
use levels::{Level, Partition, Party, Roster};
use machine::OutLine;
use std::alloc::{AllocError, Global};

/// The greatest address of a host.
pub const LAST_ADDRESS: u8 = 250;

/// Room for a line but for the digits of its body: two words, a party of at most eight characters,
/// and the marks between and behind them.
const LINE_ROOM: usize = 27;

/// Appends a host's address, or the name of a manager unit's level.
pub fn push_party(out: &mut Vec<u8>, roster: &Roster, party: Party) -> Result<(), AllocError>
    ensures { OnOk result (out.new.items ≡ out.old.items ++ party_word roster.now party) }
{
    match party {
        Party::Host(address) => push_number(out, u32::from(address)),
        Party::Manager(partition) => push_name(out, roster, partition),
    }
}

fn push_name(out: &mut Vec<u8>, roster: &Roster, partition: Partition) -> Result<(), AllocError>
    ensures { OnOk result (out.new.items ≡ out.old.items
        ++ party_word roster.now (Manager partition)) }
{
    if partition.0 >= roster.level_count() {
        return Ok(());
    }
    let name = roster.name_at(partition);
    out.extend_from_slice(name.bytes())
}

fn push_sent(out: &mut Vec<u8>, roster: &Roster, to: Party, message: u32) -> Result<(), AllocError>
    ensures { OnOk result (out.new.items ≡ out.old.items
        ++ told_text roster.now (Sent to message)) }
{
    out.extend_from_slice(b"sent ".as_slice())?;
    push_party(out, roster, to)?;
    out.extend_from_slice(b" ".as_slice())?;
    push_number(out, message)?;
    out.extend_from_slice(b"\n".as_slice())
}

fn refusal_word(why: SendRefused) -> &'static [u8]
    ensures { result.now ≡ refusal_word why }
{
    match why {
        SendRefused::NoPartner => b"nopartner".as_slice(),
        SendRefused::TooLong => b"toolong".as_slice(),
        SendRefused::Spent => b"spent".as_slice(),
    }
}

fn push_refused(
    out: &mut Vec<u8>,
    roster: &Roster,
    to: Party,
    why: SendRefused,
) -> Result<(), AllocError>
    ensures { OnOk result (out.new.items ≡ out.old.items ++ told_text roster.now (Refused to why)) }
{
    out.extend_from_slice(b"refused ".as_slice())?;
    push_party(out, roster, to)?;
    out.extend_from_slice(b" ".as_slice())?;
    out.extend_from_slice(refusal_word(why))?;
    out.extend_from_slice(b"\n".as_slice())
}

fn push_given(
    out: &mut Vec<u8>,
    roster: &Roster,
    from: Party,
    body: &Body,
) -> Result<(), AllocError>
    ensures { OnOk result (out.new.items ≡ out.old.items
        ++ told_text roster.now (From from body.now)) }
{
    out.extend_from_slice(b"from ".as_slice())?;
    push_party(out, roster, from)?;
    out.extend_from_slice(b" ".as_slice())?;
    push_hex(out, body.bytes())?;
    out.extend_from_slice(b"\n".as_slice())
}

fn push_line(out: &mut Vec<u8>, roster: &Roster, line: &OutLine) -> Result<(), AllocError>
    ensures { OnOk result (out.new.items ≡ out.old.items ++ told_text roster.now line.now) }
{
    match line {
        OutLine::Sent { to, message } => push_sent(out, roster, *to, *message),
        OutLine::Refused { to, why } => push_refused(out, roster, *to, *why),
        OutLine::From { from, body } => push_given(out, roster, *from, body),
    }
}

fn push_lines(out: &mut Vec<u8>, roster: &Roster, lines: &[OutLine]) -> Result<(), AllocError>
    ensures { OnOk result (out.new.items ≡ out.old.items
        ++ flat_map (told_text roster.now) lines.now) }
{
    for line in lines {
        push_line(out, roster, line)?;
    }
    Ok(())
}

/// The heading of a host, and below it what it was told.
fn push_host(
    out: &mut Vec<u8>,
    roster: &Roster,
    address: u8,
    partition: Partition,
    lines: &[OutLine],
) -> Result<(), AllocError>
    ensures { OnOk result (out.new.items
        ≡ out.old.items ++ host_text roster.now
        (record { address = address; partition = partition }) lines.now) }
{
    out.extend_from_slice(b"host ".as_slice())?;
    push_number(out, u32::from(address))?;
    out.extend_from_slice(b" ".as_slice())?;
    push_name(out, roster, partition)?;
    out.extend_from_slice(b"\n".as_slice())?;
    push_lines(out, roster, lines)
}

/// What is due to the host of an address, if there is one.
fn push_host_at(out: &mut Vec<u8>, report: &Report, address: u8) -> Result<(), AllocError>
    requires { IsReport report.now.script report.now }
    ensures { OnOk result (out.new.items ≡ out.old.items ++ at_row
        (due_to report.now.script) (host_row report.now.script.roster address)) }
{
    let roster = report.script().roster();
    let Some(partition) = roster.partition_of(Party::Host(address)) else {
        return Ok(());
    };
    push_host(out, roster, address, partition, report.lines_of(address))
}

fn line_room(line: &OutLine) -> usize {
    match line {
        OutLine::Sent { .. } | OutLine::Refused { .. } => LINE_ROOM,
        OutLine::From { body, .. } => {
            let digits = body.bytes().len().saturating_mul(2);
            digits.saturating_add(LINE_ROOM)
        }
    }
}

/// Room for the heading of a host, and for what it was told.
fn host_room(lines: &[OutLine]) -> usize {
    let mut room = LINE_ROOM;
    for line in lines {
        room = room.saturating_add(line_room(line));
    }
    room
}

/// Room for what is due to the hosts of the addresses from 1 to the last.
fn room_to(report: &Report, last: u8) -> usize
    requires { last < 255 }
{
    let mut room: usize = 0;
    for address in 1..last + 1 {
        room = room.saturating_add(host_room(report.lines_of(address)));
    }
    room
}

/// What is due to the hosts of the addresses from 1 to the last.
fn text_to(alloc: Global, report: &Report, last: u8) -> Result<Vec<u8>, AllocError>
    requires last { last < 255 }
    requires report { IsReport report.now.script report.now }
    ensures { IfOk result (λ written. written.items
        ≡ hosts_to (due_to report.now.script) report.now.script.roster last) }
{
    // The room for all lines is taken at once, since there can be millions of bytes.
    let mut out = Vec::with_capacity(alloc, room_to(report, last))?;
    for address in 1..last + 1 {
        push_host_at(&mut out, report, address)?;
    }
    Ok(out)
}

/// The text of a run: what each host was told, in rising order of address.
pub fn text(alloc: Global, report: &Report) -> Result<Vec<u8>, AllocError>
    requires { IsReport report.now.script report.now }
    ensures { IfOk result (λ written. written.items ≡ text report.now.script) }
{
    text_to(alloc, report, LAST_ADDRESS)
}

/// Whether the host of an address is at or below a level.
fn is_low(roster: &Roster, level: &Level, address: u8) -> bool
    ensures { result ≡ is_low roster.now level.now (Host address) }
{
    match roster.level_of(Party::Host(address)) {
        Some(own) => own.at_most(level),
        None => false,
    }
}

/// What is due to the host of an address, if there is one at or below a level.
fn push_low_host_at(
    out: &mut Vec<u8>,
    report: &Report,
    level: &Level,
    address: u8,
) -> Result<(), AllocError>
    requires { IsReport report.now.script report.now }
    ensures { OnOk result (out.new.items ≡ out.old.items ++ at_row
        (due_below level.now report.now.script) (host_row report.now.script.roster address)) }
{
    if is_low(report.script().roster(), level, address) {
        return push_host_at(out, report, address);
    }
    Ok(())
}

/// What is due to the hosts of the addresses from 1 to the last that are at or below a level.
fn push_low_hosts(
    out: &mut Vec<u8>,
    report: &Report,
    level: &Level,
    last: u8,
) -> Result<(), AllocError>
    requires last { last < 255 }
    requires report { IsReport report.now.script report.now }
    ensures { OnOk result (out.new.items ≡ out.old.items ++ hosts_to
        (due_below level.now report.now.script) report.now.script.roster last) }
{
    for address in 1..last + 1 {
        push_low_host_at(out, report, level, address)?;
    }
    Ok(())
}

/// Appends the text of the hosts at or below a level.
pub fn push_text_below(out: &mut Vec<u8>, report: &Report, level: &Level) -> Result<(), AllocError>
    requires { IsReport report.now.script report.now }
    ensures { OnOk result (out.new.items ≡ out.old.items
        ++ text_below level.now report.now.script) }
{
    push_low_hosts(out, report, level, LAST_ADDRESS)
}
