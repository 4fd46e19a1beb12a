ghost use Rattle.std.specs.Prelude.{◌≡◌, ◌↔◌, IsTrue, IsSome};
ghost use Rattle.events.specs.declared.event.Event.TheVariants as kind;
ghost use Rattle.two_worlds.specs.LowParts.{entry_at};

use crate::calls::same_call;
use crate::places::LowItem;
use events::{AskedCall, Body, Edits, Event, ForgedFrame, Script, Stream};
use levels::Party;
use untrusted_store::PlanRow;

fn same_row(a: PlanRow, b: PlanRow) -> bool
    ensures { IsTrue result ↔ (a ≡ b) }
{
    a == b
}

/// Whether two lists of changes are the same.
fn same_edits(a: &Edits, b: &Edits) -> bool
    ensures { IsTrue result ↔ (a.now ≡ b.now) }
{
    a.pairs() == b.pairs()
}

/// Whether an event is this send.
fn is_send(event: &Event, from: u8, to: Party, message: &Body) -> bool
    ensures { IsTrue result ↔ (event.now ≡ kind.Send from to message.now) }
{
    match event {
        Event::Send {
            from: sender,
            to: receiver,
            message: body,
        } => { *sender == from && *receiver == to && body.bytes() == message.bytes() }
        _ => false,
    }
}

/// Whether an event is this host's call.
fn is_ask(event: &Event, from: u8, call: &AskedCall) -> bool
    ensures { IsTrue result ↔ (event.now ≡ kind.Ask from call.now) }
{
    match event {
        Event::Ask {
            from: sender,
            call: asked,
        } => *sender == from && same_call(asked.call(), call.call()),
        _ => false,
    }
}

/// Whether an event hands over this piece.
fn is_arrival(event: &Event, stream: Stream, message: u32, piece: u8, at: Party) -> bool
    ensures { IsTrue result ↔ (event.now ≡ kind.Arrive stream message piece at) }
{
    match event {
        Event::Arrive {
            stream: way,
            message: number,
            piece: part,
            at: unit,
        } => { *way == stream && *number == message && *part == piece && *unit == at }
        _ => false,
    }
}

/// Whether an event hands over all of this message.
fn is_carry(event: &Event, stream: Stream, message: u32, at: Party) -> bool
    ensures { IsTrue result ↔ (event.now ≡ kind.Carry stream message at) }
{
    match event {
        Event::Carry {
            stream: way,
            message: number,
            at: unit,
        } => { *way == stream && *number == message && *unit == at }
        _ => false,
    }
}

/// Whether an event hands over this frame that the network made up.
fn is_forgery(event: &Event, at: Party, frame: &ForgedFrame) -> bool
    ensures { IsTrue result ↔ (event.now ≡ kind.Forge at frame.now) }
{
    match event {
        Event::Forge {
            at: unit,
            frame: made,
        } => *unit == at && made.bytes() == frame.bytes(),
        _ => false,
    }
}

/// Whether an event hands over this changed frame.
fn is_tampering(
    event: &Event,
    stream: Stream,
    message: u32,
    piece: u8,
    at: Party,
    edits: &Edits,
) -> bool
    ensures { IsTrue result ↔
        (event.now ≡ kind.Tamper stream message piece at edits.now) }
{
    match event {
        Event::Tamper {
            stream: way,
            message: number,
            piece: part,
            at: unit,
            edits: changes,
        } => {
            *way == stream
                && *number == message
                && *part == piece
                && *unit == at
                && same_edits(changes, edits)
        }
        _ => false,
    }
}

fn same_event(a: &Event, b: &Event) -> bool
    ensures { IsTrue result ↔ (a.now ≡ b.now) }
{
    match a {
        Event::Send { from, to, message } => is_send(b, *from, *to, message),
        Event::Ask { from, call } => is_ask(b, *from, call),
        Event::Arrive {
            stream,
            message,
            piece,
            at,
        } => { is_arrival(b, *stream, *message, *piece, *at) }
        Event::Carry {
            stream,
            message,
            at,
        } => is_carry(b, *stream, *message, *at),
        Event::Forge { at, frame } => is_forgery(b, *at, frame),
        Event::Tamper {
            stream,
            message,
            piece,
            at,
            edits,
        } => { is_tampering(b, *stream, *message, *piece, *at, edits) }
    }
}

/// Whether the same stands at these places of two scripts.
pub fn is_same(a: &Script, x: LowItem, b: &Script, y: LowItem) -> bool
    requires a { IsSome (entry_at a.now x) }
    requires b { IsSome (entry_at b.now y) }
    ensures { IsTrue result ↔ (entry_at a.now x ≡ entry_at b.now y) }
{
    match (x, y) {
        (LowItem::Row(i), LowItem::Row(j)) => same_row(a.rows()[i as usize], b.rows()[j as usize]),
        (LowItem::Event(i), LowItem::Event(j)) => {
            same_event(&a.events()[i as usize], &b.events()[j as usize])
        }
        _ => false,
    }
}
