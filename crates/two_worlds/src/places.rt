ghost use Rattle.std.specs.Prelude.{◌≡◌, ◌<◌, ◌≤◌, ◌++◌, length, map, Some, IfOk, OnOk};
ghost use Rattle.levels.specs.declared.level.Level.{Level};
ghost use Rattle.levels.specs.Rosters.{level_at};
ghost use Rattle.machine.specs.Low.{place_of, is_low};
ghost use Rattle.two_worlds.specs.declared.places.LowItem.TheVariants as at;
ghost use Rattle.two_worlds.specs.LowParts.{places_where, is_low_row, is_low_event, low_items};

use events::{Event, Script};
use levels::{Level, Partition, Party, Roster};
use std::alloc::{AllocError, Global};
use std::marker::Model;

/// A place in a script, from 0.
#[derive(Clone, Copy, Debug, PartialEq, Eq)]
pub enum LowItem {
    /// Among the rows of its plan.
    Row(u32),
    /// Among its events.
    Event(u32),
}

/// The places at which the low part of a script stands.
#[derive(Debug, Drop)]
pub struct LowPart {
    items: Vec<LowItem>,
}

impl Model for LowPart {
    ghost use Rattle.std.specs.Prelude.{List};
    ghost use Rattle.two_worlds.specs.declared.places.LowItem.{LowItem};

    ghost Value = { List LowItem };

    ghost view = { λ a. a.items.items };
}

impl LowPart {
    /// The rows' places first, and then the events'; both rise.
    pub fn items(&self) -> &[LowItem]
        ensures { result.now ≡ self.now }
    {
        &self.items
    }
}

/// The party at which an event happens.
fn place_of(event: &Event) -> Party
    ensures { result ≡ place_of event.now }
{
    match event {
        Event::Send { from, .. } | Event::Ask { from, .. } => Party::Host(*from),
        Event::Arrive { at, .. }
        | Event::Carry { at, .. }
        | Event::Forge { at, .. }
        | Event::Tamper { at, .. } => *at,
    }
}

/// Whether a party is at or below a level.
fn is_low(roster: &Roster, level: Level, party: Party) -> bool
    ensures { result ≡ is_low roster.now level party }
{
    match roster.level_of(party) {
        Some(own) => own.at_most(&level),
        None => false,
    }
}

/// Appends the places of the low rows.
fn push_rows(items: &mut Vec<LowItem>, script: &Script, level: Level) -> Result<(), AllocError>
    ensures { OnOk result (items.new.items ≡ items.old.items
        ++ map at.Row (places_where (is_low_row script.now.roster level) script.now.rows)) }
{
    let roster = script.roster();
    for (place, row) in script.rows().iter().enumerate() {
        if is_low(roster, level, Party::Manager(row.reader)) {
            items.push(LowItem::Row(place as u32))?;
        }
    }
    Ok(())
}

/// Appends the places of the low events.
fn push_events(items: &mut Vec<LowItem>, script: &Script, level: Level) -> Result<(), AllocError>
    ensures { OnOk result (items.new.items ≡ items.old.items
        ++ map at.Event (places_where (is_low_event script.now.roster level) script.now.events)) }
{
    let roster = script.roster();
    for (place, event) in script.events().iter().enumerate() {
        if is_low(roster, level, place_of(event)) {
            items.push(LowItem::Event(place as u32))?;
        }
    }
    Ok(())
}

/// The places of a script's low part: of all that is at or below this level of its roster.
pub fn low_part(alloc: Global, script: &Script, level: Partition) -> Result<LowPart, AllocError>
    requires { level.0 < length script.now.roster.levels }
    ensures places { (own : Level) → level_at script.now.roster (Some level) ≡ Some own →
        IfOk result (λ part. part ≡ low_items own script.now) }
    ensures few { IfOk result (λ part. length part ≤ 200000) }
{
    let own = script.roster().level_at(level);
    let mut items = Vec::new(alloc);
    push_rows(&mut items, script, own)?;
    push_events(&mut items, script, own)?;
    Ok(LowPart { items })
}
