ghost use Rattle.std.specs.Prelude.{◌≡◌, ◌++◌, ◌∷◌, ◌<◌, ◌≤◌, OnOk, IfOk, IsSome, true, map, length};
ghost use Rattle.std.specs.List.{flat_map, zip, AllByRecursion};
ghost use Rattle.levels.specs.Kept.{IsRoster, IsComplete};
ghost use Rattle.levels.specs.Keys.{listed};
ghost use Rattle.levels.specs.declared.level.Sealing.TheVariants.{Des};
ghost use Rattle.events.specs.Scripts.{is_named, is_action_named, is_row_named};
ghost use Rattle.events.specs.Words.{hex_word};
ghost use Rattle.script.specs.Lines as line;
ghost use Rattle.script.specs.Spelling.{ended_text, action_words};
ghost use Rattle.script.specs.Text.{name_or_none, action_said, lines_of_sealing, line_of_level};
ghost use Rattle.script.specs.Text.{line_of_key, line_of_guard, lines_of_keys, line_of_host};
ghost use Rattle.script.specs.Text.{line_of_row, line_of_event, text_of};

use crate::write_event::write_event;
use crate::write_word::{write_byte, write_cats, write_name, write_wide};
use events::{Event, Script, push_hex, push_number};
use levels::{Level, LevelName, Partition, Roster, Sealing};
use seal_core::KeyPair;
use std::alloc::{AllocError, Global};
use untrusted_store::{PlanRow, StoreAction};

fn write_sealing(text: &mut Vec<u8>, sealing: Sealing) -> Result<(), AllocError>
    ensures { OnOk result (text.new.items ≡
        text.old.items ++ flat_map ended_text (lines_of_sealing sealing)) }
{
    match sealing {
        Sealing::Clear => Ok(()),
        Sealing::Des => text.extend_from_slice(b"seal des\n".as_slice()),
    }
}

/// Writes the line of a level.
fn write_level(text: &mut Vec<u8>, name: &LevelName, level: Level) -> Result<(), AllocError>
    ensures { OnOk result
        (text.new.items ≡ text.old.items ++ ended_text (line.Level name.now level)) }
{
    text.extend_from_slice(b"level ".as_slice())?;
    text.extend_from_slice(name.bytes())?;
    text.push(b' ')?;
    push_number(text, u32::from(level.rank))?;
    text.push(b' ')?;
    write_cats(text, level.cats)?;
    text.push(b'\n')?;
    Ok(())
}

/// Writes both keys.
fn write_pair(text: &mut Vec<u8>, pair: &KeyPair) -> Result<(), AllocError>
    ensures { OnOk result (text.new.items ≡
        text.old.items ++ hex_word pair.now.main ++ 32 ∷ hex_word pair.now.check) }
{
    push_hex(text, &pair.main)?;
    text.push(b' ')?;
    push_hex(text, &pair.check)
}

/// Writes the line of a level's key pair.
fn write_key(text: &mut Vec<u8>, name: &LevelName, pair: &KeyPair) -> Result<(), AllocError>
    ensures { OnOk result
        (text.new.items ≡ text.old.items ++ ended_text (line.Key name.now pair.now)) }
{
    text.extend_from_slice(b"key ".as_slice())?;
    text.extend_from_slice(name.bytes())?;
    text.push(b' ')?;
    write_pair(text, pair)?;
    text.push(b'\n')?;
    Ok(())
}

/// Writes the line of the guarantor's key pair.
fn write_guard(text: &mut Vec<u8>, pair: &KeyPair) -> Result<(), AllocError>
    ensures { OnOk result (text.new.items ≡ text.old.items ++ ended_text (line.Guard pair.now)) }
{
    text.extend_from_slice(b"guard ".as_slice())?;
    write_pair(text, pair)?;
    text.push(b'\n')?;
    Ok(())
}

/// Writes the line of a host.
fn write_host(
    text: &mut Vec<u8>,
    roster: &Roster,
    address: u8,
    partition: Partition,
) -> Result<(), AllocError>
    requires { partition.0 < length roster.now.levels }
    ensures { OnOk result (text.new.items ≡ text.old.items ++
        ended_text (line.Host address (name_or_none roster.now partition.0))) }
{
    text.extend_from_slice(b"host ".as_slice())?;
    push_number(text, u32::from(address))?;
    text.push(b' ')?;
    write_name(text, roster, partition.0)?;
    text.push(b'\n')?;
    Ok(())
}

/// Writes an action of the store, with a space in front of each word.
fn write_action(
    alloc: Global,
    text: &mut Vec<u8>,
    roster: &Roster,
    action: StoreAction,
) -> Result<(), AllocError>
    requires { is_action_named roster.now action ≡ true }
    ensures { OnOk result (text.new.items ≡ text.old.items ++
        flat_map (λ word. 32 ∷ word) (action_words (action_said roster.now action))) }
{
    match action {
        StoreAction::Honest => text.extend_from_slice(b" true".as_slice()),
        StoreAction::Of { level, version } => {
            text.extend_from_slice(b" of ".as_slice())?;
            write_name(text, roster, level)?;
            text.push(b' ')?;
            write_wide(alloc, text, version)
        }
        StoreAction::Flip { offset, xor } => {
            text.extend_from_slice(b" flip ".as_slice())?;
            push_number(text, offset)?;
            text.push(b' ')?;
            write_byte(text, xor)
        }
        StoreAction::Gone => text.extend_from_slice(b" gone".as_slice()),
    }
}

/// Writes the line of a row of the plan.
fn write_row(
    alloc: Global,
    text: &mut Vec<u8>,
    roster: &Roster,
    row: PlanRow,
) -> Result<(), AllocError>
    requires { is_row_named roster.now row ≡ true }
    ensures { OnOk result
        (text.new.items ≡ text.old.items ++ ended_text (line_of_row roster.now row)) }
{
    text.extend_from_slice(b"store ".as_slice())?;
    write_name(text, roster, row.reader.0)?;
    write_action(alloc, text, roster, row.action)?;
    text.push(b'\n')?;
    Ok(())
}

fn write_levels(text: &mut Vec<u8>, roster: &Roster) -> Result<(), AllocError>
    ensures { OnOk result (text.new.items ≡
        text.old.items ++ flat_map ended_text (map line_of_level roster.now.levels)) }
{
    for i in 0..roster.level_count() {
        let name = roster.name_at(Partition(i));
        write_level(text, &name, roster.level_at(Partition(i)))?;
    }
    Ok(())
}

/// Writes the lines of the levels' key pairs.
fn write_pairs(text: &mut Vec<u8>, roster: &Roster) -> Result<(), AllocError>
    requires des { roster.now.sealing ≡ Des }
    requires roster { IsRoster roster.now }
    ensures { OnOk result (text.new.items ≡ text.old.items ++
        flat_map ended_text (map line_of_key (zip roster.now.levels roster.now.keys))) }
{
    for i in 0..roster.key_count() {
        let name = roster.name_at(Partition(i));
        write_key(text, &name, &roster.keys_at(Partition(i)))?;
    }
    Ok(())
}

/// Writes the lines of all key pairs that were added.
fn write_keys(text: &mut Vec<u8>, roster: &Roster) -> Result<(), AllocError>
    requires roster { IsRoster roster.now }
    requires complete { IsComplete roster.now }
    ensures { OnOk result (text.new.items ≡
        text.old.items ++ flat_map ended_text (lines_of_keys roster.now)) }
{
    match roster.sealing() {
        Sealing::Clear => Ok(()),
        Sealing::Des => {
            write_pairs(text, roster)?;
            write_guard(text, &roster.guard_keys())
        }
    }
}

fn write_hosts(text: &mut Vec<u8>, roster: &Roster) -> Result<(), AllocError>
    requires { IsRoster roster.now }
    ensures { OnOk result (text.new.items ≡
        text.old.items ++ flat_map ended_text (map (line_of_host roster.now) roster.now.hosts)) }
{
    for i in 0..roster.host_count() {
        let (address, partition) = roster.host_at(i);
        write_host(text, roster, address, partition)?;
    }
    Ok(())
}

fn write_rows(
    alloc: Global,
    text: &mut Vec<u8>,
    roster: &Roster,
    rows: &[PlanRow],
) -> Result<(), AllocError>
    requires { AllByRecursion (λ row. is_row_named roster.now row ≡ true) rows.now }
    ensures { OnOk result (text.new.items ≡
        text.old.items ++ flat_map ended_text (map (line_of_row roster.now) rows.now)) }
{
    for row in rows {
        write_row(alloc, text, roster, *row)?;
    }
    Ok(())
}

fn write_events(text: &mut Vec<u8>, roster: &Roster, events: &[Event]) -> Result<(), AllocError>
    requires { AllByRecursion (λ event. is_named roster.now event ≡ true) events.now }
    ensures { OnOk result (text.new.items ≡
        text.old.items ++ flat_map ended_text (map (line_of_event roster.now) events.now)) }
{
    for event in events {
        write_event(text, roster, event)?;
    }
    Ok(())
}

/// The one text of a script.
#[tactic(auto, unfolding(crate::specs::Text::text_of))]
pub fn write_script(alloc: Global, script: &Script) -> Result<Vec<u8>, AllocError>
    ensures { IfOk result (λ text. text.items ≡ text_of script.now) }
{
    let mut text = Vec::new(alloc);
    let roster = script.roster();
    text.extend_from_slice(b"dss 1\n".as_slice())?;
    write_sealing(&mut text, roster.sealing())?;
    write_levels(&mut text, roster)?;
    write_keys(&mut text, roster)?;
    write_hosts(&mut text, roster)?;
    write_rows(alloc, &mut text, roster, script.rows())?;
    text.extend_from_slice(b"begin\n".as_slice())?;
    write_events(&mut text, roster, script.events())?;
    text.extend_from_slice(b"end\n".as_slice())?;
    Ok(text)
}
