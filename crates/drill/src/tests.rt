use crate::drill_script;
use events::{Event, Stream};
use file_calls::Call;
use levels::{Partition, Party};
use std::test::Fail;

const HOST: Party = Party::Host(5);

const MANAGER: Party = Party::Manager(Partition(2));

/// Whether an event carries a message of this number to its receiver.
fn is_carry(event: &Event, from: Party, to: Party, number: u32) -> bool {
    match event {
        Event::Carry {
            stream,
            message,
            at,
        } => *stream == Stream { from, to } && *message == number && *at == to,
        _ => false,
    }
}

#[test]
fn has_the_events_of_one_step(rt: HostRuntime) -> Result<(), Fail> {
    let script = drill_script(rt.alloc(), 7, 1)?;
    let [Event::Ask { from: 5, call }, there, back] = script.events() else {
        return Err("not a call and two more events")?;
    };
    let Call::Get { level: 0, name } = call.call() else {
        return Err("no get at the lowest level")?;
    };
    assert!(rt; name.bytes() == b"f5".as_slice());
    assert!(rt; is_carry(there, HOST, MANAGER, 0));
    assert!(rt; is_carry(back, MANAGER, HOST, 0));
    Ok(())
}

#[test]
fn begins_with_its_roster(rt: HostRuntime) -> Result<(), Fail> {
    let script = drill_script(rt.alloc(), 7, 0)?;
    assert_eq!(rt; script.events().len(), 0);
    assert_eq!(rt; script.rows().len(), 0);
    assert_eq!(rt; script.roster().host_count(), 6);
    assert_eq!(rt; script.roster().level_count(), 3);
    Ok(())
}

/// How many events there are, and the last one, as another program found them.
#[test]
fn has_room_for_all_steps(rt: HostRuntime) -> Result<(), Fail> {
    let script = drill_script(rt.alloc(), 7, 20_000)?;
    assert_eq!(rt; script.events().len(), 50_007);
    let last = script.events().last().ok_or("no event")?;
    assert!(rt; is_carry(last, MANAGER, HOST, 1_674));
    let script = drill_script(rt.alloc(), 2_147_483_647, 20_000)?;
    assert_eq!(rt; script.events().len(), 49_964);
    let last = script.events().last().ok_or("no event")?;
    assert!(rt; is_carry(last, MANAGER, Party::Host(6), 1_642));
    Ok(())
}
