ghost use Rattle.std.specs.Prelude.{◌≡◌, ◌+◌, ◌<◌, ◌≤◌, [], true, length, replicate, not, slice_index, OnOk, IfOk};
ghost use Rattle.events.specs.Scripts.{is_named, HasNumbers, with_event};
ghost use Rattle.drill.specs.Events.{carry, carries_of, is_send, send_events, call_events, events_after};
ghost use Rattle.drill.specs.Rosters.{drill_roster};
ghost use Rattle.drill.specs.inside.Ranges.{IsStep};
ghost use Rattle.drill.specs.inside.Counts.{counted, counted_if, with_events};

use crate::calls::{bytes_of, call_of};
use crate::draws::Step;
use crate::places::{home_of, neighbour_of};
use crate::roster::drill_roster;
use events::{AskedCall, Body, Event, Script, ScriptStop, Stream};
use levels::Party;
use std::alloc::{AllocError, Global};

/// A drill that is being made.
#[derive(Drop)]
pub(crate) struct Drill {
    alloc: Global,
    pub script: Script,
    /// How often each host has sent, by its address.
    sends: [u32; 7],
    /// How often each host has called, by its address.
    calls: [u32; 7],
}

/// A message is carried to its receiver.
fn carry(from: Party, to: Party, message: u32) -> Event
    ensures { result ≡ carry from to message }
{
    Event::Carry {
        stream: Stream { from, to },
        message,
        at: to,
    }
}

impl Drill {
    /// The drill of no step.
    pub fn start(alloc: Global) -> Result<Drill, AllocError>
        ensures script { IfOk result (λ drill. drill.script
            ≡ record { roster = drill_roster; rows = []; events = [] }) }
        ensures sends { IfOk result (λ drill. drill.sends ≡ replicate 7 0) }
        ensures calls { IfOk result (λ drill. drill.calls ≡ replicate 7 0) }
    {
        let roster = drill_roster(alloc)?;
        Ok(Drill {
            alloc,
            script: Script::start(alloc, roster),
            sends: [0; 7],
            calls: [0; 7],
        })
    }

    /// Adds an event behind the others.
    fn add(&mut self, event: Event) -> Result<(), AllocError>
        requires named { is_named self.old.script.roster event ≡ true }
        requires numbers { HasNumbers event }
        requires room { length self.old.script.events < 100000 }
        ensures { OnOk result
            (self.new ≡ record self.old { script = with_event self.old.script event }) }
    {
        match self.script.add_event(event) {
            Ok(()) => Ok(()),
            Err(ScriptStop::OutOfMemory) => Err(AllocError),
            Err(ScriptStop::Name | ScriptStop::Many) => unreachable!(),
        }
    }

    /// Carries a message so many times.
    fn carry_times(
        &mut self,
        times: u8,
        from: Party,
        to: Party,
        message: u32,
    ) -> Result<(), AllocError>
        requires named { is_named self.old.script.roster (carry from to message) ≡ true }
        requires room { length self.old.script.events + times ≤ 100000 }
        ensures { OnOk result (self.new ≡ record self.old {
          script =
              with_events self.old.script (replicate times (carry from to message));
        }) }
    {
        for _ in 0..times {
            self.add(carry(from, to, message))?;
        }
        Ok(())
    }

    /// A host sends to the other host of its level, and the message is carried so many times.
    fn send(&mut self, step: Step, times: u8) -> Result<(), AllocError>
        requires roster { self.old.script.roster ≡ drill_roster }
        requires step { IsStep step }
        requires times { times ≡ carries_of step.kind }
        requires room { length self.old.script.events < 60000 }
        requires sends { slice_index self.old.sends step.host < 20000 }
        ensures { OnOk result (self.new ≡ record self.old {
          script = with_events self.old.script
              (send_events (slice_index self.old.sends step.host) step);
          sends = counted self.old.sends step.host;
        }) }
    {
        let (from, to) = (step.host, Party::Host(neighbour_of(step.host)));
        let number = self.sends[from as usize];
        let message = Body::from(bytes_of(self.alloc, step.value)?);
        self.add(Event::Send { from, to, message })?;
        self.carry_times(times, Party::Host(from), to, number)?;
        self.sends[from as usize] = number + 1;
        Ok(())
    }

    /// A host asks the manager unit of its level, and the call and its reply are carried.
    fn ask(&mut self, step: Step) -> Result<(), AllocError>
        requires roster { self.old.script.roster ≡ drill_roster }
        requires step { IsStep step }
        requires room { length self.old.script.events < 60000 }
        requires calls { slice_index self.old.calls step.host < 20000 }
        ensures { OnOk result (self.new ≡ record self.old {
          script = with_events self.old.script
              (call_events (slice_index self.old.calls step.host) step);
          calls = counted self.old.calls step.host;
        }) }
    {
        let (host, manager) = (Party::Host(step.host), Party::Manager(home_of(step.host)));
        let number = self.calls[step.host as usize];
        let call = AskedCall::new(self.alloc, call_of(self.alloc, step)?)?;
        self.add(Event::Ask {
            from: step.host,
            call,
        })?;
        self.add(carry(host, manager, number))?;
        self.add(carry(manager, host, number))?;
        self.calls[step.host as usize] = number + 1;
        Ok(())
    }

    /// Adds the events of a step behind the others.
    pub fn add_step(&mut self, step: Step) -> Result<(), AllocError>
        requires roster { self.old.script.roster ≡ drill_roster }
        requires step { IsStep step }
        requires room { length self.old.script.events < 60000 }
        requires sends { slice_index self.old.sends step.host < 20000 }
        requires calls { slice_index self.old.calls step.host < 20000 }
        ensures script { OnOk result (self.new.script ≡ with_events self.old.script
            (events_after (slice_index self.old.sends step.host)
            (slice_index self.old.calls step.host) step)) }
        ensures sends { OnOk result
            (self.new.sends ≡ counted_if (is_send step) self.old.sends step.host) }
        ensures calls { OnOk result
            (self.new.calls ≡ counted_if (not (is_send step)) self.old.calls step.host) }
    {
        match step.kind {
            0 | 1 => self.send(step, 1),
            2 => self.send(step, 2),
            3 => self.send(step, 0),
            _ => self.ask(step),
        }
    }
}
