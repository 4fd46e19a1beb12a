ghost use Rattle.std.specs.Prelude.{◌≡◌, ◌<◌, [], ◌++◌, length, option_to_list, IfOk, OnOk};
ghost use Rattle.machine.specs.Setup.{setup_of, sealer};
ghost use Rattle.engine.specs.Reports.{StopsEarly, EndsRun};
ghost use Rattle.engine.specs.inside.Scripted.{stop_at, EndsFollowing};
ghost use Rattle.engine.specs.inside.Standing.{NetworkStands};

use crate::halt::Halt;
use crate::machine_laws::machine_laws;
use crate::merging::{SentRow, merge_all};
use crate::network::Network;
use crate::report::{EngineStop, Report};
use crate::script_laws::{script_laws, sealing_laws};
use des_cbc::DesSeal;
use events::Script;
use levels::Sealing;
use ring_link::Gate;
use seal_core::{ClearSeal, Seal};
use std::alloc::{AllocError, Global};
use std::marker::Model;
use std::thread::Threads;

/// A script that is to be run.
#[derive(Drop)]
pub struct Engine {
    alloc: Global,
    script: Script,
}

impl Model for Engine {
    ghost use Rattle.events.specs.ScriptView.{ScriptView};

    ghost Value = { ScriptView };

    ghost view = { λ a. a.script };
}

/// What an event made a party send is kept.
fn keep(sent: &mut Vec<SentRow>, row: Option<SentRow>) -> Result<(), AllocError>
    ensures { OnOk result (sent.new.items ≡ sent.old.items ++ option_to_list row) }
{
    if let Some(row) = row {
        sent.push(row)?;
    }
    Ok(())
}

/// Why a run stops that halts at an event.
fn stop_at(script: &Script, event: u32, halt: Halt) -> EngineStop
    requires { event < length script.now.events }
    ensures { result ≡ stop_at script.now event halt }
{
    match halt {
        Halt::Opened => EngineStop::Opened(script.line_of(event)),
        Halt::OutOfMemory => EngineStop::OutOfMemory,
    }
}

/// All events of a script happen, one after another.
fn follow<S: Seal + Send + Sync + Copy, R: Threads, G: Gate + Sync>(
    rt: &R,
    gate: &G,
    script: &Script,
    network: &mut Network<S>,
    sent: &mut Vec<SentRow>,
) -> Result<(), EngineStop>
    requires sealing { sealer script.now.roster.sealing ≡ S.sealed_text }
    requires start { NetworkStands (setup_of script.now) [] network.old.desks network.old.files }
    requires none { sent.old.items ≡ [] }
    ensures { EndsFollowing script.now network.new.desks network.new.files sent.new.items result }
{
    machine_laws();
    script_laws();
    sealing_laws::<S>();
    for (number, event) in script.events().iter().enumerate() {
        match network.step(rt, gate, script.roster(), event) {
            Ok(row) => keep(sent, row)?,
            Err(halt) => return Err(stop_at(script, number as u32, halt)),
        }
    }
    Ok(())
}

/// Runs a script over units that seal like this.
fn run_sealed<S: Seal + Send + Sync + Copy, R: Threads, G: Gate + Sync>(
    alloc: Global,
    rt: &R,
    gate: &G,
    seal: S,
    script: Script,
) -> Result<Report, EngineStop>
    requires { sealer script.roster.sealing ≡ S.sealed_text }
    ensures { EndsRun script result }
{
    machine_laws();
    script_laws();
    sealing_laws::<S>();
    let mut network = Network::open(alloc, seal, &script)?;
    let mut sent = Vec::new(alloc);
    follow(rt, gate, &script, &mut network, &mut sent)?;
    network.flush_all(rt, gate)?;
    let closed = network.desks.close(alloc)?;
    let frames = merge_all(alloc, &sent, &closed.wires)?;
    Ok(Report {
        script,
        lines: closed.lines,
        frames,
        tallies: closed.tallies,
    })
}

impl Engine {
    pub fn open(alloc: Global, script: Script) -> Result<Engine, AllocError>
        ensures { IfOk result (λ engine. engine ≡ script) }
    {
        Ok(Engine { alloc, script })
    }

    /// Runs the script over a unit for each host and for each level's manager.
    pub fn run<R: Threads, G: Gate + Sync>(self, rt: &R, gate: &G) -> Result<Report, EngineStop>
        ensures { EndsRun self result }
    {
        match self.script.roster().sealing() {
            Sealing::Clear => run_sealed(self.alloc, rt, gate, ClearSeal, self.script),
            Sealing::Des => run_sealed(self.alloc, rt, gate, DesSeal, self.script),
        }
    }
}
