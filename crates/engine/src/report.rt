ghost use Rattle.std.specs.Prelude.{◌≡◌, true};
ghost use Rattle.events.specs.Scripts.{is_known};
ghost use Rattle.unit_core.specs.Tallies.{capped};
ghost use Rattle.engine.specs.declared.report.EngineStop.TheVariants.{OutOfMemory};
ghost use Rattle.engine.specs.Reports.{lines_of, tally_of, turns_of};

use crate::slots::slot_of;
use events::Script;
use levels::Party;
use machine::{FrameRow, OutLine};
use std::alloc::AllocError;
use std::marker::Model;
use unit_core::Tally;

/// Why a run gives no report.
#[derive(Clone, Copy, Debug, PartialEq, Eq)]
pub enum EngineStop {
    /// At this line of the script false bytes opened: a forged frame that was never sent, a changed
    /// frame, or a wrong answer of the store.
    Opened(u32),
    OutOfMemory,
}

impl From<AllocError> for EngineStop {
    ghost from_gives = { λ _ stop. stop ≡ OutOfMemory };

    fn from(_error: AllocError) -> EngineStop {
        EngineStop::OutOfMemory
    }
}

/// What a run gave.
#[derive(Drop)]
pub struct Report {
    pub(crate) script: Script,
    /// For each address what its host was told.
    pub(crate) lines: Vec<Vec<OutLine>>,
    pub(crate) frames: Vec<FrameRow>,
    /// For each slot what its unit counted.
    pub(crate) tallies: Vec<Option<Tally>>,
}

impl Model for Report {
    ghost use Rattle.std.specs.Prelude.{◌≡◌, map, length};
    ghost use Rattle.engine.specs.ReportView.{ReportView};
    ghost use Rattle.engine.specs.inside.Kept.{counted_by, IsKept};

    ghost Value = { ReportView };

    ghost view = { λ a. record {
      script = a.script;
      lines = map (λ lines. lines.items) a.lines.items;
      frames = a.frames.items;
      tallies = map counted_by a.tallies.items;
    } };

    ghost invariant = { λ a. (length a.lines.items ≡ 256)
        × IsKept a.script.roster a.tallies.items };
}

impl Report {
    /// The script that was run.
    pub fn script(&self) -> &Script
        ensures { result.now ≡ self.now.script }
    {
        &self.script
    }

    /// What the host of an address was told. An address that is no host's has no lines.
    pub fn lines_of(&self, address: u8) -> &[OutLine]
        ensures { result.now ≡ lines_of self.now address }
    {
        &self.lines[usize::from(address)]
    }

    /// All frames, in order of event and piece.
    pub fn frames(&self) -> &[FrameRow]
        ensures { result.now ≡ self.now.frames }
    {
        &self.frames
    }

    /// What the unit of a party counted, as it was when it was closed after the run.
    pub fn tally(&self, party: Party) -> &Tally
        requires { is_known self.now.script.roster party ≡ true }
        ensures { result.now ≡ tally_of self.now party }
    {
        match &self.tallies[slot_of(party)] {
            Some(tally) => tally,
            None => unreachable!(),
        }
    }

    /// How many turns all units made.
    pub fn turns(&self) -> u64
        ensures { result ≡ capped (turns_of self.now) }
    {
        let mut turns: u64 = 0;
        for tally in &self.tallies {
            if let Some(tally) = tally {
                turns = turns.saturating_add(tally.turns());
            }
        }
        turns
    }
}
