ghost use Rattle.std.specs.Prelude.{◌≡◌};
ghost use Rattle.script.specs.declared.refusal.Stop.TheVariants.{OutOfMemory};

use events::ScriptStop;
use levels::RosterStop;
use std::alloc::{AllocError, AllocFailed};

/// Why a line is refused.
#[derive(Clone, Copy, Debug, PartialEq, Eq)]
pub enum Reason {
    /// It spells no line, or isn't ended by a newline.
    Form,
    /// A line of its kind stands elsewhere.
    Place,
    /// A level or a host that it refers to isn't defined above it.
    Name,
    /// What it defines was defined above it.
    Twice,
    /// A script holds no more lines of its kind, or the text is too long.
    Many,
    /// A key of it is weak, or stands above it; the parity bits are left out.
    Key,
    /// No line `end` closes the text.
    End,
}

/// The first refused line of a text and its first reason.
#[derive(Clone, Copy, Debug, PartialEq, Eq)]
pub struct Refusal {
    /// Counted from 1; 0 stands for the text as a whole.
    pub line: u32,
    pub reason: Reason,
}

/// Why a text gave no script.
#[derive(Clone, Copy, Debug, PartialEq, Eq)]
pub enum ScriptRefused {
    Refused(Refusal),
    OutOfMemory,
}

/// Why a line was not taken.
#[derive(Clone, Copy, Debug, PartialEq, Eq)]
pub enum Stop {
    Refused(Reason),
    OutOfMemory,
}

impl From<AllocError> for Stop {
    ghost from_gives = { λ _ stop. stop ≡ OutOfMemory };

    fn from(_error: AllocError) -> Stop {
        Stop::OutOfMemory
    }
}

impl<T: Drop> From<AllocFailed<T>> for Stop {
    ghost from_gives = { λ _ stop. stop ≡ OutOfMemory };

    fn from(_failed: AllocFailed<T>) -> Stop {
        Stop::OutOfMemory
    }
}

impl From<RosterStop> for Stop {
    ghost use Rattle.script.specs.inside.Stages.{stop_of_roster};

    ghost from_gives = { λ stop made. made ≡ stop_of_roster stop };

    fn from(stop: RosterStop) -> Stop {
        match stop {
            RosterStop::Twice => Stop::Refused(Reason::Twice),
            RosterStop::Many => Stop::Refused(Reason::Many),
            RosterStop::Key => Stop::Refused(Reason::Key),
            RosterStop::OutOfMemory => Stop::OutOfMemory,
        }
    }
}

impl From<ScriptStop> for Stop {
    ghost use Rattle.script.specs.inside.Stages.{stop_of_script};

    ghost from_gives = { λ stop made. made ≡ stop_of_script stop };

    fn from(stop: ScriptStop) -> Stop {
        match stop {
            ScriptStop::Name => Stop::Refused(Reason::Name),
            ScriptStop::Many => Stop::Refused(Reason::Many),
            ScriptStop::OutOfMemory => Stop::OutOfMemory,
        }
    }
}
