ghost use Rattle.std.specs.Prelude.{◌≡◌, ◌≤◌, ◌<◌, [], length};
ghost use Rattle.levels.specs.declared.level.Sealing.TheVariants.{Des};
ghost use Rattle.levels.specs.Kept.{IsComplete};
ghost use Rattle.script.specs.Lines as line;
ghost use Rattle.script.specs.Ranges.{IsAddress, HasEventRanges, HasRanges};
ghost use Rattle.script.specs.inside.Readers.{words_meant, action_meant, meant};
ghost use Rattle.script.specs.declared.stage.Stage.TheVariants.{Events};
ghost use Rattle.script.specs.inside.Stages.{seen, left_by, IsSound, IsKeyed};
ghost use Rattle.script.specs.inside.Stages.{Takes, TakesBehind, Steps, Finishes};

use crate::line::{EventWords, Line, StoreWords, plan_row};
use crate::reading::read_line;
use crate::refusal::{Reason, Stop};
use events::Script;
use levels::{Level, LevelName, Roster, Sealing};
use seal_core::KeyPair;
use std::alloc::Global;
use std::mem;

/// How far the reading of a text has come, by the kind of its last line.
#[derive(Debug, Drop)]
pub enum Stage {
    Nothing,
    Version,
    Sealed,
    Levels(Roster),
    Keys(Roster),
    Guarded(Roster),
    Hosts(Roster),
    Planned(Script),
    Begun(Script),
    Events(Script),
    Ended(Script),
}

/// The stage behind a further level line.
#[tactic(auto, unfolding(crate::specs::Reasons::against))]
fn add_level(mut roster: Roster, name: LevelName, level: Level) -> Result<Stage, Stop>
    requires keys { roster.keys ≡ [] }
    requires guard { roster.guard ≡ None }
    requires rank { level.rank ≤ 7 }
    ensures { TakesBehind roster [] [] (line.Level name level) result }
{
    roster.add_level(name, level)?;
    Ok(Stage::Levels(roster))
}

/// The stage behind the line of a further level's keys.
#[tactic(auto, unfolding(crate::specs::Reasons::against))]
fn add_keys(mut roster: Roster, level: LevelName, pair: KeyPair) -> Result<Stage, Stop>
    requires keyed { IsKeyed roster }
    requires left { length roster.keys < length roster.levels }
    ensures { TakesBehind roster [] [] (line.Key level pair) result }
{
    let Some(partition) = roster.find_level(&level) else {
        return Err(Stop::Refused(Reason::Name));
    };
    if partition.0 != roster.key_count() {
        return Err(Stop::Refused(Reason::Name));
    }
    roster.add_keys(pair)?;
    Ok(Stage::Keys(roster))
}

/// The stage behind the line of the guarantor's keys.
#[tactic(auto, unfolding(crate::specs::Reasons::against))]
fn set_guard(mut roster: Roster, pair: KeyPair) -> Result<Stage, Stop>
    requires keyed { IsKeyed roster }
    requires all { length roster.keys ≡ length roster.levels }
    ensures { TakesBehind roster [] [] (line.Guard pair) result }
{
    roster.set_guard(pair)?;
    Ok(Stage::Guarded(roster))
}

/// The stage behind a further host line.
#[tactic(auto, unfolding(crate::specs::Reasons::against))]
fn add_host(mut roster: Roster, address: u8, level: LevelName) -> Result<Stage, Stop>
    requires complete { IsComplete roster }
    requires address { IsAddress address }
    ensures { TakesBehind roster [] [] (line.Host address level) result }
{
    let Some(partition) = roster.find_level(&level) else {
        return Err(Stop::Refused(Reason::Name));
    };
    roster.add_host(address, partition)?;
    Ok(Stage::Hosts(roster))
}

/// The stage behind a further row of the plan.
#[tactic(auto, unfolding(crate::specs::Reasons::against))]
fn add_row(mut script: Script, reader: LevelName, words: StoreWords) -> Result<Stage, Stop>
    ensures { TakesBehind script.roster script.rows script.events
        (line.Store reader (action_meant words)) result }
{
    let Some(row) = plan_row(script.roster(), reader, words) else {
        return Err(Stop::Refused(Reason::Name));
    };
    script.add_plan(row)?;
    Ok(Stage::Planned(script))
}

/// The stage behind the first row of the plan.
fn start_plan(
    alloc: Global,
    roster: Roster,
    reader: LevelName,
    words: StoreWords,
) -> Result<Stage, Stop>
    requires { IsComplete roster }
    ensures { TakesBehind roster [] [] (line.Store reader (action_meant words)) result }
{
    add_row(Script::start(alloc, roster), reader, words)
}

/// Adds the event of a further event line.
#[tactic(auto, unfolding(crate::specs::Reasons::against))]
fn add_event(alloc: Global, script: &mut Script, words: EventWords) -> Result<(), Stop>
    requires { HasEventRanges (words_meant words) }
    ensures { TakesBehind script.old.roster script.old.rows script.old.events
        (line.Event (words_meant words)) (left_by result (Events script.new)) }
{
    let event = words.event(alloc, script.roster())?;
    script.add_event(event)?;
    Ok(())
}

impl Stage {
    #[tactic(auto, unfolding(crate::specs::Reasons::against))]
    fn take_version(self) -> Result<Stage, Stop>
        ensures { Takes (seen self) line.Version result }
    {
        match self {
            Stage::Nothing => Ok(Stage::Version),
            _ => Err(Stop::Refused(Reason::Place)),
        }
    }

    #[tactic(auto, unfolding(crate::specs::Reasons::against))]
    fn take_seal(self) -> Result<Stage, Stop>
        ensures { Takes (seen self) line.Seal result }
    {
        match self {
            Stage::Version => Ok(Stage::Sealed),
            _ => Err(Stop::Refused(Reason::Place)),
        }
    }

    #[tactic(auto, unfolding(crate::specs::Reasons::against))]
    fn take_level(self, alloc: Global, name: LevelName, level: Level) -> Result<Stage, Stop>
        requires sound { IsSound self }
        requires rank { level.rank ≤ 7 }
        ensures { Takes (seen self) (line.Level name level) result }
    {
        match self {
            Stage::Version => add_level(Roster::new(alloc, Sealing::Clear), name, level),
            Stage::Sealed => add_level(Roster::new(alloc, Sealing::Des), name, level),
            Stage::Levels(roster) => add_level(roster, name, level),
            _ => Err(Stop::Refused(Reason::Place)),
        }
    }

    #[tactic(auto, unfolding(crate::specs::Reasons::against))]
    fn take_keys(self, level: LevelName, pair: KeyPair) -> Result<Stage, Stop>
        requires { IsSound self }
        ensures { Takes (seen self) (line.Key level pair) result }
    {
        match self {
            Stage::Levels(roster) => match roster.sealing() {
                Sealing::Des => add_keys(roster, level, pair),
                Sealing::Clear => Err(Stop::Refused(Reason::Place)),
            },
            Stage::Keys(roster) => {
                if roster.key_count() < roster.level_count() {
                    add_keys(roster, level, pair)
                } else {
                    Err(Stop::Refused(Reason::Place))
                }
            }
            _ => Err(Stop::Refused(Reason::Place)),
        }
    }

    #[tactic(auto, unfolding(crate::specs::Reasons::against))]
    fn take_guard(self, pair: KeyPair) -> Result<Stage, Stop>
        requires { IsSound self }
        ensures { Takes (seen self) (line.Guard pair) result }
    {
        match self {
            Stage::Keys(roster) => {
                if roster.key_count() < roster.level_count() {
                    Err(Stop::Refused(Reason::Place))
                } else {
                    set_guard(roster, pair)
                }
            }
            _ => Err(Stop::Refused(Reason::Place)),
        }
    }

    #[tactic(auto, unfolding(crate::specs::Reasons::against))]
    fn take_host(self, address: u8, level: LevelName) -> Result<Stage, Stop>
        requires sound { IsSound self }
        requires address { IsAddress address }
        ensures { Takes (seen self) (line.Host address level) result }
    {
        match self {
            Stage::Levels(roster) => match roster.sealing() {
                Sealing::Des => Err(Stop::Refused(Reason::Place)),
                Sealing::Clear => add_host(roster, address, level),
            },
            Stage::Guarded(roster) => add_host(roster, address, level),
            Stage::Hosts(roster) => add_host(roster, address, level),
            _ => Err(Stop::Refused(Reason::Place)),
        }
    }

    #[tactic(auto, unfolding(crate::specs::Reasons::against))]
    fn take_row(self, alloc: Global, reader: LevelName, words: StoreWords) -> Result<Stage, Stop>
        requires { IsSound self }
        ensures { Takes (seen self) (line.Store reader (action_meant words)) result }
    {
        match self {
            Stage::Levels(roster) => match roster.sealing() {
                Sealing::Des => Err(Stop::Refused(Reason::Place)),
                Sealing::Clear => start_plan(alloc, roster, reader, words),
            },
            Stage::Guarded(roster) => start_plan(alloc, roster, reader, words),
            Stage::Hosts(roster) => start_plan(alloc, roster, reader, words),
            Stage::Planned(script) => add_row(script, reader, words),
            _ => Err(Stop::Refused(Reason::Place)),
        }
    }

    #[tactic(auto, unfolding(crate::specs::Reasons::against))]
    fn take_begin(self, alloc: Global) -> Result<Stage, Stop>
        requires { IsSound self }
        ensures { Takes (seen self) line.Begin result }
    {
        match self {
            Stage::Levels(roster) => match roster.sealing() {
                Sealing::Des => Err(Stop::Refused(Reason::Place)),
                Sealing::Clear => Ok(Stage::Begun(Script::start(alloc, roster))),
            },
            Stage::Guarded(roster) => Ok(Stage::Begun(Script::start(alloc, roster))),
            Stage::Hosts(roster) => Ok(Stage::Begun(Script::start(alloc, roster))),
            Stage::Planned(script) => Ok(Stage::Begun(script)),
            _ => Err(Stop::Refused(Reason::Place)),
        }
    }

    /// The stage, out of its place.
    fn leave(&mut self) -> Stage
        ensures { result ≡ self.old }
    {
        mem::replace(self, Stage::Nothing)
    }

    /// Takes an event. The script is changed in its place, since most lines are events.
    #[tactic(auto, unfolding(crate::specs::Reasons::against))]
    fn take_event(&mut self, alloc: Global, words: EventWords) -> Result<(), Stop>
        requires { HasEventRanges (words_meant words) }
        ensures { Takes (seen self.old) (line.Event (words_meant words))
            (left_by result self.new) }
    {
        if let Stage::Events(script) = self {
            return add_event(alloc, script, words);
        }
        match self.leave() {
            Stage::Begun(mut script) => {
                let added = add_event(alloc, &mut script, words);
                *self = Stage::Events(script);
                added
            }
            _ => Err(Stop::Refused(Reason::Place)),
        }
    }

    #[tactic(auto, unfolding(crate::specs::Reasons::against))]
    fn take_end(self) -> Result<Stage, Stop>
        ensures { Takes (seen self) line.End result }
    {
        match self {
            Stage::Begun(script) => Ok(Stage::Ended(script)),
            Stage::Events(script) => Ok(Stage::Ended(script)),
            _ => Err(Stop::Refused(Reason::Place)),
        }
    }

    fn take(&mut self, alloc: Global, line: Line) -> Result<(), Stop>
        requires sound { IsSound self.old }
        requires ranges { HasRanges (meant line) }
        ensures { Takes (seen self.old) (meant line) (left_by result self.new) }
    {
        let next = match line {
            Line::Event(words) => return self.take_event(alloc, words),
            Line::Version => self.leave().take_version(),
            Line::Seal => self.leave().take_seal(),
            Line::Level { name, level } => self.leave().take_level(alloc, name, level),
            Line::Keys { level, pair } => self.leave().take_keys(level, pair),
            Line::Guard(pair) => self.leave().take_guard(pair),
            Line::Host { address, level } => self.leave().take_host(address, level),
            Line::Store { reader, words } => self.leave().take_row(alloc, reader, words),
            Line::Begin => self.leave().take_begin(alloc),
            Line::End => self.leave().take_end(),
        };
        *self = next?;
        Ok(())
    }

    /// Goes on by one more line. After an Err the stage isn't used again.
    pub fn step(&mut self, alloc: Global, text: &[u8]) -> Result<(), Stop>
        requires { IsSound self.old }
        ensures { Steps (seen self.old) text.now (left_by result self.new) }
    {
        let line = read_line(alloc, text)?;
        self.take(alloc, line)
    }

    /// The script, where the text ends here.
    pub fn finish(self, tail: &[u8]) -> Result<Script, Reason>
        requires { IsSound self }
        ensures { Finishes (seen self) tail.now result }
    {
        if !tail.is_empty() {
            return Err(Reason::Form);
        }
        match self {
            Stage::Ended(script) => Ok(script),
            _ => Err(Reason::End),
        }
    }
}
