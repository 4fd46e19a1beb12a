ghost use Rattle.std.specs.Prelude.{◌≡◌, IfOk, IfSome};
ghost use Rattle.std.specs.Option.{option_map};
ghost use Rattle.events.specs.Scripts.{HasBlockNumber, HasNumbers};
ghost use Rattle.script.specs.Naming.{row_named};
ghost use Rattle.script.specs.inside.Readers.{meant, action_meant, Gives};
ghost use Rattle.script.specs.inside.Stages.{Finds, handed_named};

use crate::refusal::{Reason, Stop};
use events::{AskedCall, Body, Edits, Event, ForgedFrame, Stream};
use file_calls::{Call, Content, Name};
use levels::{Level, LevelName, Party, Roster};
use seal_core::KeyPair;
use std::alloc::Global;
use untrusted_store::{PlanRow, StoreAction};

/// A party as a line names it.
#[derive(Clone, Copy, Debug)]
pub enum PartyWord {
    /// A host by its address.
    Address(u8),
    /// The manager unit of a level, by the level's name.
    Name(LevelName),
}

/// A stream as a line names it.
#[derive(Clone, Copy, Debug)]
pub struct StreamWord {
    pub from: PartyWord,
    pub to: PartyWord,
}

/// What a host asks as its line says it, levels by their names.
#[derive(Debug, Drop)]
pub enum CallWords {
    Put {
        name: Name,
        content: Content,
    },
    Get {
        level: LevelName,
        name: Name,
    },
    List {
        level: LevelName,
    },
    Remove {
        name: Name,
    },
    Append {
        name: Name,
        content: Content,
    },
    Block {
        level: LevelName,
        name: Name,
        block: u8,
    },
}

/// An event as its line says it.
#[derive(Debug, Drop)]
pub enum EventWords {
    Send {
        from: u8,
        to: PartyWord,
        message: Body,
    },
    Ask {
        from: u8,
        call: CallWords,
    },
    Deliver {
        stream: StreamWord,
        message: u32,
        piece: u8,
        at: PartyWord,
    },
    Carry {
        stream: StreamWord,
        message: u32,
        at: PartyWord,
    },
    Forge {
        at: PartyWord,
        frame: ForgedFrame,
    },
    Tamper {
        stream: StreamWord,
        message: u32,
        piece: u8,
        at: PartyWord,
        edits: Edits,
    },
}

/// What the store does, as its line says it.
#[derive(Clone, Copy, Debug)]
pub enum StoreWords {
    Honest,
    Of { level: LevelName, version: u64 },
    Flip { offset: u32, xor: u8 },
    Gone,
}

/// A line of a script.
#[derive(Debug, Drop)]
pub enum Line {
    Version,
    Seal,
    Level {
        name: LevelName,
        level: Level,
    },
    Keys {
        level: LevelName,
        pair: KeyPair,
    },
    Guard(KeyPair),
    Host {
        address: u8,
        level: LevelName,
    },
    Store {
        reader: LevelName,
        words: StoreWords,
    },
    Begin,
    Event(EventWords),
    End,
}

/// What was read, or the reason `form` where nothing was.
pub fn formed(line: Option<Line>) -> Result<Line, Stop>
    ensures { Gives meant result (option_map meant line) }
{
    line.ok_or(Stop::Refused(Reason::Form))
}

impl PartyWord {
    ghost use Rattle.script.specs.Naming.{party_named};

    /// The party, where the roster has the level that the word names.
    fn party(&self, roster: &Roster) -> Option<Party>
        ensures { result ≡ party_named roster.now self.now }
    {
        match self {
            PartyWord::Address(address) => Some(Party::Host(*address)),
            PartyWord::Name(level) => {
                let partition = roster.find_level(level)?;
                Some(Party::Manager(partition))
            }
        }
    }
}

impl StreamWord {
    ghost use Rattle.script.specs.Naming.{stream_named};

    fn stream(&self, roster: &Roster) -> Option<Stream>
        ensures { result ≡ stream_named roster.now self.now }
    {
        let from = self.from.party(roster)?;
        let to = self.to.party(roster)?;
        Some(Stream { from, to })
    }
}

impl CallWords {
    ghost use Rattle.script.specs.Naming.{call_named};
    ghost use Rattle.script.specs.Ranges.{HasCallRanges};
    ghost use Rattle.script.specs.inside.Readers.{call_meant};

    /// The call, where the roster has the level that the words name.
    fn call(self, roster: &Roster) -> Option<Call>
        requires { HasCallRanges (call_meant self) }
        ensures call { result ≡ call_named roster.now (call_meant self) }
        ensures block { IfSome result HasBlockNumber }
    {
        match self {
            CallWords::Put { name, content } => Some(Call::Put { name, content }),
            CallWords::Get { level, name } => {
                let level = roster.find_level(&level)?.0;
                Some(Call::Get { level, name })
            }
            CallWords::List { level } => {
                let level = roster.find_level(&level)?.0;
                Some(Call::List { level })
            }
            CallWords::Remove { name } => Some(Call::Remove { name }),
            CallWords::Append { name, content } => Some(Call::Append { name, content }),
            CallWords::Block { level, name, block } => {
                let level = roster.find_level(&level)?.0;
                Some(Call::GetBlock { level, name, block })
            }
        }
    }
}

/// The stream and the unit to which something is handed.
fn handed(roster: &Roster, stream: StreamWord, at: PartyWord) -> Result<(Stream, Party), Stop>
    ensures { Finds result (handed_named roster.now stream at) }
{
    let stream = stream.stream(roster).ok_or(Stop::Refused(Reason::Name))?;
    let at = at.party(roster).ok_or(Stop::Refused(Reason::Name))?;
    Ok((stream, at))
}

impl EventWords {
    ghost use Rattle.script.specs.Naming.{event_named};
    ghost use Rattle.script.specs.Ranges.{HasEventRanges};
    ghost use Rattle.script.specs.inside.Readers.{words_meant};

    /// The event, or the reason `name` where the roster lacks a level that the words name.
    pub fn event(self, alloc: Global, roster: &Roster) -> Result<Event, Stop>
        requires { HasEventRanges (words_meant self) }
        ensures event { Finds result (event_named roster.now (words_meant self)) }
        ensures numbers { IfOk result HasNumbers }
    {
        match self {
            EventWords::Send { from, to, message } => {
                let to = to.party(roster).ok_or(Stop::Refused(Reason::Name))?;
                Ok(Event::Send { from, to, message })
            }
            EventWords::Ask { from, call } => {
                let call = call.call(roster).ok_or(Stop::Refused(Reason::Name))?;
                let call = AskedCall::new(alloc, call)?;
                Ok(Event::Ask { from, call })
            }
            EventWords::Deliver {
                stream,
                message,
                piece,
                at,
            } => {
                let (stream, at) = handed(roster, stream, at)?;
                Ok(Event::Arrive {
                    stream,
                    message,
                    piece,
                    at,
                })
            }
            EventWords::Carry {
                stream,
                message,
                at,
            } => {
                let (stream, at) = handed(roster, stream, at)?;
                Ok(Event::Carry {
                    stream,
                    message,
                    at,
                })
            }
            EventWords::Forge { at, frame } => {
                let at = at.party(roster).ok_or(Stop::Refused(Reason::Name))?;
                Ok(Event::Forge { at, frame })
            }
            EventWords::Tamper {
                stream,
                message,
                piece,
                at,
                edits,
            } => {
                let (stream, at) = handed(roster, stream, at)?;
                Ok(Event::Tamper {
                    stream,
                    message,
                    piece,
                    at,
                    edits,
                })
            }
        }
    }
}

impl StoreWords {
    ghost use Rattle.script.specs.Naming.{action_named};
    ghost use Rattle.script.specs.inside.Readers.{action_meant};

    /// The action, where the roster has the level that the words name.
    pub fn action(self, roster: &Roster) -> Option<StoreAction>
        ensures { result ≡ action_named roster.now (action_meant self) }
    {
        match self {
            StoreWords::Honest => Some(StoreAction::Honest),
            StoreWords::Of { level, version } => {
                let level = roster.find_level(&level)?.0;
                Some(StoreAction::Of { level, version })
            }
            StoreWords::Flip { offset, xor } => Some(StoreAction::Flip { offset, xor }),
            StoreWords::Gone => Some(StoreAction::Gone),
        }
    }
}

/// A row of the plan, where the roster has the levels that the words name.
pub fn plan_row(roster: &Roster, reader: LevelName, words: StoreWords) -> Option<PlanRow>
    ensures { result ≡ row_named roster.now reader (action_meant words) }
{
    let reader = roster.find_level(&reader)?;
    let action = words.action(roster)?;
    Some(PlanRow { reader, action })
}
