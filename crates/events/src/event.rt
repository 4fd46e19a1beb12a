use crate::asked::AskedCall;
use crate::body::Body;
use crate::edits::Edits;
use crate::forged::ForgedFrame;
use levels::Party;

/// An ordered pair of parties. Its messages are numbered from 0 by the sends that were accepted.
#[derive(Clone, Copy, Debug, PartialEq, Eq)]
pub struct Stream {
    pub from: Party,
    pub to: Party,
}

/// What a host does, and what the network does at a unit.
#[derive(Debug, Drop)]
pub enum Event {
    /// A host sends a message.
    Send {
        from: u8,
        to: Party,
        message: Body,
    },
    /// A host sends a call to the manager unit of its level.
    Ask {
        from: u8,
        call: AskedCall,
    },
    /// The network hands one piece of a message to a unit. Pieces are numbered from 0 to 63.
    Arrive {
        stream: Stream,
        message: u32,
        piece: u8,
        at: Party,
    },
    /// The network hands all pieces of a message to a unit, in order, as one event.
    Carry {
        stream: Stream,
        message: u32,
        at: Party,
    },
    /// The network hands a unit bytes of its own.
    Forge {
        at: Party,
        frame: ForgedFrame,
    },
    /// The network hands a unit the frame of one piece of a message with some bytes changed.
    Tamper {
        stream: Stream,
        message: u32,
        piece: u8,
        at: Party,
        edits: Edits,
    },
}
