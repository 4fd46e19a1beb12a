ghost use Rattle.std.specs.Prelude.{◌≡◌, ◌<◌, [], ◌∷◌, ◌++◌, length, map, OnOk, IfOk, if◌then◌else◌, nat_lt};
ghost use Rattle.engine.specs.inside.Alone.{lines_in};
ghost use Rattle.engine.specs.inside.Closed.{lines_left, wire_left, tally_left};

use crate::desks::Desks;
use desk::{Desk, Wire};
use machine::OutLine;
use seal_core::Seal;
use std::alloc::{AllocError, Global};
use unit_core::Tally;

/// How many addresses there are.
const ADDRESSES: usize = 256;

/// What is left of desks, slot by slot.
#[derive(Drop)]
pub(crate) struct Closed {
    alloc: Global,
    /// For each address what its host was told.
    pub lines: Vec<Vec<OutLine>>,
    /// For each slot what its unit sealed.
    pub wires: Vec<Option<Wire>>,
    /// For each slot what its unit counted.
    pub tallies: Vec<Option<Tally>>,
}

impl Closed {
    fn new(alloc: Global) -> Closed
        ensures lines { result.lines.items ≡ [] }
        ensures wires { result.wires.items ≡ [] }
        ensures tallies { result.tallies.items ≡ [] }
    {
        Closed {
            alloc,
            lines: Vec::new(alloc),
            wires: Vec::new(alloc),
            tallies: Vec::new(alloc),
        }
    }

    /// Closes the desk of the next slot.
    fn push<S: Seal + Send + Sync>(&mut self, desk: Option<Desk<S>>) -> Result<(), AllocError>
        ensures lines { OnOk result (map (λ lines. lines.items) self.new.lines.items
            ≡ map (λ lines. lines.items) self.old.lines.items
            ++ (if nat_lt (length self.old.wires.items) 256 then lines_in desk ∷ [] else [])) }
        ensures wires { OnOk result (self.new.wires.items
            ≡ self.old.wires.items ++ wire_left desk ∷ []) }
        ensures tallies { OnOk result (self.new.tallies.items
            ≡ self.old.tallies.items ++ tally_left desk ∷ []) }
    {
        let (lines, wire, tally) = match desk {
            None => (Vec::new(self.alloc), None, None),
            Some(desk) => {
                let left = desk.close();
                (left.lines, Some(left.wire), Some(left.tally))
            }
        };
        if self.wires.len() < ADDRESSES {
            self.lines.push(lines)?;
        }
        self.wires.push(wire)?;
        self.tallies.push(tally)?;
        Ok(())
    }
}

impl<S: Seal + Send + Sync + Copy> Desks<S> {
    /// Closes all desks.
    pub fn close(self, alloc: Global) -> Result<Closed, AllocError>
        ensures lines { IfOk result
            (λ closed. map (λ lines. lines.items) closed.lines.items ≡ lines_left self) }
        ensures wires { IfOk result (λ closed. closed.wires.items ≡ map wire_left self) }
        ensures tallies { IfOk result (λ closed. closed.tallies.items ≡ map tally_left self) }
        ensures slots { length self ≡ 512 }
    {
        let mut closed = Closed::new(alloc);
        for desk in self.into_slots() {
            closed.push(desk)?;
        }
        Ok(closed)
    }
}
