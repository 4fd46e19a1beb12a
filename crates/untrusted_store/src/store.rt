ghost use Rattle.std.specs.Prelude.{◌≡◌, ℕ, List, Option, IfOk, OnOk, OnErr};
ghost use Rattle.std.specs.Option.{option_map};

use crate::slot::{Blob, Slot};
use std::alloc::AllocError;

/// A store that nobody trusts: no answer is tied to what was put. A store may tell each of the four
/// meanings below, or not. A reader is a level, by its number in the roster.
pub trait Store {
    ghost use Rattle.untrusted_store.specs.declared.slot.Slot.{Slot};
    ghost use Rattle.untrusted_store.specs.declared.plan.PlanRow.{PlanRow};
    ghost use Rattle.untrusted_store.specs.Telling.{with_put, with_question, IsTold};

    /// The plan rows that it was opened with.
    ghost rows: { Self → Option (List PlanRow) };

    /// The bytes put last in each slot.
    ghost last: { Self → Option (Slot → Option (List ℕ)) };

    /// The number of questions of each reader.
    ghost asked: { Self → Option (ℕ → ℕ) };

    /// The answer of its next `get` of a slot by a reader.
    ghost next: { Self → Option (Slot → ℕ → Option (List ℕ)) };

    fn put(&mut self, slot: Slot, bytes: &[u8]) -> Result<(), AllocError>
        ensures rows { rows self.new ≡ rows self.old }
        ensures asked { asked self.new ≡ asked self.old }
        ensures ok { OnOk result
            (last self.new ≡ option_map (with_put slot bytes.now) (last self.old)) }
        ensures err { OnErr result (last self.new ≡ last self.old) };

    /// One question: what stands in a slot.
    fn get(&mut self, slot: Slot, reader: u8) -> Result<Option<Blob>, AllocError>
        ensures rows { rows self.new ≡ rows self.old }
        ensures last { last self.new ≡ last self.old }
        ensures answer { IfOk result (λ answer. IsTold (next self.old) slot reader answer) }
        ensures ok { OnOk result
            (asked self.new ≡ option_map (with_question reader) (asked self.old)) }
        ensures err { OnErr result (asked self.new ≡ asked self.old) };

    /// Says that a slot is needed no more.
    fn drop_slot(&mut self, slot: Slot)
        ensures rows { rows self.new ≡ rows self.old }
        ensures last { last self.new ≡ last self.old }
        ensures asked { asked self.new ≡ asked self.old };
}
