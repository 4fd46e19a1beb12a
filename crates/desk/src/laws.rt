ghost use Rattle.std.specs.Prelude.{◌≡◌, ℕ, ◌+◌, ◌≤◌, List, ◌++◌, length};
ghost use Rattle.seal_core.specs.Sealing.{Sealer};
ghost use Rattle.frame.specs.Frames.{frame_of};
ghost use Rattle.net_side.specs.NetView.{NetView};
ghost use Rattle.net_side.specs.declared.inbound.Inbound.{Inbound};
ghost use Rattle.unit_core.specs.Hearing.{AreInbound};
ghost use Rattle.desk.specs.Batches.{Batches, flush, nothing};
ghost use Rattle.desk.specs.Views.{DeskView};
ghost use Rattle.desk.specs.Deeds.{DeskState, Deed, does, hearings};
ghost use Rattle.desk.specs.Desks.{At};

use net_side::bytes_hold_one_thing;
use seal_core::Seal;

/// The same frames are the same things to a unit.
pub fn frames_hold_one_thing<S: Seal>()
    ensures { (net : NetView) (frames : List (List ℕ)) (xs ys : List Inbound) →
        AreInbound S.sealed_text net frames xs → AreInbound S.sealed_text net frames ys →
        xs ≡ ys }
{
    bytes_hold_one_thing();
}

/// What frames are to a unit is said frame by frame.
pub fn frames_come_one_by_one()
    ensures as_many { (sealed : Sealer) (net : NetView) (frames : List (List ℕ))
        (xs : List Inbound) → AreInbound sealed net frames xs → length frames ≡ length xs }
    ensures joined { (sealed : Sealer) (net : NetView) (frames more : List (List ℕ))
        (xs ys : List Inbound) → AreInbound sealed net frames xs →
        AreInbound sealed net more ys → AreInbound sealed net (frames ++ more) (xs ++ ys) }
    ensures deeds { (frames more : List (List ℕ)) (xs ys : List Inbound) →
        length frames ≡ length xs →
        hearings (frames ++ more) (xs ++ ys) ≡ hearings frames xs ++ hearings more ys }
{}

/// Deeds are done one after another, and change no name.
pub fn deeds_follow_one_another()
    ensures joined { (st : DeskState) (deeds more : List Deed) →
        does st (deeds ++ more) ≡ does (does st deeds) more }
    ensures address { (st : DeskState) (deeds : List Deed) →
        (does st deeds).address ≡ st.address }
    ensures partition { (st : DeskState) (deeds : List Deed) →
        (does st deeds).partition ≡ st.partition }
    ensures frame { (st : DeskState) (deeds : List Deed) → (does st deeds).frame ≡ st.frame }
    ensures receivers { (st : DeskState) (deeds : List Deed) →
        length (does st deeds).wire.messages ≡ length st.wire.messages }
{}

/// Frames that come seal nothing.
pub fn frames_seal_nothing()
    ensures wire { (st : DeskState) (frames : List (List ℕ)) (xs : List Inbound) →
        (does st (hearings frames xs)).wire ≡ st.wire }
    ensures streams { (st : DeskState) (frames : List (List ℕ)) (xs : List Inbound) →
        (does st (hearings frames xs)).streams ≡ st.streams }
{}

/// A unit has the names and the keys of the state that its desk is at.
pub fn desks_have_the_names_of_their_states()
    ensures address { (sealed : Sealer) (desk : DeskView) (st : DeskState) (b : Batches) →
        At sealed desk st b → desk.unit.host.address ≡ st.address }
    ensures partition { (sealed : Sealer) (desk : DeskView) (st : DeskState) (b : Batches) →
        At sealed desk st b → desk.unit.host.partition ≡ st.partition }
    ensures frame { (sealed : Sealer) (desk : DeskView) (st : DeskState) (b : Batches) →
        At sealed desk st b → frame_of sealed desk.unit.net.keys ≡ st.frame }
{}

/// A batch that was flushed is empty, and a flush is one turn at most.
pub fn flushed_batches_are_empty()
    ensures empty { (b : Batches) → (flush b).batch ≡ nothing }
    ensures twice { (b : Batches) → flush (flush b) ≡ flush b }
    ensures turns { (b : Batches) → length (flush b).made ≤ length b.made + 1 }
{}
