ghost use Rattle.std.specs.Prelude.{◌≡◌, ℕ, List, true};
ghost use Rattle.seal_core.specs.Sealing.{Sealer, IsSealing};
ghost use Rattle.net_side.specs.NetView.{NetView};
ghost use Rattle.net_side.specs.Nets.{IsInbound, OpensAt, has_opened};
ghost use Rattle.net_side.specs.declared.inbound.Inbound.{Inbound};

use frame::each_piece_has_a_frame_of_its_own;

/// The same bytes are one thing alone to a unit.
pub fn bytes_hold_one_thing()
    ensures { (sealed : Sealer) (net : NetView) (bytes : List ℕ) (a b : Inbound) →
        IsSealing sealed → IsInbound sealed net bytes a → IsInbound sealed net bytes b → a ≡ b }
{
    each_piece_has_a_frame_of_its_own();
}

/// Bytes are malformed, not for the unit or the unit's exactly where they open there.
pub fn open_bytes_hold_more()
    ensures opens { (sealed : Sealer) (net : NetView) (bytes : List ℕ) (a : Inbound) →
        IsInbound sealed net bytes a → has_opened a ≡ true → OpensAt sealed net bytes }
    ensures opened { (sealed : Sealer) (net : NetView) (bytes : List ℕ) (a : Inbound) →
        IsInbound sealed net bytes a → OpensAt sealed net bytes → has_opened a ≡ true }
{}
