ghost use Rattle.engine.specs.inside.Facts.{Laws};

use frame::{each_piece_has_a_frame_of_its_own, pieces_carry_their_message};
use machine::{
    elsewhere_all_stays, one_message_at_most, one_message_has_its_frames, parties_have_addresses,
    partners_alone_are_sent_to, partners_share_a_partition, sent_pieces_fit_frames,
    what_is_handed_over,
};
use net_side::{bytes_hold_one_thing, open_bytes_hold_more};

/// What the crates below promise.
pub(crate) fn machine_laws()
    ensures { Laws }
{
    pieces_carry_their_message();
    each_piece_has_a_frame_of_its_own();
    bytes_hold_one_thing();
    open_bytes_hold_more();
    what_is_handed_over();
    partners_alone_are_sent_to();
    one_message_has_its_frames();
    elsewhere_all_stays();
    one_message_at_most();
    sent_pieces_fit_frames();
    parties_have_addresses();
    partners_share_a_partition();
}
