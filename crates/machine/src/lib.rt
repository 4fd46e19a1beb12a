//! The lattice machine: what each host is to be told and what is on the wire, read from a script
//! alone, and the laws that its definitions keep.
#![tactic(auto)]

mod laws;
mod line;

pub use laws::{
    a_forged_frame_arrives, a_frame_stays, a_script_has_all_keys, an_ask_is_its_send,
    arrived_by_an_event, elsewhere_all_stays, files_are_read_down, frames_are_apart,
    gives_what_it_hands_over, low_part_of_a_low_part, managers_send_replies,
    messages_are_given_in_order, messages_fit_frames, one_event_is_the_first_false_one,
    one_low_part_tells_the_same, one_message_at_most, one_message_has_its_frames,
    only_the_low_part_counts, only_what_is_named_is_given, parties_have_addresses,
    partners_alone_are_sent_to, partners_share_a_partition, questions_ask_for_what_was_written,
    replies_keep_their_ranges, sent_pieces_fit_frames, twins_have_one_text, what_is_handed_over,
};
pub use line::{FrameRow, OutLine};
