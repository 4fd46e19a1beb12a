ghost use Rattle.std.specs.Prelude.{◌≡◌, ◌≢◌, ◌↔◌, ℕ, ◌*◌, ◌<◌, ◌≤◌, [], ◌∷◌, ◌++◌, length, List, true, false, Some, slice_get};
ghost use Rattle.std.specs.List.{AllByRecursion};
ghost use Rattle.levels.specs.declared.level.Level.{Level};
ghost use Rattle.levels.specs.declared.level.Partition.{Partition};
ghost use Rattle.levels.specs.declared.level.Party.{Party};
ghost use Rattle.levels.specs.declared.level.Party.TheVariants.{Host, Manager};
ghost use Rattle.levels.specs.Kept.{IsRoster};
ghost use Rattle.levels.specs.Keys.{keys_at, guard_of};
ghost use Rattle.levels.specs.Order.{is_at_most};
ghost use Rattle.levels.specs.Rosters.{RosterView, partition_of, is_same_party, is_partner, level_of};
ghost use Rattle.frame.specs.Pieces.{pieces, piece_of, IsPiece};
ghost use Rattle.seal_core.specs.Sealing.{IsSealing};
ghost use Rattle.file_calls.specs.declared.call.Call.{Call};
ghost use Rattle.file_calls.specs.Spelling.{is_reply, reply_text, reply_of};
ghost use Rattle.events.specs.declared.event.Stream.{Stream};
ghost use Rattle.events.specs.Scripts.{is_known};
ghost use Rattle.events.specs.declared.event.Event.{Event};
ghost use Rattle.events.specs.declared.event.Event.TheVariants.{Send, Ask, Arrive, Carry, Forge};
ghost use Rattle.events.specs.ScriptView.{ScriptView};
ghost use Rattle.events.specs.Scripts.{IsScript};
ghost use Rattle.machine.specs.Setup.{Setup, setup_of};
ghost use Rattle.machine.specs.Low.{place_of, is_low, low};
ghost use Rattle.machine.specs.Sends.{Sending, sending_of};
ghost use Rattle.machine.specs.Given.{has_piece};
ghost use Rattle.machine.specs.Files.{CallRow};
ghost use Rattle.machine.specs.Replies.{Question};
ghost use Rattle.machine.specs.Plan.{question_of, reply};
ghost use Rattle.machine.specs.Machine.{State, address_of, number_of, gives, message_of, given_to, sent_by, after, state, told, state_at};
ghost use Rattle.machine.specs.Wire.{frames_of, frames_from};
ghost use Rattle.machine.specs.FalseBytes.{IsSentFrame, IsFirstFalse};
ghost use Rattle.machine.specs.Text.{text_below};
ghost use Rattle.machine.specs.Laws.{HandsOver, HasArrived, AreInOrder, content_in, ReadsDown, AsksForWritten, given_if, HandsNothing, HandsOne, OneFrame, IsOneAtMost, FramesApart, replies_to, StaysAt, AreSmall};

use frame::each_piece_has_a_frame_of_its_own;

// ---- what arrives and is given

/// A piece has arrived exactly where some earlier event handed it over, of a message that was sent
/// before.
pub fn arrived_by_an_event()
    ensures { (script : ScriptView) (n : ℕ) (s u : Party) (j i : ℕ) → n ≤ length script.events →
        (HasArrived script n s u j i ↔ (has_piece ((state_at script n).arrived s u) j i ≡ true)) }
{}

/// An event gives no message but one of which it hands over a piece.
pub fn gives_what_it_hands_over()
    ensures { (m : Setup) (x : State) (e : Event) (s u : Party) (j : ℕ) →
        gives m x e s u j ≡ true → (i : ℕ) × HandsOver m x e s u j i }
{}

/// What a party is told of another are messages of that other, in the order in which it sent them
/// to this one, none twice; and the two are partners.
pub fn messages_are_given_in_order()
    ensures { (script : ScriptView) (s r : Party) → IsRoster script.roster →
        AreInOrder script s r }
{}

/// An event gives a party one message at most, where a forged frame is the frame of pieces of one
/// message at most; in a script it always is.
pub fn one_message_at_most()
    ensures one { (m : Setup) (x : State) (e : Event) (s s' u : Party) (j j' : ℕ) →
        OneFrame m x e → gives m x e s u j ≡ true → gives m x e s' u j' ≡ true →
        (s' ≡ s) × (j' ≡ j) }
    ensures given { (m : Setup) (x : State) (e : Event) (u : Party) →
        OneFrame m x e → IsRoster m.roster → IsOneAtMost (given_to m x e u) }
    ensures script { (script : ScriptView) (n : ℕ) (e : Event) (u : Party) → IsScript script →
        IsOneAtMost (given_to (setup_of script) (state_at script n) e u) }
{
    each_piece_has_a_frame_of_its_own();
}

/// An event that names a piece or a message of a party of the roster gives the message that it
/// names, or none.
pub fn only_what_is_named_is_given()
    ensures arrive { (m : Setup) (x : State) (stream : Stream) (j i : ℕ) (at : Party) →
        IsRoster m.roster → is_known m.roster stream.from ≡ true →
        (let e = Arrive stream j i at in
        let message = message_of stream.from (x.sent stream.from at) j in
        given_to m x e at ≡ given_if (gives m x e stream.from at j) message) }
    ensures carry { (m : Setup) (x : State) (stream : Stream) (j : ℕ) (at : Party) →
        IsRoster m.roster → is_known m.roster stream.from ≡ true →
        (let e = Carry stream j at in
        let message = message_of stream.from (x.sent stream.from at) j in
        given_to m x e at ≡ given_if (gives m x e stream.from at j) message) }
{}

/// What an event hands over to a party, and gives it: nothing, or pieces of one message.
pub fn what_is_handed_over()
    ensures nothing { (m : Setup) (x : State) (e : Event) (u : Party) →
        ((s : Party) (j i : ℕ) → ¬ HandsOver m x e s u j i) → HandsNothing m x e u }
    ensures one { (m : Setup) (x : State) (e : Event) (s u : Party) (j : ℕ) (body : List ℕ) →
        IsRoster m.roster → is_known m.roster s ≡ true → slice_get (x.sent s u) j ≡ Some body →
        ((s' : Party) (j' i : ℕ) → HandsOver m x e s' u j' i → (s' ≡ s) × (j' ≡ j)) →
        HandsOne m x e s u j body }
{}

// ---- parties and their addresses

/// A party of a roster has a partition and an address, and no other has both.
pub fn parties_have_addresses()
    ensures partition { (roster : RosterView) (s : Party) → IsRoster roster →
        is_known roster s ≡ true → number_of (partition_of roster s) < 16 }
    ensures address { (roster : RosterView) (s : Party) → IsRoster roster →
        is_known roster s ≡ true → address_of s < 256 }
    ensures host { (roster : RosterView) (a : ℕ) → IsRoster roster →
        is_known roster (Host a) ≡ true → (1 ≤ a) × (a ≤ 250) }
    ensures manager { (roster : RosterView) (p : Partition) →
        is_known roster (Manager p) ≡ true → number_of (partition_of roster (Manager p)) ≡ p.0 }
    ensures apart { (roster : RosterView) (s r : Party) → IsRoster roster →
        is_known roster s ≡ true → is_known roster r ≡ true →
        number_of (partition_of roster s) ≡ number_of (partition_of roster r) →
        address_of s ≡ address_of r → s ≡ r }
{}

/// Partners are two parties of one partition, each the other's.
pub fn partners_share_a_partition()
    ensures known { (roster : RosterView) (s r : Party) → is_partner roster s r ≡ true →
        (is_known roster s ≡ true) × (is_known roster r ≡ true) }
    ensures same { (roster : RosterView) (s r : Party) → is_partner roster s r ≡ true →
        number_of (partition_of roster s) ≡ number_of (partition_of roster r) }
    ensures apart { (roster : RosterView) (s r : Party) → is_partner roster s r ≡ true → s ≢ r }
    ensures both { (roster : RosterView) (s r : Party) →
        is_partner roster s r ≡ is_partner roster r s }
    ensures partners { (roster : RosterView) (s r : Party) →
        is_known roster s ≡ true → is_known roster r ≡ true → s ≢ r →
        number_of (partition_of roster s) ≡ number_of (partition_of roster r) →
        is_partner roster s r ≡ true }
{}

// ---- what is sent

/// What was sent, was sent to a partner, and what is given comes from one.
pub fn partners_alone_are_sent_to()
    ensures given { (m : Setup) (past : List Event) (e : Event) (u : Party) →
        AllByRecursion (λ l. is_partner m.roster l.from u ≡ true)
        (given_to m (state m past) e u) }
    ensures sent { (m : Setup) (past : List Event) (s r : Party) (j : ℕ) (body : List ℕ) →
        slice_get ((state m past).sent s r) j ≡ Some body → is_partner m.roster s r ≡ true }
{}

/// The frames of an event that makes a party send nothing, or one message.
pub fn one_message_has_its_frames()
    ensures nothing { (m : Setup) (x : State) (e : Event) (s : Party) →
        ((r : Party) → sent_by m x e s r ≡ []) → frames_from m x e s ≡ [] }
    ensures one { (m : Setup) (x : State) (e : Event) (s r : Party) (body : List ℕ) →
        IsRoster m.roster → is_known m.roster r ≡ true → sent_by m x e s r ≡ body ∷ [] →
        ((r' : Party) → is_same_party r' r ≡ false → sent_by m x e s r' ≡ []) →
        frames_from m x e s ≡ frames_of m s r (length (x.sent s r)) body }
{}

// ---- events

/// An event changes nothing at a party but the one where it happens.
pub fn elsewhere_all_stays()
    ensures { (m : Setup) (e : Event) (x : State) (r : Party) →
        is_same_party (place_of e) r ≡ false → StaysAt r x (after m e x) }
{}

/// An Ask does what the Send of its call's spelling does.
pub fn an_ask_is_its_send()
    ensures { (m : Setup) (x : State) (from : ℕ) (call : Call) (y : Sending) →
        sending_of m.roster (Ask from call) ≡ Some y →
        after m (Ask from call) x ≡ after m (Send from y.to y.message) x }
{}

/// A forged frame hands over a piece exactly where it is the frame of that piece, of a message
/// that was sent.
pub fn a_forged_frame_arrives()
    ensures { (m : Setup) (x : State) (bytes : List ℕ) (s u : Party) (j i : ℕ) →
        (HandsOver m x (Forge u bytes) s u j i ↔ IsSentFrame m x s u j i bytes) }
{}

/// One event at most is the first at which false bytes open.
pub fn one_event_is_the_first_false_one()
    ensures { (script : ScriptView) (n k : ℕ) →
        IsFirstFalse script n → IsFirstFalse script k → n ≡ k }
{}

// ---- frames

/// The roster of a script has the keys of each of its levels, and the guarantor's.
pub fn a_script_has_all_keys()
    ensures levels { (script : ScriptView) (p : Partition) → IsScript script →
        p.0 < length script.roster.levels →
        keys_at script.roster p ≡ Some ((setup_of script).keys p.0) }
    ensures guard { (script : ScriptView) → IsScript script →
        guard_of script.roster ≡ Some (setup_of script).guard }
{}

/// A frame stays the frame of its piece.
pub fn a_frame_stays()
    ensures { (m : Setup) (x : State) (e : Event) (s u : Party) (j i : ℕ) (bytes : List ℕ) →
        IsSentFrame m x s u j i bytes → IsSentFrame m (after m e x) s u j i bytes }
{}

/// In every state of a script each message that was sent fits frames, and a stream has at most
/// twice as many messages as there are events.
pub fn messages_fit_frames()
    ensures small { (script : ScriptView) (n : ℕ) → IsScript script → AreSmall (state_at script n) }
    ensures few { (script : ScriptView) (n : ℕ) (s r : Party) → IsScript script →
        length ((state_at script n).sent s r) ≤ 2 * length script.events }
{
    each_piece_has_a_frame_of_its_own();
}

/// The fields of a piece of a message that was sent are in their ranges.
pub fn sent_pieces_fit_frames()
    ensures { (m : Setup) (past : List Event) (s r : Party) (j i : ℕ) (body : List ℕ) →
        IsRoster m.roster → AreSmall (state m past) →
        slice_get ((state m past).sent s r) j ≡ Some body → i < pieces body →
        IsPiece (piece_of (address_of s) (address_of r) (number_of (partition_of m.roster s)) j
        body i) }
{}

/// Different pieces to one unit have different frames, by the laws of the sealing.
pub fn frames_are_apart()
    ensures setup { (m : Setup) (past : List Event) →
        IsSealing m.sealed → IsRoster m.roster → AreSmall (state m past) →
        FramesApart m (state m past) }
    ensures script { (script : ScriptView) (n : ℕ) → IsScript script →
        FramesApart (setup_of script) (state_at script n) }
{
    each_piece_has_a_frame_of_its_own();
}

// ---- files

/// A reply that has a content is of a block at or below the caller's level, under the version that
/// stands there; that content was written under that version, for that name and block.
pub fn files_are_read_down()
    ensures { (m : Setup) (before : List CallRow) (c : CallRow) (version : ℕ) (content : List ℕ) →
        content_in (reply m before c) ≡ Some (version, content) →
        ReadsDown m.roster before c version content }
{}

/// A question asks for a block that was written, under the version that it asks for.
pub fn questions_ask_for_what_was_written()
    ensures { (roster : RosterView) (before : List CallRow) (c : CallRow) (question : Question) →
        question_of roster before c ≡ Some question → AsksForWritten before question }
{}

/// Every reply has its fields in their ranges, and is read back from its spelling.
pub fn replies_keep_their_ranges()
    ensures ranges { (m : Setup) (before : List CallRow) (c : CallRow) →
        is_reply (reply m before c) ≡ true }
    ensures spelled { (m : Setup) (before : List CallRow) (c : CallRow) →
        reply_of (reply_text (reply m before c)) ≡ Some (reply m before c) }
{}

/// What a manager unit has sent to a party are the replies to that party's calls, in order.
pub fn managers_send_replies()
    ensures setup { (m : Setup) (past : List Event) (p : Partition) (r : Party) →
        FramesApart m (state m past) → IsRoster m.roster →
        (state m past).sent (Manager p) r ≡ replies_to m (Manager p) r (state m past).calls }
    ensures script { (script : ScriptView) (n : ℕ) (p : Partition) (r : Party) → IsScript script →
        (let x = state_at script n in
        x.sent (Manager p) r ≡ replies_to (setup_of script) (Manager p) r x.calls) }
{
    each_piece_has_a_frame_of_its_own();
}

// ---- the low part

/// What a party is told doesn't depend on the events and the plan rows that aren't at or below its
/// level.
pub fn only_the_low_part_counts()
    ensures own { (script : ScriptView) (level : Level) (r : Party) →
        level_of script.roster r ≡ Some level → told script r ≡ told (low level script) r }
    ensures below { (script : ScriptView) (level : Level) (r : Party) →
        is_low script.roster level r ≡ true → told script r ≡ told (low level script) r }
{}

/// The low part of a low part is the low part.
pub fn low_part_of_a_low_part()
    ensures { (script : ScriptView) (own level : Level) → is_at_most own level ≡ true →
        low own (low level script) ≡ low own script }
{}

/// Two scripts with one low part tell the same to each party at or below the level.
pub fn one_low_part_tells_the_same()
    ensures { (a b : ScriptView) (level own : Level) (r : Party) → low level a ≡ low level b →
        level_of a.roster r ≡ Some own → is_at_most own level ≡ true →
        told (low own a) r ≡ told (low own b) r }
{}

/// Scripts with one low part have one text for the hosts at or below the level.
pub fn twins_have_one_text()
    ensures { (level : Level) (a b : ScriptView) →
        low level a ≡ low level b → text_below level a ≡ text_below level b }
{}
