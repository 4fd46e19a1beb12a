ghost use Rattle.std.specs.Prelude.{◌≡◌, ℕ, ◌+◌, ◌*◌, ◌<◌, ◌≤◌, true, [], ◌∷◌, ◌++◌, length, map, vec_len, vec_capacity};
ghost use Rattle.std.specs.List.{range_with_len};
ghost use Rattle.frame.specs.Pieces.{pieces, piece_of};
ghost use Rattle.host_side.specs.Hosts.{is_for};
ghost use Rattle.ring_link.specs.Ends.{received_by, taken_by, spare};
ghost use Rattle.unit_core.specs.Sending.{answer_of, number_for, answers_to};
ghost use Rattle.unit_core.specs.inside.Messages.{AreFew};
ghost use Rattle.unit_core.specs.inside.Ours.{mine};
ghost use Rattle.unit_core.specs.inside.Ends.{StaysEnd};
ghost use Rattle.unit_core.specs.inside.Sides.{SendsAll, Hears, HearsSome, HostTurned};

use crate::messages::Messages;
use crate::parts::HostOut;
use crate::rows::SendAnswer;
use crate::sends::Outgoing;
use frame::{Piece, cut, pieces};
use host_side::HostSide;
use ring_link::{Gate, HostEnd};

/// Offers the pieces of a message.
fn offer_all<G: Gate>(
    host: &HostSide,
    end: &mut HostEnd,
    gate: &G,
    to: u8,
    number: u32,
    message: &[u8],
)
    requires short { length message.now ≤ 5632 }
    requires room { pieces message.now ≤ spare end.old }
    ensures taken { taken_by end.new ≡ taken_by end.old
        ++ map (piece_of host.now.address to host.now.partition number message.now)
        (range_with_len 0 (pieces message.now)) }
    ensures received { received_by end.new ≡ received_by end.old }
    ensures spare { spare end.old ≤ spare end.new + pieces message.now }
    ensures same { StaysEnd end.old end.new }
{
    for i in 0..pieces(message.len()) {
        let piece = cut(host.address(), to, host.partition(), number, message, i);
        end.offer(gate, piece);
    }
}

/// Takes one send, and offers its pieces if it is accepted.
#[tactic(auto, using(crate::proofs::Offering::few_pieces))]
fn send_one<G: Gate>(
    host: &mut HostSide,
    end: &mut HostEnd,
    gate: &G,
    send: &Outgoing,
) -> SendAnswer
    requires room { 64 ≤ spare end.old }
    ensures answer { result ≡ answer_of (number_for host.old.streams send.now) }
    ensures sends { SendsAll (send.now ∷ []) host.old host.new end.old end.new }
    ensures spare { spare end.old ≤ spare end.new + 64 }
{
    match host.send(send.to, &send.message) {
        Ok(number) => {
            offer_all(host, end, gate, send.to, number, &send.message);
            SendAnswer::Sent(number)
        }
        Err(why) => SendAnswer::Refused(why),
    }
}

/// Takes the sends, and offers the pieces of those that are accepted.
fn send_all<G: Gate>(
    host: &mut HostSide,
    end: &mut HostEnd,
    gate: &G,
    sends: &[Outgoing],
    answers: &mut Vec<SendAnswer>,
)
    requires room { 64 * length sends.now ≤ spare end.old }
    requires answers { vec_len answers.old + length sends.now ≤ vec_capacity answers.old }
    ensures sends { SendsAll sends.now host.old host.new end.old end.new }
    ensures answers { answers.new.items
        ≡ answers.old.items ++ answers_to host.old.streams sends.now }
    ensures memory { vec_capacity answers.new ≡ vec_capacity answers.old }
{
    for send in sends {
        let answer = send_one(host, end, gate, send);
        answers.push_reserved(answer);
    }
}

/// Hears a piece of the turn, the first being number 0.
pub(crate) fn hear(
    host: &mut HostSide,
    number: u16,
    piece: &Piece,
    messages: &mut Messages,
    body: &mut [u8; 5632],
)
    requires mine { is_for host.old piece.now ≡ true }
    requires number { number < 256 }
    requires few { AreFew number messages.old.list }
    ensures { Hears host.old host.new number (piece.now ∷ []) messages.old messages.new }
{
    let from = piece.from();
    if let Some(given) = host.receive(piece, body) {
        let body = &body[..usize::from(given.length)];
        messages.push(number, from, given.message, body);
    }
}

/// Hears a piece if it is for the host, and says how many were heard. That it always is, is known
/// only once both ends are in one thread.
fn hear_if_mine(
    host: &mut HostSide,
    number: u16,
    piece: &Piece,
    messages: &mut Messages,
    body: &mut [u8; 5632],
) -> u16
    requires number { number < 256 }
    requires few { AreFew number messages.old.list }
    ensures hears { Hears host.old host.new number (mine host.old (piece.now ∷ []))
        messages.old messages.new }
    ensures count { result ≡ number + length (mine host.old (piece.now ∷ [])) }
    ensures few { result ≤ number + 1 }
{
    if !host.takes(piece) {
        return number;
    }
    hear(host, number, piece, messages, body);
    number + 1
}

/// Hears what comes while the other side works, and says how many pieces were heard.
fn hear_some<G: Gate>(
    host: &mut HostSide,
    end: &mut HostEnd,
    gate: &G,
    polls: u16,
    messages: &mut Messages,
    body: &mut [u8; 5632],
) -> u16
    requires polls { polls ≤ 256 }
    requires none { messages.old.list ≡ [] }
    ensures { HearsSome polls host.old host.new end.old end.new messages.old messages.new
        result }
{
    let mut heard = 0;
    for _ in 0..polls {
        let Some(piece) = end.poll(gate) else {
            return heard;
        };
        heard = hear_if_mine(host, heard, &piece, messages, body);
    }
    heard
}

/// Takes the sends, and then hears what comes. Says how many pieces were heard.
pub(crate) fn host_turn<G: Gate>(
    host: &mut HostSide,
    end: &mut HostEnd,
    gate: &G,
    sends: &[Outgoing],
    polls: u16,
    out: &mut HostOut,
) -> u16
    requires sends { length sends.now ≤ 4 }
    requires polls { polls ≤ 256 }
    requires room { 256 ≤ spare end.old }
    requires answers { out.old.answers.items ≡ [] }
    requires messages { out.old.messages.list ≡ [] }
    ensures { HostTurned sends.now polls host.old host.new end.old end.new out.old out.new
        result }
{
    send_all(host, end, gate, sends, &mut out.answers);
    let (messages, body) = (&mut out.messages, &mut out.body);
    hear_some(host, end, gate, polls, messages, body)
}
