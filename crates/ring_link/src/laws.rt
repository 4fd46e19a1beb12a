ghost use Rattle.std.specs.Prelude.{◌≡◌, ◌<◌, Some, List, [], ◌∷◌, ◌++◌, take};
ghost use Rattle.frame.specs.Pieces.{PieceView};
ghost use Rattle.ring_link.specs.EndView.{EndView};
ghost use Rattle.ring_link.specs.Ends.{received_by, IsOffer, backlog_left, first};
ghost use Rattle.ring_link.specs.Links.{received_at, sent_towards, backlog_towards, ring_towards, pending_towards};
ghost use Rattle.ring_link.specs.Steps.{Direction, State, Step, Pop, Moves, Leads, IsSchedule, is_offering, start_with, all_pieces, towards, IsFinished};
ghost use Rattle.ring_link.specs.Calls.{OffersIn, ReceivesIn, kinds_towards, is_no_pop, is_receiving, offer_and_pushes, direction_of, next_step};
ghost use Rattle.ring_link.specs.declared.gate.Side.{Side};
ghost use Rattle.ring_link.specs.declared.link.Link.{Link};

/// However the steps of the two sides fall, no piece is lost, repeated or overtaken.
pub fn each_piece_arrives_in_order()
    ensures all { (to_host to_net : List PieceView) (steps : List Step) (s : State) →
        IsSchedule steps (start_with to_host to_net) s →
        (all_pieces s.to_host ≡ to_host) × (all_pieces s.to_net ≡ to_net) }
    ensures finished { (to_host to_net : List PieceView) (steps : List Step) (s : State) →
        IsSchedule steps (start_with to_host to_net) s →
        IsFinished s.to_host → IsFinished s.to_net →
        (s.to_host.received ≡ to_host) × (s.to_net.received ≡ to_net) }
{}

/// What the contract of a call says of its end is what the call's steps do, whatever the other side
/// does between them: an offer is one step and then pushes, a poll that answers is a pop, and to
/// settle is a pop, or a drain where the ring is empty.
pub fn calls_are_steps()
    ensures offer { (before : List PieceView) (side : Side) (steps : List Step) (s t : State)
        (old new : EndView) (x : PieceView) (todo : List PieceView) (call : IsOffer old new x) →
        Leads steps s t → kinds_towards side is_no_pop steps ≡ offer_and_pushes call.count →
        (towards side s).todo ≡ x ∷ todo → OffersIn before old (towards side s) →
        ((towards side t).todo ≡ todo) × OffersIn before new (towards side t) }
    ensures poll { (before : List PieceView) (side : Side) (steps : List Step) (s t : State)
        (old : EndView) →
        Leads steps s t → kinds_towards side is_receiving steps ≡ Pop ∷ [] →
        ReceivesIn before old (towards side s) →
        (x : PieceView) × ((new : EndView) → received_by new ≡ received_by old ++ x ∷ [] →
        ReceivesIn before new (towards side t)) }
    ensures settle { (side : Side) (old new : Link) (x : PieceView) →
        first (pending_towards side old) ≡ Some x →
        received_at side old ++ ring_towards side old ≡ sent_towards side old →
        sent_towards side new ≡ sent_towards side old →
        received_at side new ≡ received_at side old ++ take 1 (ring_towards side old) →
        backlog_towards side new
        ≡ backlog_left (ring_towards side old) (backlog_towards side old) →
        Moves (next_step (ring_towards side old)) (direction_of side old)
        (record (direction_of side new) { received = received_at side old ++ x ∷ [] }) }
{}
