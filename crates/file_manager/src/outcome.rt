ghost use Rattle.std.specs.Prelude.{◌≡◌, None};

use file_calls::Reply;
use untrusted_store::Slot;

/// The slot that the store was asked for, and whether its answer opened as the current block.
#[derive(Clone, Copy, Debug, PartialEq, Eq)]
pub struct Got {
    pub slot: Slot,
    pub current: bool,
}

/// What a call is answered, and what the store was asked for it.
#[derive(Debug, Drop)]
pub struct Outcome {
    pub reply: Reply,
    pub got: Option<Got>,
}

impl Outcome {
    /// The outcome of a call that is no question.
    pub(crate) fn unasked(reply: Reply) -> Outcome
        ensures { result ≡ record { reply = reply; got = None } }
    {
        Outcome { reply, got: None }
    }
}
