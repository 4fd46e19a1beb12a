use levels::Partition;

/// What a question is answered by.
#[derive(Clone, Copy, Debug, PartialEq, Eq)]
pub enum StoreAction {
    /// The record that was put last in the slot.
    Honest,
    /// The record that was put last in another slot.
    Of { level: u8, version: u64 },
    /// The record with one byte changed by exclusive or, at the offset modulo its length.
    Flip { offset: u32, xor: u8 },
    /// No record.
    Gone,
}

/// The action for one question of a level. The k-th row of a level is for its k-th question.
#[derive(Clone, Copy, Debug, PartialEq, Eq)]
pub struct PlanRow {
    pub reader: Partition,
    pub action: StoreAction,
}
