/// Why a unit refuses a send. A refused send draws no number.
#[derive(Clone, Copy, Debug, PartialEq, Eq)]
pub enum SendRefused {
    /// The receiver is no partner of the sender.
    NoPartner,
    /// The message has more than 5,632 bytes.
    TooLong,
    /// The stream's next number is 4,294,967,295, its last.
    Spent,
}
