use crate::name::{Content, Name, NameList};

/// What a manager unit is asked. A level is its number in the roster.
#[derive(Debug, Drop)]
pub enum Call {
    /// Writes a file of one block.
    Put { name: Name, content: Content },
    /// The first block of a file.
    Get { level: u8, name: Name },
    /// The names of a level.
    List { level: u8 },
    Remove { name: Name },
    /// Writes one block more of a file.
    Append { name: Name, content: Content },
    /// A block of a file, by its number from 0 to 63.
    GetBlock { level: u8, name: Name, block: u8 },
}

/// What a manager unit answers.
#[derive(Debug, Drop)]
pub enum Reply {
    /// It was written, under this version.
    Done(u64),
    /// The first block of a file.
    Bytes {
        version: u64,
        content: Content,
    },
    /// The level isn't at or below the caller's.
    Refused,
    /// There is no such file.
    Missing,
    /// The store has lost or changed what was written under this version.
    Damaged(u64),
    /// There is no room for one more.
    Full,
    Removed,
    /// The names of a level.
    Names(NameList),
    /// It was no call.
    Bad,
    /// A block of a file, which has so many, 1 to 64.
    Block {
        version: u64,
        count: u8,
        content: Content,
    },
    /// The file has only so many blocks, 1 to 64.
    Past(u8),
}
