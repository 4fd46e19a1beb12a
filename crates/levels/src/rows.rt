use crate::level::{Level, Partition};
use crate::name::LevelName;

/// A level of a roster with its name.
#[derive(Clone, Copy, Debug)]
pub struct LevelRow {
    pub name: LevelName,
    pub level: Level,
}

/// A host of a roster.
#[derive(Clone, Copy, Debug)]
pub struct HostRow {
    /// 1 to 250.
    pub address: u8,
    pub partition: Partition,
}
