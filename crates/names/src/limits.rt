// Limits that several layers share.

/// In bytes: the most of which a name can be made, or that can be reserved. With such a limit a name fits a buffer of its own,
/// and giving a name never asks for memory.
pub const LONGEST_BASE: usize = 100;

/// In bytes: what the longest base makes with `$` and four digits, so that a base has all of its numbered forms or none.
pub const LONGEST_NAME: usize = 105;

/// The last number that can stand behind a base. Since numbers end, so does a search whose candidates are all vetoed.
pub const HIGHEST_NUMBER: u16 = 9999;

/// The most records that a caller can ask for: what one search and one listing cost is then known before the tables are.
pub const MOST_RECORDS: u32 = 4096;
