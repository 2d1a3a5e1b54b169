//! Where the fields of a map area stand (Files-11 On-Disk Structure Level 1, "Map Area"), in bytes from its start.

/// M.ESQN, a byte: the segment number.
pub const SEGMENT: usize = 0;

/// M.ERVN, a byte: the relative volume of the next header.
pub const LINK_VOLUME: usize = 1;

/// M.EFNU, a word: the file number of the next header.
pub const LINK_NUMBER: usize = 2;

/// M.EFSQ, a word: the file sequence number of the next header.
pub const LINK_SEQUENCE: usize = 4;

/// M.CTSZ, a byte: the size of a pointer's count.
pub const COUNT_SIZE: usize = 6;

/// M.LBSZ, a byte: the size of a pointer's LBN.
pub const LBN_SIZE: usize = 7;

/// M.USE, a byte: the words of pointers in use.
pub const IN_USE: usize = 8;

/// M.MAX, a byte: the words of pointers that there may be.
pub const MOST: usize = 9;

/// Where the pointers begin, four bytes each.
pub const POINTERS: usize = 10;
