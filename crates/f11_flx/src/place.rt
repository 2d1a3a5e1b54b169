//! Where reading the records of a file may stop.

/// What comes next of a file's records.
#[derive(Clone, Copy, Debug)]
pub enum Place {
    /// A record, or the end of the file.
    Record,
    /// The high byte of a length word with this low byte.
    High(u8),
    /// So many bytes of a record, then what ends a line, and then a pad byte or none.
    Within(u16, bool),
    /// LF, and then a pad byte or none.
    LineFeed(bool),
    /// A pad byte.
    Pad,
}
