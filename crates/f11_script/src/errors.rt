//! What ends a script before its last line.

use thiserror::Error;

/// Why the work on a script ended before its last line (profile).
#[derive(Clone, Copy, PartialEq, Eq, Debug, Error)]
pub enum ScriptError {
    /// The script can't be read further.
    #[error("the script cannot be read")]
    ReadFault,
    /// The answers can't be written further.
    #[error("the answers cannot be written")]
    WriteFault,
    /// The script has more than 16,777,216 bytes.
    #[error("the script is too long")]
    TooLong,
}

/// How often in a row an interrupted read or write is tried again.
pub(crate) const TRIES: u32 = 65536;
