//! What a request does with a directory.

/// What a request does with a directory.
#[derive(Clone, Copy)]
pub(crate) enum Purpose {
    /// It looks for a record.
    Look,
    /// It changes one.
    Change,
}
