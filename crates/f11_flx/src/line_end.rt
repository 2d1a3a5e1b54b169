//! What ends a line of a text.

/// What ends a line of a text.
#[derive(Clone, Copy, Debug, PartialEq, Eq)]
pub enum LineEnd {
    /// CR LF, as on an RT-11 volume.
    CrLf,
    /// LF, as on a host.
    Lf,
}
