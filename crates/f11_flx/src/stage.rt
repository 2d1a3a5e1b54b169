//! How far the conversion of a line is.

/// What is done with a line.
#[derive(Clone, Copy, Debug)]
pub enum Stage {
    /// It is being read; whether CR was read last, which is a byte of the line unless LF follows.
    Reading(bool),
    /// It is ended, and so many bytes of its record were given.
    Giving(usize),
}
