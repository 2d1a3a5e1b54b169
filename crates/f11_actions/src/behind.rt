//! What is done behind an action that is refused.

/// What is done behind an action that is refused, where others were asked for.
#[derive(Clone, Copy, Debug, PartialEq, Eq)]
pub enum Behind {
    /// The others are.
    GoesOn,
    /// None is: the first that is refused is the last that is tried.
    Stops,
}
