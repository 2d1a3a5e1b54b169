//! A text that is no pattern.

use thiserror::Error;

/// A text that is not the pattern of a file's name.
#[derive(Clone, Copy, Debug, PartialEq, Eq, Error)]
#[error("bad pattern")]
pub struct BadPattern;
