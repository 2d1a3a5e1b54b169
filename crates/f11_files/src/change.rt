//! What a file's first header says, and changes of it.

pub(crate) mod attributes;
pub(crate) mod fields;
