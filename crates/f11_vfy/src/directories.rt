//! The directories of a volume: what is noted of their records.

pub(crate) mod blank;
pub(crate) mod contents;
pub(crate) mod flaws;
pub(crate) mod gathered;
pub(crate) mod notes;
pub(crate) mod walk;
