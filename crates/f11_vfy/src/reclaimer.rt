//! Reclaiming a volume: orphan headers are killed, slots of no file leave use, and blocks that no header names become free.

pub(crate) mod idle;
pub(crate) mod orphans;
pub(crate) mod space;
pub(crate) mod unreferenced;
pub(crate) mod whole;
