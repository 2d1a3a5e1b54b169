//! The frame of a volume: its home block, its index file, its own files, and where its storage bitmap is.

pub(crate) mod bitmap_file;
pub(crate) mod control;
pub(crate) mod earlier;
pub(crate) mod framing;
pub(crate) mod own_files;
pub(crate) mod read;
