//! A file on a device, by its name, and the first entry of the directory that is wanted.

pub(crate) mod entry;
pub(crate) mod file;
