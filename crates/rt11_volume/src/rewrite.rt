//! A segment of the directory that is put together anew.

pub(crate) mod assembly;
pub(crate) mod draft;
pub(crate) mod edit;
pub(crate) mod overwrite;
