//! Files that are deleted or cut, and the headers and blocks that go.

pub(crate) mod delete;
pub(crate) mod drops;
pub(crate) mod truncate;
