//! The command `get --all`.

pub mod begin;
pub(crate) mod counts;
pub mod left_out;
pub(crate) mod line;
pub mod next;
pub mod state;
pub(crate) mod taken_text;
pub(crate) mod taking;
pub mod texts;
