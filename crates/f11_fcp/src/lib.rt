//! The file processor: eight tasks at one Files-11 volume, whose requests are served one after another, as F11ACP does.
//!
//! A [`Volume`] is mounted from a volume that the verifier accepts. While its device is honest and no transfer fails, each request is a step
//! of the plain store of `f11_store`: files, free blocks and slots, and what tasks hold. It stands on `f11_files`, which knows no tasks.
#![tactic(auto)]

mod accesses;
mod answer;
mod answers;
mod append;
mod attributes;
mod blocks;
mod call;
mod contiguous;
mod create;
mod deaccess;
mod delete;
mod directory;
mod enter;
mod entry;
mod extend;
mod find;
mod grow_index;
pub mod laws;
mod length;
mod list;
mod look;
mod purpose;
mod release;
mod remove;
mod request_access;
mod rights;
mod search;
mod space;
mod table;
mod tail;
mod truncate;
mod volume;
mod windows;

pub use call::Call;
pub use f11_files;
pub use f11_files::f11_vfy;
pub use volume::{Failed, Volume};
