//! The command `rt-get --all`: every file of an RT-11 volume, one after another.

pub mod begin;
pub mod found;
pub mod next;
pub mod state;
pub mod taking;
