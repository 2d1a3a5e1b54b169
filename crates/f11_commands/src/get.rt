//! The command `get`.

pub mod all;
pub mod blocks;
pub mod found;
mod missing;
pub mod name;
pub mod open;
pub mod seek;
pub mod several;
pub mod sought;
mod told;
pub mod write;
