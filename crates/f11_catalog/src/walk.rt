//! All files of a volume, one after another.

pub mod all_directories;
pub mod begin;
pub mod content;
pub mod directories;
pub mod entered;
pub mod following;
pub mod led;
pub mod lost;
pub mod next;
pub mod numbers;
pub mod place;
pub mod state;
pub mod unnamed;
