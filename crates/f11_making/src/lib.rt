//! What is asked of a Files-11 volume, one request after another, and the steps in which a file is made so.
//!
//! Requests are asked of a volume, or of whatever else answers them ([`Asked`]): [`ask`] asks one, [`read`], [`write`] and [`length`] those
//! on the file that is accessed. What makes a file from any source asks by the same steps: [`create`], [`extend`] and [`enter`].
//!
//! What is done to a file by its name, an [`Action`], and an empty file, [`make`], is said by the plan of what it asks: a tree of questions,
//! each by the answers before. [`carry_out`] does it on a volume. Whoever has other plans asks by [`ask_done`], [`ask_file_for`] and [`undo`].
#![tactic(auto)]

mod action;
mod asked;
mod attributes;
pub mod laws;
mod making;
mod named;
mod plans;
mod purge;
mod steps;
mod volume;

pub use action::Action;
pub use asked::{Asked, Asker, ask, length, read, write};
pub use attributes::{blocks_to_end, end, is_directory_name};
pub use f11_fcp;
pub use making::{Entry, create, enter, extend};
pub use named::{carry_out, make};
pub use steps::{ask_done, ask_file_for, is_fatal, undo};
