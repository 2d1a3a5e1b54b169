//! What the words of a command line ask for.
//!
//! [`parse`] reads them, and gives [`Words`]: a command, and what each of its words spells. Which commands there are, and which words each
//! takes, stands in one table, [`Subcommand`]; [`clap`] is told of it, and tells words, options and flags apart. [`misread`] and [`refusal`]
//! tell why words aren't taken.
#![tactic(auto)]

mod args;
mod copies;
mod directory;
mod files;
mod host_files;
mod hosts;
mod program;
mod reading;
mod rt11;
mod spelled;
mod unread;
mod usage;
mod volumes;
mod words;
pub mod worked;

pub use directory::{Directory, read_directory, read_folder};
pub use hosts::split_hosts;
pub use reading::{Failure, parse};
pub use unread::{Unread, Why, misread, refusal};
pub use usage::Subcommand;
pub use words::{Manner, TakingMode, Words};
