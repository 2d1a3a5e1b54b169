//! What a user has done to files of a Files-11 volume by their names: they are deleted, purged, renamed, protected, truncated; and directories
//! are made.
//!
//! [`print_actions`] verifies a volume once, mounts it once, and does one [`Action`] after another: it writes a line for each, and one that
//! counts them. One that is refused doesn't end the others, unless memory ran out, or none is to be tried behind it ([`Behind`]). Each is a plan of requests to the file processor
//! ([`f11_making`]), so that the volume is accepted at each moment, and each leaves every file as it was but the one that it names, its
//! directories and the index file. [`print_deletion`] deletes no directory that has records, and [`renaming`] leaves directories what they are.
//! [`print_making`] makes a directory with the protection that the volume gives its files. [`print_chosen`] does one [`Change`] to each file of
//! a directory whose name a pattern chooses; [`meant_names`] are those that it means, [`found_name`] is the one that a word names, and
//! [`new_names`] are those that files of the host get, and [`new_rt_names`] those on an RT-11 volume. [`begin_taking`] decides which files `get` takes out by a
//! pattern. [`print_would`] and [`print_taking`] tell what would be done, with nothing done.
#![tactic(auto)]

mod acting;
mod behind;
mod change;
mod chosen;
mod command;
mod deletion;
mod directories;
mod folder;
pub mod laws;
mod line;
mod making;
mod meant;
mod named;
mod protection;
mod rt_named;
mod taking;
mod would;

pub use behind::Behind;
pub use change::Change;
pub use chosen::print_chosen;
pub use command::print_actions;
pub use deletion::print_deletion;
pub use directories::renaming;
pub use f11_home::HomeFault;
pub use f11_making::{Action, is_directory_name};
pub use folder::{is_left_out, sort_names};
pub use line::{write_all_copy_line, write_copy_line, write_rt_copy_line};
pub use making::print_making;
pub use meant::meant_names;
pub use named::{found_name, new_names, next_name};
pub use protection::default_protection;
pub use rt_named::new_rt_names;
pub use taking::{begin_taking, print_taking};
pub use would::{print_would, print_would_act};
