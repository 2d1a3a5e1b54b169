//! The directories of any Files-11 volume whose index file can be read, sound or not: their records in order, files found by name, and
//! the names and the lines that list them (Files-11 On-Disk Structure Level 1, "Directories").
//!
//! Nothing is written to the volume, and memory is taken by [`AllFiles`] and [`names`] alone. The crate stands on [`f11_reader`], for files, and on [`f11_dir`], for the
//! records of a block.
#![tactic(auto)]

mod dates;
mod directory;
mod directory_name;
mod facts;
mod fault;
mod found;
mod holding;
pub mod laws;
mod line_form;
mod list;
mod name_list;
mod own_name;
mod record_form;
mod record_line;
mod records;
mod search;
mod shown;
mod users;
mod walk;

pub use directory_name::DirectoryName;
pub use f11_volume::f11_map;
pub use fault::{ListFault, WalkFault};
pub use holding::has_records;
pub use line_form::LineForm;
pub use list::{list_directories, list_directory};
pub use name_list::names;
pub use records::stated_end;
pub use search::find;
pub use users::user_of;
pub use walk::content::{Absence, Content};
pub use walk::place::{FileAt, Place};
pub use walk::state::AllFiles;
