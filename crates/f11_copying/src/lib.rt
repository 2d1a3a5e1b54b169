//! Files made on a Files-11 volume of the blocks of a source, each with its owner, its protection, its ident area and its attributes: what a
//! copy of a volume is made by.
//!
//! What is made is a [`FileToMake`], and its blocks come from whatever gives [`Blocks`], one after another. [`copy_file`] makes it, by requests
//! to the file processor: what it asks, of the volume and of the source by turns, is said by a course, a tree of questions, each by the answers
//! before.
#![tactic(auto)]

mod copying;
mod fault;
mod file;
mod filling;
pub mod laws;
mod making;
mod moved;
mod old_file;
mod old_header;
mod source;
mod steps;
#[cfg(test)]
mod tests;

pub use copying::copy_file;
pub use f11_making;
pub use fault::CopyFault;
pub use file::FileToMake;
pub use moved::Moved;
pub use old_file::OldFile;
pub use old_header::file_told;
pub use source::Blocks;
