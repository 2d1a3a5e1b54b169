//! Copies between a Files-11 volume and an RT-11 one: how the records of a file become the lines of a text, and the lines
//! of a text records again (RSX-11M Utilities manual, FLX).
//!
//! [`copy_to_rt`] and [`copy_from_rt`] are the copies, as they are or as text. [`Records`] walks over the records of a file,
//! told the word at each. [`ToText`] converts a file's bytes into the text of its records, and [`ToRecords`] a text's bytes
//! into the variable records of its lines; both take the bytes in whatever pieces they come, and fill blocks.
//! [`text_attributes`] and [`image_attributes`] are the attributes of a copy, and [`image_blocks`] is how many blocks a copy
//! of a file as it is takes. None of them takes memory, but [`copy_from_rt`] where the index file gets slots first.
//!
//! A copy asks requests of a volume, or of whatever else answers them ([`f11_making::Asked`]), and undoes them by [`undo`]. The blocks of a
//! text are written by [`write_lines`] and [`end_lines`], of which [`Dry`] counts them before a file is made.
#![tactic(auto)]

mod attributes;
mod copies;
pub mod copy_laws;
mod dry;
mod filling;
mod from_rt;
mod into_rt;
pub mod laws;
mod layout;
mod line_end;
mod lines;
mod making;
pub mod making_laws;
mod mode;
mod pass;
mod place;
mod plan;
mod pour;
mod put;
mod records;
mod refusal;
mod rt_source;
mod source;
mod stage;
mod takes;
mod target;
mod to_records;
mod to_rt;
mod to_text;
mod transfer;
mod undoing;
pub mod worked;
mod writing;

pub use attributes::{
    MOST_BLOCKS, image_attributes, image_attributes_to, image_blocks, text_attributes,
};
pub use dry::Dry;
pub use f11_making::{self, f11_fcp};
pub use filling::Filling;
pub use from_rt::copy_from_rt;
pub use into_rt::copy_to_rt;
pub use layout::Layout;
pub use line_end::LineEnd;
pub use lines::{Extent, end_lines};
pub use mode::CopyMode;
pub use records::{BadRecord, Records};
pub use refusal::FlxRefusal;
pub use target::make_file;
pub use to_records::{LONGEST_LINE, LineTooLong, ToRecords};
pub use to_text::ToText;
pub use undoing::undo;
pub use writing::write_lines;
