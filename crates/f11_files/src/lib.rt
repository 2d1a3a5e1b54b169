//! The files of an open Files-11 volume as a plain store, without tasks.
//!
//! [`Files`] owns the device of an accepted volume, and its calls are the requests of the plain store of [`f11_store`] on the store of
//! the image (`store_of`): what its headers and its storage bitmap tell. On an honest device each image that stands meanwhile is accepted.
//! The crate stands on `f11_image_store`, which says what the store of an image is and what each kind of write makes of it.
#![tactic(auto)]

mod answer;
mod change;
mod create;
mod extend;
mod files;
mod find;
mod grow_index;
pub mod laws;
mod lay_out;
mod open;
mod remove;
mod structure;

pub use f11_vfy;
pub use files::Files;
pub use open::OpenFault;
