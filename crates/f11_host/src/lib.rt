//! Files of the host, made files on a Files-11 volume.
//!
//! [`copy_from_host`] makes a file of the bytes that a reader gives, as they are, and [`copy_text_from_host`] one of the lines of a text.
//! [`read_piece`] reads the bytes of one block.
#![tactic(auto)]

mod copy;
mod filling;
mod finishing;
mod making;
mod piece;
mod refusal;
mod text;
mod text_copy;
mod text_making;

pub use copy::copy_from_host;
pub use piece::read_piece;
pub use refusal::HostRefusal;
pub use text_copy::copy_text_from_host;
