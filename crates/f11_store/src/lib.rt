//! What users of a Files-11 ODS-1 volume ask, what is answered, and the plain store of files and
//! directories in which the service's promise is said. Nothing here knows a disk.
//!
//! Stands on `f11_bytes` (words), `f11_rad50` (names) and `bitflags` (rights).
#![tactic(auto)]

mod callers;
mod files;
mod ident;
pub mod laws;
mod protection;
mod refusals;
mod requests;
pub mod worked;

pub use callers::{Lun, Task, Uic};
pub use f11_bytes;
pub use f11_rad50;
pub use files::{Attr, Change, FileId, Mode, name_words};
pub use ident::ident_with;
pub use protection::{Class, Right, Rights, allowed, is_of, may};
pub use refusals::Refusal;
pub use requests::{Reply, Request};
