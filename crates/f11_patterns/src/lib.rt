//! Patterns of files' names, as users of RSX-11's PIP write them: `*.TXT;*`, `LOGIN.CMD`, `A%.*;1`.
//!
//! A [`Pattern`] is read from its text ([`Pattern::parse`]) and decided against a name ([`Pattern::fits`]), and against the names of a directory,
//! where it may ask for the highest version alone ([`Pattern::means`], [`Versions`]); [`Pattern::choose`] gives those of them that are meant.
//! [`next_version`] gives the name of a file that is made there without a version.
//! [`names_of`] gives the names that files of the host get, as they are or fitted to what a volume may have ([`fitted_text`]); [`host_names`] does so
//! for any kind of names, which a [`HostNaming`] says.
//! The crate stands on [`f11_rad50`], for names, on [`f11_bytes`], for octal digits, and on `arrayvec`, for texts of fitted names.
#![tactic(auto)]

mod choose;
mod errors;
mod fitting;
mod giving;
pub mod laws;
mod like;
mod meant;
mod name_parts;
mod names;
mod naming;
mod next;
mod pattern;
mod split;
#[cfg(test)]
mod tests;
mod versions;

pub use choose::Choice;
pub use errors::BadPattern;
pub use fitting::{FittedText, fitted_text};
pub use giving::{HostNaming, host_names};
pub use meant::{highest_version, is_highest};
pub use names::{HostNames, last_part, names_of};
pub use naming::OneName;
pub use next::next_version;
pub use pattern::Pattern;
pub use versions::Versions;
