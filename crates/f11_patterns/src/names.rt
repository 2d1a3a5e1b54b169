//! The names that files of the host get on a Files-11 volume, and the last parts of their paths.
ghost use Rattle.std.specs.Prelude.{◌≤◌, IfOk, drop, length, map};
ghost use Rattle.f11_patterns.specs.Giving.{GetNames, IsLastPart};
ghost use Rattle.f11_patterns.specs.Naming.{file_naming};

use crate::fitting::{candidate, has_some};
use crate::giving::{HostNaming, host_names};
use crate::meant::are_alike;
use crate::naming::OneName;
use f11_bytes::NoMemory;
use f11_rad50::Name;
use std::alloc::Global;

/// How a file of the host is named whose last part names none.
#[derive(Clone, Copy, Debug, PartialEq, Eq)]
pub enum HostNames {
    /// Not at all: names are taken as they are.
    AsTheyAre,
    /// By a name that is fitted to it.
    Fitted,
}

/// Where the last part of a path begins: behind its last slash, and at the front of one without.
fn last_start(path: &[u8]) -> usize
    ensures few { result ≤ length path.now }
    ensures last { IsLastPart path.now (drop result path.now) }
{
    let mut start = 0;
    for (at, character) in path.iter().enumerate() {
        if *character == b'/' {
            start = at + 1;
        }
    }
    start
}

/// The last part of a path: what stands behind its last slash, and all of one without.
pub fn last_part(path: &[u8]) -> &[u8]
    ensures last { IsLastPart path.now result.now }
{
    &path[last_start(path)..]
}

/// Names of Files-11.
struct FileNaming;

impl HostNaming<Name> for FileNaming {
    ghost naming = { file_naming };

    fn own_name(&self, there: &[Name], part: &[u8]) -> Option<Name> {
        match OneName::of(part) {
            Some(named) => Some(named.next_in(there)),
            None => None,
        }
    }

    fn has_some(&self, part: &[u8]) -> bool {
        has_some(part)
    }

    fn candidate(&self, part: &[u8], number: usize) -> Name {
        candidate(part, number)
    }

    fn are_alike(&self, name: &Name, one: &Name) -> bool {
        are_alike(name, one)
    }
}

/// The names that files of the host with these paths get in a directory with those names ([`host_names`]): each by the last part of its path
/// ([`OneName::next_in`]). One whose last part names no file gets `None`, or, where names are fitted, the first candidate for it
/// ([`fitted_text`](crate::fitted_text), with up to nine characters in its name) of whose name and type none is, with version 1, and `None` where no
/// character of it stays, or none of a million candidates is free.
///
/// # Errors
///
/// `NoMemory` where there is no memory for them.
pub fn names_of(
    alloc: Global,
    there: Vec<Name>,
    paths: &[&str],
    fitting: HostNames,
) -> Result<Vec<Option<Name>>, NoMemory>
    ensures names { IfOk result (λ names. GetNames file_naming fitting there.items
        (map (λ path. path.now) paths.now) names.items) }
{
    host_names(alloc, &FileNaming, there, paths, fitting)
}
