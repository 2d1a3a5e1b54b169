//! What is done to each file of some.
ghost use Rattle.std.specs.Prelude.{◌≡◌, IfOk, MatchBool, None};
ghost use Rattle.f11_making.specs.Plans.{is_directory_name as is_directorys};
ghost use Rattle.f11_actions.specs.Changes.{AreActions, IsAction, KeepsHighest, choice_of};

use crate::directories::deletion;
use f11_bytes::NoMemory;
use f11_making::{Action, is_directory_name};
use f11_patterns::{Choice, highest_version};
use f11_rad50::Name;
use std::alloc::Global;

/// What is done to each file of some.
#[derive(Clone, Copy, Debug, PartialEq, Eq)]
pub enum Change {
    /// It is deleted, unless its name is that of a directory.
    Delete,
    /// It gets this protection word (Files-11 On-Disk Structure Level 1, "File Protection").
    Protect(u16),
    /// It is deleted as a lower version, unless its name is that of a directory: the highest version stays, and is there.
    Purge,
    /// It keeps the blocks up to its end.
    Truncate,
}

/// The action that purges a directory of one of its names; `None` where that is the name of a directory.
fn purging(directory: Name, names: &[Name], name: Name) -> Option<Action>
    ensures { MatchBool (is_directorys name) (result ≡ None)
        (KeepsHighest directory names.now name result) }
{
    if is_directory_name(&name) {
        return None;
    }
    let highest = highest_version(names, &name);
    Some(Action::Purge {
        directory,
        name,
        highest,
    })
}

impl Change {
    /// By what the names are chosen to which it is done.
    pub(crate) fn choice(self) -> Choice
        ensures { result ≡ choice_of self }
    {
        match self {
            Change::Delete | Change::Protect(_) | Change::Truncate => Choice::Meant,
            Change::Purge => Choice::Superseded,
        }
    }

    /// The action by which it is done to the file that a directory has under one of its names; `None` where a directory would be deleted.
    fn action(self, directory: Name, names: &[Name], name: Name) -> Option<Action>
        ensures { IsAction self directory names.now name result }
    {
        match self {
            Change::Delete => deletion(directory, name),
            Change::Protect(protection) => Some(Action::Protect {
                directory,
                name,
                protection,
            }),
            Change::Purge => purging(directory, names, name),
            Change::Truncate => Some(Action::Truncate { directory, name }),
        }
    }

    /// The actions by which it is done to each of the files that a directory has under these of its names, but to directories that would be
    /// deleted.
    ///
    /// # Errors
    ///
    /// `NoMemory` where there is no memory for them.
    pub(crate) fn actions(
        self,
        alloc: Global,
        directory: Name,
        names: &[Name],
        those: &[Name],
    ) -> Result<Vec<Action>, NoMemory>
        ensures { IfOk result (λ actions. AreActions self directory names.now those.now actions.items) }
    {
        let mut actions = Vec::new(alloc);
        for name in those {
            if let Some(action) = self.action(directory, names, *name) {
                actions.push(action)?;
            }
        }
        Ok(actions)
    }
}
