//! Actions that leave directories what they are.
ghost use Rattle.std.specs.Prelude.{◌≡◌, ◌≢◌, MatchOption, false, true};
ghost use Rattle.f11_making.specs.Plans.{is_directory_name};
ghost use Rattle.f11_making.specs.declared.action.Action.TheVariants as action;

use f11_making::{Action, is_directory_name};
use f11_rad50::Name;

/// The deletion of a file; `None` where its name is that of a directory, whose files would be in none then.
pub(crate) fn deletion(directory: Name, name: Name) -> Option<Action>
    ensures { MatchOption result (is_directory_name name ≡ true)
        (λ a. (is_directory_name name ≡ false) × (a ≡ action.Delete directory name)) }
{
    if is_directory_name(&name) {
        None
    } else {
        Some(Action::Delete { directory, name })
    }
}

/// The renaming of a file, to a name in the directory `to`; `None` where one of the two names is that of a directory, and the other isn't: a
/// directory wouldn't be one by its name then, or what is none would be.
pub fn renaming(directory: Name, name: Name, to: Name, new: Name) -> Option<Action>
    ensures { MatchOption result (is_directory_name name ≢ is_directory_name new)
        (λ a. (is_directory_name name ≡ is_directory_name new) × (a ≡ action.Rename directory name to new)) }
{
    if is_directory_name(&name) == is_directory_name(&new) {
        Some(Action::Rename {
            directory,
            name,
            to,
            new,
        })
    } else {
        None
    }
}
