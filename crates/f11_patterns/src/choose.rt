//! The names of a directory that are chosen by a pattern.
ghost use Rattle.std.specs.Prelude.{◌↔◌, IfOk, IsTrue};
ghost use Rattle.f11_patterns.specs.Chosen.{AreChosen, IsChosen, IsFirst};
ghost use Rattle.f11_patterns.specs.Lent.{parts_of};

use crate::pattern::Pattern;
use f11_bytes::NoMemory;
use f11_rad50::Name;
use std::alloc::Global;

/// By what names of a directory are chosen.
#[derive(Clone, Copy, Debug, PartialEq, Eq)]
pub enum Choice {
    /// The pattern means them ([`Pattern::means`]).
    Meant,
    /// A purge deletes them ([`Pattern::supersedes`]).
    Superseded,
}

impl Pattern<'_> {
    /// The names of a directory that are chosen, in their order, each once: by a name the first record with it is found. Steps: at most twice
    /// the square of how many names there are.
    ///
    /// # Errors
    ///
    /// `NoMemory` where there is no memory for them.
    pub fn choose(
        &self,
        alloc: Global,
        choice: Choice,
        names: &[Name],
    ) -> Result<Vec<Name>, NoMemory>
        ensures chosen { IfOk result (λ those.
            AreChosen choice (parts_of self.now) names.now those.items) }
    {
        let mut those = Vec::new(alloc);
        for (at, name) in names.iter().enumerate() {
            if self.is_chosen_first(choice, names, &names[..at], name) {
                those.push(*name)?;
            }
        }
        Ok(those)
    }

    /// Whether a name among all is chosen, and none of those before it is the same.
    fn is_chosen_first(&self, choice: Choice, all: &[Name], before: &[Name], name: &Name) -> bool
        ensures { IsTrue result ↔ IsFirst (IsChosen choice (parts_of self.now) all.now) before.now name.now }
    {
        self.is_chosen(choice, all, name) && !before.contains(name)
    }

    /// Whether a name among all is chosen.
    fn is_chosen(&self, choice: Choice, all: &[Name], name: &Name) -> bool
        ensures { IsTrue result ↔ IsChosen choice (parts_of self.now) all.now name.now }
    {
        match choice {
            Choice::Meant => self.means(all, name),
            Choice::Superseded => self.supersedes(all, name),
        }
    }
}
