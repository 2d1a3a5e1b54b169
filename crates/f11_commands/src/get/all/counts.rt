//! How many files were taken out, and how many weren't.
ghost use Rattle.std.specs.Prelude.{◌≡◌, Bool};
ghost use Rattle.f11_commands.specs.AllCommand.{more_if};

/// How many files were taken out, and how many weren't. A count that reaches `u64::MAX` stays.
#[derive(Clone, Copy, Debug, PartialEq, Eq)]
pub(crate) struct Counts {
    /// Those whose bytes were written to the host, as far as they are there.
    pub(crate) copied: u64,
    /// Those of them that broke off.
    pub(crate) cut: u64,
    /// Those that were left out.
    pub(crate) left_out: u64,
    /// Those of the copied ones that no directory names.
    pub(crate) lost: u64,
}

impl Counts {
    ghost use Rattle.f11_commands.specs.AllCommand.{no_counts, with_copied, with_left_out};

    /// None so far.
    pub(crate) fn none() -> Counts
        ensures { result ≡ no_counts }
    {
        Counts {
            copied: 0,
            cut: 0,
            left_out: 0,
            lost: 0,
        }
    }

    /// One more was taken out.
    pub(crate) fn add_copied(&mut self, is_cut: bool, is_lost: bool)
        ensures { self.new ≡ with_copied is_cut is_lost self.old }
    {
        *self = Counts {
            copied: count_if(self.copied, true),
            cut: count_if(self.cut, is_cut),
            left_out: self.left_out,
            lost: count_if(self.lost, is_lost),
        };
    }

    /// One more was left out, if it is wanting.
    pub(crate) fn add_left_out(&mut self, is_wanting: bool)
        ensures { self.new ≡ with_left_out is_wanting self.old }
    {
        self.left_out = count_if(self.left_out, is_wanting);
    }
}

/// One more, if it counts.
pub(crate) fn count_if(count: u64, counts: bool) -> u64
    ensures { result ≡ more_if counts count }
{
    if counts {
        count.saturating_add(1)
    } else {
        count
    }
}
