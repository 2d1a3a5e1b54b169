//! The writes to a floppy, which only clauses read.
ghost use Rattle.f11_floppies.specs.Moments.{Adds};

use std::snapshot::Snapshot;

/// The bytes of an image after each write so far, the newest first. It takes no memory for them.
#[derive(Drop)]
pub enum Moments {
    Nothing,
    Then(Snapshot<Moments>, Snapshot<Vec<u8>>),
}

impl Moments {
    /// Adds the bytes as they are.
    pub fn add(&mut self, bytes: &Vec<u8>)
        ensures { Adds bytes.now.items self.old self.new }
    {
        let earlier = Snapshot::of(self);
        *self = Moments::Then(earlier, Snapshot::of(bytes));
    }
}
