//! A walk over the records of a file.
ghost use Rattle.std.specs.Prelude.{◌≡◌, ◌↔◌, ◌+◌, ◌*◌, ◌<◌, ◌≤◌, None, length, IsErr, IfOk, OnErr};
ghost use Rattle.f11_flx.specs.Records.{layout_of, some_of};

use crate::attributes::layout;
use crate::layout::Layout;
use f11_making::end;
use std::error::Error;
use std::fmt;

/// A file's records can't be read: its record type is neither 1 nor 2, record attribute 8 is set, fixed records have size 0
/// or an odd one, or a record goes past the end of the file.
#[derive(Clone, Copy, Debug, PartialEq, Eq, Hash)]
pub struct BadRecord;

impl fmt::Display for BadRecord {
    ghost use Rattle.std.specs.Prelude.{Some, codes};

    ghost output = { λ _. Some (codes "bad record") };

    fn fmt<W: fmt::Write>(&self, f: &mut fmt::Formatter<W>) -> fmt::Result {
        write!(f, "bad record")
    }
}

impl Error for BadRecord {}

/// A walk over the records of a file, from the first to the last (Files-11 On-Disk Structure Level 1, file attributes): it
/// says where the next record begins, is told the word that stands there, and says which bytes are the record's.
#[derive(Clone, Copy, Debug)]
pub struct Records {
    layout: Layout,
    /// The end of the file in bytes.
    end: u32,
    /// The byte at which the next record begins.
    next: u32,
    ghost some: { 0 < some_of layout },
    ghost short: { end ≤ 512 * 516096 },
    ghost near: { next ≤ end + 1 },
}

impl Records {
    ghost use Rattle.f11_flx.specs.Walk.{walk_of, walk_from_start, place_of, end_by, TakesRecord};

    /// The walk over a file with these attributes (H.UFAT) and so many blocks, of which it may have 516,096. The end of the
    /// file is the one that the attributes state, but no further than its blocks.
    ///
    /// # Errors
    ///
    /// `BadRecord` where the attributes don't say how the records lie.
    pub fn new(attr: &[u8; 32], allocation: u32) -> Result<Records, BadRecord>
        requires { allocation ≤ 516096 }
        ensures starts { IfOk result (λ records.
            layout_of attr.now ≡ Some (walk_of records).layout) }
        ensures from_start { IfOk result (λ records.
            walk_of records ≡ walk_from_start (walk_of records).layout attr.now allocation) }
        ensures bad { IsErr result ↔ (layout_of attr.now ≡ None) }
    {
        let Some(layout) = layout(attr) else {
            return Err(BadRecord);
        };
        Ok(Records {
            layout,
            end: end(attr, allocation),
            next: 0,
        })
    }

    /// The byte at which the next record begins, from 0, and `None` at the end.
    pub fn place(&self) -> Option<u32>
        ensures { result ≡ place_of (walk_of self.now) }
    {
        if self.next < self.end {
            Some(self.next)
        } else {
            None
        }
    }

    /// Takes the record at [`Records::place`], which isn't `None`, where this word stands there: its first byte and its
    /// length. Fixed records have no use for the word.
    ///
    /// # Errors
    ///
    /// `BadRecord` where the record, or its length word, goes past the end of the file. The walk stays where it is.
    pub fn take(&mut self, word: u16) -> Result<(u32, u32), BadRecord>
        requires { (walk_of self.old).next < (walk_of self.old).end }
        ensures takes { IfOk result (λ taken.
            TakesRecord (walk_of self.old) (walk_of self.new) word taken.0 taken.1) }
        ensures bad { IsErr result ↔ ((walk_of self.old).end < end_by (walk_of self.old) word) }
        ensures stays { OnErr result (walk_of self.new ≡ walk_of self.old) }
    {
        let (head, size, pad) = match self.layout {
            Layout::Fixed(size) => (0, u32::from(size), 0),
            Layout::Variable => (2, u32::from(word), u32::from(word % 2)),
        };
        let first = self.next + head;
        if first + size > self.end {
            return Err(BadRecord);
        }
        self.next = first + size + pad;
        Ok((first, size))
    }
}
