//! Which files of a volume were copied.
ghost use Rattle.std.specs.Prelude.{◌≡◌, ◌==◌, ◌<◌, IfSome, None, Some, if◌then◌else◌, vec_len, ℕ};

use f11_store::FileId;
use std::alloc::Global;

/// How many numbers a file may have, and 0 (Files-11 On-Disk Structure Level 1, "File Identification": a word).
const NUMBERS: usize = 65_536;

/// The identification of no file.
const NONE: FileId = FileId {
    number: 0,
    sequence: 0,
    volume: 0,
};

/// Which files of a volume were copied, by their numbers, and which file each is on the other volume.
#[derive(Drop)]
pub struct Moved {
    /// What file `n` is there, at place `n`: of number 0 where it wasn't copied.
    ids: Vec<FileId>,
    ghost size: { vec_len ids ≡ 65536 },
}

impl Moved {
    ghost use Rattle.f11_copying.specs.Moved.{copy_of};

    /// No file was copied; `None` where there is no memory for it: 384 KiB.
    pub fn none(alloc: Global) -> Option<Moved>
        ensures none { IfSome result (λ moved. (n : ℕ) → copy_of moved n ≡ None) }
    {
        match vec![in alloc; NONE; NUMBERS] {
            Ok(ids) => Some(Moved { ids }),
            Err(_) => None,
        }
    }

    /// File `number` was copied: it is `id` on the other volume.
    pub fn add(&mut self, number: u16, id: FileId)
        requires some { 0 < id.number }
        ensures adds { (n : ℕ) → copy_of self.new n
            ≡ (if number == n then Some id else copy_of self.old n) }
    {
        self.ids[usize::from(number)] = id;
    }

    /// What file `number` is on the other volume, if it was copied.
    pub fn get(&self, number: u16) -> Option<FileId>
        ensures gets { result ≡ copy_of self.now number }
    {
        let id = self.ids[usize::from(number)];
        if id.number == 0 { None } else { Some(id) }
    }
}
