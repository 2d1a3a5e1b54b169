//! The numbers of files, and which of them were met.
ghost use Rattle.std.specs.Prelude.{◌≡◌, ◌+◌, ◌<◌, ◌||◌, ◌&&◌, ◌==◌, IfSome, false, true, ℕ};

use crate::walk::state::Numbers;
use std::alloc::Global;

impl Numbers {
    ghost use Rattle.f11_catalog.specs.Steps.{IsNew, is_met, unmet};

    /// No number was met, and all are to come; `None` where there is no memory for it: 64 KiB.
    pub(crate) fn begin(alloc: Global) -> Option<Numbers>
        ensures { IfSome result IsNew }
    {
        match vec![in alloc; false; 65536] {
            Ok(met) => Some(Numbers { met, next: 1 }),
            Err(_) => None,
        }
    }

    /// The number of a file was met, if it is one of a file.
    pub(crate) fn meet(&mut self, number: u16, is_file: bool)
        ensures adds { (n : ℕ) → is_met self.new n
            ≡ (is_met self.old n || (is_file && (number == n))) }
        ensures next { self.new.next ≡ self.old.next }
    {
        if is_file {
            self.met[usize::from(number)] = true;
        }
    }

    /// What others have met was met, too. Whether a number of these wasn't.
    pub(crate) fn meet_all(&mut self, others: &Numbers) -> bool
        ensures adds { (n : ℕ) → is_met self.new n ≡ (is_met self.old n || is_met others.now n) }
        ensures next { self.new.next ≡ self.old.next }
        ensures same { result ≡ false → (n : ℕ) → is_met self.new n ≡ is_met self.old n }
        ensures fewer { result ≡ true → unmet self.new < unmet self.old }
    {
        let mut grows = false;
        let mut number: u32 = 0;
        while number < 65536 {
            let n = number as u16;
            if others.has_met(n) && !self.has_met(n) {
                self.meet(n, true);
                grows = true;
            }
            number += 1;
        }
        grows
    }

    /// Whether a number was met.
    pub(crate) fn has_met(&self, number: u16) -> bool
        ensures { result ≡ is_met self.now number }
    {
        self.met[usize::from(number)]
    }

    /// The next number, which is looked at then.
    pub(crate) fn take_number(&mut self) -> u16
        requires { self.old.next < 65536 }
        ensures number { result ≡ self.old.next }
        ensures next { self.new.next ≡ self.old.next + 1 }
        ensures met { self.new.met ≡ self.old.met }
    {
        let number = self.next as u16;
        self.next += 1;
        number
    }
}
