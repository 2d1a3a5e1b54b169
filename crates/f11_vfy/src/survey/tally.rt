//! What came once at least, and what came twice.
ghost use Rattle.std.specs.Prelude.{◌≡◌, ℕ, ◌+◌, ◌-◌, ◌*◌, ◌^◌, ◌≤◌, ◌<◌, max, true, IfOk, OnOk};

use crate::survey::bits::Bits;
use f11_bytes::NoMemory;
use std::alloc::Global;

/// The numbers below a limit that came once at least, and those that came twice at least.
#[derive(Drop)]
pub struct Tally {
    /// Those that came once at least.
    pub once: Bits,
    /// Those that came twice at least.
    pub twice: Bits,
    ghost room: { once.limit ≤ twice.limit },
}

impl Tally {
    ghost use Rattle.f11_vfy.specs.Surveying.Bits.{limit_of, in_word};
    ghost use Rattle.f11_vfy.specs.Surveying.Count.{Shows, within, one_if};

    /// No number came yet; all that come are below the limit.
    ///
    /// # Errors
    ///
    /// `NoMemory` where there is no memory for two bits a number.
    pub fn new(alloc: Global, limit: u32) -> Result<Tally, NoMemory>
        ensures shows { IfOk result (λ tally. Shows tally (λ _. 0)) }
        ensures limit { IfOk result (λ tally. limit_of tally.once ≡ limit) }
    {
        let once = Bits::new(alloc, limit)?;
        let twice = Bits::new(alloc, limit)?;
        Ok(Tally { once, twice })
    }

    /// Numbers below this limit may come too.
    ///
    /// # Errors
    ///
    /// `NoMemory` where there is no memory for two bits a number.
    pub fn widen(&mut self, limit: u32) -> Result<(), NoMemory>
        ensures shows { OnOk result ((c : ℕ → ℕ) → Shows self.old c → Shows self.new c) }
        ensures limit { OnOk result (limit_of self.new.once ≡ max (limit_of self.old.once) limit) }
    {
        self.twice.widen(limit)?;
        self.once.widen(limit)?;
        Ok(())
    }

    /// Number `k` came.
    pub fn mark(&mut self, k: u32)
        requires { k < limit_of self.old.once }
        ensures shows { (c : ℕ → ℕ) → Shows self.old c
            → Shows self.new (λ l. c l + within k (k + 1) l) }
        ensures limit { limit_of self.new.once ≡ limit_of self.old.once }
    {
        if self.once.contains(k) {
            self.twice.insert(k);
        } else {
            self.once.insert(k);
        }
    }

    /// The numbers from `first` on came, below `end`: 64 of them are marked at a time.
    pub fn mark_run(&mut self, first: u32, end: u32)
        requires order { first ≤ end }
        requires within { end ≤ limit_of self.old.once }
        ensures shows { (c : ℕ → ℕ) → Shows self.old c
            → Shows self.new (λ l. c l + within first end l) }
        ensures limit { limit_of self.new.once ≡ limit_of self.old.once }
    {
        for i in first / 64..end.div_ceil(64) {
            let low = first.saturating_sub(64 * i);
            let high = (end - 64 * i).min(64);
            self.mark_word(i, mask(low, high));
        }
    }

    /// The numbers of word `i` came whose bits in the mask are 1.
    fn mark_word(&mut self, i: u32, mask: u64)
        requires word { 64 * i < limit_of self.old.once }
        requires inside { (l : ℕ) → in_word mask i l ≡ true → l < limit_of self.old.once }
        ensures shows { (c : ℕ → ℕ) → Shows self.old c
            → Shows self.new (λ l. c l + one_if (in_word mask i l)) }
        ensures limit { limit_of self.new.once ≡ limit_of self.old.once }
    {
        let before = self.once.word(i);
        self.twice.add_word(i, before & mask);
        self.once.add_word(i, mask);
    }
}

/// The word whose bits from `low` on are 1, below `high`.
pub(crate) fn mask(low: u32, high: u32) -> u64
    requires order { low ≤ high }
    requires high { high ≤ 64 }
    ensures { result ≡ 2 ^ high - 2 ^ low }
{
    ((1u128 << high) - (1u128 << low)) as u64
}
