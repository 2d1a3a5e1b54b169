//! Sets of numbers below a limit, a bit each.
ghost use Rattle.std.specs.Prelude.{◌≡◌, ℕ, ◌+◌, ◌*◌, ◌/◌, ◌%◌, ◌<◌, ◌≤◌, ◌||◌, ◌==◌, max, false, IfOk, OnOk, OnErr, vec_len};
ghost use Rattle.std.specs.Int.{bit_at};

use f11_bytes::NoMemory;
use std::alloc::Global;

/// A set of numbers below a limit.
#[derive(Drop)]
pub struct Bits {
    /// Number `k` is bit `k % 64` of word `k / 64`.
    words: Vec<u64>,
    limit: u32,
    ghost room: { vec_len words ≡ limit / 64 + 1 },
}

impl Bits {
    ghost use Rattle.f11_vfy.specs.Surveying.Bits.{has, limit_of, in_word, IsCommon};

    /// The empty set of numbers below the limit, which takes an eighth of so many bytes.
    ///
    /// # Errors
    ///
    /// `NoMemory` where there is no memory for it.
    pub fn new(alloc: Global, limit: u32) -> Result<Bits, NoMemory>
        ensures none { IfOk result (λ bits. (k : ℕ) → has bits k ≡ false) }
        ensures limit { IfOk result (λ bits. limit_of bits ≡ limit) }
    {
        let words = vec![in alloc; 0u64; limit as usize / 64 + 1]?;
        Ok(Bits { words, limit })
    }

    /// The limit.
    pub fn limit(&self) -> u32
        ensures { result ≡ limit_of self.now }
    {
        self.limit
    }

    /// Whether number `k`, below the limit, is in the set.
    pub fn contains(&self, k: u32) -> bool
        requires { k < limit_of self.now }
        ensures { result ≡ has self.now k }
    {
        self.words[k as usize / 64] >> (k % 64) & 1 == 1
    }

    /// Puts number `k`, below the limit, into the set.
    pub fn insert(&mut self, k: u32)
        requires { k < limit_of self.old }
        ensures adds { (j : ℕ) → has self.new j ≡ (has self.old j || (j == k)) }
        ensures limit { limit_of self.new ≡ limit_of self.old }
    {
        let i = k as usize / 64;
        self.words[i] = self.words[i] | 1u64 << (k % 64);
    }

    /// The limit becomes this one, where it is lower.
    ///
    /// # Errors
    ///
    /// `NoMemory` where there is no memory for an eighth of so many bytes.
    pub(crate) fn widen(&mut self, limit: u32) -> Result<(), NoMemory>
        ensures same { OnOk result ((k : ℕ) → has self.new k ≡ has self.old k) }
        ensures limit { OnOk result (limit_of self.new ≡ max (limit_of self.old) limit) }
        ensures failed { OnErr result (limit_of self.new ≡ limit_of self.old) }
    {
        if self.limit < limit {
            self.words.resize(limit as usize / 64 + 1, 0u64)?;
            self.limit = limit;
        }
        Ok(())
    }

    /// Word `i`, which begins below the limit: the bits of the numbers from `64 * i` on, 64 of them.
    pub(crate) fn word(&self, i: u32) -> u64
        requires { 64 * i < limit_of self.now }
        ensures { (j : ℕ) → j / 64 ≡ i → has self.now j ≡ (bit_at result (j % 64) == 1) }
    {
        self.words[i as usize]
    }

    /// Puts the numbers of word `i`, which begins below the limit, into the set whose bits in the mask are 1.
    pub(crate) fn add_word(&mut self, i: u32, mask: u64)
        requires { 64 * i < limit_of self.old }
        ensures adds { (j : ℕ) → has self.new j ≡ (has self.old j || in_word mask i j) }
        ensures limit { limit_of self.new ≡ limit_of self.old }
    {
        let i = i as usize;
        self.words[i] = self.words[i] | mask;
    }

    /// The numbers that are in both sets, of which the other has no higher limit.
    ///
    /// # Errors
    ///
    /// `NoMemory` where there is no memory for them.
    pub(crate) fn common(&self, alloc: Global, other: &Bits) -> Result<Bits, NoMemory>
        requires { limit_of other.now ≤ limit_of self.now }
        ensures { IfOk result (λ both. IsCommon self.now other.now both) }
    {
        let mut both = Bits::new(alloc, other.limit)?;
        for i in 0..other.limit.div_ceil(64) {
            both.add_word(i, self.word(i) & other.word(i));
        }
        Ok(both)
    }
}
