//! The bits of a bitmap: bit `k` is bit `k % 8` of byte `k / 8`, the low bit first (Files-11 On-Disk Structure Level 1,
//! "Storage Bitmap File").
ghost use Rattle.std.specs.Prelude.{◌≡◌, ◌≢◌, ℕ, ◌*◌, ◌<◌, ◌==◌, length};
ghost use Rattle.std.specs.Int.{bit_at};
ghost use Rattle.f11_bytes.specs.Bits.{bit};

/// Whether bit `k` is 1. It stands in the bytes.
pub fn is_set(bytes: &[u8], k: u32) -> bool
    requires { k < 8 * length bytes.now }
    ensures { result ≡ bit bytes.now k }
{
    bytes[(k / 8) as usize] >> (k % 8) & 1 == 1
}

/// Makes bit `k` 1, or 0, and leaves the others. It stands in the bytes.
pub fn set_bit(bytes: &mut [u8], k: u32, value: bool)
    requires { k < 8 * length bytes.old }
    ensures set { bit bytes.new k ≡ value }
    ensures others { (j : ℕ) → j ≢ k → bit bytes.new j ≡ bit bytes.old j }
{
    let at = (k / 8) as usize;
    bytes[at] = with_bit(bytes[at], k % 8, value);
}

/// A byte with its bit `k` 1, or 0.
fn with_bit(byte: u8, k: u32, value: bool) -> u8
    requires { k < 8 }
    ensures set { (bit_at result k == 1) ≡ value }
    ensures others { (j : ℕ) → j < 8 → j ≢ k → bit_at result j ≡ bit_at byte j }
{
    let mask = 1u8 << k;
    if value { byte | mask } else { byte & !mask }
}
