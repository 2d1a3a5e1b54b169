//! Some of the bytes of an array, put there and lent to be written.
ghost use Rattle.std.specs.Prelude.{◌≡◌, ◌+◌, ◌-◌, ◌≤◌, length, slice_range};
ghost use Rattle.std.specs.Borrow.{sem};
ghost use Rattle.f11_bytes.specs.Part.{LendsPart, with_bytes};

/// Puts bytes in the place of as many others, from byte `at` on.
pub fn put_bytes(into: &mut [u8], at: usize, bytes: &[u8])
    requires { at + length bytes.now ≤ length into.old }
    ensures { into.new ≡ with_bytes into.old at bytes.now }
{
    into[at..at + bytes.len()].copy_from_slice(bytes);
}

/// The bytes of an array from one place up to another, to be written.
pub fn bytes_mut<const N: usize>(array: &mut [u8; N], from: usize, to: usize) -> &mut [u8]
    requires { (from ≤ to) × (to ≤ N) }
    ensures* writes_back { sem 𝓛 (LendsPart N array.entry from result) }
    ensures bytes { (result.now ≡ slice_range array.old from to) × (length result.now ≡ to - from) }
{
    &mut array[from..to]
}
