//! Words of bytes: two bytes, the low byte first, and numbers of two words, the high word first (Files-11 On-Disk
//! Structure Level 1, "Medium").
ghost use Rattle.std.specs.Prelude.{◌≡◌, ◌+◌, ◌*◌, ◌<◌, ◌≤◌, length};
ghost use Rattle.f11_bytes.specs.Words.{word, with_word, word_bytes, long, with_long, long_bytes, word_sum};

use byteorder::{ByteOrder, LittleEndian};

/// The word at byte `at`, which has a byte behind it.
pub fn read_word(bytes: &[u8], at: usize) -> u16
    requires { at + 1 < length bytes.now }
    ensures { result ≡ word bytes.now at }
{
    LittleEndian::read_u16(&bytes[at..])
}

/// Puts a word at byte `at`, which has a byte behind it, and leaves the other bytes.
pub fn write_word(bytes: &mut [u8], at: usize, value: u16)
    requires { at + 1 < length bytes.old }
    ensures { bytes.new ≡ with_word bytes.old at value }
{
    LittleEndian::write_u16(&mut bytes[at..at + 2], value);
}

/// The bytes of a word.
pub fn word_bytes(word: u16) -> [u8; 2]
    ensures { result ≡ word_bytes word }
{
    [(word % 256) as u8, (word / 256) as u8]
}

/// The number of two words at byte `at`, which has three bytes behind it.
pub fn read_long(bytes: &[u8], at: usize) -> u32
    requires { at + 3 < length bytes.now }
    ensures { result ≡ long bytes.now at }
{
    let high = read_word(bytes, at);
    let low = read_word(bytes, at + 2);
    65536 * u32::from(high) + u32::from(low)
}

/// Puts a number of two words at byte `at`, which has three bytes behind it, and leaves the other bytes.
pub fn write_long(bytes: &mut [u8], at: usize, value: u32)
    requires { at + 3 < length bytes.old }
    ensures { bytes.new ≡ with_long bytes.old at value }
{
    write_word(bytes, at, (value / 65536) as u16);
    write_word(bytes, at + 2, (value % 65536) as u16);
}

/// The bytes of a number of two words.
pub fn long_bytes(number: u32) -> [u8; 4]
    ensures { result ≡ long_bytes number }
{
    let [a, b] = word_bytes((number / 65536) as u16);
    let [c, d] = word_bytes((number % 65536) as u16);
    [a, b, c, d]
}

/// The sum of the first `count` words, which stand in the bytes, modulo 65536.
pub fn sum_words(bytes: &[u8], count: usize) -> u16
    requires { 2 * count ≤ length bytes.now }
    ensures { result ≡ word_sum bytes.now count }
{
    let mut sum = 0u16;
    for i in 0..count {
        sum = sum.wrapping_add(read_word(bytes, 2 * i));
    }
    sum
}
