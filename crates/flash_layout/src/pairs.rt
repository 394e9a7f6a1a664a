//! Bytes in pairs: each byte b stands as the pair b, 255 - b, so a whole pair sums to 255.
//! A torn erase or program only raises bytes. So a pair that summed to 255 or more and sums to 255 after it is
//! the pair of before the erase, or the finished pair of the program: nothing torn can turn valid by itself.
ghost use Rattle.std.specs.Prelude.{◌≡◌, ◌↔◌, ◌+◌, ◌*◌, ◌^◌, ◌<◌, ◌≤◌, ℕ, IsTrue, length};
ghost use Rattle.flash_layout.specs.Pairs.{AreWhole, NoneBelow, byte_at, half_at, paired, word_at};

/// None of the first `n` pairs sums to less than 255.
pub fn none_below(bytes: &[u8], n: usize) -> bool
    requires { 2 * n ≤ length bytes.now }
    ensures { IsTrue result ↔ NoneBelow bytes.now n }
{
    for i in 0..n {
        if u32::from(bytes[2 * i]) + u32::from(bytes[2 * i + 1]) < 255 {
            return false;
        }
    }
    true
}

/// Each of the first `n` pairs sums to 255.
pub fn are_whole(bytes: &[u8], n: usize) -> bool
    requires { 2 * n ≤ length bytes.now }
    ensures { IsTrue result ↔ AreWhole bytes.now n }
{
    for i in 0..n {
        if u32::from(bytes[2 * i]) + u32::from(bytes[2 * i + 1]) != 255 {
            return false;
        }
    }
    true
}

/// The bytes that the pairs stand for are zero from one pair up to another.
pub fn are_zero(bytes: &[u8], from: usize, to: usize) -> bool
    requires { 2 * to ≤ length bytes.now }
    ensures { IsTrue result ↔ ((i : ℕ) → from ≤ i → i < to → byte_at bytes.now i ≡ 0) }
{
    for i in from..to {
        if bytes[2 * i] != 0 {
            return false;
        }
    }
    true
}

/// The number of two bytes from pair `i` on, the higher byte first.
pub fn half(bytes: &[u8], i: usize) -> u16
    requires { 2 * i + 2 < length bytes.now }
    ensures { result ≡ half_at bytes.now i }
{
    256 * u16::from(bytes[2 * i]) + u16::from(bytes[2 * (i + 1)])
}

/// The number of four bytes from pair `i` on, the highest byte first.
pub fn word(bytes: &[u8], i: usize) -> u32
    requires { 2 * i + 6 < length bytes.now }
    ensures { result ≡ word_at bytes.now i }
{
    65536 * u32::from(half(bytes, i)) + u32::from(half(bytes, i + 2))
}

/// Writes bytes in pairs.
pub fn put_pairs(bytes: &mut [u8], plain: &[u8])
    requires { length bytes.old ≡ 2 * length plain.now }
    ensures { bytes.new ≡ paired plain.now }
{
    for (i, byte) in plain.iter().enumerate() {
        bytes[2 * i] = *byte;
        bytes[2 * i + 1] = 255 - *byte;
    }
}
