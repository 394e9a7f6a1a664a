//! What a register becomes over bytes 0: each of its bits by itself.

ghost use Rattle.std.specs.Prelude.{◌≡◌, ℕ, ◌*◌};
ghost use Rattle.ts_crc.specs.Crc.{after_bit};
ghost use Rattle.crc_join.specs.Columns.{zero_bits, AreColumns};

// x^26 + x^23 + x^22 + x^16 + x^12 + x^11 + x^10 + x^8 + x^7 + x^5 + x^4 + x^2 + x + 1
pub(crate) const POLYNOMIAL: u32 = 0x04C1_1DB7;

/// The register after a bit 0.
#[inline]
fn after_zero(register: u32) -> u32
    ensures { result ≡ after_bit register 0 }
{
    if register >> 31 == 0 {
        register << 1
    } else {
        register << 1 ^ POLYNOMIAL
    }
}

/// What the lowest bit of a register becomes over so many bytes 0.
fn first_column(len: u16) -> u32
    ensures { result ≡ zero_bits (8 * len) 1 }
{
    let mut column = 1;
    let bits = 8 * len as u32;
    for _ in 0..bits {
        column = after_zero(column);
    }
    column
}

/// What each bit of a register becomes over so many bytes 0, the lowest first. It takes eight steps for each byte.
pub(crate) fn columns_of(len: u16) -> [u32; 32]
    ensures { AreColumns len result }
{
    let mut columns = [0u32; 32];
    let mut column = first_column(len);
    for i in 0..32 {
        columns[i] = column;
        column = after_zero(column);
    }
    columns
}

/// What the register becomes: the columns of its bits that are set, by exclusive or.
pub(crate) fn sum_of(columns: &[u32; 32], register: u32) -> u32
    ensures { (len : ℕ) → AreColumns len columns.now → result ≡ zero_bits (8 * len) register }
{
    let mut sum = 0;
    let mut rest = register;
    for column in columns {
        if rest % 2 == 1 {
            sum = sum ^ *column;
        }
        rest = rest / 2;
    }
    sum
}
