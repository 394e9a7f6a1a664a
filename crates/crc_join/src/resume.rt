//! Going on from a register that is known as a number.

ghost use Rattle.std.specs.Prelude.{◌≡◌, IfSome};
ghost use Rattle.ts_crc.specs.Crc.{after_bytes};

use crate::columns::POLYNOMIAL;
use ts_crc::Register;

/// What the register holds after the bytes. A new register is led there by four bytes first, and it is seen that it came
/// there: else the answer is None.
pub fn resumed(register: u32, bytes: &[u8]) -> Option<u32>
    ensures { IfSome result (λ after. after ≡ after_bytes register bytes.now) }
{
    let mut now = Register::new();
    now.push(&bytes_leading_to(register));
    if now.value() != register {
        return None;
    }
    now.push(bytes);
    Some(now.value())
}

/// Four bytes after which a new register holds this. A register that is odd took the polynomial with the last bit; so it is told
/// from the last bit back to the first what it held before.
fn bytes_leading_to(register: u32) -> [u8; 4] {
    let mut before = register;
    for _ in 0..32 {
        before = if before % 2 == 1 {
            (before ^ POLYNOMIAL) >> 1 | 0x8000_0000
        } else {
            before >> 1
        };
    }
    (before ^ 0xFFFF_FFFF).to_be_bytes()
}
