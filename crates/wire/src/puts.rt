//! Numbers onto the end of a buffer, highest byte first. After a refusal the buffer is unchanged.

ghost use Rattle.std.specs.Prelude.{◌≡◌, ◌<◌, ◌++◌, OnOk, OnErr};
ghost use Rattle.wire.specs.Number.{bytes_of, length_bytes};

use std::alloc::AllocError;

/// A number of 8 bits.
pub fn put_u8(out: &mut Vec<u8>, number: u8) -> Result<(), AllocError>
    ensures put { OnOk result (out.new.items ≡ out.old.items ++ bytes_of 1 number) }
    ensures unchanged { OnErr result (out.new.items ≡ out.old.items) }
{
    out.extend_from_slice(&number.to_be_bytes())
}

/// A number of 16 bits.
pub fn put_u16(out: &mut Vec<u8>, number: u16) -> Result<(), AllocError>
    ensures put { OnOk result (out.new.items ≡ out.old.items ++ bytes_of 2 number) }
    ensures unchanged { OnErr result (out.new.items ≡ out.old.items) }
{
    out.extend_from_slice(&number.to_be_bytes())
}

/// A length of 12 bits, below 4,096, behind 4 reserved bits, which are ones.
pub fn put_length(out: &mut Vec<u8>, length: u16) -> Result<(), AllocError>
    requires { length < 4096 }
    ensures put { OnOk result (out.new.items ≡ out.old.items ++ length_bytes length) }
    ensures unchanged { OnErr result (out.new.items ≡ out.old.items) }
{
    put_u16(out, 0xF000 + length)
}

/// A number of 24 bits, as an OUI.
pub fn put_u24(out: &mut Vec<u8>, number: u32) -> Result<(), AllocError>
    ensures put { OnOk result (out.new.items ≡ out.old.items ++ bytes_of 3 number) }
    ensures unchanged { OnErr result (out.new.items ≡ out.old.items) }
{
    out.extend_from_slice(&number.to_be_bytes()[1..])
}

/// A number of 32 bits.
pub fn put_u32(out: &mut Vec<u8>, number: u32) -> Result<(), AllocError>
    ensures put { OnOk result (out.new.items ≡ out.old.items ++ bytes_of 4 number) }
    ensures unchanged { OnErr result (out.new.items ≡ out.old.items) }
{
    out.extend_from_slice(&number.to_be_bytes())
}

/// A number of 40 bits, as a time or a subgroup.
pub fn put_u40(out: &mut Vec<u8>, number: u64) -> Result<(), AllocError>
    ensures put { OnOk result (out.new.items ≡ out.old.items ++ bytes_of 5 number) }
    ensures unchanged { OnErr result (out.new.items ≡ out.old.items) }
{
    out.extend_from_slice(&number.to_be_bytes()[3..])
}

/// A number of 48 bits, as a MAC address.
pub fn put_u48(out: &mut Vec<u8>, number: u64) -> Result<(), AllocError>
    ensures put { OnOk result (out.new.items ≡ out.old.items ++ bytes_of 6 number) }
    ensures unchanged { OnErr result (out.new.items ≡ out.old.items) }
{
    out.extend_from_slice(&number.to_be_bytes()[2..])
}
