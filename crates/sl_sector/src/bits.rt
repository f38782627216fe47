//! Which bits of a bitmap are set.

ghost use Rattle.std.specs.Prelude.{IfOk, OnOk, [], if◌then◌else◌, ◌∷◌, ◌%◌, ◌+◌, ◌/◌, ◌<◌, ◌==◌, ◌^◌, ◌++◌, ◌≡◌};
ghost use Rattle.sl_sector.specs.Bitmaps as bitmaps;

use std::alloc::{AllocError, Global};

/// Whether bit `j` of the byte is set, counted from the least.
fn has_bit(byte: u8, j: u32) -> bool
    requires { j < 8 }
    ensures { result ≡ ((byte / 2 ^ j) % 2 == 1) }
{
    (byte >> j) % 2 == 1
}

/// Adds a bit that is set.
fn push_if(bits: &mut Vec<u32>, set: bool, bit: u32) -> Result<(), AllocError>
    ensures { OnOk result (bits.new.items ≡ bits.old.items ++ (if set then bit ∷ [] else [])) }
{
    if set { Ok(bits.push(bit)?) } else { Ok(()) }
}

/// Adds the bits of byte `i`, counted from 1 in the bitmap, in rising order.
fn push_bits_of_byte(bits: &mut Vec<u32>, i: u32, byte: u8) -> Result<(), AllocError>
    requires { i < 250 }
    ensures { OnOk result (bits.new.items ≡ bits.old.items ++ bitmaps.bits_of_byte i byte) }
{
    if byte != 0 {
        for j in 0..8 {
            push_if(bits, has_bit(byte, j), 8 * i + j + 1)?;
        }
    }
    Ok(())
}

/// The bits that are set, counted from 1, in rising order.
pub(crate) fn bits_of(alloc: Global, bitmap: &[u8; 250]) -> Result<Vec<u32>, AllocError>
    ensures { IfOk result (λ bits. bits.items ≡ bitmaps.bits_of bitmap.now) }
{
    let mut bits = Vec::new(alloc);
    for (i, byte) in bitmap.iter().enumerate() {
        push_bits_of_byte(&mut bits, i as u32, *byte)?;
    }
    Ok(bits)
}
