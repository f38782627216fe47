//! What all sectors share: the magic and the record's number in front, zeros behind the fields, and the check at the end.

ghost use Rattle.sha2.specs.Sha256.{sha256};
ghost use Rattle.std.specs.Prelude.{length, take, ◌++◌, ◌+◌, ◌-◌, ◌≡◌, ◌≤◌};
ghost use Rattle.sl_sector.specs.FieldBytes.{u32_bytes};
ghost use Rattle.sl_sector.specs.SectorLayouts.{magic};
ghost use Rattle.sl_text.specs.Names.{padded_text};

use crate::fields::{put, put_u32, put_zeros};
use sha2::{Digest, Sha256};

/// The four bytes with which each sector begins.
pub(crate) const MAGIC: [u8; 4] = *b"SLK1";

/// Bytes of the check: a SHA-256.
pub(crate) const CHECK_SIZE: usize = 32;

/// Writes the magic and the record's number.
#[tactic(auto, unfolding(crate::specs::SectorLayouts::magic))]
pub(crate) fn begin(buffer: &mut [u8], kind: u32)
    requires { 8 ≤ length buffer.old }
    ensures { take 8 buffer.new ≡ magic ++ u32_bytes kind }
{
    put(buffer, 0, &MAGIC);
    put_u32(buffer, 4, kind);
}

/// Writes zeros behind the first `end` bytes, and the check: the SHA-256 of all before it.
#[tactic(auto, unfolding(sl_text::specs::Names::padded_text))]
pub(crate) fn finish(buffer: &mut [u8], end: usize)
    requires { end + 32 ≤ length buffer.old }
    ensures { buffer.new ≡ padded_text (length buffer.old - 32) (take end buffer.old) ++ sha256 (padded_text (length buffer.old - 32) (take end buffer.old)) }
{
    let at = buffer.len() - CHECK_SIZE;
    put_zeros(buffer, end, at - end);
    let (body, check) = buffer.split_at_mut(at);
    check.copy_from_slice(&Sha256::digest(&*body));
}
