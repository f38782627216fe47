//! The bits of a delta record: one for each host, from 1 on, the lowest of a byte first.
//!
//! What is kept is the bytes as the record has them: 250, each below 256. Else a record with them would break its rules, and two
//! bitmaps with the same hosts' bits could be different bytes.

ghost use Rattle.std.specs.Prelude.{false, length, true, ◌-◌, ◌/◌, ◌≡◌};
ghost use Rattle.sl_request.specs.BitmapLaws.{ChangesBit, IsHost};
ghost use Rattle.sl_sector.specs.Bitmaps as bitmaps;
ghost use Rattle.sl_sector.specs.Records.{AreBytes};

use sl_sector::HostId;
use std::marker::Model;

/// The bytes of a bitmap, with eight hosts' bits in each.
const BITMAP_SIZE: usize = 250;

/// A bit for each host, from 1 to 2000.
#[derive(Clone, Copy, Debug, PartialEq, Eq)]
pub struct Bitmap {
    bytes: [u8; BITMAP_SIZE],
}

impl Model for Bitmap {
    ghost use Rattle.std.specs.Prelude.{List, ℕ, refl};
    ghost use Rattle.sl_sector.specs.Records.{AreBytes};

    ghost Value = { List ℕ };

    ghost view = { λ b. b.bytes };

    ghost invariant = { λ b. AreBytes 250 b.bytes };

    ghost inverse = { λ bs. record { bytes = bs } };

    ghost inverse_ok = { λ b is. refl };
}

/// The byte that has the host's bit.
fn place_of(host: HostId) -> usize
    requires { IsHost host }
    ensures { result ≡ (host - 1) / 8 }
{
    (host as usize - 1) / 8
}

/// The byte that has the host's bit alone.
fn mask_of(host: HostId) -> u8
    requires { IsHost host }
    ensures { result ≡ bitmaps.bit_value host }
{
    1 << ((host - 1) % 8)
}

/// Bytes are below 256, as the rules of records ask of a list of numbers.
fn are_bytes(bytes: &[u8])
    ensures { AreBytes (length bytes.now) bytes.now }
{
    let _size = bytes.len();
}

impl Bitmap {
    /// A bitmap in which no host's bit is set.
    pub fn none() -> Bitmap
        ensures { result ≡ bitmaps.no_bits }
    {
        Bitmap {
            bytes: [0; BITMAP_SIZE],
        }
    }

    /// The bitmap of a delta record, as it was read.
    pub fn from_bytes(bytes: [u8; 250]) -> Bitmap
        ensures { result ≡ bytes }
    {
        are_bytes(&bytes);
        Bitmap { bytes }
    }

    /// The bytes, as a delta record has them.
    pub fn bytes(&self) -> [u8; 250]
        ensures exact { result ≡ self.now }
        ensures rule { AreBytes 250 result }
    {
        self.bytes
    }

    /// Whether the host's bit is set.
    pub fn test(&self, host: HostId) -> bool
        requires { IsHost host }
        ensures { result ≡ bitmaps.is_bit_set self.now host }
    {
        self.bytes[place_of(host)] & mask_of(host) != 0
    }

    /// Sets the host's bit.
    pub fn set(&mut self, host: HostId)
        requires { IsHost host }
        ensures exact { self.new ≡ bitmaps.set_bit self.old host }
        ensures alone { ChangesBit host true self.old self.new }
    {
        self.bytes[place_of(host)] |= mask_of(host);
    }

    /// Clears the host's bit.
    pub fn clear(&mut self, host: HostId)
        requires { IsHost host }
        ensures exact { self.new ≡ bitmaps.clear_bit self.old host }
        ensures alone { ChangesBit host false self.old self.new }
    {
        self.bytes[place_of(host)] &= !mask_of(host);
    }
}
