//! One sector of a disk.
ghost use Rattle.std.specs.Prelude.{◌≡◌};
ghost use Rattle.sl_area.specs.Sectors.{IsSector};

use std::marker::Model;

/// A sector of a disk: where it begins, in bytes from the disk's start, and how many bytes it has. It begins at a multiple of its size.
#[derive(Clone, Copy, Debug, PartialEq, Eq)]
pub struct Place {
    offset: u64,
    size: u32,
}

impl Model for Place {
    ghost use Rattle.std.specs.Prelude.{refl};
    ghost use Rattle.sl_area.specs.Sectors.{IsSector, SectorPlace};

    ghost Value = { SectorPlace };

    ghost view = { λ p. record { offset = p.offset; size = p.size } };

    ghost invariant = { λ p. IsSector (record { offset = p.offset; size = p.size }) };

    ghost inverse = { λ s. record { offset = s.offset; size = s.size } };

    ghost inverse_ok = { λ p is. refl };
}

impl Place {
    /// The sector of this size that begins at the offset.
    pub(crate) fn new(offset: u64, size: u32) -> Place
        requires { IsSector (record { offset = offset; size = size }) }
        ensures { result ≡ record { offset = offset; size = size } }
    {
        Place { offset, size }
    }

    /// Where it begins, in bytes from the disk's start: a multiple of its size, below 2^63.
    pub fn offset(&self) -> u64
        ensures exact { result ≡ self.now.offset }
        ensures sector { IsSector self.now }
    {
        self.offset
    }

    /// How many bytes it has, at least one.
    pub fn size(&self) -> u32
        ensures exact { result ≡ self.now.size }
        ensures sector { IsSector self.now }
    {
        self.size
    }
}
