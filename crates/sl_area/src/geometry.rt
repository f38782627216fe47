//! Sizes of a run, and where its records stand.
ghost use Rattle.std.specs.Int.{is_in_range};
ghost use Rattle.std.specs.Prelude.{IfOk, IfSome, IsOk, IsSome, IsTrue, true, ◌%◌, ◌&&◌, ◌*◌, ◌+◌, ◌<◌, ◌==◌, ◌^◌, ◌≡◌, ◌≤◌, ◌↔◌};
ghost use Rattle.sl_area.specs.AreaSizes.{IsGeometry, is_geometry, layout_of, paired_sizes, roomy, sizes};
ghost use Rattle.sl_area.specs.AreaLayout.{block_offset, block_place, block_sectors, delta_offset, is_base, leader_offset, pair_offset, request_offset, value_offset};
ghost use Rattle.sl_area.specs.Roles.{place_at};

use crate::sector_place::Place;
use sl_sector::is_first_turn;
use std::marker::Model;
use thiserror::Error;

/// Bytes of a sector, bytes of an area, the number of hosts of the run, and whether each host's block has a pair of sectors.
#[derive(Clone, Copy, Debug, PartialEq, Eq)]
pub struct Geometry {
    sector: u32,
    area: u64,
    hosts: u32,
    paired: bool,
}

impl Model for Geometry {
    ghost use Rattle.std.specs.Prelude.{refl};
    ghost use Rattle.sl_area.specs.AreaSizes.{Sizes, IsGeometry};

    ghost Value = { Sizes };

    ghost view = { λ g. record { sector = g.sector; area = g.area; hosts = g.hosts; paired = g.paired } };

    ghost invariant = { λ g. IsGeometry (record { sector = g.sector; area = g.area; hosts = g.hosts; paired = g.paired }) };

    ghost inverse = { λ s. record { sector = s.sector; area = s.area; hosts = s.hosts; paired = s.paired } };

    ghost inverse_ok = { λ g is. refl };
}

/// There is no area of these sizes for so many hosts.
#[derive(Clone, Copy, Debug, PartialEq, Eq, Error)]
#[error("no area has these sizes for so many hosts")]
pub struct BadGeometry;

/// The areas that there may be: bytes of a sector, bytes of an area, most hosts.
const GEOMETRIES: [(u32, u64, u32); 5] = [
    (512, 1_048_576, 2000),
    (4096, 1_048_576, 250),
    (4096, 2_097_152, 500),
    (4096, 4_194_304, 1000),
    (4096, 8_388_608, 2000),
];

/// For how many hosts there is room, where it is for so many that have one sector: with pairs for half of them.
fn roomy(paired: bool, most: u32) -> u32
    ensures { result ≡ roomy paired most }
{
    if paired { most / 2 } else { most }
}

/// Whether so many hosts have room, where there is room for `most` that have one sector.
fn has_room(paired: bool, most: u32, hosts: u32) -> bool
    ensures { result ≡ is_in_range 1 (roomy paired most) hosts }
{
    1 <= hosts && hosts <= roomy(paired, most)
}

/// Whether a run may have these sizes, with pairs or without.
fn is_geometry(sector: u32, area: u64, hosts: u32, paired: bool) -> bool
    ensures { result ≡ is_geometry (record { sector = sector; area = area; hosts = hosts; paired = paired }) }
{
    GEOMETRIES.iter().any(|row| row.0 == sector && row.1 == area && has_room(paired, row.2, hosts))
}

impl Geometry {
    /// The sizes of a run, with pairs or without: bytes of a sector and of an area, which must be a row of the table, and the number of
    /// hosts, 1 to that row's number. Where each host's block has a pair of sectors, there is room for half of that number.
    pub fn sized(sector: u32, area: u64, hosts: u32, paired: bool) -> Result<Geometry, BadGeometry>
        ensures ok { IsOk result ↔ IsGeometry (record { sector = sector; area = area; hosts = hosts; paired = paired }) }
        ensures value { IfOk result (λ g. g ≡ record { sector = sector; area = area; hosts = hosts; paired = paired }) }
    {
        if paired {
            Geometry::new2(sector, area, hosts)
        } else {
            Geometry::new(sector, area, hosts)
        }
    }

    /// The same, by the table.
    fn by_table(sector: u32, area: u64, hosts: u32, paired: bool) -> Result<Geometry, BadGeometry>
        ensures ok { IsOk result ↔ IsGeometry (record { sector = sector; area = area; hosts = hosts; paired = paired }) }
        ensures value { IfOk result (λ g. g ≡ record { sector = sector; area = area; hosts = hosts; paired = paired }) }
    {
        if is_geometry(sector, area, hosts, paired) {
            Ok(Geometry {
                sector,
                area,
                hosts,
                paired,
            })
        } else {
            Err(BadGeometry)
        }
    }

    /// The sizes of a run in which each host's block has one sector.
    pub fn new(sector: u32, area: u64, hosts: u32) -> Result<Geometry, BadGeometry>
        ensures ok { IsOk result ↔ IsGeometry (sizes sector area hosts) }
        ensures value { IfOk result (λ g. g ≡ sizes sector area hosts) }
    {
        Geometry::by_table(sector, area, hosts, false)
    }

    /// The sizes of a run in which each host's block has a pair of sectors.
    pub fn new2(sector: u32, area: u64, hosts: u32) -> Result<Geometry, BadGeometry>
        ensures ok { IsOk result ↔ IsGeometry (paired_sizes sector area hosts) }
        ensures value { IfOk result (λ g. g ≡ paired_sizes sector area hosts) }
    {
        Geometry::by_table(sector, area, hosts, true)
    }

    /// How many bytes a sector has: 512 or 4096.
    pub fn sector(&self) -> u32
        ensures exact { result ≡ self.now.sector }
        ensures geometry { IsGeometry self.now }
    {
        self.sector
    }

    /// How many bytes an area has: 1, 2, 4 or 8 times 2^20.
    pub fn area(&self) -> u64
        ensures exact { result ≡ self.now.area }
        ensures geometry { IsGeometry self.now }
    {
        self.area
    }

    /// The number of hosts of the run.
    pub fn hosts(&self) -> u32
        ensures exact { result ≡ self.now.hosts }
        ensures geometry { IsGeometry self.now }
    {
        self.hosts
    }

    /// Whether each host's block has a pair of sectors.
    pub fn is_paired(&self) -> bool
        ensures exact { result ≡ self.now.paired }
        ensures geometry { IsGeometry self.now }
    {
        self.paired
    }

    /// How many sectors the blocks of all hosts have: at most 2000.
    pub fn block_sectors(&self) -> u32
        ensures exact { result ≡ block_sectors (layout_of self.now) }
        ensures few { result ≤ 2000 }
        ensures geometry { IsGeometry self.now }
    {
        if self.paired {
            2 * self.hosts
        } else {
            self.hosts
        }
    }

    /// Whether an area may begin at the offset: at a multiple of the area's size, below 10^12.
    pub fn is_base(&self, offset: u64) -> bool
        ensures { result ≡ is_base (layout_of self.now) offset }
    {
        offset % self.area == 0 && offset < 1_000_000_000_000
    }

    /// The sector that begins at the offset, if one does: the offset is a multiple of the sector's size, and below 2^63.
    pub fn place(&self, offset: u64) -> Option<Place>
        ensures some { IsSome result ↔ ((offset % self.now.sector ≡ 0) × (offset < 2 ^ 63)) }
        ensures value { IfSome result (λ p. p ≡ place_at self.now offset) }
    {
        if offset % u64::from(self.sector) == 0 && offset < 1 << 63 {
            Some(Place::new(offset, self.sector))
        } else {
            None
        }
    }

    /// Where the delta sector of an id stands, in the lockspace's area at this base.
    pub fn delta_place(&self, base: u64, id: u32) -> Place
        requires base { IsTrue (is_base (layout_of self.now) base) }
        requires id { (1 ≤ id) × (id ≤ self.now.hosts) }
        ensures { result ≡ place_at self.now (delta_offset (layout_of self.now) base id) }
    {
        self.nth(base, u64::from(id) - 1)
    }

    /// Where the leader stands, in the resource's area at this base.
    pub fn leader_place(&self, base: u64) -> Place
        requires { IsTrue (is_base (layout_of self.now) base) }
        ensures { result ≡ place_at self.now (leader_offset base) }
    {
        self.nth(base, 0)
    }

    /// Where the request stands, in the resource's area at this base.
    pub fn request_place(&self, base: u64) -> Place
        requires { IsTrue (is_base (layout_of self.now) base) }
        ensures { result ≡ place_at self.now (request_offset (layout_of self.now) base) }
    {
        self.nth(base, 1)
    }

    /// Where a host's block stands if it has one sector, in the resource's area at this base.
    pub fn block_place(&self, base: u64, id: u32) -> Place
        requires base { IsTrue (is_base (layout_of self.now) base) }
        requires id { (1 ≤ id) × (id ≤ self.now.hosts) }
        ensures { result ≡ place_at self.now (block_offset (layout_of self.now) base id) }
    {
        self.nth(base, u64::from(id) + 1)
    }

    /// Where the first or the second sector of a host's pair stands, in the resource's area at this base.
    pub fn pair_place(&self, base: u64, id: u32, first: bool) -> Place
        requires paired { self.now.paired ≡ true }
        requires base { IsTrue (is_base (layout_of self.now) base) }
        requires id { (1 ≤ id) × (id ≤ self.now.hosts) }
        ensures { result ≡ place_at self.now (pair_offset (layout_of self.now) base id first) }
    {
        self.nth(
            base,
            if first {
                2 * u64::from(id)
            } else {
                2 * u64::from(id) + 1
            },
        )
    }

    /// Where a host's block of this turn stands, in the resource's area at this base. Where blocks have one sector, each turn stands there.
    pub fn turn_place(&self, base: u64, id: u32, turn: u64) -> Place
        requires base { IsTrue (is_base (layout_of self.now) base) }
        requires id { (1 ≤ id) × (id ≤ self.now.hosts) }
        ensures { result ≡ place_at self.now (block_place (layout_of self.now) base id turn) }
    {
        if self.paired {
            self.pair_place(base, id, is_first_turn(turn))
        } else {
            self.block_place(base, id)
        }
    }

    /// Where the value stands, in the resource's area at this base: in its last sector.
    pub fn value_place(&self, base: u64) -> Place
        requires { IsTrue (is_base (layout_of self.now) base) }
        ensures { result ≡ place_at self.now (value_offset (layout_of self.now) base) }
    {
        let sector = self.sector;
        Place::new(base + self.area - u64::from(sector), sector)
    }

    /// The sector with this number, from 0 on, of the area at this base.
    fn nth(&self, base: u64, number: u64) -> Place
        requires base { IsTrue (is_base (layout_of self.now) base) }
        requires number { number ≤ 2 * self.now.hosts + 1 }
        ensures { result ≡ place_at self.now (base + self.now.sector * number) }
    {
        let sector = self.sector;
        Place::new(base + u64::from(sector) * number, sector)
    }
}
