//! The sizes of areas, as a header may give them.

ghost use Rattle.sl_area.specs.AreaSizes.{geometries, roomy};
ghost use Rattle.sl_run.specs.Worlds.{mebibyte};
ghost use Rattle.sl_schedule.specs.HeaderReads.{AreHosts};
ghost use Rattle.sl_schedule.specs.HeadersSoFar as headers;
ghost use Rattle.std.specs.Prelude.{find, unwrap_or, ◌*◌, ◌<◌, ◌==◌, ◌&&◌, ◌≡◌, ◌≤◌};

use crate::header_line::AreaSizes;
use sl_area::Geometry;

/// The bytes of a mebibyte.
const MEBIBYTE: u64 = 1_048_576;

/// The bytes of a sector, where no line gives them.
const SECTOR: u32 = 512;

/// The bytes of an area, where no line gives them.
pub(crate) const AREA: u64 = MEBIBYTE;

/// The row of a line's numbers.
fn row_for(areas: &AreaSizes) -> Option<(u32, u64, u32)>
    ensures { result ≡ headers.row_for areas.now.sector areas.now.mebibytes }
{
    if areas.sector == 512 && areas.mebibytes == 1 {
        return Some((512, MEBIBYTE, 2000));
    }
    if areas.sector == 4096 && areas.mebibytes == 1 {
        return Some((4096, MEBIBYTE, 250));
    }
    if areas.sector == 4096 && areas.mebibytes == 2 {
        return Some((4096, 2 * MEBIBYTE, 500));
    }
    if areas.sector == 4096 && areas.mebibytes == 4 {
        return Some((4096, 4 * MEBIBYTE, 1000));
    }
    if areas.sector == 4096 && areas.mebibytes == 8 {
        return Some((4096, 8 * MEBIBYTE, 2000));
    }
    None
}

/// The areas that a line gives, if there are such: bytes of a sector, bytes of an area, most hosts.
pub fn row_of(areas: &AreaSizes) -> Option<(u32, u64, u32)>
    ensures { result ≡ find (λ row. row.0 == areas.now.sector && row.1 == areas.now.mebibytes * mebibyte) geometries }
{
    row_for(areas)
}

/// The sizes of a run with such areas and so many hosts, with pairs or without, if there are such.
pub fn sizes_of(areas: &AreaSizes, hosts: u32, paired: bool) -> Option<Geometry>
    ensures { result ≡ headers.sizes_of areas.now.sector (areas.now.mebibytes * mebibyte) hosts paired }
{
    let (sector, area, _) = row_of(areas)?;
    Geometry::sized(sector, area, hosts, paired).ok()
}

/// The sizes of a run with so many hosts, with pairs or without, where no line gives them.
fn default_sizes(hosts: u32, paired: bool) -> Geometry
    requires { AreHosts paired hosts }
    ensures { result ≡ headers.default_sizes hosts paired }
{
    match Geometry::sized(SECTOR, AREA, hosts, paired) {
        Ok(geometry) => geometry,
        Err(_) => unreachable!(),
    }
}

/// These sizes, or those of a run with so many hosts where no line gives them.
pub(crate) fn sizes_or(sizes: Option<Geometry>, hosts: u32, paired: bool) -> Geometry
    requires { AreHosts paired hosts }
    ensures { result ≡ unwrap_or sizes (headers.default_sizes hosts paired) }
{
    match sizes {
        Some(sizes) => sizes,
        None => default_sizes(hosts, paired),
    }
}

/// For how many hosts areas have room that have it for so many where a host's block has one sector.
pub(crate) fn roomy(paired: bool, most: u32) -> u32
    ensures exact { result ≡ roomy paired most }
    ensures few { result ≤ most }
{
    if paired { most / 2 } else { most }
}

/// How many bytes an area has, by the header's sizes.
pub(crate) fn area_of(sizes: &Geometry) -> u64
    ensures exact { result ≡ sizes.now.area }
    ensures some { 0 < result }
{
    sizes.area()
}
