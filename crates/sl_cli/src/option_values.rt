//! Words that stand for something: sizes, the area that a new lockspace or a resource gets, its hosts, and a stretch of a file.

ghost use Rattle.sl_area.specs.AreaSizes.{layout_of};
ghost use Rattle.sl_cli.specs.OptionValues.{for_hosts, is_host_count, is_new_lockspace, is_stretch, is_stretch_size, is_stretch_start, new_lockspace, paired_said, room_for, sizes_of, sizes_said, stretch_of};
ghost use Rattle.sl_cli.specs.PartReadings.{lockspace_read, stretch_read};
ghost use Rattle.sl_text.specs.Numbers.{is_number_that, number_of};
ghost use Rattle.sl_text.specs.Walks.{left_after, next_as};
ghost use Rattle.sl_trace.specs.CommandForms as commands;
ghost use Rattle.sl_words.specs.Words.{choose};
ghost use Rattle.std.specs.Int.{is_in_range};
ghost use Rattle.std.specs.Prelude.{Some, option_map, true, ◌≡◌};

use sl_area::Geometry;
use sl_command::arguments;
use sl_text::FilePath;
use sl_text::number::read_number_within;
use sl_text::words::Parts;
use sl_trace::{LockspaceArg, ResourceArg};
use std::marker::Model;

/// Bytes of the smallest area, and of the longest stretch.
const MEBIBYTE: u64 = 1_048_576;

/// Offsets stay below this one.
const OFFSETS: u64 = 1_000_000_000_000;

/// A stretch of a file.
#[derive(Drop)]
pub(crate) struct Stretch {
    pub(crate) path: FilePath,
    pub(crate) offset: u64,
    pub(crate) size: u64,
}

impl Model for Stretch {
    ghost use Rattle.sl_cli.specs.OptionValues as option_values;

    ghost Value = { option_values.Stretch };

    ghost view = { λ s. record { path = s.path; offset = s.offset; size = s.size } };
}

/// The sizes that a word says, for the most hosts, if it says some.
fn sizes_of(word: &str) -> Option<Geometry>
    ensures { result ≡ sizes_of word.now }
{
    if word == "512:1" {
        Geometry::new(512, MEBIBYTE, 2000).ok()
    } else if word == "4096:1" {
        Geometry::new(4096, MEBIBYTE, 250).ok()
    } else if word == "4096:2" {
        Geometry::new(4096, 2 * MEBIBYTE, 500).ok()
    } else if word == "4096:4" {
        Geometry::new(4096, 4 * MEBIBYTE, 1000).ok()
    } else if word == "4096:8" {
        Geometry::new(4096, 8 * MEBIBYTE, 2000).ok()
    } else {
        None
    }
}

/// The sizes that a word says, or those that need no word.
pub(crate) fn sizes_said(word: Option<&str>) -> Option<Geometry>
    ensures { result ≡ sizes_said (option_map (λ w. w.now) word.entry) }
{
    match word {
        Some(word) => sizes_of(word),
        None => Geometry::new(512, MEBIBYTE, 2000).ok(),
    }
}

/// Reads the parts of a new lockspace's word.
fn lockspace_parts(parts: &mut Parts<'_>, most: &Geometry) -> Result<LockspaceArg, usize>
    ensures { result ≡ lockspace_read most.now parts.old }
{
    let name = parts.name()?;
    parts.expect(b"0")?;
    let path = parts.path()?;
    let offset = arguments::base_part(parts, most)?;
    parts.finish()?;
    Ok(LockspaceArg {
        name,
        id: 0,
        path,
        offset,
    })
}

/// The new lockspace that a word names, if it names one.
pub(crate) fn lockspace_of(word: &str, most: &Geometry) -> Option<LockspaceArg>
    ensures { result ≡ choose (is_new_lockspace most.now word.now) (new_lockspace word.now) }
{
    lockspace_parts(&mut Parts::new(word.as_bytes()), most).ok()
}

/// The resource that a word names, if it names one.
pub(crate) fn resource_of(word: &str, most: &Geometry) -> Option<ResourceArg>
    ensures { result ≡ choose (commands.is_resource_word (layout_of most.now) word.now) (commands.resource_of_word word.now) }
{
    arguments::resource_of(word.as_bytes(), most)
}

/// Whether an area has pairs, by the word of its format, if there is such a format.
pub(crate) fn paired_said(word: Option<&str>) -> Option<bool>
    ensures { result ≡ paired_said (option_map (λ w. w.now) word.entry) }
{
    match word {
        Some(word) => { if word == "2" { Some(true) } else { None } }
        None => Some(false),
    }
}

/// For how many hosts there is room, with pairs or without.
fn room_for(paired: bool, most: &Geometry) -> u32
    ensures { result ≡ room_for paired most.now }
{
    if paired {
        most.hosts() / 2
    } else {
        most.hosts()
    }
}

/// The sizes for so many hosts, with pairs or without.
#[tactic(auto, using(crate::proofs::SizeWords::fewer_hosts))]
fn sizes_with(hosts: u32, most: &Geometry, paired: bool) -> Option<Geometry>
    requires { is_in_range 1 (room_for paired most.now) hosts ≡ true }
    ensures { result ≡ Some (for_hosts paired most.now hosts) }
{
    Geometry::sized(most.sector(), most.area(), hosts, paired).ok()
}

/// The sizes for as many hosts as a word says, with pairs or without, if it says so.
pub(crate) fn sizes_for(word: &str, most: &Geometry, paired: bool) -> Option<Geometry>
    ensures { result ≡ choose (is_host_count paired most.now word.now) (for_hosts paired most.now (number_of word.now)) }
{
    let hosts = read_number_within(word.as_bytes(), 1, u64::from(room_for(paired, most)))?;
    sizes_with(hosts as u32, most, paired)
}

/// Where a stretch of sectors begins, if a word says so.
fn read_start(word: &[u8], most: &Geometry) -> Option<u64>
    ensures { result ≡ choose (is_number_that (is_stretch_start most.now.sector) word.now) (number_of word.now) }
{
    let start = read_number_within(word, 0, OFFSETS - 1)?;
    if start % u64::from(most.sector()) == 0 {
        Some(start)
    } else {
        None
    }
}

/// How long a stretch of sectors is, if a word says so.
fn read_size(word: &[u8], most: &Geometry) -> Option<u64>
    ensures { result ≡ choose (is_number_that (is_stretch_size most.now.sector) word.now) (number_of word.now) }
{
    let size = read_number_within(word, 1, MEBIBYTE)?;
    if size % u64::from(most.sector()) == 0 {
        Some(size)
    } else {
        None
    }
}

/// Reads the next part as a stretch's start.
fn start_part(parts: &mut Parts<'_>, most: &Geometry) -> Result<u64, usize>
    ensures exact { result ≡ next_as (is_number_that (is_stretch_start most.now.sector)) number_of parts.old }
    ensures left { parts.new ≡ left_after result parts.old }
{
    parts.accept(parts.peek().and_then(|part| read_start(part, most)))
}

/// Reads the next part as a stretch's size.
fn size_part(parts: &mut Parts<'_>, most: &Geometry) -> Result<u64, usize>
    ensures exact { result ≡ next_as (is_number_that (is_stretch_size most.now.sector)) number_of parts.old }
    ensures left { parts.new ≡ left_after result parts.old }
{
    parts.accept(parts.peek().and_then(|part| read_size(part, most)))
}

/// Reads the parts of a stretch's word.
fn stretch_parts(parts: &mut Parts<'_>, most: &Geometry) -> Result<Stretch, usize>
    ensures { result ≡ stretch_read most.now.sector parts.old }
{
    let path = parts.path()?;
    let offset = start_part(parts, most)?;
    let size = size_part(parts, most)?;
    parts.finish()?;
    Ok(Stretch { path, offset, size })
}

/// The stretch that a word names, if it names one.
pub(crate) fn stretch_of(word: &str, most: &Geometry) -> Option<Stretch>
    ensures { result ≡ choose (is_stretch most.now.sector word.now) (stretch_of word.now) }
{
    stretch_parts(&mut Parts::new(word.as_bytes()), most).ok()
}
