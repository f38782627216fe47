//! Words of a command that stand for something: lockspaces, resources, lvers, processes.
//!
//! A lockspace is `name:id:path:offset`, a resource `lockspace:name:path:offset`, with `:SH` behind it for the shared mode or with the
//! lver that a request asks for. The id is one of the run's hosts, and the offset a multiple of the area's size: else two areas could
//! overlap, and one host would write over what another one keeps there. A word is read part by part, and is taken whole or not at all.

ghost use Rattle.std.specs.Int.{is_in_range};
ghost use Rattle.std.specs.Prelude.{IfOk, ◌≡◌};
ghost use Rattle.sl_area.specs.AreaSizes.{layout_of};
ghost use Rattle.sl_area.specs.AreaLayout.{is_base};
ghost use Rattle.sl_command.specs.Arguments as arguments;
ghost use Rattle.sl_text.specs.Numbers.{is_number_that, number_of};
ghost use Rattle.sl_text.specs.Walks.{left_after, next_as, past_words};
ghost use Rattle.sl_trace.specs.CommandForms as commands;
ghost use Rattle.sl_words.specs.Words.{choose};

use sl_area::Geometry;
use sl_text::number::read_number_within;
use sl_text::words::{Parts, Words};
use sl_text::{NameText, PathText};
use sl_trace::{LockspaceArg, ResourceArg};
use std::marker::Model;

/// The greatest process that a command may name: one of the machine's, up to 1,000,000, or a child of the daemon behind those.
const MOST_PROCESSES: u32 = 2_000_000;

/// The greatest lver that may be asked for.
const MOST_LVER: u64 = (1 << 63) - 1;

/// Bases of areas stay below this offset.
const BASES: u64 = 1_000_000_000_000;

/// A resource as a word names it, its texts where they stand: they are copied once the whole command is read.
#[derive(Drop)]
pub(crate) struct ResourceText<'a> {
    lockspace: NameText<'a>,
    name: NameText<'a>,
    path: PathText<'a>,
    offset: u64,
}

impl<'a> Model for ResourceText<'a> {
    ghost use Rattle.sl_trace.specs.declared.command.ResourceArg.{ResourceArg};

    ghost Value = { ResourceArg };

    ghost view = { λ r. record { lockspace = r.lockspace; name = r.name; path = r.path; offset = r.offset } };
}

impl<'a> ResourceText<'a> {
    /// The resource, its texts copied.
    pub(crate) fn resource(&self) -> ResourceArg
        ensures { result ≡ self.now }
    {
        ResourceArg {
            lockspace: self.lockspace.name(),
            name: self.name.name(),
            path: self.path.path(),
            offset: self.offset,
        }
    }
}

/// The number that a word writes, if it is from 1 to `high`.
fn read_short(word: &[u8], high: u32) -> Option<u32>
    ensures { result ≡ choose (is_number_that (is_in_range 1 high) word.now) (number_of word.now) }
{
    let number = read_number_within(word, 1, u64::from(high))?;
    Some(number as u32)
}

/// The base of an area that a word writes, if it is one.
fn read_base(word: &[u8], geometry: &Geometry) -> Option<u64>
    ensures { result ≡ choose (is_number_that (is_base (layout_of geometry.now)) word.now) (number_of word.now) }
{
    read_number_within(word, 0, BASES - 1).filter(|offset| geometry.is_base(*offset))
}

/// Reads the next part as a base.
pub fn base_part(parts: &mut Parts<'_>, geometry: &Geometry) -> Result<u64, usize>
    ensures exact { result ≡ next_as (is_number_that (is_base (layout_of geometry.now))) number_of parts.old }
    ensures left { parts.new ≡ left_after result parts.old }
{
    parts.accept(parts.peek().and_then(|part| read_base(part, geometry)))
}

/// Reads the next part as an id.
fn id_part(parts: &mut Parts<'_>, geometry: &Geometry) -> Result<u32, usize>
    ensures exact { result ≡ next_as (is_number_that (is_in_range 1 geometry.now.hosts)) number_of parts.old }
    ensures left { parts.new ≡ left_after result parts.old }
{
    let hosts = geometry.hosts();
    parts.accept(parts.peek().and_then(|part| read_short(part, hosts)))
}

/// Reads the parts of a lockspace's word.
fn lockspace_parts(parts: &mut Parts<'_>, geometry: &Geometry) -> Result<LockspaceArg, usize>
    ensures { result ≡ arguments.lockspace_read (layout_of geometry.now) parts.old }
{
    let name = parts.name()?;
    let id = id_part(parts, geometry)?;
    let path = parts.path()?;
    let offset = base_part(parts, geometry)?;
    parts.finish()?;
    Ok(LockspaceArg {
        name,
        id,
        path,
        offset,
    })
}

/// The lockspace that a word names, if it names one.
fn lockspace_of(word: &[u8], geometry: &Geometry) -> Option<LockspaceArg>
    ensures { result ≡ choose (commands.is_lockspace_word (layout_of geometry.now) word.now) (commands.lockspace_of_word word.now) }
{
    lockspace_parts(&mut Parts::new(word), geometry).ok()
}

/// Reads the four parts of a resource's word, whatever stands behind them.
fn resource_front<'a>(parts: &mut Parts<'a>, geometry: &Geometry) -> Result<ResourceText<'a>, usize>
    ensures exact { result ≡ arguments.front_read (layout_of geometry.now) parts.old }
    ensures left { IfOk result (λ _. parts.new ≡ past_words 4 parts.old) }
{
    let lockspace = parts.name_text()?;
    let name = parts.name_text()?;
    let path = parts.path_text()?;
    let offset = base_part(parts, geometry)?;
    Ok(ResourceText {
        lockspace,
        name,
        path,
        offset,
    })
}

/// Reads the parts of a resource's word.
fn resource_parts<'a>(parts: &mut Parts<'a>, geometry: &Geometry) -> Result<ResourceText<'a>, usize>
    ensures { result ≡ arguments.resource_read (layout_of geometry.now) parts.old }
{
    let resource = resource_front(parts, geometry)?;
    parts.finish()?;
    Ok(resource)
}

/// Reads the parts of a resource's word that ends with the mark of the shared mode.
fn shared_parts<'a>(parts: &mut Parts<'a>, geometry: &Geometry) -> Result<ResourceText<'a>, usize>
    ensures { result ≡ arguments.shared_read (layout_of geometry.now) parts.old }
{
    let resource = resource_front(parts, geometry)?;
    parts.expect(b"SH")?;
    parts.finish()?;
    Ok(resource)
}

/// Reads the parts of a resource's word that ends with an lver.
fn asked_parts<'a>(
    parts: &mut Parts<'a>,
    geometry: &Geometry,
) -> Result<(ResourceText<'a>, u64), usize>
    ensures { result ≡ arguments.asked_read (layout_of geometry.now) parts.old }
{
    let resource = resource_front(parts, geometry)?;
    let lver = parts.number_within(0, MOST_LVER)?;
    parts.finish()?;
    Ok((resource, lver))
}

/// The resource that a word names, if it names one and no more, its texts where they stand.
fn resource_text_of<'a>(word: &'a [u8], geometry: &Geometry) -> Option<ResourceText<'a>>
    ensures { result ≡ choose (commands.is_resource_word (layout_of geometry.now) word.now) (commands.resource_of_word word.now) }
{
    resource_parts(&mut Parts::new(word), geometry).ok()
}

/// The resource that a word names, if it names one and no more.
pub fn resource_of(word: &[u8], geometry: &Geometry) -> Option<ResourceArg>
    ensures { result ≡ choose (commands.is_resource_word (layout_of geometry.now) word.now) (commands.resource_of_word word.now) }
{
    match resource_text_of(word, geometry) {
        Some(text) => Some(text.resource()),
        None => None,
    }
}

/// The resource that a word names in the shared mode, if it names one so.
fn shared_of<'a>(word: &'a [u8], geometry: &Geometry) -> Option<ResourceText<'a>>
    ensures { result ≡ choose (commands.is_shared_word (layout_of geometry.now) word.now) (commands.resource_of_word word.now) }
{
    shared_parts(&mut Parts::new(word), geometry).ok()
}

/// The resource that a word names, and whether in the shared mode.
fn moded_of<'a>(word: &'a [u8], geometry: &Geometry) -> Option<(ResourceText<'a>, bool)>
    ensures { result ≡ choose (arguments.is_moded_word (layout_of geometry.now) word.now) (arguments.moded_of_word (layout_of geometry.now) word.now) }
{
    match resource_text_of(word, geometry) {
        Some(resource) => Some((resource, false)),
        None => Some((shared_of(word, geometry)?, true)),
    }
}

/// The resource that a word names, and the lver that it asks for.
fn request_of<'a>(word: &'a [u8], geometry: &Geometry) -> Option<(ResourceText<'a>, u64)>
    ensures { result ≡ choose (arguments.is_request_word (layout_of geometry.now) word.now) (arguments.request_of_word word.now) }
{
    asked_parts(&mut Parts::new(word), geometry).ok()
}

/// Reads the next word as a lockspace; else gives its column.
pub(crate) fn lockspace(words: &mut Words<'_>, geometry: &Geometry) -> Result<LockspaceArg, usize>
    ensures exact { result ≡ next_as (commands.is_lockspace_word (layout_of geometry.now)) commands.lockspace_of_word words.old }
    ensures left { words.new ≡ left_after result words.old }
{
    let word = words.peek().ok_or(words.column())?;
    words.accept(lockspace_of(word, geometry))
}

/// Reads the next word as a resource; else gives its column.
pub(crate) fn resource<'a>(
    words: &mut Words<'a>,
    geometry: &Geometry,
) -> Result<ResourceText<'a>, usize>
    ensures exact { result ≡ next_as (commands.is_resource_word (layout_of geometry.now)) commands.resource_of_word words.old }
    ensures left { words.new ≡ left_after result words.old }
{
    let word = words.peek().ok_or(words.column())?;
    words.accept(resource_text_of(word, geometry))
}

/// Reads the next word as a resource in one mode or the other; else gives its column.
pub(crate) fn moded<'a>(
    words: &mut Words<'a>,
    geometry: &Geometry,
) -> Result<(ResourceText<'a>, bool), usize>
    ensures exact { result ≡ next_as (arguments.is_moded_word (layout_of geometry.now)) (arguments.moded_of_word (layout_of geometry.now)) words.old }
    ensures left { words.new ≡ left_after result words.old }
{
    let word = words.peek().ok_or(words.column())?;
    words.accept(moded_of(word, geometry))
}

/// Reads the next word as a resource with the lver that is asked for; else gives its column.
pub(crate) fn request<'a>(
    words: &mut Words<'a>,
    geometry: &Geometry,
) -> Result<(ResourceText<'a>, u64), usize>
    ensures exact { result ≡ next_as (arguments.is_request_word (layout_of geometry.now)) arguments.request_of_word words.old }
    ensures left { words.new ≡ left_after result words.old }
{
    let word = words.peek().ok_or(words.column())?;
    words.accept(request_of(word, geometry))
}

/// Reads the next word as a process; else gives its column.
pub(crate) fn process(words: &mut Words<'_>) -> Result<u32, usize>
    ensures exact { result ≡ next_as commands.is_process_word number_of words.old }
    ensures left { words.new ≡ left_after result words.old }
{
    words.accept(
        words
            .peek()
            .and_then(|word| read_short(word, MOST_PROCESSES)),
    )
}

/// Reads the next word as a force that goes with an lver; else gives its column.
pub(crate) fn force(words: &mut Words<'_>) -> Result<u32, usize>
    ensures exact { result ≡ next_as (is_number_that (is_in_range 1 2)) number_of words.old }
    ensures left { words.new ≡ left_after result words.old }
{
    words.accept(words.peek().and_then(|word| read_short(word, 2)))
}
