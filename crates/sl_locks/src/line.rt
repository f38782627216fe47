//! The lines that lvmlockd's locks read, word by word from the left.
//!
//! Each function reads what stands behind a verb, and gives the column of the first word that no form takes there: one past the end where a
//! word is missing. Reading takes no memory.

ghost use Rattle.sl_locks.specs.Kinds as kinds;
ghost use Rattle.sl_locks.specs.Lines as lines;
ghost use Rattle.sl_run.specs.LockNames as names;
ghost use Rattle.sl_run.specs.LvmLines.{is_area_word, is_volume_word, lvm_forms, lvm_line_in};
ghost use Rattle.sl_run.specs.LvmLines as lvm;
ghost use Rattle.sl_text.specs.Numbers.{number_of};
ghost use Rattle.sl_text.specs.Walks.{left_after, next_as, read_by};
ghost use Rattle.sl_words.specs.Words.{choose};
ghost use Rattle.std.specs.Prelude.{codes, count_by, length, nat_le, ◌+◌, ◌==◌, ◌≡◌};

use crate::lock::{FIRST_VOLUME, Lock};
use sl_area::Geometry;
use sl_text::Name;
use sl_text::number::read_number_within;
use sl_text::words::{Pieces, Words};
use sl_trace::Mode;
use std::marker::Model;

/// A group's name, with each dash counted twice, and a logical volume's have at most so many characters.
const LONGEST_NAME: usize = 43;

/// No area below that offset has a greater number, since areas have at least 2^20 bytes.
const MOST_AREAS: u64 = 1_000_000;

/// Hosts that an id may name.
const MOST_HOSTS: u64 = 2000;

/// Areas begin below this offset.
const BASES: u64 = 1_000_000_000_000;

/// What a line asks lvmlockd for: to join or leave a group, to take or give up a lock, or to tell something.
#[derive(Clone, Copy)]
pub enum Kind {
    Start { group: Name, id: u32 },
    Stop { group: Name, id: u32 },
    Take { lock: Lock, mode: Mode },
    Compare { lock: Lock, mode: Mode },
    Give { lock: Lock },
    Write { lock: Lock },
    Deactivate { group: Name, name: Name },
    Inform,
}

/// What a line for lvmlockd says, once it was read.
#[derive(Drop)]
pub struct LockLine {
    pub kind: Kind,
}

impl Model for LockLine {
    ghost use Rattle.sl_run.specs.LvmLines.{LvmLine};
    ghost use Rattle.sl_locks.specs.Kinds.{line_of};

    ghost Value = { LvmLine };

    ghost view = { λ l. line_of l.kind };
}

/// How many dashes a text has.
fn dashes(text: &[u8]) -> usize
    ensures { result ≡ count_by (λ c. c == 45) text.now }
{
    text.iter().filter(|byte| **byte == b'-').count()
}

/// Whether a name has so few characters that paths have room for it as a group's, in which each dash stands twice.
fn is_short_group(text: &[u8]) -> bool
    ensures { result ≡ nat_le (length text.now + count_by (λ c. c == 45) text.now) names.longest_lock_name }
{
    text.len() <= LONGEST_NAME && text.len() + dashes(text) <= LONGEST_NAME
}

/// The group that a word names, if it names one.
fn group_of(word: &[u8]) -> Option<Name>
    ensures { result ≡ choose (names.is_group_name word.now) word.now }
{
    let name = Name::new(word)?;
    if is_short_group(word) {
        Some(name)
    } else {
        None
    }
}

/// The logical volume that a word names, if it names one.
fn volume_of(word: &[u8]) -> Option<Name>
    ensures { result ≡ choose (names.is_volume_name word.now) word.now }
{
    let name = Name::new(word)?;
    if word.len() <= LONGEST_NAME {
        Some(name)
    } else {
        None
    }
}

/// Reads the next part of a word as a group.
fn group_part(parts: &mut Pieces<'_, b'/'>) -> Result<Name, usize>
    ensures exact { result ≡ next_as names.is_group_name (λ w. w) parts.old }
    ensures left { parts.new ≡ left_after result parts.old }
{
    parts.accept(parts.peek().and_then(group_of))
}

/// Reads the next part of a word as a logical volume.
fn volume_part(parts: &mut Pieces<'_, b'/'>) -> Result<Name, usize>
    ensures exact { result ≡ next_as names.is_volume_name (λ w. w) parts.old }
    ensures left { parts.new ≡ left_after result parts.old }
{
    parts.accept(parts.peek().and_then(volume_of))
}

/// Reads the parts of a word that names a group and one of its logical volumes.
fn volume_parts(parts: &mut Pieces<'_, b'/'>) -> Result<(Name, Name), usize>
    ensures { result ≡ lines.volume_parts_read parts.old }
{
    let group = group_part(parts)?;
    let name = volume_part(parts)?;
    parts.finish()?;
    Ok((group, name))
}

/// The group and the logical volume that a word names, if it names them.
fn volume_named(word: &[u8]) -> Option<(Name, Name)>
    ensures { result ≡ choose (is_volume_word word.now) (lines.volume_named word.now) }
{
    volume_parts(&mut Pieces::new(word)).ok()
}

/// The number of a logical volume's area that a word writes, if it is one.
fn area_of(word: &[u8], geometry: &Geometry) -> Option<u32>
    ensures { result ≡ choose (is_area_word geometry.now.area word.now) (number_of word.now) }
{
    let area = geometry.area();
    match read_number_within(word, u64::from(FIRST_VOLUME), MOST_AREAS) {
        None => None,
        Some(number) => {
            if number * area < BASES {
                Some(number as u32)
            } else {
                None
            }
        }
    }
}

/// Reads the next word as a group; else gives its column.
fn group(words: &mut Words<'_>) -> Result<Name, usize>
    ensures exact { result ≡ next_as names.is_group_name (λ w. w) words.old }
    ensures left { words.new ≡ left_after result words.old }
{
    words.accept(words.peek().and_then(group_of))
}

/// Reads the next word as a group and one of its logical volumes; else gives its column.
fn volume(words: &mut Words<'_>) -> Result<(Name, Name), usize>
    ensures exact { result ≡ next_as is_volume_word lines.volume_named words.old }
    ensures left { words.new ≡ left_after result words.old }
{
    words.accept(words.peek().and_then(volume_named))
}

/// Reads a group, `-i` and an id.
fn with_id(words: &mut Words<'_>) -> Result<(Name, u32), usize>
    ensures { result ≡ lines.id_read words.old }
{
    let group = group(words)?;
    words.expect(b"-i")?;
    let id = words.number_within(1, MOST_HOSTS)?;
    words.finish()?;
    Ok((group, id as u32))
}

/// The name of the global lock.
fn global_name() -> Name
    ensures { result ≡ codes "GLLK" }
{
    match Name::new(b"GLLK") {
        Some(name) => name,
        None => unreachable!(),
    }
}

/// The name of a group's lock.
fn group_name() -> Name
    ensures { result ≡ codes "VGLK" }
{
    match Name::new(b"VGLK") {
        Some(name) => name,
        None => unreachable!(),
    }
}

/// The global lock, in the area of this group.
fn global_lock(group: Name) -> Lock
    ensures { result ≡ names.global_lock group }
{
    Lock {
        group,
        name: global_name(),
        number: 1,
    }
}

/// The lock of a group.
fn group_lock(group: Name) -> Lock
    ensures { result ≡ names.group_lock group }
{
    Lock {
        group,
        name: group_name(),
        number: 2,
    }
}

/// What a line does to a lock.
fn line_of(kind: Kind) -> LockLine
    ensures { result ≡ kinds.line_of kind }
{
    LockLine { kind }
}

/// What a line does that has no words left; else the column of the next one.
fn ended(words: &Words<'_>, kind: Kind) -> Result<LockLine, usize>
    ensures { result ≡ lines.ended_as (kinds.line_of kind) words.now }
{
    words.finish()?;
    Ok(line_of(kind))
}

/// Reads the mode in which the global lock is taken, or that it is given up.
fn global_way(words: &mut Words<'_>, group: Name) -> Result<LockLine, usize>
    ensures { result ≡ read_by (lines.global_ways group) words.old }
{
    let lock = global_lock(group);
    if words.skip(b"sh") {
        return ended(
            words,
            Kind::Take {
                lock,
                mode: Mode::Shared,
            },
        );
    }
    if words.skip(b"ex") {
        return ended(
            words,
            Kind::Take {
                lock,
                mode: Mode::Exclusive,
            },
        );
    }
    if words.skip(b"un") {
        return ended(words, Kind::Give { lock });
    }
    Err(words.column())
}

/// Reads whether a group's value is written before its lock is given up.
#[tactic(auto, using(crate::proofs::WayLaws::giving))]
fn giving_way(words: &mut Words<'_>, group: Name) -> Result<LockLine, usize>
    ensures { result ≡ read_by (lines.giving_ways group) words.old }
{
    let lock = group_lock(group);
    if words.skip(b"-w") {
        return ended(words, Kind::Write { lock });
    }
    ended(words, Kind::Give { lock })
}

/// Reads the mode in which a group's lock is taken, or how it is given up.
fn group_way(words: &mut Words<'_>, group: Name) -> Result<LockLine, usize>
    ensures { result ≡ read_by (lines.group_ways group) words.old }
{
    let lock = group_lock(group);
    if words.skip(b"sh") {
        return ended(
            words,
            Kind::Compare {
                lock,
                mode: Mode::Shared,
            },
        );
    }
    if words.skip(b"ex") {
        return ended(
            words,
            Kind::Compare {
                lock,
                mode: Mode::Exclusive,
            },
        );
    }
    if words.skip(b"un") {
        return giving_way(words, group);
    }
    Err(words.column())
}

/// Reads the next word as the number of a logical volume's area; else gives its column.
fn area_word(words: &mut Words<'_>, geometry: &Geometry) -> Result<u32, usize>
    ensures exact { result ≡ next_as (is_area_word geometry.now.area) number_of words.old }
    ensures left { words.new ≡ left_after result words.old }
{
    words.accept(words.peek().and_then(|word| area_of(word, geometry)))
}

/// Reads `-a` and the number of a logical volume's area.
fn area(words: &mut Words<'_>, geometry: &Geometry) -> Result<u32, usize>
    ensures { result ≡ lines.area_read geometry.now.area words.old }
{
    words.expect(b"-a")?;
    let number = area_word(words, geometry)?;
    words.finish()?;
    Ok(number)
}

/// The lock of a logical volume.
fn volume_lock(group: Name, name: Name, number: u32) -> Lock
    ensures { result ≡ names.volume_lock group name number }
{
    Lock {
        group,
        name,
        number,
    }
}

/// Reads the area's number of a logical volume whose lock is taken in a mode.
fn volume_mode(
    words: &mut Words<'_>,
    geometry: &Geometry,
    named: (Name, Name),
    mode: Mode,
) -> Result<LockLine, usize>
    ensures { result ≡ lines.volume_taken geometry.now.area named mode words.old }
{
    let number = area(words, geometry)?;
    let lock = volume_lock(named.0, named.1, number);
    Ok(line_of(Kind::Take { lock, mode }))
}

/// Reads the mode in which a logical volume's lock is taken, and its area's number.
fn volume_way(
    words: &mut Words<'_>,
    geometry: &Geometry,
    named: (Name, Name),
) -> Result<LockLine, usize>
    ensures { result ≡ read_by (lines.volume_ways geometry.now.area named) words.old }
{
    if words.skip(b"sh") {
        return volume_mode(words, geometry, named, Mode::Shared);
    }
    if words.skip(b"ex") {
        return volume_mode(words, geometry, named, Mode::Exclusive);
    }
    Err(words.column())
}

/// Reads what stands behind `lock_gl`.
fn lock_global(words: &mut Words<'_>) -> Result<LockLine, usize>
    ensures { result ≡ lines.ways_read names.is_group_name (λ w. w) lines.global_ways words.old }
{
    let group = group(words)?;
    words.expect(b"-m")?;
    global_way(words, group)
}

/// Reads what stands behind `lock_vg`.
fn lock_group(words: &mut Words<'_>) -> Result<LockLine, usize>
    ensures { result ≡ lines.ways_read names.is_group_name (λ w. w) lines.group_ways words.old }
{
    let group = group(words)?;
    words.expect(b"-m")?;
    group_way(words, group)
}

/// Reads what stands behind `activate`.
fn activate(words: &mut Words<'_>, geometry: &Geometry) -> Result<LockLine, usize>
    ensures { result ≡ lines.ways_read is_volume_word lines.volume_named (lines.volume_ways geometry.now.area) words.old }
{
    let named = volume(words)?;
    words.expect(b"-m")?;
    volume_way(words, geometry, named)
}

/// Reads what stands behind `deactivate`.
fn deactivate(words: &mut Words<'_>) -> Result<LockLine, usize>
    ensures { result ≡ lines.deactivate_read words.old }
{
    let (group, name) = volume(words)?;
    ended(words, Kind::Deactivate { group, name })
}

/// Reads what stands behind `lock_start`.
fn start(words: &mut Words<'_>) -> Result<LockLine, usize>
    ensures { result ≡ lines.start_read words.old }
{
    let (group, id) = with_id(words)?;
    Ok(line_of(Kind::Start { group, id }))
}

/// Reads what stands behind `lock_stop`.
fn stop(words: &mut Words<'_>) -> Result<LockLine, usize>
    ensures { result ≡ lines.stop_read words.old }
{
    let (group, id) = with_id(words)?;
    Ok(line_of(Kind::Stop { group, id }))
}

/// Reads the words of a line that has none of the verbs of locks and lockspaces.
fn later_line(words: &mut Words<'_>, geometry: &Geometry) -> Result<LockLine, usize>
    ensures { result ≡ read_by (lines.later_forms geometry.now.area) words.old }
{
    if words.skip(b"activate") {
        return activate(words, geometry);
    }
    if words.skip(b"deactivate") {
        return deactivate(words);
    }
    if words.skip(b"info") {
        return ended(words, Kind::Inform);
    }
    Err(words.column())
}

/// Reads the words of a line; else gives the column of the first word that no form takes.
fn line(words: &mut Words<'_>, geometry: &Geometry) -> Result<LockLine, usize>
    ensures { result ≡ read_by (lvm_forms geometry.now.area) words.old }
{
    if words.skip(b"lock_start") {
        return start(words);
    }
    if words.skip(b"lock_stop") {
        return stop(words);
    }
    if words.skip(b"lock_gl") {
        return lock_global(words);
    }
    if words.skip(b"lock_vg") {
        return lock_group(words);
    }
    later_line(words, geometry)
}

/// What a line says, where areas have these sizes.
///
/// An `Err` has the column, counted in bytes from 1, of the first word that no form takes behind the words before it; one past the line's end
/// where a word is missing. Words are cut at each single space. It takes no memory.
#[tactic(auto, using(crate::proofs::LineLaws::whole))]
pub fn read_line(text: &[u8], geometry: &Geometry) -> Result<LockLine, usize>
    ensures { result ≡ lvm_line_in geometry.now.area text.now }
{
    line(&mut Words::new(text), geometry)
}
