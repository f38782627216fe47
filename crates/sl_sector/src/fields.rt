//! Numbers and names at an offset of a sector. Numbers are big-endian; a name has 48 bytes, its characters and then zeros.
//!
//! Reading looks at one field at a time. Writing goes from front to back: each call says that the bytes up to its field's end are
//! those up to its start and the field, so a chain of calls says what stands in front as a whole.

ghost use Rattle.std.specs.Int.{is_in_range};
ghost use Rattle.std.specs.List.{prefix_len};
ghost use Rattle.std.specs.Prelude.{length, replicate, take, ◌&&◌, ◌||◌, ◌++◌, ◌+◌, ◌≡◌, ◌≤◌, ◌==◌, not};
ghost use Rattle.sl_words.specs.Bounds as bounds;
ghost use Rattle.sl_words.specs.Words.{all_zero, choose, same_truth};
ghost use Rattle.sl_sector.specs.FieldBytes as spec;
ghost use Rattle.sl_sector.specs.FieldBytes.{ReadsField};
ghost use Rattle.sl_sector.specs.SectorLayouts.{under_rules};

use crate::sector::Bad;
use byteorder::{BigEndian, ByteOrder};
use sl_text::Name;

/// The most hosts of any run, so the greatest id that a record may name.
pub(crate) const MOST_HOSTS: u32 = 2000;

/// What each generation, seq, lver and mbal stays below.
const RECORD_NUMBERS: u64 = 1 << 63;

/// How many bytes the field of a name has; behind a shorter name stand zeros.
pub(crate) const NAME_SIZE: usize = 48;

/// The number in the four bytes at this offset.
#[tactic(auto, unfolding(crate::specs::FieldBytes::u32_at))]
pub(crate) fn u32_at(bytes: &[u8], at: usize) -> u32
    requires { at + 4 ≤ length bytes.now }
    ensures { result ≡ spec.u32_at bytes.now at }
{
    let (_, rest) = bytes.split_at(at);
    let (field, _) = rest.split_at(4);
    u32::from_be_bytes([field[0], field[1], field[2], field[3]])
}

/// The number in the eight bytes at this offset.
#[tactic(auto, unfolding(crate::specs::FieldBytes::u64_at))]
pub(crate) fn u64_at(bytes: &[u8], at: usize) -> u64
    requires { at + 8 ≤ length bytes.now }
    ensures { result ≡ spec.u64_at bytes.now at }
{
    let (_, rest) = bytes.split_at(at);
    let (field, _) = rest.split_at(8);
    u64::from_be_bytes([
        field[0], field[1], field[2], field[3], field[4], field[5], field[6], field[7],
    ])
}

/// Whether every byte is zero.
pub(crate) fn are_zeros(bytes: &[u8]) -> bool
    ensures { result ≡ all_zero bytes.now }
{
    bytes.iter().all(|byte| *byte == 0)
}

/// The field of a name at this offset: 48 bytes.
pub(crate) fn name_field(bytes: &[u8], at: usize) -> &[u8]
    requires { at + 48 ≤ length bytes.now }
    ensures { result.now ≡ spec.name_field bytes.now at }
{
    let (_, rest) = bytes.split_at(at);
    let (field, _) = rest.split_at(NAME_SIZE);
    field
}

/// How many bytes stand before the first zero.
fn name_len(field: &[u8]) -> usize
    ensures exact { result ≡ prefix_len (λ b. not (b == 0)) field.now }
    ensures within { result ≤ length field.now }
{
    field.iter().take_while(|byte| **byte != 0).count()
}

/// The name that the 48 bytes at this offset are, if they are one.
fn name_in(bytes: &[u8], at: usize) -> Option<Name>
    requires { at + 48 ≤ length bytes.now }
    ensures { result ≡ choose (spec.is_name_field bytes.now at) (spec.name_at bytes.now at) }
{
    let field = name_field(bytes, at);
    let (name, rest) = field.split_at(name_len(field));
    if are_zeros(rest) {
        Name::new(name)
    } else {
        None
    }
}

/// The name at this offset, or `BadField` of it.
pub(crate) fn name_at(bytes: &[u8], at: u32) -> Result<Name, Bad>
    requires { at + 48 ≤ length bytes.now }
    ensures { ReadsField at (spec.is_name_field bytes.now at) (spec.name_at bytes.now at) result }
{
    name_in(bytes, at as usize).ok_or(Bad::BadField(at))
}

/// Nothing where the rule of the field at this offset holds, else `BadField` of it.
pub(crate) fn rule(at: u32, holds: bool) -> Result<(), Bad>
    ensures { ReadsField at holds tt result }
{
    if holds {
        Ok(())
    } else {
        Err(Bad::BadField(at))
    }
}

/// Nothing where each rule holds that is given with its field's offset, else `BadField` of the first that doesn't.
pub(crate) fn all_hold(rules: &[(u32, bool)]) -> Result<(), Bad>
    ensures { result ≡ under_rules rules.now tt }
{
    for given in rules {
        rule(given.0, given.1)?;
    }
    Ok(())
}

/// The value where each rule holds that is given with its field's offset, else `BadField` of the first that doesn't.
pub(crate) fn under<T: Copy>(rules: &[(u32, bool)], value: T) -> Result<T, Bad>
    ensures { result ≡ under_rules rules.now value }
{
    match all_hold(rules) {
        Ok(()) => Ok(value),
        Err(bad) => Err(bad),
    }
}

/// Whether both hold, each of which costs nothing to see.
pub(crate) fn both(first: bool, second: bool) -> bool
    ensures { result ≡ (first && second) }
{
    first && second
}

/// Whether the second holds where the first does.
pub(crate) fn implies(first: bool, second: bool) -> bool
    ensures { result ≡ (not first || second) }
{
    !first || second
}

/// Whether both hold, or neither.
pub(crate) fn agree(first: bool, second: bool) -> bool
    ensures { result ≡ same_truth first second }
{
    first == second
}

/// Whether the number is a host's: 1 to 2000.
pub(crate) fn is_host(number: u32) -> bool
    ensures { result ≡ is_in_range 1 2000 number }
{
    1 <= number && number <= MOST_HOSTS
}

/// Whether the number is below 2^63, as those that records carry.
pub(crate) fn is_number(number: u64) -> bool
    ensures { result ≡ bounds.is_number number }
{
    number < RECORD_NUMBERS
}

/// Writes a field behind the first `at` bytes.
pub(crate) fn put(buffer: &mut [u8], at: usize, field: &[u8])
    requires { at + length field.now ≤ length buffer.old }
    ensures { take (at + length field.now) buffer.new ≡ take at buffer.old ++ field.now }
{
    buffer[at..at + field.len()].copy_from_slice(field);
}

/// Writes a number behind the first `at` bytes.
#[tactic(auto, unfolding(crate::specs::FieldBytes::u32_bytes))]
pub(crate) fn put_u32(buffer: &mut [u8], at: usize, number: u32)
    requires { at + 4 ≤ length buffer.old }
    ensures { take (at + 4) buffer.new ≡ take at buffer.old ++ spec.u32_bytes number }
{
    let mut field = [0; 4];
    BigEndian::write_u32(&mut field, number);
    put(buffer, at, &field);
}

/// Writes a number behind the first `at` bytes.
#[tactic(auto, unfolding(crate::specs::FieldBytes::u64_bytes))]
pub(crate) fn put_u64(buffer: &mut [u8], at: usize, number: u64)
    requires { at + 8 ≤ length buffer.old }
    ensures { take (at + 8) buffer.new ≡ take at buffer.old ++ spec.u64_bytes number }
{
    let mut field = [0; 8];
    BigEndian::write_u64(&mut field, number);
    put(buffer, at, &field);
}

/// Writes zeros behind the first `at` bytes.
pub(crate) fn put_zeros(buffer: &mut [u8], at: usize, count: usize)
    requires { at + count ≤ length buffer.old }
    ensures { take (at + count) buffer.new ≡ take at buffer.old ++ replicate count 0 }
{
    buffer[at..at + count].fill(0);
}

/// Writes a name and zeros, 48 bytes, behind the first `at` bytes.
#[tactic(auto, unfolding(sl_text::specs::Names::padded_text))]
pub(crate) fn put_name(buffer: &mut [u8], at: usize, name: &[u8])
    requires room { at + 48 ≤ length buffer.old }
    requires fits { length name.now ≤ 48 }
    ensures { take (at + 48) buffer.new ≡ take at buffer.old ++ spec.name_bytes name.now }
{
    put(buffer, at, name);
    put_zeros(buffer, at + name.len(), NAME_SIZE - name.len());
}
