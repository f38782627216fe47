//! The delta record's bytes: who has an id, and since when.

ghost use Rattle.sha2.specs.Sha256.{sha256};
ghost use Rattle.std.specs.Prelude.{IfSome, [], drop, length, not, take, unwrap_or, ◌++◌, ◌+◌, ◌||◌, ◌≡◌, ◌≤◌};
ghost use Rattle.sl_words.specs.Words.{all_zero, choose};
ghost use Rattle.sl_sector.specs.FieldBytes as spec;
ghost use Rattle.sl_sector.specs.FieldBytes.{ReadsField};
ghost use Rattle.sl_sector.specs.Records.{IsDelta};
ghost use Rattle.sl_sector.specs.SectorLayouts.{IsSectorSize, delta_of, delta_rules, field_bytes, magic, spelling, under_rules};
ghost use Rattle.sl_sector.specs.declared.sector.Rec.TheVariants.{DeltaIs};

use crate::fields::{
    all_hold, are_zeros, both, implies, is_host, is_number, name_at, name_field, put, put_name,
    put_u32, put_u64, rule, u32_at, u64_at,
};
use crate::frame::{begin, finish};
use crate::sector::{Bad, DeltaRec, DeltaState};
use sl_text::Name;

/// The number that stands for a delta record in a sector's bytes.
pub(crate) const DELTA_KIND: u32 = 1;

/// The offset behind the last field: from here on to the check all is zero.
pub(crate) const DELTA_END: usize = 386;

/// What each stamp stays below.
const MOMENTS: u64 = 1_000_000_000_000_000;

/// Where the bitmap begins, and its bytes.
const BITMAP_START: usize = 136;

const BITMAP_SIZE: usize = 250;

/// The number of the state.
fn code_of(state: DeltaState) -> u32
    ensures { result ≡ spec.delta_code state }
{
    match state {
        DeltaState::Free => 0,
        DeltaState::Claimed => 1,
        DeltaState::Live => 2,
    }
}

/// The state that the number names.
fn state_of(code: u32) -> DeltaState
    ensures { result ≡ spec.delta_state code }
{
    match code {
        0 => DeltaState::Free,
        1 => DeltaState::Claimed,
        _ => DeltaState::Live,
    }
}

/// Writes the host's name, or zeros where it is absent, behind the first `at` bytes.
fn put_host(buffer: &mut [u8], at: usize, host: &Option<Name>)
    requires room { at + 48 ≤ length buffer.old }
    requires fits { IfSome host.now (λ n. length n ≤ 48) }
    ensures { take (at + 48) buffer.new ≡ take at buffer.old ++ spec.name_bytes (unwrap_or host.now []) }
{
    match host {
        Some(name) => put_name(buffer, at, name.as_slice()),
        None => put_name(buffer, at, &[]),
    }
}

impl DeltaRec {
    /// Writes the sector that spells this record over the whole buffer, of 512 to 4096 bytes.
    #[tactic(auto, unfolding(crate::specs::SectorLayouts::spelling, crate::specs::SectorLayouts::checked_part))]
    pub fn encode_into(&self, buffer: &mut [u8])
        requires size { IsSectorSize (length buffer.old) }
        requires rules { IsDelta self.now }
        ensures { buffer.new ≡ spelling sha256 (length buffer.new) (DeltaIs self.now) }
    {
        self.put_fields(buffer);
        finish(buffer, DELTA_END);
    }

    /// Writes the magic, the number and the fields.
    #[tactic(auto, unfolding(crate::specs::SectorLayouts::field_bytes))]
    fn put_fields(&self, buffer: &mut [u8])
        requires size { 512 ≤ length buffer.old }
        requires rules { IsDelta self.now }
        ensures { take 386 buffer.new ≡ field_bytes (DeltaIs self.now) }
    {
        self.put_numbers(buffer);
        put_name(buffer, 40, self.lockspace.as_slice());
        put_host(buffer, 88, &self.host);
        put(buffer, BITMAP_START, &self.bitmap);
    }

    /// Writes the magic, the number and the fields before the names.
    fn put_numbers(&self, buffer: &mut [u8])
        requires { 512 ≤ length buffer.old }
        ensures { take 40 buffer.new ≡ magic ++ spec.u32_bytes 1 ++ spec.u32_bytes (spec.delta_code self.now.state) ++ spec.u32_bytes self.now.id ++ spec.u64_bytes self.now.generation ++ spec.u64_bytes self.now.seq ++ spec.u64_bytes self.now.stamp }
    {
        begin(buffer, DELTA_KIND);
        put_u32(buffer, 8, code_of(self.state));
        put_u32(buffer, 12, self.id);
        put_u64(buffer, 16, self.generation);
        put_u64(buffer, 24, self.seq);
        put_u64(buffer, 32, self.stamp);
    }
}

/// The host's name at this offset: none where the record was never claimed, which asks for zeros; else `BadField` of it.
fn host_at(sector: &[u8], at: u32, unused: bool) -> Result<Option<Name>, Bad>
    requires { at + 48 ≤ length sector.now }
    ensures { ReadsField at (spec.is_host_field unused sector.now at) (choose (not unused) (spec.name_at sector.now at)) result }
{
    if unused {
        rule(at, are_zeros(name_field(sector, at as usize)))?;
        Ok(None)
    } else {
        let name = name_at(sector, at)?;
        Ok(Some(name))
    }
}

/// The 250 bytes of the bitmap, which are the record's last field.
fn bitmap_at(sector: &[u8]) -> [u8; 250]
    requires { 512 ≤ length sector.now }
    ensures { result ≡ take 250 (drop 136 sector.now) }
{
    let (_, rest) = sector.split_at(BITMAP_START);
    let (field, _) = rest.split_at(BITMAP_SIZE);
    let mut bitmap = [0; BITMAP_SIZE];
    bitmap.copy_from_slice(field);
    bitmap
}

/// The bitmap, whose bytes are zero where the record was never claimed; else `BadField` of it.
fn bitmap_under(sector: &[u8], at: u32, unused: bool) -> Result<[u8; 250], Bad>
    requires { 512 ≤ length sector.now }
    ensures { ReadsField at (not unused || all_zero (take 250 (drop 136 sector.now))) (take 250 (drop 136 sector.now)) result }
{
    let bitmap = bitmap_at(sector);
    rule(at, implies(unused, are_zeros(&bitmap)))?;
    Ok(bitmap)
}

/// The delta record that the fields give, or the first field that breaks a rule.
pub(crate) fn delta_at(sector: &[u8]) -> Result<DeltaRec, Bad>
    requires { 512 ≤ length sector.now }
    ensures { result ≡ under_rules (delta_rules sector.now) (delta_of sector.now) }
{
    let state = u32_at(sector, 8);
    let id = u32_at(sector, 12);
    let generation = u64_at(sector, 16);
    let seq = u64_at(sector, 24);
    let stamp = u64_at(sector, 32);
    let unused = generation == 0;
    all_hold(&[
        (8, state <= 2),
        (12, is_host(id)),
        (16, both(is_number(generation), implies(unused, state == 0))),
        (24, both(is_number(seq), implies(unused, seq == 0))),
        (32, both(stamp < MOMENTS, implies(unused, stamp == 0))),
    ])?;
    let lockspace = name_at(sector, 40)?;
    let host = host_at(sector, 88, unused)?;
    let bitmap = bitmap_under(sector, 136, unused)?;
    Ok(DeltaRec {
        state: state_of(state),
        id,
        generation,
        seq,
        stamp,
        lockspace,
        host,
        bitmap,
    })
}
