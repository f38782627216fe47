//! The value's bytes: a resource's value, and who wrote it.

ghost use Rattle.sha2.specs.Sha256.{sha256};
ghost use Rattle.std.specs.Prelude.{IfOk, drop, length, take, ◌+◌, ◌≡◌, ◌≤◌};
ghost use Rattle.sl_sector.specs.Records.{IsValue};
ghost use Rattle.sl_sector.specs.SectorLayouts.{IsSectorSize, field_bytes, spelling, under_rules, value_of, value_rules};
ghost use Rattle.sl_sector.specs.declared.sector.Rec.TheVariants.{ValueIs};

use crate::fields::{MOST_HOSTS, all_hold, is_number, put, put_u32, put_u64, u32_at, u64_at};
use crate::frame::{begin, finish};
use crate::sector::{Bad, ValueRec};
use sl_text::Data;

/// The number that stands for a value in a sector's bytes.
pub(crate) const VALUE_KIND: u32 = 5;

/// Where the bytes begin; the fields end with them.
pub(crate) const VALUE_START: usize = 32;

/// The most bytes of a value.
const MOST_BYTES: u32 = 256;

impl ValueRec {
    /// Writes the sector that spells this value over the whole buffer, of 512 to 4096 bytes.
    #[tactic(auto, unfolding(crate::specs::SectorLayouts::spelling, crate::specs::SectorLayouts::checked_part))]
    pub fn encode_into(&self, buffer: &mut [u8])
        requires size { IsSectorSize (length buffer.old) }
        requires rules { IsValue self.now }
        ensures { buffer.new ≡ spelling sha256 (length buffer.new) (ValueIs self.now) }
    {
        self.put_fields(buffer);
        finish(buffer, VALUE_START + self.bytes.as_slice().len());
    }

    /// Writes the magic, the number and the fields.
    #[tactic(auto, unfolding(crate::specs::SectorLayouts::field_bytes))]
    fn put_fields(&self, buffer: &mut [u8])
        requires size { 512 ≤ length buffer.old }
        requires rules { IsValue self.now }
        ensures { take (32 + length self.now.bytes) buffer.new ≡ field_bytes (ValueIs self.now) }
    {
        let bytes = self.bytes.as_slice();
        begin(buffer, VALUE_KIND);
        put_u32(buffer, 8, bytes.len() as u32);
        put_u32(buffer, 12, self.host);
        put_u64(buffer, 16, self.lver);
        put_u64(buffer, 24, self.seq);
        put(buffer, VALUE_START, bytes);
    }
}

/// The bytes of a value.
fn data_at(sector: &[u8], len: u32) -> Data
    requires size { 512 ≤ length sector.now }
    requires few { len ≤ 256 }
    ensures exact { result ≡ take len (drop 32 sector.now) }
    ensures few { length result ≡ len }
{
    let (_, rest) = sector.split_at(VALUE_START);
    let (bytes, _) = rest.split_at(len as usize);
    match Data::new(bytes) {
        Some(data) => data,
        None => unreachable!(),
    }
}

/// The value that the fields give, or the first field that breaks a rule.
pub(crate) fn value_at(sector: &[u8]) -> Result<ValueRec, Bad>
    requires { 512 ≤ length sector.now }
    ensures exact { result ≡ under_rules (value_rules sector.now) (value_of sector.now) }
    ensures few { IfOk result (λ v. length v.bytes ≤ 256) }
{
    let len = u32_at(sector, 8);
    let host = u32_at(sector, 12);
    let lver = u64_at(sector, 16);
    let seq = u64_at(sector, 24);
    all_hold(&[
        (8, len <= MOST_BYTES),
        (12, host <= MOST_HOSTS),
        (16, is_number(lver)),
        (24, is_number(seq)),
    ])?;
    Ok(ValueRec {
        host,
        lver,
        seq,
        bytes: data_at(sector, len),
    })
}
