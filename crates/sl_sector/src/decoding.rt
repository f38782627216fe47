//! Reading a sector: the record that its bytes spell, or the first test that fails.
//!
//! The tests are made in the order magic, kind, fields, padding, check. Each bad byte is then told by the narrowest test that sees
//! it, and the digest is only computed where all else is right.

ghost use Rattle.sha2.specs.Sha256.{sha256};
ghost use Rattle.std.specs.Prelude.{IfOk, IfSome, Ok, OnErr, bytes_eq, length, not, position, take, ◌==◌, ◌+◌, ◌-◌, ◌<◌, ◌≡◌, ◌≤◌};
ghost use Rattle.sl_sector.specs.FieldBytes as spec;
ghost use Rattle.sl_sector.specs.SectorLayouts as spelling;
ghost use Rattle.sl_sector.specs.SectorLayouts.{IsSectorSize, IsTorn, Spells, decoded, magic};
ghost use Rattle.sl_sector.specs.declared.sector.Rec.{Rec};

use crate::block::{BLOCK_END, BLOCK_KIND, block_at};
use crate::delta::{DELTA_END, DELTA_KIND, delta_at};
use crate::fields::u32_at;
use crate::frame::{CHECK_SIZE, MAGIC};
use crate::leader::{LEADER_END, LEADER_KIND, PAIR_LEADER_KIND, leader_at};
use crate::pair_bytes::{PAIR_END, PAIR_KIND, pair_at};
use crate::request::{REQUEST_END, REQUEST_KIND, request_at};
use crate::sector::{Bad, Rec};
use crate::value::{VALUE_KIND, VALUE_START, value_at};
use sha2::{Digest, Sha256};

/// Whether the sector begins with the magic.
#[tactic(auto, unfolding(crate::specs::SectorLayouts::magic))]
fn has_magic(sector: &[u8]) -> bool
    requires { 4 ≤ length sector.now }
    ensures { result ≡ bytes_eq (take 4 sector.now) magic }
{
    let (front, _) = sector.split_at(4);
    front == MAGIC.as_slice()
}

/// The record of the kind that the bytes name, or the refusal of the kind or of its first field that breaks a rule.
#[tactic(auto, unfolding(crate::specs::SectorLayouts::fields_of))]
fn fields_at(sector: &[u8]) -> Result<Rec, Bad>
    requires { 512 ≤ length sector.now }
    ensures exact { result ≡ spelling.fields_of (spec.u32_at sector.now 4) sector.now }
    ensures within { IfOk result (λ r. spelling.fields_end r ≤ 386) }
{
    match u32_at(sector, 4) {
        DELTA_KIND => Ok(Rec::DeltaIs(delta_at(sector)?)),
        LEADER_KIND => Ok(Rec::LeaderIs(leader_at(sector)?)),
        BLOCK_KIND => Ok(Rec::BlockIs(block_at(sector)?)),
        REQUEST_KIND => Ok(Rec::RequestIs(request_at(sector)?)),
        VALUE_KIND => Ok(Rec::ValueIs(value_at(sector)?)),
        PAIR_KIND => Ok(Rec::PairIs(pair_at(sector)?)),
        PAIR_LEADER_KIND => Ok(Rec::PairLeaderIs(leader_at(sector)?)),
        _ => Err(Bad::BadKind),
    }
}

/// Where the record's fields end.
fn fields_end(record: &Rec) -> usize
    ensures { result ≡ spelling.fields_end «record».now }
{
    match record {
        Rec::DeltaIs(_) => DELTA_END,
        Rec::LeaderIs(_) => LEADER_END,
        Rec::BlockIs(_) => BLOCK_END,
        Rec::RequestIs(_) => REQUEST_END,
        Rec::ValueIs(value) => VALUE_START + value.bytes.as_slice().len(),
        Rec::PairIs(_) => PAIR_END,
        Rec::PairLeaderIs(_) => LEADER_END,
    }
}

/// The place of the first byte that isn't zero, if there is one.
fn first_nonzero(bytes: &[u8]) -> Option<usize>
    ensures exact { result ≡ position (λ b. not (b == 0)) bytes.now }
    ensures within { IfSome result (λ k. k < length bytes.now) }
{
    bytes.iter().position(|byte| *byte != 0)
}

/// Nothing where each byte from this offset on is zero, else `BadPad` of the first that isn't.
fn padding_from(at: usize, body: &[u8]) -> Result<(), Bad>
    requires inside { at ≤ length body.now }
    requires short { length body.now ≤ 4096 }
    ensures { result ≡ spelling.padding_from at body.now }
{
    let (_, rest) = body.split_at(at);
    match first_nonzero(rest) {
        None => Ok(()),
        Some(k) => Err(Bad::BadPad((at + k) as u32)),
    }
}

/// Whether the last bytes are the SHA-256 of the others.
fn has_check(body: &[u8], check: &[u8]) -> bool
    ensures { result ≡ bytes_eq check.now (sha256 body.now) }
{
    check == Sha256::digest(body).as_slice()
}

/// The five tests, in their order.
#[tactic(auto, unfolding(crate::specs::SectorLayouts::decoded))]
fn tested(sector: &[u8]) -> Result<Rec, Bad>
    requires { IsSectorSize (length sector.now) }
    ensures { result ≡ decoded sha256 sector.now }
{
    let (body, check) = sector.split_at(sector.len() - CHECK_SIZE);
    if !has_magic(sector) {
        return Err(Bad::BadMagic);
    }
    let record = fields_at(sector)?;
    padding_from(fields_end(&record), body)?;
    if !has_check(body, check) {
        return Err(Bad::BadCheck);
    }
    Ok(record)
}

/// The record that the sector's bytes spell, or the first test that fails. A sector has 512 to 4096 bytes. It takes no memory.
///
/// # Errors
/// In this order: `BadMagic`, `BadKind`, `BadField` with the offset of the first field that breaks a rule of its own or with fields
/// before it, `BadPad` with the offset of the first byte that is in no field and isn't zero, `BadCheck`.
pub fn decode(sector: &[u8]) -> Result<Rec, Bad>
    requires { IsSectorSize (length sector.now) }
    // which record, or which refusal
    ensures exact { result ≡ decoded sha256 sector.now }
    // what is read is spelled so
    ensures found { IfOk result (λ r. Spells sha256 sector.now r) }
    // what is spelled so is read
    ensures only { (r : Rec) → Spells sha256 sector.now r → result ≡ Ok r }
    // what is refused spells nothing
    ensures torn { OnErr result (IsTorn sha256 sector.now) }
{
    tested(sector)
}
