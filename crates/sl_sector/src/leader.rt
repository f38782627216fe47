//! The leader's bytes: who holds a resource, or held it last. Where blocks have pairs of sectors its record has another number, and the
//! same fields: a program for the one kind of areas finds no leader in the other.

ghost use Rattle.sha2.specs.Sha256.{sha256};
ghost use Rattle.std.specs.Prelude.{length, take, ◌≡◌, ◌≤◌};
ghost use Rattle.sl_sector.specs.Records.{IsLeader};
ghost use Rattle.sl_sector.specs.SectorLayouts.{IsSectorSize, leader_fields, leader_of, leader_rules, spelling, under_rules};
ghost use Rattle.sl_sector.specs.declared.sector.Rec.TheVariants.{LeaderIs, PairLeaderIs};

use crate::fields::{
    agree, all_hold, both, implies, is_host, is_number, name_at, put_name, put_u32, put_u64,
    u32_at, u64_at,
};
use crate::frame::{begin, finish};
use crate::sector::{Bad, Leader};

/// The number that stands for a leader in a sector's bytes.
pub(crate) const LEADER_KIND: u32 = 2;

/// The record's number where blocks have pairs.
pub(crate) const PAIR_LEADER_KIND: u32 = 7;

/// The offset behind the last field: from here on to the check all is zero.
pub(crate) const LEADER_END: usize = 132;

impl Leader {
    /// Writes the sector that spells this leader over the whole buffer, of 512 to 4096 bytes.
    #[tactic(auto, unfolding(crate::specs::SectorLayouts::spelling, crate::specs::SectorLayouts::checked_part, crate::specs::SectorLayouts::field_bytes))]
    pub fn encode_into(&self, buffer: &mut [u8])
        requires size { IsSectorSize (length buffer.old) }
        requires rules { IsLeader self.now }
        ensures { buffer.new ≡ spelling sha256 (length buffer.new) (LeaderIs self.now) }
    {
        self.put_fields(buffer, LEADER_KIND);
        finish(buffer, LEADER_END);
    }

    /// Writes the sector that spells this leader as that of an area with pairs over the whole buffer, of 512 to 4096 bytes.
    #[tactic(auto, unfolding(crate::specs::SectorLayouts::spelling, crate::specs::SectorLayouts::checked_part, crate::specs::SectorLayouts::field_bytes))]
    pub fn encode_paired_into(&self, buffer: &mut [u8])
        requires size { IsSectorSize (length buffer.old) }
        requires rules { IsLeader self.now }
        ensures { buffer.new ≡ spelling sha256 (length buffer.new) (PairLeaderIs self.now) }
    {
        self.put_fields(buffer, PAIR_LEADER_KIND);
        finish(buffer, LEADER_END);
    }

    /// Writes the magic, the number of a record that has a leader's fields, and these.
    fn put_fields(&self, buffer: &mut [u8], kind: u32)
        requires size { 512 ≤ length buffer.old }
        requires rules { IsLeader self.now }
        ensures { take 132 buffer.new ≡ leader_fields kind self.now }
    {
        begin(buffer, kind);
        put_u32(buffer, 8, u32::from(self.held));
        put_u32(buffer, 12, self.num_hosts);
        put_u64(buffer, 16, self.lver);
        put_u64(buffer, 24, self.generation);
        put_u32(buffer, 32, self.owner);
        put_name(buffer, 36, self.lockspace.as_slice());
        put_name(buffer, 84, self.resource.as_slice());
    }
}

/// Nothing where the rules of the numbers hold, the first five, else `BadField` of the first that doesn't.
fn numbers_hold(sector: &[u8]) -> Result<(), Bad>
    requires { 512 ≤ length sector.now }
    ensures { result ≡ under_rules (take 5 (leader_rules sector.now)) tt }
{
    let state = u32_at(sector, 8);
    let num_hosts = u32_at(sector, 12);
    let lver = u64_at(sector, 16);
    let generation = u64_at(sector, 24);
    let owner = u32_at(sector, 32);
    let unused = lver == 0;
    all_hold(&[
        (8, state <= 1),
        (12, is_host(num_hosts)),
        (16, both(is_number(lver), implies(unused, state == 0))),
        (
            24,
            both(is_number(generation), agree(unused, generation == 0)),
        ),
        (32, both(owner <= num_hosts, agree(unused, owner == 0))),
    ])
}

/// The leader that the fields give, or the first field that breaks a rule.
pub(crate) fn leader_at(sector: &[u8]) -> Result<Leader, Bad>
    requires { 512 ≤ length sector.now }
    ensures { result ≡ under_rules (leader_rules sector.now) (leader_of sector.now) }
{
    numbers_hold(sector)?;
    let lockspace = name_at(sector, 36)?;
    let resource = name_at(sector, 84)?;
    Ok(Leader {
        held: u32_at(sector, 8) == 1,
        num_hosts: u32_at(sector, 12),
        lver: u64_at(sector, 16),
        generation: u64_at(sector, 24),
        owner: u32_at(sector, 32),
        lockspace,
        resource,
    })
}
