//! The block's bytes: a host's ballot and its shared mode on a resource.

ghost use Rattle.sha2.specs.Sha256.{sha256};
ghost use Rattle.std.specs.Prelude.{length, take, ◌≡◌, ◌≤◌};
ghost use Rattle.sl_sector.specs.Records.{IsBlock};
ghost use Rattle.sl_sector.specs.SectorLayouts.{IsSectorSize, block_fields, block_of, block_rules, spelling, under_rules};
ghost use Rattle.sl_sector.specs.declared.sector.Rec.TheVariants.{BlockIs};

use crate::fields::{
    MOST_HOSTS, agree, both, implies, is_host, is_number, put_u32, put_u64, u32_at, u64_at, under,
};
use crate::frame::{begin, finish};
use crate::sector::{Bad, Block};

/// The number that stands for a block in a sector's bytes.
pub(crate) const BLOCK_KIND: u32 = 3;

/// The offset behind the last field: from here on to the check all is zero.
pub(crate) const BLOCK_END: usize = 60;

impl Block {
    /// Writes the sector that spells this block over the whole buffer, of 512 to 4096 bytes.
    #[tactic(auto, unfolding(crate::specs::SectorLayouts::spelling, crate::specs::SectorLayouts::checked_part, crate::specs::SectorLayouts::field_bytes))]
    pub fn encode_into(&self, buffer: &mut [u8])
        requires size { IsSectorSize (length buffer.old) }
        requires rules { IsBlock self.now }
        ensures { buffer.new ≡ spelling sha256 (length buffer.new) (BlockIs self.now) }
    {
        self.put_fields(buffer, BLOCK_KIND);
        finish(buffer, BLOCK_END);
    }

    /// Writes the magic, the number of a record that has a block's fields, and these.
    pub(crate) fn put_fields(&self, buffer: &mut [u8], kind: u32)
        requires { 512 ≤ length buffer.old }
        ensures { take 60 buffer.new ≡ block_fields kind self.now }
    {
        begin(buffer, kind);
        put_u32(buffer, 8, self.host);
        put_u32(buffer, 12, u32::from(self.shared));
        put_u64(buffer, 16, self.lver);
        put_u64(buffer, 24, self.mbal);
        put_u64(buffer, 32, self.bal);
        put_u64(buffer, 40, self.inp_gen);
        put_u64(buffer, 48, self.mode_gen);
        put_u32(buffer, 56, self.inp);
    }
}

/// The block that the fields give, or the first field that breaks a rule.
pub(crate) fn block_at(sector: &[u8]) -> Result<Block, Bad>
    requires { 512 ≤ length sector.now }
    ensures { result ≡ under_rules (block_rules sector.now) (block_of sector.now) }
{
    let host = u32_at(sector, 8);
    let mode = u32_at(sector, 12);
    let lver = u64_at(sector, 16);
    let mbal = u64_at(sector, 24);
    let bal = u64_at(sector, 32);
    let inp_gen = u64_at(sector, 40);
    let mode_gen = u64_at(sector, 48);
    let inp = u32_at(sector, 56);
    let unused = lver == 0;
    let no_value = bal == 0;
    under(
        &[
            (8, is_host(host)),
            (12, mode <= 1),
            (16, both(is_number(lver), implies(unused, mode == 0))),
            (24, both(is_number(mbal), implies(unused, mbal == 0))),
            (32, bal <= mbal),
            (40, both(is_number(inp_gen), agree(no_value, inp_gen == 0))),
            (
                48,
                both(is_number(mode_gen), agree(mode == 0, mode_gen == 0)),
            ),
            (56, both(inp <= MOST_HOSTS, agree(no_value, inp == 0))),
        ],
        Block {
            host,
            shared: mode == 1,
            lver,
            mbal,
            bal,
            inp_gen,
            mode_gen,
            inp,
        },
    )
}
