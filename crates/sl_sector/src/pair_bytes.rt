//! The bytes of a pair's block: a block's fields, and behind them its turn and the names of its resource. The names make good for a leader
//! that was torn, which is then made from the blocks.

ghost use Rattle.sha2.specs.Sha256.{sha256};
ghost use Rattle.std.specs.Prelude.{length, take, ◌≡◌, ◌≤◌};
ghost use Rattle.sl_sector.specs.Records.{IsPair};
ghost use Rattle.sl_sector.specs.SectorLayouts.{IsSectorSize, field_bytes, own_rules, pair_of, pair_rules, pair_with, spelling, under_rules};
ghost use Rattle.sl_sector.specs.declared.sector.Rec.TheVariants.{PairIs};

use crate::block::block_at;
use crate::fields::{both, is_number, name_at, put_name, put_u64, rule, u64_at};
use crate::frame::finish;
use crate::sector::{Bad, Block, PairBlock};

/// The number that stands for a block of a pair in a sector's bytes.
pub(crate) const PAIR_KIND: u32 = 6;

/// The offset behind the last field: from here on to the check all is zero.
pub(crate) const PAIR_END: usize = 164;

impl PairBlock {
    /// Writes the sector that spells this block of a pair over the whole buffer, of 512 to 4096 bytes.
    #[tactic(auto, unfolding(crate::specs::SectorLayouts::spelling, crate::specs::SectorLayouts::checked_part))]
    pub fn encode_into(&self, buffer: &mut [u8])
        requires size { IsSectorSize (length buffer.old) }
        requires rules { IsPair self.now }
        ensures { buffer.new ≡ spelling sha256 (length buffer.new) (PairIs self.now) }
    {
        self.put_fields(buffer);
        finish(buffer, PAIR_END);
    }

    /// Writes the magic, the number and the fields.
    #[tactic(auto, unfolding(crate::specs::SectorLayouts::field_bytes))]
    fn put_fields(&self, buffer: &mut [u8])
        requires size { 512 ≤ length buffer.old }
        requires rules { IsPair self.now }
        ensures { take 164 buffer.new ≡ field_bytes (PairIs self.now) }
    {
        self.block.put_fields(buffer, PAIR_KIND);
        put_u64(buffer, 60, self.turn);
        put_name(buffer, 68, self.lockspace.as_slice());
        put_name(buffer, 116, self.resource.as_slice());
    }
}

/// The block with the fields of a pair behind it, or the first of these that breaks a rule.
#[tactic(auto, unfolding(crate::specs::SectorLayouts::own_rules))]
fn paired(sector: &[u8], block: Block) -> Result<PairBlock, Bad>
    requires { 512 ≤ length sector.now }
    ensures { result ≡ under_rules (own_rules sector.now) (pair_with sector.now block) }
{
    let turn = u64_at(sector, 60);
    rule(60, both(is_number(turn), turn != 0))?;
    let lockspace = name_at(sector, 68)?;
    let resource = name_at(sector, 116)?;
    Ok(PairBlock {
        block,
        turn,
        lockspace,
        resource,
    })
}

/// The block of a pair that the fields give, or the first field that breaks a rule.
pub(crate) fn pair_at(sector: &[u8]) -> Result<PairBlock, Bad>
    requires { 512 ≤ length sector.now }
    ensures { result ≡ under_rules (pair_rules sector.now) (pair_of sector.now) }
{
    match block_at(sector) {
        Ok(block) => paired(sector, block),
        Err(bad) => Err(bad),
    }
}
