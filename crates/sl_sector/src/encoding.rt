//! Writing a sector: each of the seven records over a whole buffer.

ghost use Rattle.sha2.specs.Sha256.{sha256};
ghost use Rattle.std.specs.Prelude.{length, ◌≡◌};
ghost use Rattle.sl_sector.specs.Records.{IsRecord};
ghost use Rattle.sl_sector.specs.SectorLayouts.{IsSectorSize, spelling};

use crate::sector::Rec;

impl Rec {
    /// Writes the sector that spells this record over the whole buffer, of 512 to 4096 bytes. It takes no memory.
    pub fn encode_into(&self, buffer: &mut [u8])
        requires size { IsSectorSize (length buffer.old) }
        requires rules { IsRecord self.now }
        ensures { buffer.new ≡ spelling sha256 (length buffer.new) self.now }
    {
        match self {
            Rec::DeltaIs(delta) => delta.encode_into(buffer),
            Rec::LeaderIs(leader) => leader.encode_into(buffer),
            Rec::BlockIs(block) => block.encode_into(buffer),
            Rec::RequestIs(request) => request.encode_into(buffer),
            Rec::ValueIs(value) => value.encode_into(buffer),
            Rec::PairIs(pair) => pair.encode_into(buffer),
            Rec::PairLeaderIs(leader) => leader.encode_paired_into(buffer),
        }
    }
}
