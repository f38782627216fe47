//! Laws of every spelling: that bytes spell at most one record, that each record is spelled, and that reading is exact.
//!
//! They hold for any digest of 32 bytes. Nothing that is proved of leases needs more of it; that two records with one digest are not
//! met in practice is what SHA-256 adds.

ghost use Rattle.sha2.specs.Sha256.{sha256};
ghost use Rattle.sl_sector.specs.Laws as laws;
ghost use Rattle.sl_sector.specs.SectorLayouts.{IsDigest};

/// Bytes spell at most one record: who reads a sector knows what was written.
#[tactic(auto, using(crate::proofs::PublicLaws::one_record))]
pub fn one_record()
    ensures { laws.OneRecord }
{}

/// A record that meets its rules has a spelling of each size from 512 to 4096 bytes.
pub fn each_is_spelled()
    ensures { laws.EachIsSpelled }
{}

/// What spells a record is read as that record.
#[tactic(auto, using(crate::proofs::PublicLaws::spelled_is_read))]
pub fn spelled_is_read()
    ensures { laws.SpelledIsRead }
{}

/// Reading gives a record exactly where the bytes spell it.
pub fn reading_is_exact()
    ensures { laws.ReadingIsExact }
{}

/// SHA-256 is such a digest: 32 bytes, of every text.
#[tactic(auto, using(crate::proofs::WrittenBytes::sha256_is_digest))]
pub fn sha256_is_digest()
    ensures { IsDigest sha256 }
{}
