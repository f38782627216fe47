//! The request's bytes: what another host asks of a resource's holder.

ghost use Rattle.sha2.specs.Sha256.{sha256};
ghost use Rattle.std.specs.Prelude.{length, take, ◌≡◌, ◌≤◌};
ghost use Rattle.sl_sector.specs.Records.{IsRequest};
ghost use Rattle.sl_sector.specs.SectorLayouts.{IsSectorSize, field_bytes, request_of, request_rules, spelling, under_rules};
ghost use Rattle.sl_sector.specs.declared.sector.Rec.TheVariants.{RequestIs};

use crate::fields::{MOST_HOSTS, agree, both, is_number, put_u32, put_u64, u32_at, u64_at, under};
use crate::frame::{begin, finish};
use crate::sector::{Bad, Request};

/// The number that stands for a request in a sector's bytes.
pub(crate) const REQUEST_KIND: u32 = 4;

/// The offset behind the last field: from here on to the check all is zero.
pub(crate) const REQUEST_END: usize = 24;

impl Request {
    /// Writes the sector that spells this request over the whole buffer, of 512 to 4096 bytes.
    #[tactic(auto, unfolding(crate::specs::SectorLayouts::spelling, crate::specs::SectorLayouts::checked_part))]
    pub fn encode_into(&self, buffer: &mut [u8])
        requires size { IsSectorSize (length buffer.old) }
        requires rules { IsRequest self.now }
        ensures { buffer.new ≡ spelling sha256 (length buffer.new) (RequestIs self.now) }
    {
        self.put_fields(buffer);
        finish(buffer, REQUEST_END);
    }

    /// Writes the magic, the number and the fields.
    #[tactic(auto, unfolding(crate::specs::SectorLayouts::field_bytes))]
    fn put_fields(&self, buffer: &mut [u8])
        requires { 512 ≤ length buffer.old }
        ensures { take 24 buffer.new ≡ field_bytes (RequestIs self.now) }
    {
        begin(buffer, REQUEST_KIND);
        put_u32(buffer, 8, self.force);
        put_u32(buffer, 12, self.host);
        put_u64(buffer, 16, self.lver);
    }
}

/// The request that the fields give, or the first field that breaks a rule.
pub(crate) fn request_at(sector: &[u8]) -> Result<Request, Bad>
    requires { 512 ≤ length sector.now }
    ensures { result ≡ under_rules (request_rules sector.now) (request_of sector.now) }
{
    let force = u32_at(sector, 8);
    let host = u32_at(sector, 12);
    let lver = u64_at(sector, 16);
    under(
        &[
            (8, force <= 2),
            (12, host <= MOST_HOSTS),
            (16, both(is_number(lver), agree(force == 0, lver == 0))),
        ],
        Request { force, host, lver },
    )
}
