//! A label, its text and its record.

ghost use Rattle.sha2.specs.Sha256.{sha256};
ghost use Rattle.sl_label.specs.Labels as labels;
ghost use Rattle.sl_label.specs.Labels.{IsLabel};
ghost use Rattle.sl_sector.specs.Records.{IsRecord};
ghost use Rattle.sl_sector.specs.SectorLayouts.{IsSectorSize, decoded};
ghost use Rattle.sl_text.specs.Forms.{spaced};
ghost use Rattle.std.specs.List.{list_all};
ghost use Rattle.std.specs.Prelude.{IfOk, IsTrue, length, nat_lt, string_bytes, [], ◌++◌, ◌∷◌, ◌≡◌};

use sl_area::Geometry;
use sl_sector::{Rec, ValueRec, decode};
use sl_text::{Data, Name};
use sl_time::Timing;
use std::alloc::{AllocError, Global};

/// The unit of an area's size, in bytes.
const MEBIBYTE: u64 = 1_048_576;

/// What all hosts of an area have in common: their times, how long a holder has between term and kill, in milliseconds (at most 600000), the sizes of the
/// area, for how many hosts it is, and the lockspace's name.
#[derive(Clone, Copy)]
pub struct Label {
    pub timing: Timing,
    pub grace: u64,
    pub geometry: Geometry,
    pub lockspace: Name,
}

/// Bytes are below 256.
fn are_bytes(bytes: &[u8])
    ensures { IsTrue (list_all (λ b. nat_lt b 256) bytes.now) }
{
    let _size = bytes.len();
}

impl Label {
    /// The text of its times. An `Err` is want of memory.
    fn time_text(&self, alloc: Global) -> Result<String, AllocError>
        ensures { IfOk result (λ text. string_bytes text ≡ labels.time_text self.now) }
    {
        let timing = self.timing;
        let (io, fire, land, rho) = (timing.io(), timing.fire(), timing.land(), timing.rho());
        let grace = self.grace;
        format!(in alloc; "time {io} {fire} {land} {rho} {grace}")
    }

    /// The text of its area. An `Err` is want of memory.
    fn area_text(&self, alloc: Global) -> Result<String, AllocError>
        ensures { IfOk result (λ text. string_bytes text ≡ spaced (labels.area_words self.now)) }
    {
        let (hosts, sector) = (self.geometry.hosts(), self.geometry.sector());
        let mebibytes = self.geometry.area() / MEBIBYTE;
        let lockspace = self.lockspace;
        format!(in alloc; "ids {hosts} geometry {sector} {mebibytes} lockspace {lockspace}")
    }

    /// Its whole text. An `Err` is want of memory.
    pub fn text(&self, alloc: Global) -> Result<Vec<u8>, AllocError>
        ensures { IfOk result (λ text. text.items ≡ labels.label_text self.now) }
    {
        let mut text = self.time_text(alloc)?.into_bytes();
        let area = self.area_text(alloc)?;
        text.push(b' ')?;
        text.extend_from_slice(area.as_bytes())?;
        Ok(text)
    }

    /// The record that spells it. An `Err` is want of memory.
    pub fn record(&self, alloc: Global) -> Result<Rec, AllocError>
        requires { IsLabel self.now }
        ensures exact { IfOk result (λ rec. rec ≡ labels.label_record self.now) }
        ensures rules { IfOk result (λ rec. IsRecord rec) }
    {
        let _area = self.geometry.area();
        let text = self.text(alloc)?;
        are_bytes(&text);
        let Some(bytes) = Data::new(&text) else {
            unreachable!()
        };
        Ok(Rec::ValueIs(ValueRec {
            host: 0,
            lver: 0,
            seq: 0,
            bytes,
        }))
    }

    /// Whether a text begins as that of a label with its times. An `Err` is want of memory.
    pub fn has_time(&self, alloc: Global, text: &[u8]) -> Result<bool, AllocError>
        ensures { IfOk result (λ has. has ≡ labels.has_time self.now text.now) }
    {
        let mut time = self.time_text(alloc)?.into_bytes();
        time.push(b' ')?;
        Ok(text.starts_with(&time))
    }
}

/// The text of the label that a sector has, of 512 to 4096 bytes, if it spells a value.
pub fn label_in(sector: &[u8]) -> Option<Data>
    requires { IsSectorSize (length sector.now) }
    ensures { result ≡ labels.label_in (decoded sha256 sector.now) }
{
    match decode(sector) {
        Ok(Rec::ValueIs(value)) => Some(value.bytes),
        Ok(_) => None,
        Err(_) => None,
    }
}
