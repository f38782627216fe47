//! What a sector that was read tells.

ghost use Rattle.sl_area.specs.AreaSizes.{Sizes, layout_of, program_digest};
ghost use Rattle.sl_delta.specs.OwnSector.{IsOwnRecord, lease_of};
ghost use Rattle.sl_delta.specs.DeltaDecisions.{watched_in};
ghost use Rattle.sl_sector.specs.Records.{Fits};
ghost use Rattle.sl_sector.specs.SectorLayouts.{decoded, delta_in};
ghost use Rattle.sl_trace.specs.DeltaDecisions.{delta_record, host_of_delta, version_in, version_of};
ghost use Rattle.sl_trace.specs.Sightings.{is_free_state};
ghost use Rattle.sl_words.specs.Bounds.{moments};
ghost use Rattle.std.specs.Arc.{arc_value};
ghost use Rattle.std.specs.Prelude.{bytes_eq, codes, option_map, unwrap_or, [], ◌*◌, ◌<◌, ◌≡◌, ◌≤◌};

use crate::own_sector::OwnSector;
use sl_request::Bitmap;
use sl_sector::{DeltaRec, DeltaState, Image, delta_in};
use sl_text::Name;
use sl_trace::{DeltaOwner, DeltaVersion};
use std::sync::Arc;

/// The delta record that the sector spells.
pub(crate) fn delta_of(sector: &Image) -> Option<DeltaRec>
    ensures { result ≡ delta_in (decoded program_digest sector.now) }
{
    delta_in(sector.record())
}

/// Whether the state is free.
pub(crate) fn is_free(state: DeltaState) -> bool
    ensures { result ≡ is_free_state state }
{
    matches!(state, DeltaState::Free)
}

/// Generation and seq of a record.
fn version_of(record: &DeltaRec) -> DeltaVersion
    ensures { result ≡ version_of «record».now }
{
    DeltaVersion {
        generation: record.generation,
        seq: record.seq,
    }
}

/// Those of the record that the sector spells.
pub(crate) fn version_in(sector: &Image) -> Option<DeltaVersion>
    ensures { result ≡ option_map version_of (delta_in (decoded program_digest sector.now)) }
{
    match delta_of(sector) {
        Some(record) => Some(version_of(&record)),
        None => None,
    }
}

/// The name of a record that names no host: `-`.
fn dash() -> Name
    ensures { result ≡ codes "-" }
{
    match Name::new(b"-") {
        Some(name) => name,
        None => unreachable!(),
    }
}

/// Generation and host name of a record.
fn owner_of(record: &DeltaRec) -> DeltaOwner
    ensures { result ≡ host_of_delta «record».now }
{
    DeltaOwner {
        generation: record.generation,
        name: name_of(&record.host),
    }
}

/// The name, or `-` where it is absent.
fn name_of(host: &Option<Name>) -> Name
    ensures { result ≡ unwrap_or host.now (codes "-") }
{
    match host {
        Some(name) => *name,
        None => dash(),
    }
}

/// Generation and host name of the record that the sector spells.
pub(crate) fn owner_in(sector: &Image) -> Option<DeltaOwner>
    ensures { result ≡ option_map host_of_delta (delta_in (decoded program_digest sector.now)) }
{
    match delta_of(sector) {
        Some(record) => Some(owner_of(&record)),
        None => None,
    }
}

impl OwnSector {
    /// A delta record of this lease, with the daemon's name, the lockspace and the id; the stamp is `now`.
    pub(crate) fn record(
        &self,
        state: DeltaState,
        generation: u64,
        seq: u64,
        now: u64,
        bits: &Bitmap,
    ) -> DeltaRec
        ensures exact { result ≡ delta_record (lease_of self.now) state generation seq now bits.now }
        ensures rules { 1 ≤ generation → Fits generation → Fits seq → now < moments → IsOwnRecord result }
    {
        let _hosts = self.geometry.hosts();
        DeltaRec {
            state,
            id: self.id,
            generation,
            seq,
            stamp: now,
            lockspace: self.lockspace,
            host: Some(self.host),
            bitmap: bits.bytes(),
        }
    }

    /// Whether a sector is as the first read gave it.
    pub(crate) fn is_watched(&self, sector: &Image) -> bool
        ensures { result ≡ bytes_eq (watched_in self.now) sector.now }
    {
        match &self.watched {
            Some(first) => first.is_same(sector),
            None => sector.size() == 0,
        }
    }

    /// Generation and seq of the record that the first read gave.
    pub(crate) fn watched_version(&self) -> Option<DeltaVersion>
        ensures { result ≡ version_in (layout_of self.now.sizes) (watched_in self.now) }
    {
        version_at_first(&self.watched)
    }
}

/// Generation and seq of the record that the first read gave, if it gave any.
fn version_at_first(first: &Option<Arc<Image>>) -> Option<DeltaVersion>
    ensures { (z : Sizes) → result ≡ version_in (layout_of z) (unwrap_or (option_map (λ w. arc_value w) first.now) []) }
{
    match first {
        Some(sector) => version_in(sector),
        None => None,
    }
}
