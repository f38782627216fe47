//! What was seen at an id.

use sl_sector::DeltaRec;
use sl_text::Bytes;

/// One look at an id's sector: readings before and after, and the bytes.
#[derive(Drop)]
pub struct Sighting {
    /// The reading at which the look was submitted: the sector was sampled no earlier.
    pub before: u64,
    /// The reading at which it was answered: the sector was sampled no later.
    pub after: u64,
    pub bytes: Bytes,
}

/// The longest end of the sightings whose bytes are equal and spell a record of the id.
#[derive(Drop)]
pub struct Run {
    pub spelled: DeltaRec,
    pub bytes: Bytes,
    /// The reading at which its first sighting was answered: from there on it is known to have stood.
    pub since: u64,
    /// The reading at which its last sighting was submitted: up to there it is known to have stood.
    pub latest: u64,
    /// Whether an earlier sighting found something else.
    pub changed: bool,
}
