//! For whom a lease is kept.

use sl_area::Geometry;
use sl_sector::Owner;
use sl_text::Name;

/// The sizes of the run, the lockspace, and the session as ballots name it: the id is 1 to the run's number of hosts, the generation 1 to
/// 2^63 - 1.
#[derive(Clone, Copy)]
pub struct Side {
    pub geometry: Geometry,
    pub lockspace: Name,
    pub me: Owner,
}
