//! Areas: sizes of a run, where each record stands, and the sectors of a disk that are read and written there.
//!
//! A lockspace's area has the delta sectors of all hosts, a resource's area its leader, its request, the hosts' blocks and its value. No
//! two of them share a sector, and no area reaches into the next one: else a host that writes its own sector could tear another's. A block
//! has one sector, or a pair of them that its host writes in turn, so that a write that is torn leaves the block before it.
#![tactic(auto)]

pub mod area;
pub mod file_area;
pub mod geometry;
pub mod laws;
pub mod mem_area;
pub mod sector_place;

pub use area::Area;
pub use file_area::FileArea;
pub use geometry::{BadGeometry, Geometry};
pub use mem_area::MemArea;
pub use sector_place::Place;
