//! The disks of a world, and where calls lie on them.
//!
//! Each disk has a table with a place for each of its sectors (`table`). A sector that nobody touched takes no memory: what stands there
//! at moment 0 (`initial`) is worked out when it is first asked for, and kept from then on, so it is worked out once. A sector that was
//! written is shared with the write that left it there, and with each read that sampled it; none is copied.
//!
//! `Disks` is seen as what stands at each sector, whether it is kept or not. So a look at a sector changes nothing that is seen, and a
//! write changes what is seen of one sector and of no other. `place` tells once, when a call is made, where it lies: the place of its disk
//! among the header's and the number of its first sector there.
#![tactic(auto)]

mod disks;
mod initial;
mod place;
mod table;

pub use disks::Disks;
pub use initial::{clock_reading, initial_delta};
pub use place::{Place, place_of, sectors_of};
