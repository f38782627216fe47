//! The label of a lockspace's area: what all hosts of the area must have in common.
//!
//! A host waits for another one by times that it makes of its own four numbers, and finds its records by sizes of its own. Hosts that differ in
//! them exclude each other no more, and no record of theirs tells it. So the last sector of a lockspace's area, in which no id has a record, may have a
//! label: a value, as any other of the disk, whose bytes are the text
//!
//!     time IO FIRE LAND RHO GRACE ids N geometry SECTOR MIB lockspace NAME
//!
//! A reader of sectors finds a value there, so no rule of spelling is new; and a sector that is torn has no label. Two labels have the same text just
//! where they are the same.
#![tactic(auto)]

mod label;

pub use label::{Label, label_in};
