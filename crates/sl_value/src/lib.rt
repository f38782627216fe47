//! A resource's value: some bytes that its holders hand on with it, and the version that tells two writes apart.
//!
//! Only an exclusive holder writes the value, and each write has a version of its own: the instance (`lver`) under which the writer
//! holds, and how often its session wrote under that instance. If two writes had one version, a reader could not tell whether the value
//! it read is the last; if a number were carried over to a later instance, the first write there would look like one of many.
#![tactic(auto)]

pub mod laws;
mod value;

pub use value::{Version, next_seq};
