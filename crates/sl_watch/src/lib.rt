//! What a session has seen of other ids' sectors, and what that shows.
//!
//! After each renewal a session reads the delta sectors of all ids. By what it saw it counts others as over, and without such evidence
//! it takes nothing that another host had. `watch` keeps what was seen and answers two questions about an id; `laws` says what
//! sightings don't show.
//!
//! A watch has a fixed size: of each id it keeps what all its sightings come to. Within, `run` is the longest end of an id's sightings in
//! which nothing changed, and `summary` what all of them come to.
#![tactic(auto)]

pub mod laws;
mod run;
mod summary;
pub mod watch;

pub use run::KeptRun;
pub use summary::Summary;
pub use watch::Watch;
