//! Times of a run, in whole milliseconds: how often a session renews, how long it may act, how long others wait for it; and the clock
//! that every machine reads them on.
//!
//! All times follow from four numbers (`Timing`): `io`, the longest that a job's call may take; `fire`, how late a watchdog device resets
//! its machine; `land`, how late a write may land behind a reset; `rho`, by how many per mille a clock may be fast or slow. `Times` has
//! the formulas:
//!
//! 1. `renew` < `fail`: a session goes on for `fail` after its last renewal, by its own clock.
//! 2. `gone`: so long, in real time, it can act at most: its connection runs out, its machine is reset, its last write lands.
//! 3. `gone` < `dead`, whatever the two clocks do: an observer waits `dead` before it counts a session as over.
//! 4. `join_max`, `take_over`: a claim is verified early enough that whoever watches a record for `take_over` need not fear its writer.
//!
//! A `Clock` never goes back: else a connection that had run out could count as live again. `MemClock` gives readings from a list.
#![tactic(auto)]

pub mod clock;
pub mod timing;

pub use clock::{Clock, MemClock};
pub use timing::{Timing, TimingBad};
