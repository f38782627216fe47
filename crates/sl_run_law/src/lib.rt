//! What stays and what only grows in a world, whatever its hosts do; and what lawful traces keep.
//!
//! These are the laws of runs on which safety stands, and the last that open the definitions of events. A folder a question:
//!
//! 1. `laws`: for one event and along a run, time goes on, landings, calls, samples, answers, resets and ended daemons stay, traces grow.
//! 2. `laws::premises`: what each premise gives, under its name: `drift`, `watchdog`, `landing`, `torn`, `name`.
//! 3. `laws::course`, `laws::landing`, `laws::sample`, `laws::place`: a machine's calls are those of its daemons' traces; a write lands
//!    once, whole sectors, in its own area; a sample shows the newest landing.
//! 4. `laws::moment`: of two things the one with the lesser step came first, clocks drift within their bounds, and the waits of joinings
//!    and of silences are as long in real time as the argument over ids asks.
//! 5. `laws::watchdog`: a session whose connection must stand is connected, and may act until its machine was reset more than `land` ago.
//! 6. `laws::sessions`, `laws::leases`: what a lawful trace tells of a session and of its leases, at the front at which each call was
//!    made.
//! 7. `laws::front`: each front of a lawful run is one; each event has one step.
#![tactic(auto)]

pub mod laws;
