//! Made runs are sound: from what a program that runs daemons is known to make, to what is promised of it.
//!
//! A program that replays a schedule shows that it has made a run, and that at each moment a daemon of its kind stood for each trace (a made run).
//! Where such daemons do what is due, and what is due is lawful, the run keeps the laws, so no two holdings ever conflict, and its last line counts
//! no conflict. What is owed for bytes read and written grows with what is promised of runs.
//!
//! A source has one run and one report (`laws::reports`). The plain program of a schedule computes a report; the run that it reports has the
//! events of the lines, each with the asks that follow it, of which there are few. Whoever reports a run in which each daemon does what is
//! due has made that run, so what is written is the plain program's text.
#![tactic(auto)]

pub mod laws;
