//! What is promised of the runs that the program tells, all of it in one record.
//!
//! A program that replays a schedule shows that it has made a run: at each moment a daemon of its kind stood for each trace. Where such daemons do
//! what is due, the run is sound, both invariants hold in it, values are the last, volumes exclude each other (`laws::volumes`), and an acquire
//! that nothing stands in the way of is granted (`laws::quiet`). What is owed for bytes read and written grows with what is promised of runs, so
//! it is owed of such runs (`laws`).
#![tactic(auto)]

pub mod laws;
