//! A machine's connections to its watchdog daemon, wdmd(8).
//!
//! Each lockspace that the machine has joined has a connection, with an expiry that moves on at every renewal of its lease. The daemon
//! tests them by the machine's clock: once a single expiry is reached the test fails, keepalives stop, and the device resets the
//! machine. So a machine that could not renew one lease is stopped before others take that lease over (Chockler and Malkhi,
//! *Light-weight leases for storage-centric coordination*; sanlock(8)), however well its other leases do.
//!
//! `Wdmd` keeps the connections in order of registration and takes each move as its definition says (`after_move`). `laws` says what
//! moves do without saying how:
//!
//! - A move leaves every connection of another name as it was, and in its order. Else one lockspace's renewal could hide that another
//!   was lost.
//! - A name that is registered stands last, a renewal moves no name, a removal closes the gap.
//! - A move does to the connection of its own name what it says, and no name is there twice where none is registered that stands.
//!
//! A machine of a replay keeps one, and so does a cell, under its lock, for a live machine: memory for the moves of a step is taken before the
//! step (`reserve`), and moves take none (`make_moves`).
#![tactic(auto)]

mod connection;
pub mod laws;
mod lockspace;
pub mod wdmd;

pub use connection::Connection;
pub use wdmd::Wdmd;
