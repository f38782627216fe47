//! Logs that nobody keeps: a log is a list in the proofs alone, and threads carry beginnings of it.
//!
//! An element is signed with the number of whoever gave it. A `Book` is the one word that all threads share: how many elements there are. A `Front`
//! is how many of them somebody has seen, with the token that they were seen. A list that has been seen is a beginning of all that is seen later, so
//! of two fronts the shorter begins the longer, and fronts that are as long are one.
//!
//! A `Seat` counts what one thread gave. That nobody else gives with its number is not known while threads run; where at the end the counts of all
//! seats make up the log's length, each seat has counted exactly the elements of its number (`check`).
#![tactic(auto)]

mod book;
mod closing;
mod mail;
mod seat;
mod shelf;
mod signed;

pub use book::{Book, Front, Opened};
pub use closing::{Miscount, check};
pub use mail::{Broken, Ledger, Posted, Reader, Reading};
pub use seat::Seat;
pub use shelf::Shelf;
pub use signed::Signed;
