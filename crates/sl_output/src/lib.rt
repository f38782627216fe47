//! Text that several threads put out to one sink.
//!
//! An `Output` has the sink under its lock, and beside it the front of a book (`sl_book`) of the pieces that were put into it, each with the number
//! of whoever put it. The pieces themselves are kept nowhere. What the sink has taken is what it had at the beginning and then the pieces, one behind
//! the other; after a write that failed, a beginning of them. A thread has a seat, which counts the pieces that it put. Where at the end the counts of
//! all seats make up the book, the pieces of each number are exactly those that its seat put.
#![tactic(auto)]

mod kept;
mod output;
mod press;

pub use output::{Output, Put};
pub use press::{Book, Front, Opened, Press, Seat, Signed};
