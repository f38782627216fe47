//! A session's lease on an id: what it keeps of its calls on the id's sector, and what it does there next.
//!
//! An id is had by who writes its sector anew, again and again (Chockler and Malkhi, *Light-weight leases for storage-centric
//! coordination*, on one disk). A session comes to it in the stages of `sl_trace`:
//!
//! ```text
//! Looking --> Deciding --> Claiming --> Waiting --> Verifying --> FirstRenewing --> Standing --> Freeing --> Ended
//!    |           |            |            |            |               |                          (or at once, after recovery)
//!    +-----------+------------+------------+------------+---------------+--> Refused
//! ```
//!
//! - `Looking`: the sector was read (`first_answered`) and is read again every `renew`. A free record ends the watch at once, any other
//!   once a read that was submitted `take` after the first answer gave the same bytes; a read that differs refuses.
//! - `Deciding`: the connection is registered and the sector is read once more; where it is still the watched one, the claim is written,
//!   one generation and one seq higher.
//! - `Claiming`, `Waiting`: the claim's answer removes the connection, and `dead` passes. Whoever had read the same record and claimed it
//!   too has landed by then. Past `join_max` it is too late: others may take the id.
//! - `Verifying`, `FirstRenewing`: the connection is registered again, the sector is read, and where it is the own claim it is renewed.
//! - `Standing`, `Freeing`: it is renewed every `renew` on a wake, and at last freed, once.
//!
//! An `OwnSector` makes no call itself. It is told of each that is submitted (`called`) and of its answer (`first_answered`, `answered`),
//! and is asked what comes next: `after_join` and `on_wake` while it joins, `renewal` and `free` from then on. It has a fixed size: of the calls it keeps the sector that the first read gave, which is shared with whoever read it, the reading of
//! that answer, the claim, the newest call's step and readings, and generation, seq and submission reading of what was written last. It
//! stands for each list of calls that led to it (`OwnStands`), each part being the answer to one question to the list:
//!
//! - joining: what was read first, when, the claim, the newest call. Else a changed record would be taken for the watched one.
//! - generation, seq: those of the record submitted last. Counted from its answer, a write that failed and landed late would be doubled.
//! - renewed: the last renewal's submission, answered or not.
//! - busy: at most the newest call has no answer. Two writes of one sector could land in the other order.
//! - freed: a free was submitted, which is never tried again.
//!
//! `laws` says that this is enough for each decision, and that a host keeps the same.
#![tactic(auto)]

mod answer;
mod joining;
pub mod laws;
mod numbers;
mod own_sector;
mod purposes;
mod reads;
mod renewing;

pub use answer::SectorAnswer;
pub use numbers::{has_next, has_passed};
pub use own_sector::OwnSector;
