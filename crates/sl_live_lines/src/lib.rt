//! lvmlockd's locks along the history of a live machine; what that history is compared with; and what is put out of it.
//!
//! Whatever the threads of a machine did for a line of lvmlockd, its history has the line, each ask and each reply. So what the line was to
//! ask, and what it is answered, is found again by fresh locks that are stepped along the history (`Along`): nothing of what the running machine
//! kept has to be believed.
//!
//! Nobody keeps the history. One value goes along it, entry by entry, in memory of what is open (`Audit`). What is told over a post stands under a
//! lock, and a lock tells nothing of what was done under it: so each line is compared with the next one that the script gave (`fits`). Calls and
//! starts are marked as they come along, and unmarked by what answers them: at the end no mark may be left (`left`). Neither is ever found by a scan
//! of what came before.
//!
//! The lines of what is told of an entry are added as it comes (`step`): its events, where they are asked for, and its replies. When all machines
//! have ended, a last line counts them; where the script ended with a refused line, its refusal stands in place of that line, and where a read of it
//! failed, nothing does (`push_last`).
#![tactic(auto)]

mod audit;
mod event_texts;
mod given_lines;
mod live_texts;
mod locks_along;
mod marks;
mod open_numbers;

pub use audit::{Audit, Left};
pub use given_lines::GivenLine;
pub use live_texts::{Ending, push_last};
pub use locks_along::{Along, is_told};
pub use sl_trace::copy_reply;
