//! A host, as code, but for what its step is put together of: it keeps what `sl_host_state` says, and each method makes the change that a
//! state function says.
//!
//! A host is a daemon between its inputs, or in a step. In a step it has the effects that the step has come to so far, and memory for more:
//!
//! ```text
//! new --> (between steps) --reserve, begin--> (in a step) --one method a change--> .. --rest--> (between steps)
//!                                 |
//!                                 +--> want of memory: nothing has changed
//! ```
//!
//! What it keeps is as much as the next step asks of its whole trace, and each part is the answer to one question to the trace (`Keeps`):
//!
//! 1. entries, calls, lines, started, born: how many steps, calls, lines, children and sessions there were. So the next number is known.
//! 2. unanswered, single: the calls without an answer; of each job at most one. An answer is looked up among them, and counts once.
//! 3. jobs: the commands that wait for a reply. replied: no job that is still to come has one.
//! 4. present, members: the sessions whose lockspaces are in use, with what each keeps of its own calls (`sl_member`).
//! 5. connected: the names under which the watchdog daemon has connections, in their order.
//! 6. holdings, children, programs: who holds what, which children run, which kill program a process has.
//! 7. quiet: before `quiet_until` nothing is due by time, so a step before it looks at no member and no job.
//!
//! Memory is taken before a step's first change (`reserve`): `left` says how many more effects may be made, `calls` how many of them may be
//! calls, and each effect lowers its own by one, so that none of them can fail.
//!
//! `buffers` has the effects of a step in progress, `books` all that a host keeps besides its members, `book_questions` what is asked of the books.
//! `host` is the whole, members and books, with the effects; `new_host` makes a new one. `replies` has replies and what they make of joinings,
//! `joining_begins` how one begins, `heard_inputs` a step's begin and end, exits and starts, `heard_lines` the lines, `heard_answers` the answers,
//! which `told_answers` tells to members. `decision_questions` is what is asked when a command is decided, `host_questions` what those ask who act on it, `passes`
//! what a pass over members, jobs or holders goes by. `laws` says that the books follow the state functions.
#![tactic(auto)]

mod book_questions;
mod books;
mod buffers;
mod decision_questions;
mod heard_answers;
mod heard_inputs;
mod heard_lines;
mod host;
mod host_questions;
mod joining_begins;
pub mod laws;
mod new_host;
mod notes;
mod passes;
mod replies;
mod reserve;
mod told_answers;

pub use books::{Books, Config};
pub use buffers::Buffers;
pub use host::Host;
pub use notes::Notes;
pub use passes::Chosen;
pub use told_answers::Told;
