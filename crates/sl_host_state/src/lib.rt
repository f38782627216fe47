//! What a host keeps, and which steps it stands for: the page on which its laws, which know no code, and its code, which knows no trace,
//! meet.
//!
//! A host keeps the definitions' own lists, cut to what is asked of them (`KeptState`): members, open calls, running jobs, holdings,
//! children, kill programs, connections, the next numbers, and the reading below which nothing is due by time. It *stands for* a trace
//! where each question to the trace has the kept answer: `HostStands` has a field a question, and its head lists them. In a step it
//! stands for the step so far.
//!
//! A law says of a change of the kept state that it follows a function of `sl_due`; a method says that it makes this change:
//!
//! 1. an input is heard before anything is decided on it (`HeardInputs`), an effect changes what it tells (`MadeEffects`, `Effects`);
//! 2. parts of a step go together as in `sl_due`: one after another, where a test holds, for each of a list (`Passes`);
//! 3. a new host stands for no step (`new_host_stands`), and a step that is over for the trace with it (`steps_are_over`).
#![tactic(auto)]

pub mod kept_parts;
pub mod laws;

pub use kept_parts::{JobState, JoinCall, LeaseCall, OpenCall, TopNumber, ValuePair, WaitingCall};
