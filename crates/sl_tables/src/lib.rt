//! Tables of what a host keeps: its open calls, its running jobs, its holdings, its children, kill programs, connections.
//!
//! A table is seen as the list that the definitions ask of, the oldest element first, and its indexes as nothing at all. What a step may put in
//! has its room taken before, so that no `put` can fail; what is taken out leaves a gap that costs nothing, and gaps are closed where room is
//! taken, once they are more than what stands between them. A number is found by bisection, the newest at once, so a call costs hardly more in
//! a long table than in a short one. Open calls on an area or of a session are looked for among all that are open: that is asked where an
//! acquire may begin or a session ends, and an index would cost something at each call and at each answer.
#![tactic(auto)]

mod area;
mod children;
mod connections;
mod firsts;
mod holdings;
mod jobs;
mod kill_programs;
mod opens;
mod rising;

pub use children::{ChildState, Children};
pub use connections::Connections;
pub use holdings::{Holder, Holdings, Sought};
pub use jobs::Jobs;
pub use kill_programs::Programs;
pub use opens::OpenCalls;
pub use rising::Rising;
