//! Lines of a host, as code: each function here is one of the functions of `sl_host_law` on a host's state.
//!
//! What a line comes to is decided first, by what the host keeps: each refusal in order, then what is begun; nothing is changed meanwhile.
//! `command_refusals` has what several commands are refused for, `held_on_area` what a member holds on an area. `holder_commands` decides for those who hold, `value_commands`
//! for those who set or read a value, `acquire_commands` for those who ask, `orphan_commands` on what has no process, `lockspace_commands` on joining and leaving,
//! `told_lists` on what is answered by a list, for which `list_memory` has the memory. `command_decisions` is the whole: one function over all commands, whose
//! answer is that of the definitions.
//!
//! `taken_line` has the whole of a line, `take_line`: what it says is decided on the host as it has come to its input, then the line is heard and what was
//! decided is done. `line_answers` has replies at once and the lines that make a call, `line_grants` those that grant at once, `line_ends` those that end a
//! holding or convert it, `line_sessions` those on a lockspace.
#![tactic(auto)]

mod acquire_commands;
mod command_decisions;
mod command_refusals;
mod held_on_area;
mod holder_commands;
mod line_answers;
mod line_ends;
mod line_grants;
mod line_sessions;
mod list_memory;
mod lockspace_commands;
mod orphan_commands;
mod taken_line;
mod told_lists;
mod value_commands;

pub use command_decisions::decide;
pub use line_answers::misread;
pub use list_memory::Lists;
pub use taken_line::take_line;
