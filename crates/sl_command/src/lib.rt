//! The texts between a host and its users: a command's text, read; the texts of replies, and the lines of what a step does, written; and the name
//! of a host that was given none.
//!
//! `command_reader` follows the forms of commands from the left, with `arguments` for the words that stand for something. `laws` says that a text
//! is read as a command exactly where it is that command's one text. `replies`
//! and `effects` print what a host answers and does. Reading takes no memory; a write that lacks memory leaves its text as it was.
#![tactic(auto)]

pub mod arguments;
pub mod command_reader;
pub mod default_names;
pub mod effects;
pub mod laws;
pub mod replies;
pub mod words;

pub use command_reader::parse_command;
pub use default_names::default_name;
pub use effects::push_effect_lines;
pub use replies::push_reply_text;
