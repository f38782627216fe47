//! The words of the command line.
//!
//! A line's words say `replay`, `gen` or `schedule` with its numbers, `live` with a folder and its flags, or `direct` with an action and its options, or ask for the
//! help or the version; all other words say nothing. `parser_shape` tells the argument parser, the kit's `clap`, which commands and options
//! there are. `parsed_command` takes what the parser found for each option and makes the action of it; `option_values` reads the words that
//! stand for something: sizes, an area, its hosts, a stretch of a file. `command_words` puts these together: it is all that the rest of the
//! program knows of words. `texts` has what the program says of itself.
//!
//! Two kinds of words are read without the parser, each by an option at a place of its own: those of one machine in a process of its own (`own_words`),
//! and those of a lockspace that is given a label (`timed_words`), of which the parser reads what is left.
//!
//! What words say is a definition of a page, `specs/CommandWords.antt`, in which the parser does not occur: options are taken from the
//! left, in two words or in one, and nothing is given twice. The proof that the parser takes the same words and finds the same in them
//! goes word by word through the parser's own definition (`proofs/ParserTurns.antt` to `proofs/CommandLaws.antt`). `laws` says of the
//! definition that each action has one text (the usual sizes need no word), that its words may come in any order, and that no other words
//! ask for it.
#![tactic(auto)]

mod command_words;
mod folder;
pub mod laws;
mod option_values;
mod own_words;
mod parsed_command;
mod parser_shape;
mod texts;
mod timed_words;
mod times;

pub use command_words::{Words, WordsError, read_words};
pub use folder::Folder;
pub use texts::{HELP, VERSION};
