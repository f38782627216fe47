//! Areas that stand, compared with what a header says of them, before anything is written.
//!
//! A host of its own makes no area: it finds those that others share. Where its header names another lockspace, another size or other times than theirs,
//! it would share nothing with them, and exclude nobody. So each lockspace must have its label, and where a sector spells a leader it must be that of
//! the header's resource. A leader that is torn is none, here as everywhere: whoever asks for that resource is told so. Nothing is written.
#![tactic(auto)]

mod areas;
mod labels;
mod leaders;
mod not_standing;

pub use areas::check_disk;
pub use not_standing::{NotStanding, push_not_standing};
