//! What is kept of a world says of each event what the world says: why it may not happen (`refusals`), and what it changes (`changes`,
//! `events`, `inputs`, `steps`, `worlds`).
//!
//! What is known of a world stays known (`sanity`): each event that may happen, with the effects of a daemon that numbers its calls and
//! children and whose calls are sound, leaves a sane world sane; and what an event gives a daemon may come to it. So what is kept and the
//! daemons that run stand for a world, at first and after each event (`standing_worlds`, `drawn_candidates`, `direct_changes`, `told_events`).
#![tactic(auto)]

pub mod changes;
pub mod direct_changes;
pub mod drawn_candidates;
pub mod events;
pub mod inputs;
pub mod refusals;
pub mod sanity;
pub mod standing_worlds;
pub mod steps;
pub mod told_events;
pub mod worlds;
