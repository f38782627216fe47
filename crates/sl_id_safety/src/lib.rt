//! What the state of each id says of a world: generations name sessions, one of an id acts, and over is final.
//!
//! `sl_ids` argues over one id and small steps, and knows no world. Here a lawful run is read as such steps: what each kind of call has
//! behind it, and that the watchdogs keep the bounds (`laws::state`); each event as steps of an id, or as none (`laws::steps`); and the
//! whole run (`laws::reached`). What `sl_ids` has of the state is then true of the world (`laws`), so that ballots need know no clock:
//!
//! 1. `one_acts_for_each_id`: of each id at most one joined session is not over.
//! 2. `over_stays`, `over_are_silent`, `over_are_settled`: over is final; such a session makes no call, and no write of it but its free
//!    is answered.
//! 3. `evidence_means_over`: a session that somebody has evidence against is over, and none joins later under its generation.
//! 4. `generations_name_one`, `joiners_rise`, `joiners_find_over`: lockspace, id and generation name one joined session; who joins later
//!    has a greater generation, and finds those before over.
//! 5. `sectors_are_alone`, `sectors_stand`, `reads_no_other`: until it is over a joined session's sector is its own, and it reads no
//!    other's record there.
//! 6. `ids_are_safe`: all of it, after every event of every lawful run.
#![tactic(auto)]

pub mod laws;
