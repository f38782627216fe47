//! What a host's step asks of its input: that it may come, and no more. And what the code of the step may rely on, of a host that stands.
//!
//! A host that stands for the steps so far knows of them all that is known of every trace whose steps did what was due: that it is
//! lawful, and the facts beside. So each fact here is one of a trace, told by what is kept, where the code needs it:
//!
//! 1. `hosts_begin`, `hosts_are_ready`, `inputs_come`: a new host stands for no step; where it stands, an input that may come finds it
//!    ready.
//! 2. `members_are_known`, `leases_are_known`, `holdings_are_known`, `places_are_known`, `hosts_are_known`: numbers are in range, leases
//!    and holdings stand where they should.
//! 3. `answers_are_known`, `answers_are_awaited`, `lease_answers_are_known`: an answer is that of an open call, whose member, or lease,
//!    waits for it.
//! 4. `decisions_are_known`, `lines_may`: what a line comes to may be done.
//! 5. `moments_are_known`: at each part of a step the host stands for the step so far, and all that acts keep is known.
//! 6. `steps_are_taken`: so an input that may come is taken by the effects that are due; `effects_are_sound`: its calls and children are
//!    numbered on, and each call reads some sectors or writes a record.
#![tactic(auto)]

pub mod laws;
