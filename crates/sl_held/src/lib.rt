//! What the lines that a run tells leave held: machine by machine and in the order of grants, just what is held there, by which process, under
//! which name, in which mode and instance. What these lines make of the bars of a picture is a law of `sl_picture`.
//!
//! Lines tell a resource by its name alone. A host verifies the name that a command gives where it reads the area, and not where it shares
//! what it holds already, or lets an orphan be taken over: there it tells the name of the command. So it is asked that what is held at one
//! time under one name is one place. Where the header gives each resource a name of its own, and commands name each area as it does, there
//! are no other names.
#![tactic(auto)]

pub mod laws;
