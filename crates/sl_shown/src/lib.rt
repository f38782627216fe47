//! That a picture shows what is held: behind each line that is drawn the open bars of holdings are the world's holdings, machine by machine
//! and in the order of grants. So two bars of one resource, on two machines, that overlap are both of shared holdings.
//!
//! It is put together of what stands below: a line makes of the bars what its lines of the report say (`sl_picture`), these lines are those of
//! a served run (`sl_draw`), and the lines of such a run leave just what is held (`sl_held`, which tells what is asked of names).
#![tactic(auto)]

pub mod laws;
