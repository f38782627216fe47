//! What stays and what only grows in a world.
//!
//! What lawful traces keep: of sessions (`laws::sessions`) and of their leases (`laws::leases`).

pub mod course;
pub mod front;
pub mod landing;
pub mod leases;
pub mod moment;
pub mod place;
pub mod premises;
pub mod sample;
pub mod sessions;
pub mod watchdog;

ghost use Rattle.sl_run_law.specs.AnswersStay.{AnswersStay, AnswersStayInRuns};
ghost use Rattle.sl_run_law.specs.Beginnings.{BeginsCounted, BeginsNew};
ghost use Rattle.sl_run_law.specs.CoursesGoOn.{MachinesGoOn, MachinesGoOnInRuns};
ghost use Rattle.sl_run_law.specs.DaemonsGoOn.{DaemonsGoOn, DaemonsGoOnInRuns};
ghost use Rattle.sl_run_law.specs.FatesStay.{FatesStay, FatesStayInRuns};
ghost use Rattle.sl_run_law.specs.WorldsGoOn.{RunsGoOn, WorldsGoOn};

/// An event leaves the header, the layout and the number of machines; time goes on by what it takes, and landings stay.
pub fn worlds_go_on()
    ensures { WorldsGoOn }
{}

/// A run does so too, as its events do one after another.
pub fn runs_go_on()
    ensures { RunsGoOn }
{}

/// Each call stays with what it has sampled, and so do resets and daemons that ended.
pub fn machines_go_on()
    ensures { MachinesGoOn }
{}

/// Along a run, too, calls stay with what they have sampled, and so do resets and daemons that ended.
pub fn machines_go_on_in_runs()
    ensures { MachinesGoOnInRuns }
{}

/// Each daemon stays in its place, and its trace grows in front.
pub fn daemons_go_on()
    ensures { DaemonsGoOn }
{}

/// Along a run, too, daemons stay in their places, and their traces grow in front.
pub fn daemons_go_on_in_runs()
    ensures { DaemonsGoOnInRuns }
{}

/// A fate changes only from in flight, where no two calls of a machine have one number.
pub fn fates_stay()
    ensures { FatesStay }
{}

/// Along a run, too, a fate changes only from in flight.
pub fn fates_stay_in_runs()
    ensures { FatesStayInRuns }
{}

/// An answer once given stays, where no two calls of a machine have one number.
pub fn answers_stay()
    ensures { AnswersStay }
{}

/// Along a run, too, an answer once given stays.
pub fn answers_stay_in_runs()
    ensures { AnswersStayInRuns }
{}

/// The header's world has as many machines as the header says.
pub fn begins_counted()
    ensures { BeginsCounted }
{}

/// Each of them is settled, and has made no call.
pub fn begins_new()
    ensures { BeginsNew }
{}
