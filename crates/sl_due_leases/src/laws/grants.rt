//! What is known of a job's work on a lease, and of reads of values, is kept by each act of a step, and holds once a step has begun; what
//! ends, what an exit leaves, what is granted, the modes of grants and blocks, and what is written, read and told of values is lawful.
//!
//! From its line on a job's work has one open call at a time, and no command comes in between on its area, for a command there waits for
//! that call. So what is held there beside it is what its line found, less what ended since (`Grants::WorksByLines`), and what others are
//! granted is granted elsewhere (`Grants::WorksByGrants`). An exit leaves orphans where there were holdings (`Grants::WorksByExits`).
//!
//! Since an acquire's first call its session has held nothing shared there, for nothing of its session is held there at any of its entries
//! (`Grants::WorkFactsBegin`).
//!
//! Only an exit, a failed start, a release, a take-over and a conversion end holdings, each of what was held before the step
//! (`Grants::EndsAreLawful`). A grant is held from then on, so the facts of holdings say of it all that is lawful but that its session is
//! active (`Grants::GrantsStand`); and it is, for what recovers or is left has no job at work (`Grants::ActiveGrants`).
//!
//! A block shows the mode of what its session holds, or sets it (`Grants::Modes::LeasesFit`). A shared grant stands beside a holding, on the
//! ballot of its job since whose read nothing was held shared, or on the block that converts an exclusive holding
//! (`Grants::Modes::SharedGrants`).
//!
//! While a value is read no other command comes to its area and no lease works there, so nothing is written, and who asked for it holds on:
//! an exit would refuse its job, and its start was told (`Grants::Values::ReadsBack`). So the value that is told then is the last
//! (`Grants::Values::ValuesAreTold`); nothing else tells one (`Grants::Values::NothingIsTold`).

ghost use Rattle.sl_due_leases.specs.Grants.GrantLaws.{ActivesAreKept, ActivesBegin, ExitsAreLawful, ExitsBegin, GrantingBegins, GrantingIsLawful, GrantsAreLawful, GrantsStand, OrphansAreLawful, OrphansBegin, WorkFactsAreKept, WorkFactsBegin};
ghost use Rattle.sl_due_leases.specs.Grants.ModeLaws.{ModesAreLawful, ModesBegin};
ghost use Rattle.sl_due_leases.specs.Grants.ValueLaws.{ValueFactsAreKept, ValueFactsBegin, ValuesAreLawful, ValuesBegin};

/// Each act keeps what is known of a job's work.
pub fn work_facts_are_kept()
    ensures { WorkFactsAreKept }
{}

/// It holds once a step has begun.
pub fn work_facts_begin()
    ensures { WorkFactsBegin }
{}

/// What an exit leaves is lawful at each act.
pub fn exits_are_lawful()
    ensures { ExitsAreLawful }
{}

/// So it is once a step has begun.
pub fn exits_begin()
    ensures { ExitsBegin }
{}

/// The facts of holdings give of each grant what is lawful of it, but that its session is active.
pub fn grants_stand()
    ensures { GrantsStand }
{}

/// The orphans that are granted are lawful at each act.
pub fn orphans_are_lawful()
    ensures { OrphansAreLawful }
{}

/// So it is once a step has begun: nothing was granted yet.
pub fn orphans_begin()
    ensures { OrphansBegin }
{}

/// Where the sessions of granted processes are active the grants are lawful.
pub fn grants_are_lawful()
    ensures { GrantsAreLawful }
{}

/// Each act keeps the sessions of granted processes active.
pub fn actives_are_kept()
    ensures { ActivesAreKept }
{}

/// So they are once a step has begun.
pub fn actives_begin()
    ensures { ActivesBegin }
{}

/// So each act leaves only lawful grants.
pub fn granting_is_lawful()
    ensures { GrantingIsLawful }
{}

/// So it is once a step has begun: nothing was granted yet.
pub fn granting_begins()
    ensures { GrantingBegins }
{}

/// Each act leaves only lawful modes: of what is granted, and of the blocks that are written.
pub fn modes_are_lawful()
    ensures { ModesAreLawful }
{}

/// So it is once a step has begun: nothing was granted or written yet.
pub fn modes_begin()
    ensures { ModesBegin }
{}

/// Each act keeps what is known while a value is read.
pub fn value_facts_are_kept()
    ensures { ValueFactsAreKept }
{}

/// It holds once a step has begun.
pub fn value_facts_begin()
    ensures { ValueFactsBegin }
{}

/// Each act leaves only lawful values: what is written, read and told of them.
pub fn values_are_lawful()
    ensures { ValuesAreLawful }
{}

/// So it is once a step has begun: nothing was written or told yet.
pub fn values_begin()
    ensures { ValuesBegin }
{}
