//! What a lawful run promises of the history of each resource.

ghost use Rattle.sl_safety.specs.Resources.Orders.{BlocksLandInOrder, ReadsShowNewest};
ghost use Rattle.sl_safety.specs.Resources.HistoryLaws.{HistoriesAreRegisters, HistoriesGoUp, HistoriesNumberAbove};
ghost use Rattle.sl_safety.specs.Resources.Reads.{ReadsAreGiven};

/// The blocks of a resource's history are registers, which need not be atomic.
pub fn histories_are_registers()
    ensures { HistoriesAreRegisters }
{}

/// A host's blocks land in the order of their submission.
pub fn blocks_land_in_order()
    ensures { BlocksLandInOrder }
{}

/// A read shows what was answered ok before it, or what was submitted later.
pub fn reads_show_newest()
    ensures { ReadsShowNewest }
{}

/// No ballot goes below the own block.
pub fn histories_go_up()
    ensures { HistoriesGoUp }
{}

/// Numbers of ballots are above 0, so a block of zeros has begun none.
pub fn histories_number_above()
    ensures { HistoriesNumberAbove }
{}

/// What its reads give of each host is a register's content, and what their traces have: all that is known of disks above.
pub fn reads_are_given()
    ensures { ReadsAreGiven }
{}
