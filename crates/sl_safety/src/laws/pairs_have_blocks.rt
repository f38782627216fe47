//! Areas with pairs: a torn write blocks no resource.

ghost use Rattle.sl_run.specs.TornPairBlocks.{PairsStand, TornBlocksAreNamed};

/// Each host has a block on each resource, after every event.
pub fn pairs_have_blocks()
    ensures { PairsStand }
{}

/// Whoever is refused for a torn block is told of a host both of whose sectors were torn when the second read sampled them.
pub fn torn_blocks_are_named()
    ensures { TornBlocksAreNamed }
{}
