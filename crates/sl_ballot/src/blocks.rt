//! What a block tells a ballot: whether it stops it, and which value it has to write.
//!
//! A later instance comes before a greater number, since it ends the ballot for good, while a greater number only asks for another try.
//! The value is that of the greatest `bal`, so that a value once chosen is written by each later ballot of its instance; a ballot that
//! took the last one it saw, or its own, could choose a second.
ghost use Rattle.sl_ballot.specs.Stops.{stop_by};
ghost use Rattle.sl_trace.specs.Ballots.{greater_bal, same_owner, value_of};
ghost use Rattle.std.specs.Option.{option_map_or};
ghost use Rattle.std.specs.Prelude.{None, nat_lt, ◌&&◌, ◌==◌, ◌≡◌};

use sl_sector::{Block, Owner};
use sl_trace::Stop;

/// Whether two owners are one session: the same id in the same generation.
pub fn same_owner(a: Owner, b: Owner) -> bool
    ensures { result ≡ same_owner a b }
{
    a.id == b.id && a.generation == b.generation
}

/// The value that a block's host accepted last: a session. Where its `bal` is 0 there is none, and the session's id and generation are 0.
pub fn value_of(block: &Block) -> Owner
    ensures { result ≡ value_of block.now }
{
    Owner {
        id: block.inp,
        generation: block.inp_gen,
    }
}

/// Whether the block is of a later instance than the own one.
pub fn is_ahead(own: &Block, block: &Block) -> bool
    ensures { result ≡ nat_lt own.now.lver block.now.lver }
{
    own.lver < block.lver
}

/// Whether the block has a greater number in the own one's instance.
pub fn is_rival(own: &Block, block: &Block) -> bool
    ensures { result ≡ (block.now.lver == own.now.lver && nat_lt own.now.mbal block.now.mbal) }
{
    block.lver == own.lver && own.mbal < block.mbal
}

/// The stop by these two: by a block ahead, else by a rival.
pub(crate) fn stop_by(ahead: Option<Block>, rival: Option<Block>) -> Option<Stop>
    ensures { result ≡ stop_by ahead rival }
{
    match ahead {
        Some(block) => Some(Stop::BlockAhead {
            host: block.host,
            lver: block.lver,
        }),
        None => rival.map(|block| Stop::BlockRival {
            host: block.host,
            mbal: block.mbal,
        }),
    }
}

/// The block with the greater bal, of those that have one; of two that tie the first.
pub fn greater_bal(best: Option<Block>, block: Block) -> Option<Block>
    ensures { result ≡ greater_bal best block }
{
    match best {
        Some(best) if block.bal <= best.bal => Some(best),
        None if block.bal == 0 => None,
        _ => Some(block),
    }
}

/// The value of this block, or the session itself where there is none.
pub fn value_or(me: Owner, best: Option<Block>) -> Owner
    ensures { result ≡ option_map_or value_of best me }
{
    match best {
        Some(best) => value_of(&best),
        None => me,
    }
}
