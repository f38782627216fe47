//! What a lease owes, and the ballots that it begins.
//!
//! Work that stops halfway leaves three things on a disk. An open ballot may be ended by another host with this session as its value, so
//! it is run to its end. A shared mode that nobody holds keeps exclusive acquires away, so it is cleared. An instance that was won and
//! isn't held keeps everybody away, so its leader is written free. They stand in this order since the end of a ballot may make a free
//! owed, and one free is owed at a time. A settling looks at the area before it frees: by then another host may have begun a later
//! instance, whose leader it must not write over.
ghost use Rattle.sl_ballot.specs.Limits.{limited_block};
ghost use Rattle.sl_lease.specs.LeaseQuestions.{TopStands, begin_above, block_showing, gen_with, owed_with};
ghost use Rattle.sl_lease.specs.Bounds.{IsBegun, IsInstance, IsSession};
ghost use Rattle.sl_lease.specs.Side.{known_with, place_of};
ghost use Rattle.sl_lease.specs.Steps.{IsFitNext};
ghost use Rattle.sl_trace.specs.Ballots.{moded_block, phase1_block};
ghost use Rattle.sl_trace.specs.LeaseDecisions.{begin_next, owes_block, phase1_next, refuses, settle_next};
ghost use Rattle.sl_trace.specs.Leases.{block_of_host, owed, own_or_read};
ghost use Rattle.sl_lease.specs.declared.side.Side.{Side};
ghost use Rattle.sl_trace.specs.declared.lease.Aim.TheVariants.{Settles};
ghost use Rattle.sl_trace.specs.declared.lease.LeaseNext.TheVariants.{Nothing, WriteBlock};
ghost use Rattle.sl_trace.specs.declared.lease.Owed.TheVariants.{BallotOwed};
ghost use Rattle.sl_sector.specs.Records.{Fits, IsBlock};
ghost use Rattle.sl_sector.specs.declared.sector.Block.{Block};
ghost use Rattle.sl_trace.specs.declared.effects.LeaseStep.TheVariants.{ClearMode};
ghost use Rattle.sl_words.specs.Words.{choose, some_is};
ghost use Rattle.std.specs.Option.{option_map_or};
ghost use Rattle.std.specs.Prelude.{All, Bool, IfOk, IfSome, List, None, Option, Some, false, not, ℕ, ◌==◌, ◌≡◌, ◌≤◌};

use crate::lease::Lease;
use crate::outer_facts::Held;
use crate::side::Side;
use sl_ballot::{Limit, moded_block, phase1_after_read, phase1_block};
use sl_sector::Block;
use sl_trace::{Aim, LeaseNext, LeaseStep, Limited, Owed, Reply};

/// A job is refused; a settling stops until a later wake.
pub(crate) fn refuses(aim: Aim, reply: Reply) -> LeaseNext
    ensures exact { result ≡ refuses aim reply }
    ensures fit { IsFitNext result }
{
    match aim {
        Aim::Acquires(_) => LeaseNext::AnswerJob(reply),
        Aim::Converts(_) => LeaseNext::AnswerJob(reply),
        Aim::Releases => LeaseNext::AnswerJob(reply),
        Aim::Settles => LeaseNext::Nothing,
    }
}

/// The block of phase 1 in instance `n`, unless a number would pass its limit.
fn phase1_next(aim: Aim, n: u64, block: Result<Block, Limit>) -> LeaseNext
    ensures exact { (b : Block) → b.lver ≡ n → block ≡ limited_block b → result ≡ phase1_next aim b }
    ensures fit { (b : Block) → b.lver ≡ n → block ≡ limited_block b → (Fits n → IfOk block IsBegun) → IsFitNext result }
{
    if n >= 1 << 63 {
        return refuses(
            aim,
            Reply::Limit {
                which: Limited::Lver,
            },
        );
    }
    match block {
        Ok(block) => LeaseNext::WriteBlock {
            step: LeaseStep::Phase1Write,
            block,
        },
        Err(_) => refuses(
            aim,
            Reply::Limit {
                which: Limited::Mbal,
            },
        ),
    }
}

/// The own block as it was last read.
fn block_read(id: u32, read: &[Option<Block>]) -> Option<Block>
    ensures exact { result ≡ block_of_host read.now id }
    ensures bounds { All (λ o. IfSome o IsBlock) read.now → IfSome result IsBlock }
{
    match read.get((id as usize).saturating_sub(1)) {
        Some(block) => *block,
        None => None,
    }
}

/// The mode generation of a session's blocks: its own where it has the shared mode, else 0.
pub(crate) fn mode_gen(side: &Side, held: Held) -> u64
    ensures { result ≡ gen_with side.now held }
{
    if held.shared { side.me.generation } else { 0 }
}

/// A block of the instance `n` that shows this number.
fn block_showing(own: &Block, n: u64, top: u64) -> Block
    ensures { result ≡ block_showing own.now n top }
{
    Block {
        lver: n,
        mbal: top,
        ..*own
    }
}

/// A ballot of this own block in `n` begins, above this number.
fn begin_above(side: &Side, held: Held, aim: Aim, n: u64, own: &Block, top: u64) -> LeaseNext
    requires { IsSession side.now.geometry side.now.me }
    ensures exact { result ≡ begin_above side.now held aim n own.now top }
    ensures fit { IsBlock own.now → 1 ≤ n → IsFitNext result }
{
    let mode_gen = mode_gen(side, held);
    let hosts = side.geometry.hosts();
    let seen = [block_showing(own, n, top)];
    phase1_next(
        aim,
        n,
        phase1_block(side.me, hosts, n, held.shared, mode_gen, own, &seen),
    )
}

impl Lease {
    /// The own block: the one last submitted, else the one last read.
    pub(crate) fn own_known(&self, side: &Side, read: &[Option<Block>]) -> Option<Block>
        ensures exact { result ≡ own_or_read side.now.me.id self.now.own read.now }
        ensures bounds { All (λ o. IfSome o IsBlock) read.now → IfSome result IsBlock }
    {
        match &self.own {
            Some(own) => Some(*own),
            None => block_read(side.me.id, read),
        }
    }

    /// A ballot in `n` begins after a read: its number is above all that the session knows of the instance.
    #[tactic(auto, unfolding(sl_trace::specs::LeaseDecisions::begin_next, sl_trace::specs::Ballots::phase1_block))]
    pub(crate) fn begin(
        &self,
        side: &Side,
        held: Held,
        aim: Aim,
        n: u64,
        read: &[Option<Block>],
    ) -> LeaseNext
        requires { IsSession side.now.geometry side.now.me × All (λ o. IfSome o IsBlock) read.now }
        ensures exact { (over : ℕ → ℕ → Bool) → result ≡ begin_next (place_of side.now) (known_with side.now self.now held over read.now) aim n }
        ensures fit { 1 ≤ n → IsFitNext result }
    {
        let mode_gen = mode_gen(side, held);
        match self.own_known(side, read) {
            None => LeaseNext::Nothing,
            Some(own) => phase1_next(
                aim,
                n,
                phase1_after_read(
                    side.me,
                    side.geometry.hosts(),
                    n,
                    held.shared,
                    mode_gen,
                    &own,
                    read,
                ),
            ),
        }
    }

    /// The open ballot in `n` is begun anew: its number is above all that the blocks last read show there.
    fn begin_again(&self, side: &Side, held: Held, n: u64) -> LeaseNext
        requires { IsSession side.now.geometry side.now.me }
        ensures exact { (over : ℕ → ℕ → Bool) (read : List (Option Block)) → TopStands self.now read → self.now.ballot ≡ Some n
            → result ≡ begin_next (place_of side.now) (known_with side.now self.now held over read) Settles n }
        ensures fit { 1 ≤ n → IsFitNext result }
    {
        match (&self.own, self.top) {
            (Some(own), Some(top)) => begin_above(side, held, Aim::Settles, n, own, top.mbal),
            (Some(_), None) => LeaseNext::Nothing,
            (None, _) => LeaseNext::Nothing,
        }
    }

    /// The free that is owed: of the instance won last, unless it is held under it.
    pub(crate) fn owed_free(&self, held: Held) -> Option<u64>
        ensures exact { result ≡ owed_with self.now held }
        ensures bounds { IfSome result IsInstance }
    {
        self.won.and_then(|n| free_owed(n, held.exclusive))
    }

    /// What settling has to do first.
    fn owed(&self, held: Held) -> Option<Owed>
        ensures exact { (side : Side) (over : ℕ → ℕ → Bool) (read : List (Option Block)) → result ≡ owed (known_with side self.now held over read) }
        ensures least { (n : ℕ) → result ≡ Some (BallotOwed n) → (1 ≤ n) × (self.now.ballot ≡ Some n) }
    {
        if let Some(instance) = self.ballot {
            return Some(Owed::BallotOwed { instance });
        }
        if self.shown && !held.shared {
            return Some(Owed::ModeOwed);
        }
        self.owed_free(held)
            .map(|instance| Owed::FreeOwed { instance })
    }

    /// Whether what settling has to do first writes a block.
    pub(crate) fn owes_block(&self, held: Held) -> bool
        ensures { (side : Side) (over : ℕ → ℕ → Bool) (read : List (Option Block)) → result ≡ owes_block (owed (known_with side self.now held over read)) }
    {
        match self.owed(held) {
            None => false,
            Some(Owed::BallotOwed { instance: _ }) => true,
            Some(Owed::ModeOwed) => true,
            Some(Owed::FreeOwed { instance: _ }) => false,
        }
    }

    /// The own block without its mode is written.
    pub(crate) fn clear_mode(&self) -> LeaseNext
        ensures exact { result ≡ option_map_or (λ own. WriteBlock ClearMode (moded_block own false 0)) self.now.own Nothing }
        ensures fit { IsFitNext result }
    {
        match &self.own {
            Some(own) => LeaseNext::WriteBlock {
                step: LeaseStep::ClearMode,
                block: moded_block(own, false, 0),
            },
            None => LeaseNext::Nothing,
        }
    }

    /// A settling does what is owed first.
    #[tactic(auto, unfolding(sl_trace::specs::LeaseDecisions::settle_next))]
    pub(crate) fn settle_known(&self, side: &Side, held: Held) -> LeaseNext
        requires { IsSession side.now.geometry side.now.me }
        ensures exact { (over : ℕ → ℕ → Bool) (read : List (Option Block)) → TopStands self.now read
            → result ≡ settle_next (place_of side.now) (known_with side.now self.now held over read) }
        ensures fit { IsFitNext result }
    {
        match self.owed(held) {
            None => LeaseNext::Nothing,
            Some(Owed::BallotOwed { instance }) => self.begin_again(side, held, instance),
            Some(Owed::ModeOwed) => self.clear_mode(),
            Some(Owed::FreeOwed { instance: _ }) => LeaseNext::ReadFor(LeaseStep::ReadBeforeFree),
        }
    }
}

/// The free of an instance, unless it is held under that.
fn free_owed(n: u64, exclusive: Option<u64>) -> Option<u64>
    ensures exact { result ≡ choose (not (some_is (λ e. e == n) exclusive)) n }
    ensures same { IfSome result (λ m. m ≡ n) }
{
    match exclusive {
        Some(held) if held == n => None,
        _ => Some(n),
    }
}
