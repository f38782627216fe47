//! What an answer changes of what is kept of a lease.

ghost use Rattle.sl_lease.specs.Changes.{after_failure, after_kept, after_read, after_write, read_told, turn_told, write_told};
ghost use Rattle.sl_sector.specs.Records.{Fits};
ghost use Rattle.std.specs.Prelude.{IfSome, length, ◌<◌, ◌^◌, ◌≡◌, ◌≤◌};

use crate::kept_changes::{
    ballot_told, name_told, stop_told, top_told, turn_after, won_told, won_written,
};
use crate::lease::Lease;
use crate::pairs::Pairs;
use crate::side::Side;
use sl_host_state::LeaseCall;
use sl_sector::{Block, Leader};
use sl_trace::LeaseStep;

impl Lease {
    /// An answer showed this turn of the own pair, if any.
    pub fn shows_turn(&mut self, turn: Option<u64>)
        requires { IfSome turn (λ t. (1 ≤ t) × Fits t) }
        ensures { self.new ≡ turn_told turn self.old }
    {
        self.turn = turn_after(turn, self.turn);
    }

    /// The read that waits is to be made once more, and this is kept of it.
    pub fn keeps(&mut self, pairs: Pairs)
        ensures { self.new ≡ after_kept pairs self.old }
    {
        if self.waiting.is_some() {
            self.first = Some(pairs);
            self.waiting = None;
        }
    }

    /// The read that waits gave this leader, if it reads one, and these blocks, those of hosts 1, 2 .. in order, none where one is torn. It
    /// is heeded if the work that it is for still went on: its job had no reply before.
    pub fn read_answered(
        &mut self,
        side: &Side,
        leader: &Option<Leader>,
        blocks: &[Option<Block>],
        heeded: bool,
    )
        requires { length blocks.now < 2 ^ 32 }
        ensures { self.new ≡ after_read side.now heeded leader.now blocks.now self.old }
    {
        if let Some(call) = self.waiting {
            self.take_read(side, &call.step, leader, blocks, heeded);
        }
    }

    /// A read at this step gave these.
    fn take_read(
        &mut self,
        side: &Side,
        step: &LeaseStep,
        leader: &Option<Leader>,
        blocks: &[Option<Block>],
        heeded: bool,
    )
        requires { length blocks.now < 2 ^ 32 }
        ensures { self.new ≡ read_told side.now heeded step.now leader.now blocks.now self.old }
    {
        let stop = stop_told(&self.own, step, blocks);
        self.top = top_told(step, &self.own, blocks, self.top);
        self.name = name_told(side, step, leader, self.name);
        self.won = won_told(
            side.me, heeded, step, &self.own, &stop, leader, blocks, self.won,
        );
        self.ballot = ballot_told(heeded, step, &stop, self.ballot);
        self.waiting = None;
    }

    /// The write that waits was answered ok: what it wrote now counts as standing.
    pub fn write_answered(&mut self)
        ensures { self.new ≡ after_write self.old }
    {
        if let Some(call) = self.waiting {
            self.take_write(&call);
        }
    }

    /// This write is done.
    fn take_write(&mut self, call: &LeaseCall)
        requires { IfSome call.now.turn (λ t. (1 ≤ t) × Fits t) }
        ensures { self.new ≡ write_told call.now self.old }
    {
        self.shown = self.shown && !call.clears;
        self.won = won_written(call.frees, self.won);
        self.turn = turn_after(call.turn, self.turn);
        self.waiting = None;
    }

    /// The call that waits has failed, so it may have been done or not.
    pub fn failed(&mut self)
        ensures { self.new ≡ after_failure self.old }
    {
        self.waiting = None;
    }
}
