//! What a joined session does next on its id's sector: it renews, and at last frees it.

ghost use Rattle.sl_delta.specs.DeltaDecisions.{IsFitNext};
ghost use Rattle.sl_delta.specs.OwnSector.{known_with, lease_of};
ghost use Rattle.sl_sector.specs.Records.{Fits};
ghost use Rattle.sl_trace.specs.DeltaDecisions.{has_seq_left, is_renewal_due, next_free, next_renewal};
ghost use Rattle.sl_words.specs.Bounds.{moments};
ghost use Rattle.std.specs.Prelude.{Bool, ◌+◌, ◌<◌, ◌≡◌, ◌≤◌};

use crate::answer::SectorAnswer;
use crate::numbers::{has_next, has_two_next};
use crate::own_sector::OwnSector;
use sl_request::Bitmap;
use sl_sector::DeltaState;
use sl_trace::DeltaNext;

impl OwnSector {
    /// Whether a seq is left: in a leaving also for the free, which ends renewals.
    fn has_seq_left(&self, leaving: Option<u64>) -> bool
        ensures { (recovering : Bool) → result ≡ has_seq_left (known_with self.now recovering leaving) }
    {
        match leaving {
            None => has_next(self.seq),
            Some(_) => !self.freed && has_two_next(self.seq),
        }
    }

    /// Whether a renewal is due.
    fn is_renewal_due(&self, now: u64, recovering: bool, leaving: Option<u64>) -> bool
        ensures { result ≡ is_renewal_due (lease_of self.now) now (known_with self.now recovering leaving) }
    {
        !recovering
            && self.renewed + self.timing.renew() <= now
            && !self.busy
            && self.has_seq_left(leaving)
    }

    /// The renewal that is due on a wake of a joined session, with these bits; `recovering` says whether recovery has begun, `leaving` for
    /// which job it leaves. What is written is a record.
    #[tactic(auto, unfolding(sl_trace::specs::DeltaDecisions::next_renewal))]
    pub fn renewal(
        &self,
        now: u64,
        recovering: bool,
        leaving: Option<u64>,
        bits: &Bitmap,
    ) -> DeltaNext
        requires { now < moments }
        ensures exact { result ≡ next_renewal (lease_of self.now) now (known_with self.now recovering leaving) bits.now }
        ensures fit { 1 ≤ self.now.generation → IsFitNext result }
    {
        if self.is_renewal_due(now, recovering, leaving) {
            DeltaNext::WriteRenewal(self.record(
                DeltaState::Live,
                self.generation,
                self.seq + 1,
                now,
                bits,
            ))
        } else {
            DeltaNext::Nothing
        }
    }

    /// The free that a leaving writes once nothing is held and no call is unanswered. A seq is left for it.
    pub fn free(&self, now: u64, leaving: Option<u64>) -> DeltaNext
        requires moment { now < moments }
        requires left { Fits (self.now.seq + 1) }
        ensures exact { (recovering : Bool) → result ≡ next_free (lease_of self.now) now (known_with self.now recovering leaving) }
        ensures fit { 1 ≤ self.now.generation → IsFitNext result }
    {
        match leaving {
            None => DeltaNext::Nothing,
            Some(job) => {
                if self.freed {
                    DeltaNext::Nothing
                } else {
                    DeltaNext::WriteFree {
                        job,
                        record: self.record(
                            DeltaState::Free,
                            self.generation,
                            self.seq + 1,
                            now,
                            &Bitmap::none(),
                        ),
                    }
                }
            }
        }
    }
}
