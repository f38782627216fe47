//! Children that a step starts, numbered on as they come.

ghost use Rattle.sl_script.specs.MadeSteps.{AreStarts};
ghost use Rattle.std.specs.Prelude.{[], ◌≡◌};

use crate::draft::MOST;
use sl_text::{FilePath, Seq};
use sl_trace::Start;
use std::alloc::{AllocError, Global};
use std::marker::Model;

/// The greatest number of a child.
const LAST: u64 = 2_000_000;

/// Children of which the first has this number.
#[derive(Drop)]
pub struct NewStarts {
    next: u64,
    items: Vec<Start>,
}

impl Model for NewStarts {
    ghost use Rattle.sl_script.specs.MadeSteps.{AreStarts, StartsState};

    ghost Value = { StartsState };

    ghost view = { λ s. record { next = s.next; items = s.items.items } };

    ghost invariant = { λ s. AreStarts s.next s.items.items };
}

impl NewStarts {
    /// No start yet; the first one will have this number.
    pub fn new(alloc: Global, next: u64) -> NewStarts
        ensures { result ≡ record { next = next; items = [] } }
    {
        NewStarts {
            next,
            items: Vec::new(alloc),
        }
    }

    /// One more, if there is a number and place for it.
    #[tactic(auto, using(crate::proofs::NumberedOn::starts_more))]
    pub fn put(&mut self, program: FilePath) -> Result<(), AllocError>
        ensures { self.new.next ≡ self.old.next }
    {
        let place = self.items.len();
        if place < MOST && self.next < LAST {
            self.items.push(Start {
                process: (self.next + place as u64) as u32,
                program,
                job: None,
                stands_for: None,
            })?;
        }
        Ok(())
    }

    /// The starts, in the order of their numbers.
    pub fn into_seq(self) -> Seq<Start>
        ensures { AreStarts self.next result }
    {
        let NewStarts { next: _, items } = self;
        Seq::new(items)
    }
}
