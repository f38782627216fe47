//! Whether all threads of a run are there.
//!
//! Where the system makes no more threads, the calls of a join run one after another. A thread that waits for another one would then wait for ever,
//! so none begins before all are there; and where they are not in time, none begins at all.

use std::sync::{Condvar, Mutex, Wait};
use std::time::{Clock, Duration};

/// How long the first waits for the last, in seconds.
const LONGEST: u64 = 10;

/// What is known of the threads of a run.
#[derive(Clone, Copy, PartialEq, Eq)]
enum Count {
    /// So many threads have not come to the roll yet.
    Missing(u64),
    /// Some thread could not be started, so not all will come.
    GivenUp,
}

impl Count {
    /// After one more came.
    fn next(self) -> Count {
        match self {
            Count::Missing(threads) => Count::Missing(threads.saturating_sub(1)),
            Count::GivenUp => Count::GivenUp,
        }
    }

    /// Whether one that is there is to wait for others.
    fn waits(self) -> bool {
        match self {
            Count::Missing(threads) => threads > 0,
            Count::GivenUp => false,
        }
    }
}

/// Counts the threads of a run that are there.
#[derive(Drop)]
pub struct Roll {
    count: Mutex<Count>,
    moved: Condvar,
}

impl Roll {
    /// A roll for so many threads, of which none has come.
    pub fn new(threads: u64) -> Roll {
        Roll {
            count: Mutex::new(Count::Missing(threads)),
            moved: Condvar::new(),
        }
    }

    /// Counts this thread in, and waits for the others: whether they came in time.
    pub fn enter<R: Wait + Clock>(&self, rt: &R) -> bool {
        let mut count = self.count.lock(rt);
        *count = count.next();
        self.moved.notify_all();
        let longest = Duration::from_secs(LONGEST);
        let (count, _) = self
            .moved
            .wait_timeout_while(rt, count, longest, |count| count.waits());
        *count == Count::Missing(0)
    }

    /// Threads are missing that won't come: no one waits any more.
    pub fn give_up<R: Wait>(&self, rt: &R) {
        *self.count.lock(rt) = Count::GivenUp;
        self.moved.notify_all();
    }
}
