//! The child programs of a machine.
ghost use Rattle.sl_outside.specs.Acts.{Grows, IsTold, Tells};
ghost use Rattle.sl_outside.specs.declared.act.Act.TheVariants.{Signalled, Started};
ghost use Rattle.sl_outside.specs.declared.act.Act.{Act};
ghost use Rattle.sl_io.specs.FaultCauses.{HasCause};
ghost use Rattle.std.specs.Prelude.{List, None, OnErr, OnOk, Option, is_ok, [], ℕ, ◌++◌, ◌∷◌, ◌≡◌, ◌≤◌};

use crate::started_child::StartedChild;
use sl_io::Failed;
use sl_trace::Signal;

/// Starts programs, keeps the children that were started, under process numbers of the caller's own, signals them, and tells which have exited.
///
/// A start may take any time, as where the program lies on storage that hangs. So it is made by a spawner of its own (`starter`), while no lock is
/// held, and the child that it gives is then taken in. No other call waits for anything, so all others may be made while a lock is held.
pub trait Spawner: Drop {
    /// How many of its calls have failed so far; it never falls.
    ghost faults: { Self → ℕ };

    /// The children that were taken in and are not yet told as exited, in that order.
    ghost running: { Self → List ℕ };

    /// What the spawner was asked to do so far, where it tells that. One over the outside tells nothing; one that tells stops where its
    /// room for it is used up, and never begins again.
    ghost acts: { Self → Option (List Act) } = { λ _. None };

    /// A spawner that starts programs for this one. It has no child, has counted no fault, and was asked for nothing.
    fn starter(&mut self) -> Self
        ensures fresh { faults result ≡ 0 }
        ensures idle { running result ≡ [] }
        ensures unasked { Tells (acts result) [] }
        ensures running { running self.new ≡ running self.old }
        ensures acts { acts self.new ≡ acts self.old }
        ensures count { faults self.new ≡ faults self.old };

    /// Starts the program at a path, with no argument, for the child of this process number. After a failure no program runs by it.
    fn start(&mut self, process: u32, path: &str) -> Result<StartedChild, Failed>
        ensures running { running self.new ≡ running self.old }
        ensures acts { Grows (acts self.old) (acts self.new) (Started process path.now (is_ok result) ∷ []) }
        ensures cause { HasCause (faults self.old) (faults self.new) result };

    /// Takes in a child that was started, under its process number. One that can't be taken in is killed.
    fn add(&mut self, process: u32, child: StartedChild) -> Result<(), Failed>
        ensures added { OnOk result (running self.new ≡ running self.old ++ process ∷ []) }
        ensures failed { OnErr result (running self.new ≡ running self.old) }
        ensures acts { acts self.new ≡ acts self.old }
        ensures cause { HasCause (faults self.old) (faults self.new) result };

    /// Sends a signal to a child. To a number by which no child runs it does nothing.
    fn signal(&mut self, process: u32, signal: Signal)
        ensures running { running self.new ≡ running self.old }
        ensures acts { Grows (acts self.old) (acts self.new) (Signalled process signal ∷ []) }
        ensures count { faults self.old ≤ faults self.new };

    /// A child that has exited and was not yet told, if this call finds one. It does not wait for one.
    fn poll(&mut self) -> Option<u32>
        ensures told { IsTold result (running self.old) (running self.new) }
        ensures acts { acts self.new ≡ acts self.old }
        ensures count { faults self.old ≤ faults self.new };
}
