//! The watchdog device of the system.
ghost use Rattle.std.specs.Prelude.{Bool, List, true, ℕ, ◌≡◌};

/// A watchdog device of the system, open: where it is given no byte in time it resets the computer, unless it was told to rest.
pub trait Watchdog: Drop {
    /// Where it is.
    ghost path: { Self → List ℕ };

    /// Whether it was told to rest.
    ghost rested: { Self → Bool };

    /// Tells it to rest. Where it can't be told so it fires.
    fn rest(&mut self)
        ensures path { path self.new ≡ path self.old }
        ensures rested { rested self.new ≡ true };
}
