//! The watchdog device of a machine.
//!
//! No device of the system is opened: where this one has lapsed, the machine's children are killed by the program itself.
ghost use Rattle.std.specs.Prelude.{nat_le, ℕ, ◌+◌, ◌≡◌};

/// A device that fires where no keepalive comes in time.
pub trait Device: Drop {
    /// The reading of the last keepalive's test, at first the one that the device was made with, in milliseconds.
    ghost last: { Self → ℕ };

    /// How long after it the device fires, in milliseconds.
    ghost fire: { Self → ℕ };

    /// Keeps the device from firing: the test at this reading held.
    fn keepalive(&mut self, tested_at: u64)
        ensures last { last self.new ≡ tested_at }
        ensures fire { fire self.new ≡ fire self.old };

    /// Whether the device has fired by this reading.
    fn lapsed(&mut self, now: u64) -> bool
        ensures exact { result ≡ nat_le (last self.old + fire self.old) now }
        ensures last { last self.new ≡ last self.old }
        ensures fire { fire self.new ≡ fire self.old };
}

/// The device of every machine, in memory as beside real children: two numbers.
#[derive(Drop)]
pub struct TimedDevice {
    last: u64,
    fire: u64,
}

impl TimedDevice {
    /// A device that fires so many milliseconds after this reading, if no keepalive comes.
    pub fn new(now: u64, fire: u64) -> TimedDevice
        ensures last { result.last ≡ now }
        ensures fire { result.fire ≡ fire }
    {
        TimedDevice { last: now, fire }
    }
}

impl Device for TimedDevice {
    ghost last = { λ d. d.last };

    ghost fire = { λ d. d.fire };

    fn keepalive(&mut self, tested_at: u64) {
        self.last = tested_at;
    }

    fn lapsed(&mut self, now: u64) -> bool {
        now >= self.last && now - self.last >= self.fire
    }
}
