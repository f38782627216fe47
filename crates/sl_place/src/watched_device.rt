//! The watchdog device of a machine, beside one of the system.
//!
//! The program's own device kills the machine's children where no keepalive came in time. One of the system beside it does what this program can't do
//! any more once it hangs or was stopped: it is given a byte where a keepalive passes, and never else, and resets the computer where none comes.
ghost use Rattle.std.specs.Prelude.{◌≡◌};

use sl_outside::Device;
use std::fs::File;
use std::io::Write;

/// What a keepalive is for the system's device: any byte but the one by which it is told that it is to rest.
const KEEPALIVE: [u8; 1] = [0];

/// Two numbers, and the system's device, if there is one.
#[derive(Drop)]
pub struct WatchedDevice {
    last: u64,
    fire: u64,
    watchdog: Option<File>,
}

impl WatchedDevice {
    /// A device that fires so many milliseconds after this reading, if no keepalive comes; each is handed on to this one of the system.
    pub fn new(now: u64, fire: u64, watchdog: Option<File>) -> WatchedDevice
        ensures last { result.last ≡ now }
        ensures fire { result.fire ≡ fire }
    {
        WatchedDevice {
            last: now,
            fire,
            watchdog,
        }
    }

    /// Hands a keepalive on. One that can't be written is none: then the system's device fires.
    fn hand_on(&mut self)
        ensures last { self.new.last ≡ self.old.last }
        ensures fire { self.new.fire ≡ self.old.fire }
    {
        if let Some(file) = &mut self.watchdog {
            let _ = file.write(&KEEPALIVE);
        }
    }
}

impl Device for WatchedDevice {
    ghost last = { λ d. d.last };

    ghost fire = { λ d. d.fire };

    fn keepalive(&mut self, tested_at: u64) {
        self.last = tested_at;
        self.hand_on();
    }

    fn lapsed(&mut self, now: u64) -> bool {
        now >= self.last && now - self.last >= self.fire
    }
}
