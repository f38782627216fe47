//! The watchdog device of the system in a file, which a pipe or a plain file may stand in for.
ghost use Rattle.std.specs.Prelude.{IfSome, false, ◌≡◌};

use crate::system_devices::say;
use crate::watchdog::Watchdog;
use std::fs::{File, Files, OpenOptions};
use std::io::Write;

/// What the device is told where it is to rest.
const REST: [u8; 1] = *b"V";

/// A device that is open.
#[derive(Drop)]
pub struct SystemWatchdog {
    path: String,
    file: File,
    rested: bool,
}

impl SystemWatchdog {
    /// Opens the device at this path. Where that fails, whoever reads standard error is told why.
    pub(crate) fn open<R: Files<File = File> + Eprint>(
        rt: &R,
        path: String,
    ) -> Option<SystemWatchdog>
        ensures path { IfSome result (λ w. w.path ≡ path) }
        ensures rested { IfSome result (λ w. w.rested ≡ false) }
    {
        match OpenOptions::new().write(true).open(rt, path.as_str()) {
            Ok(file) => Some(SystemWatchdog {
                path,
                file,
                rested: false,
            }),
            Err(error) => {
                say(rt, path.as_str(), &error);
                None
            }
        }
    }

    /// Another handle of it, for the keepalives. Where none can be had, nobody keeps the device from firing.
    pub(crate) fn handle(&self) -> Option<File> {
        self.file.try_clone().ok()
    }
}

impl Watchdog for SystemWatchdog {
    ghost use Rattle.std.specs.Prelude.{string_bytes};

    ghost path = { λ w. string_bytes w.path };

    ghost rested = { λ w. w.rested };

    fn rest(&mut self) {
        self.rested = true;
        let _ = self.file.write(&REST);
    }
}
