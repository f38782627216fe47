//! The first reading of each machine.

ghost use Rattle.sl_live_run.specs.Clocks.{as_first, readings_from, with_readings};
ghost use Rattle.std.specs.Prelude.{IfOk, length, ◌≡◌};

use sl_outside::LiveDevices;
use sl_run::{FirstReading, Header};
use sl_text::Seq;
use sl_time::Clock;
use std::alloc::{AllocError, Global};
use std::collections::VecDeque;

/// The greatest first reading that a header may have. A clock of the system counts milliseconds from the program's start and takes 31
/// years to get there; a reading beyond it is cut, so that sessions count as renewed earlier than they were, and never later.
const LAST_FIRST: u64 = 999_999_999_999;

/// The thread of a machine whose clock gives its first reading.
pub const TICKS: u32 = 1;

/// The first clock of each machine, which was read once, and what was read.
#[derive(Drop)]
pub(crate) struct Started<C: Clock> {
    pub clocks: VecDeque<C>,
    pub readings: Vec<FirstReading>,
}

/// Reads a clock, as a header may have it.
pub fn read_once<C: Clock>(clock: &mut C) -> u64
    ensures { result ≡ as_first (C.last clock.new) }
{
    clock.now().min(LAST_FIRST)
}

/// Starts and reads a clock of each machine. An `Err` is want of memory.
pub(crate) fn start_clocks<V: LiveDevices>(
    alloc: Global,
    machines: u32,
    devices: &mut V,
) -> Result<Started<V::Clock>, AllocError>
    ensures readings { IfOk result (λ s. s.readings.items ≡ readings_from V.Clock.last 1 s.clocks.items) }
    ensures each { IfOk result (λ s. length s.clocks.items ≡ machines) }
    ensures lendings { V.Devices.lendings devices.new ≡ V.Devices.lendings devices.old }
    ensures count { V.Devices.faults devices.new ≡ V.Devices.faults devices.old }
{
    let mut clocks = VecDeque::new(alloc);
    let mut readings = Vec::new(alloc);
    for before in 0..machines {
        let machine = before + 1;
        let mut clock = devices.clock(machine, TICKS);
        let reading = read_once(&mut clock);
        readings.push(FirstReading { machine, reading })?;
        clocks.push_back(clock)?;
    }
    Ok(Started { clocks, readings })
}

/// The header with these readings in place of its own.
pub fn with_readings(header: Header, readings: Vec<FirstReading>) -> Header
    ensures { result ≡ with_readings readings.items header }
{
    let mut header = header;
    header.clocks = Seq::new(readings);
    header
}
