//! Who is in a story: its machines, as the lines so far tell of them.

use std::alloc::{AllocError, Global};
use std::collections::VecDeque;

/// How long a machine may go without a test that holds, in milliseconds.
pub(crate) const FIRE: u64 = 600;

/// A call in flight.
#[derive(Clone, Copy)]
pub(crate) struct Flight {
    pub(crate) number: u64,
    pub(crate) writes: bool,
}

/// A lease of resource `resource` that a process holds.
#[derive(Clone, Copy)]
pub(crate) struct Holding {
    pub(crate) process: u32,
    pub(crate) resource: u32,
    pub(crate) shared: bool,
}

/// A machine.
#[derive(Drop)]
pub(crate) struct Machine {
    pub(crate) up: bool,
    /// Whether a daemon runs.
    pub(crate) daemon: bool,
    /// Until when none of its calls is answered.
    pub(crate) away: u64,
    /// Until when it does nothing.
    pub(crate) hung: u64,
    /// When a test held last.
    pub(crate) tested: u64,
    pub(crate) flights: VecDeque<Flight>,
    pub(crate) holdings: Vec<Holding>,
    /// The id under which it last asked to join the hosts' own lockspace.
    pub(crate) id: u32,
    /// Whether it has a session there.
    pub(crate) joined: bool,
    /// Whether it has one in the volume group's lockspace.
    pub(crate) in_group: bool,
    /// Children whose start is under way.
    pub(crate) starts: VecDeque<u32>,
    /// Children that run.
    pub(crate) children: VecDeque<u32>,
}

/// The machines, at a moment.
#[derive(Drop)]
pub(crate) struct Cast {
    pub(crate) moment: u64,
    pub(crate) machines: Vec<Machine>,
    /// How many daemons had a new name.
    pub(crate) names: u64,
}

impl Machine {
    /// A machine on which a daemon runs that has joined under this id, at moment 0.
    fn new(alloc: Global, id: u32) -> Machine {
        Machine {
            up: true,
            daemon: true,
            away: 0,
            hung: 0,
            tested: 0,
            flights: VecDeque::new(alloc),
            holdings: Vec::new(alloc),
            id,
            joined: true,
            in_group: true,
            starts: VecDeque::new(alloc),
            children: VecDeque::new(alloc),
        }
    }

    /// Whether its calls are answered at a moment.
    pub(crate) fn answers(&self, moment: u64) -> bool {
        self.daemon && self.away <= moment && self.hung <= moment
    }

    /// Whether its daemon does anything at a moment.
    pub(crate) fn acts(&self, moment: u64) -> bool {
        self.daemon && self.hung <= moment
    }

    /// The daemon has ended: what it read is answered no more, and no child of it is known.
    pub(crate) fn end(&mut self) {
        self.daemon = false;
        self.joined = false;
        self.in_group = false;
        self.flights.retain(|flight| flight.writes);
        self.starts.clear();
    }

    /// The machine has gone down.
    pub(crate) fn fall(&mut self) {
        self.end();
        self.up = false;
        self.holdings.clear();
        self.children.clear();
    }
}

impl Cast {
    /// So many machines at moment 0.
    pub(crate) fn new(alloc: Global, machines: u32) -> Result<Cast, AllocError> {
        let mut cast = Cast {
            moment: 0,
            machines: Vec::new(alloc),
            names: 0,
        };
        for number in 0..machines {
            let machine = Machine::new(alloc, number.saturating_add(1));
            cast.machines.push(machine)?;
        }
        Ok(cast)
    }

    /// How many machines there are.
    pub(crate) fn count(&self) -> u32 {
        u32::try_from(self.machines.len()).unwrap_or(u32::MAX)
    }

    /// The machine of this number.
    pub(crate) fn machine(&self, number: u32) -> Option<&Machine> {
        let index = (number as usize).checked_sub(1)?;
        self.machines.get(index)
    }

    /// The machine of this number, to be changed.
    pub(crate) fn machine_mut(&mut self, number: u32) -> Option<&mut Machine> {
        let index = (number as usize).checked_sub(1)?;
        self.machines.get_mut(index)
    }
}
