//! The child programs of the system that a machine has.
//!
//! A want of memory, a program that can't be started and a signal that can't be sent are counted faults. What becomes of a child no clause says: that it runs, ends and is
//! signalled, and that it ends with this program, is tested.
ghost use Rattle.std.specs.Prelude.{IfSome, length, [], ◌<◌, ◌≡◌};

use crate::running_child::{Running, start};
use crate::spawner::Spawner;
use crate::started_child::StartedChild;
use sl_io::{Failed, FaultCount};
use sl_trace::Signal;
use std::alloc::Global;
use std::marker::Model;
use std::process::{Processes, SystemProcess};

/// The child programs of the system that a machine has, by the machine's own numbers.
#[derive(Drop)]
pub struct ChildSpawner<R> {
    rt: R,
    alloc: Global,
    children: Vec<Running>,
    faults: FaultCount,
}

impl<R> Model for ChildSpawner<R> {
    ghost use Rattle.sl_outside.specs.Acts.{Children};

    ghost Value = { Children };

    ghost view = { λ s. record { running = s.children.items; faults = s.faults } };
}

impl<R> ChildSpawner<R> {
    /// A spawner without a child, with its count of faults at 0.
    pub fn new(rt: R, alloc: Global) -> ChildSpawner<R>
        ensures { result ≡ record { running = []; faults = 0 } }
    {
        ChildSpawner {
            rt,
            alloc,
            children: Vec::new(alloc),
            faults: FaultCount::new(),
        }
    }

    /// How many of its calls have failed so far; it never falls.
    pub fn faults(&self) -> u64
        ensures { result ≡ self.now.faults }
    {
        self.faults.get()
    }

    /// Where the first child of this number stands.
    fn place_of(&self, process: u32) -> Option<usize>
        ensures { IfSome result (λ at. at < length self.now.running) }
    {
        self.children
            .iter()
            .position(|child| child.process() == process)
    }

    /// Whether the child at a place has exited.
    fn has_exited(&mut self, at: usize) -> bool
        requires { at < length self.old.running }
        ensures { self.new ≡ self.old }
    {
        self.children[at].has_exited()
    }

    /// Sends the child at a place a signal.
    fn send(&mut self, at: usize, signal: Signal) -> bool
        requires { at < length self.old.running }
        ensures { self.new ≡ self.old }
    {
        self.children[at].send(signal).is_ok()
    }

    /// Where the first child stands that has exited.
    fn exited_at(&mut self) -> Option<usize>
        ensures same { self.new ≡ self.old }
        ensures within { IfSome result (λ at. at < length self.new.running) }
    {
        for at in 0..self.children.len() {
            if self.has_exited(at) {
                return Some(at);
            }
        }
        None
    }
}

impl<R: Processes<Started = SystemProcess> + Copy + Drop> Spawner for ChildSpawner<R> {
    ghost faults = { λ s. s.faults };

    ghost running = { λ s. s.running };

    fn starter(&mut self) -> ChildSpawner<R> {
        ChildSpawner::new(self.rt, self.alloc)
    }

    fn start(&mut self, _process: u32, path: &str) -> Result<StartedChild, Failed> {
        match start(&self.rt, self.alloc, path) {
            Ok(program) => Ok(StartedChild::Program(program)),
            Err(_) => Err(self.faults.raise()),
        }
    }

    fn add(&mut self, process: u32, child: StartedChild) -> Result<(), Failed> {
        let StartedChild::Program(program) = child else {
            return Err(self.faults.raise());
        };
        let mut program = program;
        if self.children.reserve(1).is_err() {
            let _killed = program.kill();
            return Err(self.faults.raise());
        }
        self.children.push_reserved(Running::new(process, program));
        Ok(())
    }

    fn signal(&mut self, process: u32, signal: Signal) {
        if let Some(at) = self.place_of(process) {
            if !self.send(at, signal) {
                self.faults.raise();
            }
        }
    }

    fn poll(&mut self) -> Option<u32> {
        let at = self.exited_at()?;
        Some(self.children.remove(at).process())
    }
}
