//! The kill programs of a host's processes.

ghost use Rattle.indexmap.specs.IndexMap.{spare};
ghost use Rattle.sl_trace.specs.KillPrograms.{with_program, without_program};
ghost use Rattle.std.specs.Prelude.{OnErr, OnOk, Some, filter, find, length, max, nat_eq, not, option_map, [], ◌-◌, ◌<◌, ◌==◌, ◌≡◌, ◌≤◌};

use indexmap::IndexMap;
use sl_text::FilePath;
use std::alloc::{AllocError, Global};
use std::marker::Model;

/// Takes a process out.
#[tactic(auto, using(crate::proofs::SlotsStand::none_left_out))]
fn forget(programs: &mut IndexMap<u32, FilePath>, process: u32)
    ensures entries { programs.new.entries ≡ filter (λ p. not (nat_eq process p.0)) programs.old.entries }
    ensures room { spare programs.old ≤ spare programs.new }
{
    if programs.get(&process).is_some() {
        programs.retain(
            |number: &u32, _program: &mut FilePath| -> bool
                ensures { (result ≡ not (nat_eq process number.now)) × (_program.new ≡ _program.old) }
            { *number != process },
        );
    }
}

/// Of each process that has one its kill program, with memory for some more.
#[derive(Drop)]
pub struct Programs {
    programs: IndexMap<u32, FilePath>,
    room: usize,
}

impl Model for Programs {
    ghost use Rattle.indexmap.specs.IndexMap.{spare};
    ghost use Rattle.sl_tables.specs.KillPrograms.{AreApart, ProgramsState, programs_of};
    ghost use Rattle.std.specs.Prelude.{◌≤◌};

    ghost Value = { ProgramsState };

    ghost view = { λ p. record { programs = programs_of p.programs.entries; room = p.room } };

    ghost invariant = { λ p. AreApart p.programs.entries × (p.room ≤ spare p.programs) };
}

impl Programs {
    /// An empty table, without room. It takes no memory.
    pub fn new(alloc: Global) -> Programs
        ensures { result ≡ record { programs = []; room = 0 } }
    {
        Programs {
            programs: IndexMap::new(alloc),
            room: 0,
        }
    }

    /// Sees that there is memory for so many more. An `Err` is want of memory, and changes nothing.
    pub fn reserve(&mut self, room: usize) -> Result<(), AllocError>
        ensures ok { OnOk result (self.new ≡ record self.old { room = max self.old.room room }) }
        ensures err { OnErr result (self.new ≡ self.old) }
    {
        if self.room < room {
            self.programs.reserve(room)?;
            self.room = room;
        }
        Ok(())
    }

    /// How many processes have one.
    pub fn len(&self) -> usize
        ensures { result ≡ length self.now.programs }
    {
        self.programs.len()
    }

    /// The program that is started in place of a term to this process, if one was set.
    pub fn get(&self, process: u32) -> Option<&FilePath>
        ensures { option_map (λ p. p.now) result ≡ option_map (λ k. k.program) (find (λ k. k.process == process) self.now.programs) }
    {
        self.programs.get(&process)
    }

    /// The process has this kill program from here on.
    pub fn set(&mut self, process: u32, program: FilePath)
        requires { 0 < self.old.room }
        ensures { self.new ≡ record { programs = with_program (Some (record { process = process; program = program })) self.old.programs; room = self.old.room - 1 } }
    {
        forget(&mut self.programs, process);
        match self.programs.insert(process, program) {
            Ok(_) => self.room -= 1,
            Err(_) => unreachable!(),
        }
    }

    /// The process's kill program goes, if it has one.
    pub fn remove(&mut self, process: u32)
        ensures { self.new ≡ record self.old { programs = without_program (Some process) self.old.programs } }
    {
        forget(&mut self.programs, process);
    }
}
