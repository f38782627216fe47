//! The world of a header at moment 0.

ghost use Rattle.sl_world_state.specs.Daemons.{program_of};
ghost use Rattle.sl_world_state.specs.SaneWorlds.{ReadsCommands, WorldStands};
ghost use Rattle.sl_machine.specs.KeptParts.{kept_state};
ghost use Rattle.sl_run.specs.Headers.{IsHeader};
ghost use Rattle.sl_run.specs.Worlds.{world_with};
ghost use Rattle.std.specs.Prelude.{IfOk};

use crate::hosts::Hosts;
use crate::world::World;
use sl_machine::{Kept, LockTable};
use sl_run::Header;
use sl_world_state::Daemon;
use std::alloc::{AllocError, Global};

impl<D: Daemon, L: LockTable> World<D, L> {
    /// The world of a header at moment 0, with the daemons of its session lines. An `Err` is want of memory.
    pub fn new(alloc: Global, header: Header) -> Result<World<D, L>, AllocError>
        requires { IsHeader header × ReadsCommands D.commands header }
        ensures { IfOk result (λ x. WorldStands D.commands D.stands (kept_state L.locks x.kept) x.hosts (world_with (program_of D.commands) header)) }
    {
        let hosts = Hosts::begin(alloc, &header)?;
        let kept = Kept::new(alloc, header)?;
        Ok(World { kept, hosts })
    }
}
