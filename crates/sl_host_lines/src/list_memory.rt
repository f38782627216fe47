//! Memory for the lists that are told: it is taken before anything is decided, so that a decision can't fail.

ghost use Rattle.sl_host_lines.specs.ListMemory.{FitsLists, tells_list};
ghost use Rattle.std.specs.Prelude.{IfOk, IsOk, false, ◌≡◌};

use sl_area::Geometry;
use sl_trace::{Command, SessionOf, StateOf};
use std::alloc::{AllocError, Global};
use std::marker::Model;

/// Empty lists of states and sessions, with memory for some of each.
#[derive(Drop)]
pub struct Lists {
    pub(crate) states: Vec<StateOf>,
    pub(crate) sessions: Vec<SessionOf>,
}

impl Model for Lists {
    ghost use Rattle.sl_host_lines.specs.ListMemory.{ListsState};
    ghost use Rattle.std.specs.Prelude.{[], vec_capacity, ◌≡◌};

    ghost Value = { ListsState };

    ghost view = { λ l. record { states = vec_capacity l.states; sessions = vec_capacity l.sessions } };

    ghost invariant = { λ l. (l.states.items ≡ []) × (l.sessions.items ≡ []) };
}

impl Lists {
    /// Memory for the list that the command is answered by, of a host with areas of these sizes and no more than so many members; an `Err` is
    /// want of it. A command that is not answered by a list takes none.
    pub fn of(
        alloc: Global,
        geometry: &Geometry,
        seats: usize,
        command: &Command,
    ) -> Result<Lists, AllocError>
        ensures fit { IfOk result (λ l. FitsLists geometry.now seats command.now l) }
        ensures memory { tells_list command.now ≡ false → IsOk result }
    {
        let mut states = Vec::new(alloc);
        let mut sessions = Vec::new(alloc);
        match command {
            Command::HostStatus(_) => states.reserve(geometry.hosts() as usize)?,
            Command::Status => sessions.reserve(seats)?,
            _ => {}
        }
        Ok(Lists { states, sessions })
    }
}
