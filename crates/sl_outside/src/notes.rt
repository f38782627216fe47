//! What devices in memory handed out and what came back, for as long as there is memory to note it.
ghost use Rattle.sl_outside.specs.Acts.{Grows};
ghost use Rattle.sl_outside.specs.Lendings.{AreaOut};
ghost use Rattle.sl_outside.specs.Notes.{lending_of};
ghost use Rattle.std.specs.Prelude.{IfSome, None, Some, [], ◌++◌, ◌∷◌, ◌≡◌};

use crate::act::Act;
use sl_text::FilePath;
use sl_words::Room;
use std::alloc::Global;
use std::marker::Model;

/// What was handed out, or came back: areas, which tell nothing of what they have, and spawners.
#[derive(Drop)]
pub enum Note {
    AreaOut {
        machine: u32,
        worker: u32,
        path: FilePath,
    },
    AreaBack {
        faults: u64,
    },
    SpawnerOut {
        machine: u32,
    },
    SpawnerBack {
        acts: Option<Room<Act>>,
    },
}

/// The notes, the first first; none any longer where memory lacked for one.
#[derive(Drop)]
pub(crate) struct Notes {
    all: Option<Vec<Note>>,
}

impl Model for Notes {
    ghost use Rattle.sl_outside.specs.Lendings.{Lending};
    ghost use Rattle.sl_outside.specs.Notes.{lendings_of};
    ghost use Rattle.std.specs.Prelude.{List, Option};

    ghost Value = { Option (List Lending) };

    ghost view = { λ n. lendings_of n.all };
}

/// The notes with one more, if memory lasts.
fn with(notes: Vec<Note>, note: Note) -> Option<Vec<Note>>
    ensures { IfSome result (λ more. more.items ≡ notes.items ++ note ∷ []) }
{
    let mut notes = notes;
    match notes.push(note) {
        Ok(()) => Some(notes),
        Err(_) => None,
    }
}

impl Notes {
    /// No note yet. It takes no memory.
    pub(crate) fn new(alloc: Global) -> Notes
        ensures { result ≡ Some [] }
    {
        Notes {
            all: Some(Vec::new(alloc)),
        }
    }

    /// One note more.
    pub(crate) fn add(&mut self, note: Note)
        ensures { Grows self.old self.new (lending_of note ∷ []) }
    {
        self.all = match self.all.take() {
            Some(notes) => with(notes, note),
            None => None,
        };
    }

    /// The disk at this path went to this worker. What is no path of a disk can't be noted.
    pub(crate) fn add_area(&mut self, machine: u32, worker: u32, path: &str)
        ensures { Grows self.old self.new (AreaOut machine worker path.now None ∷ []) }
    {
        match FilePath::new(path.as_bytes()) {
            Some(path) => self.add(Note::AreaOut {
                machine,
                worker,
                path,
            }),
            None => self.all = None,
        }
    }
}
